//! Whether a file and standard error can be read and written without a wait.

use libc::net::{POLLIN, POLLOUT, poll};
use libc::types::pollfd;
use std::fs::File;
use std::os::fd::AsRawFd;

const STANDARD_ERROR: i32 = 2;

/// Whether a file has something to read, or has ended.
pub(crate) fn is_readable(file: &File) -> bool {
    is_ready(file.as_raw_fd(), POLLIN, 0)
}

/// Whether standard error takes bytes, or is gone, within this many milliseconds.
pub(crate) fn is_writable(patience: i32) -> bool {
    is_ready(STANDARD_ERROR, POLLOUT, patience)
}

fn is_ready(file: i32, events: i16, patience: i32) -> bool {
    let mut watched = [pollfd {
        fd: file,
        events,
        revents: 0,
    }];
    poll(&mut watched, patience) > 0
}
