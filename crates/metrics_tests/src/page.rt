//! The page as a whole, with ample memory.

use edge_metrics::{History, Sample, page_of};
use std::process::Abort;
use std::str;
use std::test::Fail;

const HEAD: &str = "<!DOCTYPE html>
<html lang=\"en\">
<meta charset=\"utf-8\">
<meta http-equiv=\"refresh\" content=\"10\">
<title>esi_edge: the last ten minutes</title>
<style>:root{color-scheme:light dark;font-family:sans-serif}rect{fill:#38d}svg{width:100%;max-width:40em;border-bottom:1px solid}</style>
<h1>The last ten minutes</h1>
<p>A bar for each ten seconds, the newest at the right.</p>
";

const CHARTS: &str = "<h2>Requests</h2>
<p>At most 200 in ten seconds</p>
<svg viewBox=\"0 0 600 100\" aria-hidden=\"true\">
<rect x=\"580\" y=\"0\" width=\"9\" height=\"100\"/>
<rect x=\"590\" y=\"75\" width=\"9\" height=\"25\"/>
</svg>
<h2>Hits of the cache</h2>
<p>At most 0 in ten seconds</p>
<svg viewBox=\"0 0 600 100\" aria-hidden=\"true\">
<rect x=\"580\" y=\"100\" width=\"9\" height=\"0\"/>
<rect x=\"590\" y=\"100\" width=\"9\" height=\"0\"/>
</svg>
<h2>Slowest request</h2>
<p>At most 18446744073709551615 microseconds</p>
<svg viewBox=\"0 0 600 100\" aria-hidden=\"true\">
<rect x=\"580\" y=\"51\" width=\"9\" height=\"49\"/>
<rect x=\"590\" y=\"0\" width=\"9\" height=\"100\"/>
</svg>
</html>
";

#[test]
fn the_highest_bar_is_that_of_the_largest_number(rt: HostRuntime) {
    let mut history = History::new(rt.alloc());
    let samples = [
        Sample {
            requests: 200,
            hits: 0,
            slowest: u64::MAX / 2,
        },
        Sample {
            requests: 50,
            hits: 0,
            slowest: u64::MAX,
        },
    ];
    for sample in samples {
        history.note(sample).expect(&rt, "memory");
    }
    let page = page_of(rt.alloc(), &history).expect(&rt, "memory");
    let page = str::from_utf8(page.as_slice()).expect(&rt, "UTF-8");
    let wanted = format!(in rt.alloc(); "{HEAD}{CHARTS}").expect(&rt, "memory");
    assert_eq!(rt; page, wanted.as_str());
}

#[test]
fn the_oldest_sample_goes(rt: HostRuntime) {
    let mut history = History::new(rt.alloc());
    for requests in 0..62_u64 {
        let sample = Sample {
            requests,
            hits: 0,
            slowest: 0,
        };
        history.note(sample).expect(&rt, "memory");
    }
    let samples = history.samples();
    let ends = (
        samples.first().map(|sample| sample.requests),
        samples.last().map(|sample| sample.requests),
    );
    assert_eq!(rt; samples.len(), 60);
    assert_eq!(rt; ends, (Some(2), Some(61)));
}
