//! How responses are read.

use crate::body_limits::BodyLimits;

/// What counts in a response, beside the status and the type that its head says.
#[derive(Clone, Copy)]
pub struct HeadRules<'a> {
    /// The device for which `Surrogate-Control` is read.
    pub device: &'a [u8],
    /// The fields that a page's reader gets: their names, with commas between.
    pub passed: &'a [u8],
    /// Whether the response is for one request alone, so that it may set cookies.
    pub is_private: bool,
    /// Whether `Cache-Control` counts where `Surrogate-Control` doesn't say for how long the answer is fresh.
    pub heeds_cache_control: bool,
    /// Whether the body of an error may be a template.
    pub processes_errors: bool,
    /// How long its body may be.
    pub limits: BodyLimits,
}
