//! The formats of a log.

/// How a line of the log is written.
#[derive(Clone, Copy, Debug, Drop, PartialEq, Eq)]
pub enum LogFormat {
    /// Fields with spaces between them.
    ///
    /// Our profile.
    Line,
    /// The Combined Log Format of Apache and nginx.
    Combined,
    /// A JSON object.
    ///
    /// Source: RFC 8259.
    Json,
}
