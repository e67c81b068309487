//! What an origin asks of the edge for one answer.

/// The directives of one `Surrogate-Control` header that count for this edge.
///
/// The default asks nothing.
///
/// Source: Edge Architecture Specification 1.0, "Surrogate-Control Header".
#[derive(Clone, Copy, Debug, Default, Drop, PartialEq, Eq)]
pub struct Control {
    /// The answer is not to be stored.
    pub no_store: bool,
    /// For how many seconds the answer is fresh; `None` if nothing says so.
    pub max_age: Option<u32>,
    /// For how many seconds past `max_age` the answer may bridge a failing origin.
    pub extension: u32,
    /// The body is an ESI template, to be processed.
    pub esi: bool,
    /// So is the body of a page whose status is no success. No header asks this: whoever runs the edge does.
    pub errors: bool,
}
