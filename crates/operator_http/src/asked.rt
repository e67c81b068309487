//! What an operator asks for.

ghost use Rattle.std.specs.Prelude.{◌≡◌};
ghost use Rattle.operator_http.specs.Operator as spec;

/// What a request asks of a server, by its method and its path.
#[derive(Clone, Copy, Debug, Drop, PartialEq, Eq)]
pub enum Asked {
    /// A page that shows what it does.
    Page,
    /// Whether the server answers at all.
    Health,
    /// What it has counted.
    Metrics,
    /// That the server stops: it accepts nobody more, and ends what is under way. How long that may take, the query says.
    Stop,
    /// That answers which the server keeps go: which ones, its query says.
    Purge,
    /// Nothing: no path of these.
    OtherPath,
    /// Nothing: the path is one that is read, and the method none that reads.
    NotRead,
    /// Nothing: the path is one that does something, and the method isn't POST.
    NotPosted,
    /// Nothing: the request isn't the operator's own.
    Foreign,
}

/// What a request with this method and this path asks for: `/`, `/health` and `/metrics` are read by GET and HEAD, POST
/// to `/stop` stops the server, and POST to `/purge` lets go of answers.
///
/// Source: RFC 9110, "Methods"; the paths are our profile.
pub fn asked_by(method: &[u8], path: &[u8]) -> Asked
    ensures { result ≡ spec.asked_by method.now path.now }
{
    if path == b"/".as_slice() {
        if_read(method, Asked::Page)
    } else if path == b"/health".as_slice() {
        if_read(method, Asked::Health)
    } else if path == b"/metrics".as_slice() {
        if_read(method, Asked::Metrics)
    } else if path == b"/stop".as_slice() {
        if_posted(method, Asked::Stop)
    } else if path == b"/purge".as_slice() {
        if_posted(method, Asked::Purge)
    } else {
        Asked::OtherPath
    }
}

// What is asked for by a method that reads.
fn if_read(method: &[u8], asked: Asked) -> Asked
    ensures { result ≡ spec.if_read method.now asked }
{
    if method == b"GET".as_slice() || method == b"HEAD".as_slice() {
        asked
    } else {
        Asked::NotRead
    }
}

// What is asked for by POST.
fn if_posted(method: &[u8], asked: Asked) -> Asked
    ensures { result ≡ spec.if_posted method.now asked }
{
    if method == b"POST".as_slice() {
        asked
    } else {
        Asked::NotPosted
    }
}
