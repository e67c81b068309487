//! Pages that are for one reader alone.

ghost use Rattle.std.specs.Prelude.{◌≡◌, IfOk, OnOk};
ghost use Rattle.std.specs.Arc.{arc_value};
ghost use Rattle.std.specs.List.{list_any};
ghost use Rattle.http_header.specs.HeaderMap.{remove};
ghost use Rattle.page_http.specs.Sent.{sent};
ghost use Rattle.page_readers.specs.Privacy as spec;

use answer_sources::Answers;
use edge_types::Answer;
use http::header::{CACHE_CONTROL, EXPIRES, HeaderName, HeaderValue};
use http::{HeaderMap, Response};
use page_http::EdgeBody;
use std::alloc::AllocError;
use std::sync::Arc;

/// What is sent of a response that rests on these answers: it is for its reader alone, and says so, where one of them is of a
/// private URL.
pub fn for_its_reader<R, S: Answers<R>>(
    source: &S,
    answers: &[Arc<Answer>],
    response: Response<EdgeBody>,
) -> Result<Response<EdgeBody>, AllocError>
    ensures { IfOk result (λ kept. sent kept ≡ spec.sent_of (list_any (λ answer. spec.is_of_private (S.private source.now) (arc_value answer)) answers.now) (sent response)) }
{
    let mut response = response;
    if rests_on_private::<R, S>(source, answers) {
        keep_to_reader(&mut response)?;
    }
    Ok(response)
}

// Whether one of these answers is of a private URL.
fn rests_on_private<R, S: Answers<R>>(source: &S, answers: &[Arc<Answer>]) -> bool
    ensures { result ≡ list_any (λ answer. spec.is_of_private (S.private source.now) (arc_value answer)) answers.now }
{
    answers.iter().any(|answer| source.is_private(answer.url()))
}

// Says of a response that no cache may give it to anybody else, or to its reader again, whatever it said of that.
//
// Source: RFC 9111, "Response Cache-Control Directives": "private", "no-cache".
fn keep_to_reader(response: &mut Response<EdgeBody>) -> Result<(), AllocError>
    ensures { OnOk result (sent response.new ≡ spec.kept_to_reader (sent response.old)) }
{
    let fields = response.headers_mut();
    leave_out_others(fields);
    match fields.insert(CACHE_CONTROL, HeaderValue::from_static("private, no-cache")) {
        Ok(_) => Ok(()),
        Err(_) => Err(AllocError),
    }
}

// Leaves out the fields that some caches heed before `cache-control`.
//
// Source: RFC 9111, "Expires"; RFC 9213, "The CDN-Cache-Control Header Field"; nginx, "X-Accel-Expires".
fn leave_out_others(fields: &mut HeaderMap<HeaderValue>)
    ensures { fields.new ≡ spec.without_others fields.old }
{
    leave_out(fields, EXPIRES);
    leave_out(fields, HeaderName::from_static("cdn-cache-control"));
    leave_out(fields, HeaderName::from_static("x-accel-expires"));
}

fn leave_out(fields: &mut HeaderMap<HeaderValue>, name: HeaderName)
    ensures { fields.new ≡ remove fields.old name }
{
    fields.remove(name);
}
