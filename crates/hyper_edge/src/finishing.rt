//! What is sent of a response at last.

ghost use Rattle.std.specs.Prelude.{◌≡◌, codes, IfOk};
ghost use Rattle.std.specs.Arc.{arc_value};
ghost use Rattle.std.specs.List.{list_any};
ghost use Rattle.http_header.specs.HeaderMap.{get_all};
ghost use Rattle.page_http.specs.Sent.{sent};
ghost use Rattle.page_readers.specs.Privacy.{is_of_private, sent_of};
ghost use Rattle.page_readers.specs.Validators.{finished};

use crate::service::EdgeService;
use access_log::Reason;
use answer_sources::Answers;
use edge_server::Responded;
use edge_types::NoMemory;
use http::header::HeaderValue;
use http::{HeaderMap, Response};
use page_http::EdgeBody;
use page_readers::{for_its_reader, validated};

impl<S, R> EdgeService<S, R> {
    /// What is sent of a response to a request with these fields: it says so if it is for its reader alone, and is a page
    /// with its tag, or what is sent in its place, where pages have some.
    ///
    /// `NoMemory` if an allocation fails.
    pub(crate) fn finished(
        &self,
        fields: &HeaderMap<HeaderValue>,
        responded: Responded,
    ) -> Result<Responded, NoMemory>
    where
        S: Answers<R>,
        ensures response { IfOk result (λ last. sent last.response ≡ finished self.now.gives_tags responded.reason
            (get_all fields.now (codes "if-none-match")) (sent_of (list_any (λ answer. is_of_private (S.private (arc_value self.now.source)) (arc_value answer)) responded.log.items) (sent responded.response))) }
        ensures others { IfOk result (λ last. last ≡ record responded { response = last.response }) }
    {
        let Responded {
            response,
            log,
            ways,
            reason,
            failed_leg,
        } = responded;
        let response = for_its_reader::<R, S>(self.source(), log.as_slice(), response)?;
        let response = self.validated(fields, reason, response)?;
        Ok(Responded {
            response,
            log,
            ways,
            reason,
            failed_leg,
        })
    }

    // A page with its tag, or what is sent in its place, where pages have some.
    fn validated(
        &self,
        fields: &HeaderMap<HeaderValue>,
        reason: Option<Reason>,
        response: Response<EdgeBody>,
    ) -> Result<Response<EdgeBody>, NoMemory>
        ensures { IfOk result (λ last. sent last ≡ finished self.now.gives_tags reason
            (get_all fields.now (codes "if-none-match")) (sent response)) }
    {
        if self.gives_tags() {
            validated(self.alloc(), fields, reason, response)
        } else {
            Ok(response)
        }
    }
}
