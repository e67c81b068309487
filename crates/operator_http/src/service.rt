//! What answers an operator's requests.

ghost use Rattle.std.specs.Prelude.{◌≡◌, IfOk, IfSome};
ghost use Rattle.std.specs.Arc.{arc_value};
ghost use Rattle.http.specs.Request as http;
ghost use Rattle.http_uri.specs.Uri.{uri_path, uri_query};
ghost use Rattle.operator_http.specs.Foreign.{Replies, names_of};
ghost use Rattle.operator_http.specs.Operator as spec;
ghost use Rattle.operator_http.specs.Purged.{query_or_empty};
ghost use Rattle.operator_http.specs.declared.asked.Asked.TheVariants as asked_for;

use crate::asked::{Asked, asked_by};
use crate::foreign::is_own;
use crate::grace::grace_of;
use crate::hosts::HostNames;
use crate::operated::Operated;
use crate::purge::purge_of;
use crate::response::response_of;
use crate::stop::StopState;
use crate::told::Told;
use bytes::Bytes;
use futures::future;
use futures::future::Ready;
use http::header::HeaderValue;
use http::{HeaderMap, Request, Response, Uri};
use http_body_util::Full;
use hyper::body::Incoming;
use hyper::service::Service;
use std::alloc::{AllocError, AllocGlobal};
use std::sync::{Arc, Wait};
use std::time::Clock;

/// Does what an operator asks of this server, and notes that it is to stop.
#[derive(Drop)]
pub(crate) struct OperatorService<R, M> {
    pub rt: R,
    pub operated: Arc<M>,
    pub stop: Arc<StopState>,
    /// By which names the operator may ask.
    pub names: Arc<HostNames>,
}

impl<R: Wait + Clock + AllocGlobal, M: Operated<R>> OperatorService<R, M> {
    // Does what a request with these fields asks for, if it is the operator's own, and makes the response.
    fn reply(
        &self,
        fields: &HeaderMap<HeaderValue>,
        method: &[u8],
        path: &[u8],
        query: &[u8],
    ) -> Result<Response<Full<Bytes>>, AllocError>
        ensures { IfOk result (Replies (names_of (arc_value self.now.names)) fields.now method.now path.now query.now) }
    {
        if is_own(&self.names, fields) {
            self.answer(asked_by(method, path), query)
        } else {
            self.answer(Asked::Foreign, query)
        }
    }

    // Does what is asked for, and makes the response.
    fn answer(&self, asked: Asked, query: &[u8]) -> Result<Response<Full<Bytes>>, AllocError>
        ensures { IfOk result (spec.Answers asked query.now) }
    {
        let told = self.done(asked, query)?;
        response_of(self.rt.alloc(), told)
    }

    // Does what is asked for, and says what is told.
    fn done(&self, asked: Asked, query: &[u8]) -> Result<Told, AllocError>
        ensures { IfOk result (spec.Fits asked query.now) }
    {
        match asked {
            Asked::Page => {
                let page = self.operated.page(&self.rt)?;
                Ok(Told::Page(Bytes::from_vec(page)?))
            }
            Asked::Health => Ok(Told::Health(self.operated.health(&self.rt))),
            Asked::Metrics => {
                let metrics = self.operated.metrics(&self.rt)?;
                Ok(Told::Metrics(Bytes::from_vec(metrics)?))
            }
            Asked::Stop => Ok(self.stopped(query)),
            Asked::Purge => self.purged(query),
            Asked::OtherPath => Ok(Told::OtherPath),
            Asked::NotRead => Ok(Told::NotRead),
            Asked::NotPosted => Ok(Told::NotPosted),
            Asked::Foreign => Ok(Told::Foreign),
        }
    }

    // Notes that the server is to stop, and until when by a query.
    fn stopped(&self, query: &[u8]) -> Told
        ensures { spec.Fits asked_for.Stop query.now result }
    {
        match grace_of(query) {
            Some(grace) => {
                self.stop.ask(&self.rt, grace);
                Told::Stopping
            }
            None => Told::NoGrace,
        }
    }

    // Lets go of the answers that a query wants to go.
    fn purged(&self, query: &[u8]) -> Result<Told, AllocError>
        ensures { IfOk result (spec.Fits asked_for.Purge query.now) }
    {
        match purge_of(self.rt.alloc(), query) {
            Ok(Some(purge)) => match self.operated.purge(&self.rt, &purge) {
                Ok(count) => Ok(Told::Purged(count)),
                Err(_) => Err(AllocError),
            },
            Ok(None) => Ok(Told::NoPurge),
            Err(_) => Err(AllocError),
        }
    }
}

// The query of a target, empty where it has none.
fn query_in(target: &Uri) -> &[u8]
    ensures { result.now ≡ query_or_empty (uri_query target.now) }
{
    match target.query() {
        Some(query) => query.as_bytes(),
        None => b"".as_slice(),
    }
}

impl<I, R, M> Service<Request<Incoming<I>>> for OperatorService<R, M>
where
    I: Drop,
    R: Wait + Clock + AllocGlobal + Drop,
    M: Operated<R> + Drop,
{
    type Response = Response<Full<Bytes>>;

    type Error = AllocError;

    type Future = Ready<Result<Response<Full<Bytes>>, AllocError>>;

    ghost calls = { λ service request future. IfSome future.0 (λ given. IfOk given
        (let head = http.head_of request in Replies (names_of (arc_value service.names)) head.headers head.method (uri_path head.uri) (query_or_empty (uri_query head.uri)))) };

    // Nobody reads a body.
    fn call(&self, request: Request<Incoming<I>>) -> Self::Future {
        let target = request.uri();
        future::ready(self.reply(
            request.headers(),
            request.method().as_str().as_bytes(),
            target.path().as_bytes(),
            query_in(target),
        ))
    }
}
