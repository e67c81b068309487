//! What answers the requests of connections.

use access_log::Reason;
use answer_sources::{Awaited, WayCounts};
use edge_connections::ClientWatch;
use edge_types::{Answer, NoMemory};
use http::{Request, Response};
use page_http::EdgeBody;
use std::alloc::Global;
use std::hash::RandomState;
use std::net::IpAddr;
use std::os::fd::RawFd;
use std::sync::Arc;
use std::time::Duration;

/// A response, the answers that it rests on, a page's own first, none for a refusal, and by which ways they came; why it
/// isn't a page as it should be, if it isn't; and the answer of the leg at which an include failed the page, if one did and
/// the leg asked for an answer.
#[derive(Drop)]
pub struct Responded {
    pub response: Response<EdgeBody>,
    pub log: Vec<Arc<Answer>>,
    pub ways: WayCounts,
    pub reason: Option<Reason>,
    pub failed_leg: Option<Arc<Answer>>,
}

/// What is done for a request at first: `Ok` has the response that is there at once, `Err` the page that is to be gone on
/// with, for which nothing is fetched yet.
pub type Begun<P> = Result<Responded, P>;

/// The response to a page that has ended, and those of its fetches for which others wait.
#[derive(Drop)]
pub struct Told<O> {
    pub responded: Responded,
    pub owed: Option<O>,
}

/// What a page has come to, or the page that is to be gone on with.
pub type Gone<P, O> = Result<Told<O>, P>;

/// What answers requests, by pages that wait for what is fetched for them, and hold no thread meanwhile. What begins a page,
/// or has a response at once, is passed to a server beside it, since it may start threads: a closure may, and no method of
/// a trait.
///
/// Our profile.
pub trait PageService<R> {
    /// A page that is being assembled, by one thread at a time, not always the same one. One that is dropped gives up its
    /// fetches.
    type Page: Send + Drop;

    /// Fetches of a page that has ended, for which others wait. They are given up where this is dropped.
    type Owed: Send + Drop;

    /// What responses are allocated by.
    fn alloc(&self) -> Global;

    /// The hash keys of the maps of fields.
    fn keys(&self) -> RandomState;

    /// What is looked at of a client with this socket while a page is made for it.
    fn watch(&self, socket: Option<RawFd>) -> Option<ClientWatch>;

    /// The client of a request over a connection from this peer.
    fn client_of(&self, head: &Request<()>, peer: Option<IpAddr>) -> Option<IpAddr>;

    /// Goes on with the page that this request has asked for, as far as it gets without waiting.
    ///
    /// `NoMemory` if there is none for a refusal; then the page's fetches are given up.
    fn go_on(
        &self,
        page: Self::Page,
        head: &Request<()>,
    ) -> Result<Gone<Self::Page, Self::Owed>, NoMemory>;

    /// What a page waits for; `None` where only `wait` tells.
    fn awaited(&self, page: &mut Self::Page) -> Option<Awaited>;

    /// Waits until a page may be gone on with, or for `most`, where there is one.
    fn wait(&self, page: &mut Self::Page, most: Option<Duration>);

    /// Goes on with fetches that are owed as far as they get without waiting. They come back if somebody still waits for
    /// them.
    fn go_on_with_owed(&self, owed: Self::Owed) -> Option<Self::Owed>;

    /// What fetches that are owed wait for; `None` where only `wait_for_owed` tells.
    fn awaited_of_owed(&self, owed: &mut Self::Owed) -> Option<Awaited>;

    /// Waits until fetches that are owed may be gone on with.
    fn wait_for_owed(&self, owed: &mut Self::Owed);
}
