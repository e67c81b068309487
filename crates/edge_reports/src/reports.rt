//! What the threads that serve report, and what a server does for its operator.

ghost use Rattle.std.specs.Prelude.{◌≡◌};
ghost use Rattle.edge_reports.specs.Endings as spec;

use crate::connections::Connections;
use crate::kept::Kept;
use crate::measures::Measures;
use crate::requests_log::AccessLog;
use edge_connections::ServeEnd;
use edge_metrics::{Counts, Measured, text_of};
use edge_server::{Journal, RequestRecord};
use edge_types::{NoMemory, PageUrl};
use fetch_outcomes::FetchFault;
use operator_http::{Health, Operated, Purge};
use origins::FetchNotes;
use std::alloc::{AllocError, AllocGlobal};
use std::io::Eprint;
use std::sync::{Arc, Wait};
use std::time::Clock;

/// Where each request is reported: in the log, and in what is measured for the operator, where there is one; and what the
/// operator asks for.
pub struct Reports {
    /// The log of requests.
    pub log: AccessLog,
    /// The connections of clients.
    pub connections: Connections,
    /// How fetches from origins have ended.
    pub fetches: Arc<FetchNotes>,
    /// The cache that pages are assembled from.
    pub cache: Arc<Kept>,
    /// What is measured, where there is an operator.
    pub measures: Option<Measures>,
}

// By hand, so that who drops it needs no proof of what it is made of.
impl Drop for Reports {
    fn drop(self) {
        let Reports {
            log: _,
            connections: _,
            fetches: _,
            cache: _,
            measures: _,
        } = self;
    }
}

impl<R> Journal<R> for Reports
where
    R: AllocGlobal + Clock + Eprint + Wait,
{
    fn is_enabled(&self) -> bool {
        self.measures.is_some() || self.log.is_enabled()
    }

    fn served(&self, rt: &R, record: &RequestRecord) {
        if let Some(measures) = &self.measures {
            measures.count(rt, record);
        }
        self.log.served(rt, record);
    }

    fn cause_of(&self, rt: &R, url: &PageUrl) -> Option<FetchFault> {
        self.fetches.fault_of(rt, url)
    }

    fn accepted(&self) {
        self.connections.accepted();
    }

    fn ended(&self) {
        self.connections.ended();
    }

    fn parked(&self) {
        self.connections.parked();
    }

    fn unparked(&self) {
        self.connections.unparked();
    }

    fn accept_failed(&self) {
        self.connections.accept_failed();
    }

    fn closed(&self, end: ServeEnd) {
        self.connections.closed(end);
    }

    fn tick(&self, rt: &R) {
        self.log.tick(rt);
        if let Some(measures) = &self.measures {
            if measures.is_due(rt) {
                measures.note_stretch(rt, self.cache.tally(rt).hits);
            }
        }
    }
}

impl<R: Wait + AllocGlobal> Operated<R> for Reports {
    fn health(&self, _rt: &R) -> Health {
        health_of(self.connections.ending())
    }

    fn metrics(&self, rt: &R) -> Result<Vec<u8>, AllocError> {
        let alloc = rt.alloc();
        let Ok(origins) = self.fetches.tallies(alloc) else {
            return Err(AllocError);
        };
        let measured = Measured {
            requests: self.requests(rt),
            connections: self.connections.counts(),
            cache: self.cache.tally(rt),
            without_origin: self.fetches.without_origin(),
            lost_lines: self.log.lost_lines(rt),
            resident: self.measures.as_ref().and_then(|it| it.resident()),
        };
        text_of(alloc, &measured, origins.as_slice())
    }

    fn page(&self, rt: &R) -> Result<Vec<u8>, AllocError> {
        match &self.measures {
            Some(measures) => measures.page(rt),
            None => Ok(Vec::new(rt.alloc())),
        }
    }

    fn purge(&self, rt: &R, purge: &Purge) -> Result<usize, NoMemory> {
        match purge {
            Purge::Url(url) => Ok(usize::from(self.cache.purge(rt, url))),
            Purge::Prefix(prefix) => self.cache.purge_prefix(rt, prefix.as_bytes()),
        }
    }
}

impl Reports {
    // What was counted of requests.
    fn requests(&self, rt: &impl Wait) -> Counts {
        match &self.measures {
            Some(measures) => measures.requests(rt),
            None => Counts::new(),
        }
    }
}

// What the operator is told of a server that ends so, if it does.
fn health_of(ending: Option<ServeEnd>) -> Health
    ensures { result ≡ spec.health_of ending }
{
    match ending {
        None => Health::Well,
        Some(ServeEnd::Served) => Health::Ending,
        Some(ServeEnd::AcceptsFailed) => Health::AcceptsFailed,
    }
}
