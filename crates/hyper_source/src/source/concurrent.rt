//! Fetches of one page that are in flight at once.

ghost use Rattle.std.specs.Prelude.{◌≡◌, IfOk};
ghost use Rattle.std.specs.Arc.{arc_value};

use crate::origin_runtime::OriginRuntime;
use crate::pool::{IdleSocket, Strays};
use crate::source::HyperSource;
use answer_sources::{Arrival, Awaited, ConcurrentSource, Given};
use edge_sockets::{Bell, Watched};
use edge_types::{Answer, NoMemory, PageUrl};
use fetch_outcomes::{FetchFault, Lost};
use origin_exchange::{Behind, Exchange, ExchangeEnd, OriginSocket, Reach, StreamSignals, lost_by};
use origin_fetches::{
    Attempt, Errand, Fetch, FetchStep, FetchesInFlight, Gated, HeldPermit, Queued,
};
use origins::{Chance, Chosen, end_of, gate_of};
use std::alloc::Global;
use std::sync::{Arc, Wait};
use std::time::{Clock, Duration, Instant};

impl HyperSource {
    // Begins a fetch, if the URL has an origin that may be asked; gives its key. One that has to wait has none yet.
    fn begun<R: OriginRuntime>(
        &self,
        rt: &R,
        alloc: Global,
        in_flight: &mut FetchesInFlight,
        url: &PageUrl,
        origin: Option<Chosen>,
    ) -> Result<Option<usize>, Lost> {
        let errand = self.errand(rt, url, origin)?;
        if !self.has_poller(rt, in_flight) {
            return Err(Lost::Fault(FetchFault::Cut));
        }
        let Some(gate) = gate_of(self.gates.as_slice(), errand.origin.address) else {
            let fetch = self.new_fetch(rt, alloc, errand)?;
            return Ok(Some(in_flight.admit(fetch)?));
        };
        let gate = gate.share()?;
        let bell = in_flight.bell().ok_or(Lost::NoMemory)?;
        let chance = gate.ask(rt, bell);
        self.begun_by(rt, alloc, in_flight, Gated { errand, gate }, chance)
    }

    // Begins a fetch that its gate lets through, and gives its key; or has it wait.
    fn begun_by<R: OriginRuntime>(
        &self,
        rt: &R,
        alloc: Global,
        in_flight: &mut FetchesInFlight,
        gated: Gated,
        chance: Chance,
    ) -> Result<Option<usize>, Lost> {
        let permit = match chance {
            Chance::Granted(permit) => permit,
            Chance::Lost(lost) => return Err(lost),
            Chance::Waits(place) => {
                in_flight.queue(rt, Queued { gated, place })?;
                return Ok(None);
            }
        };
        let Gated { errand, gate } = gated;
        let admitted = match self.new_fetch(rt, alloc, errand) {
            Ok(fetch) => in_flight.admit(fetch),
            Err(lost) => Err(lost),
        };
        let end = end_of(false, &admitted);
        match admitted {
            Ok(key) => in_flight.hold(rt, HeldPermit { key, gate, permit })?,
            Err(_) => gate.ended(rt, permit, end),
        }
        Ok(Some(admitted?))
    }

    // Looks at each fetch that waits, once rings were taken: so a call that comes later is heard later.
    fn looked_at_queue<R: OriginRuntime>(
        &self,
        rt: &R,
        alloc: Global,
        in_flight: &mut FetchesInFlight,
    ) -> Result<(), NoMemory> {
        let now = Instant::now(rt).ok();
        for _ in 0..in_flight.count_queued() {
            if let Some(queued) = in_flight.first_queued() {
                self.looked_at(rt, alloc, in_flight, queued, now)?;
            }
        }
        Ok(())
    }

    // Begins a fetch that is called; it has failed if its time is over, or if its origin rests.
    fn looked_at<R: OriginRuntime>(
        &self,
        rt: &R,
        alloc: Global,
        in_flight: &mut FetchesInFlight,
        queued: Queued,
        now: Option<Instant>,
    ) -> Result<(), NoMemory> {
        let origin = queued.gated.errand.origin;
        let Ok(url) = queued.gated.errand.url.share() else {
            queued.leave(rt);
            return Err(NoMemory);
        };
        let began = if queued.is_late(now) {
            queued.leave(rt);
            Err(Lost::Fault(FetchFault::TooMany))
        } else {
            let Queued { gated, place } = queued;
            let chance = gated.gate.look(rt, place);
            self.begun_by(rt, alloc, in_flight, gated, chance)
        };
        match began {
            Ok(Some(key)) => in_flight.due.push_back(key)?,
            Ok(None) => {}
            Err(lost) => {
                let answer = self.not_begun(rt, alloc, &url, Some(origin), lost)?;
                in_flight.answers.push_back(answer)?;
            }
        }
        Ok(())
    }

    // Whether the fetches have what they wait in, which the first one takes. Refused where descriptors run out.
    fn has_poller<R: OriginRuntime>(&self, rt: &R, in_flight: &mut FetchesInFlight) -> bool {
        if in_flight.poller.is_none() {
            in_flight.poller = self.shared.pollers.take(rt);
        }
        in_flight.poller.is_some()
    }

    // A connection that was kept.
    fn kept<R: Wait + Clock>(&self, rt: &R, origin: Chosen) -> Option<IdleSocket> {
        match self.pool.take(rt, origin.address) {
            Ok(found) => found,
            Err(Strays) => {
                self.shared.notes.note_strays(origin.place);
                None
            }
        }
    }

    // Keeps what is left of a connection, if it may be kept.
    fn leave<R: Wait + Clock>(&self, rt: &R, origin: Chosen, behind: Behind<OriginSocket>) {
        if !self.pool.keeps() {
            return;
        }
        match behind {
            Behind::Open(socket) => self.pool.leave(rt, socket),
            Behind::Strays => {
                self.pool.strayed(rt, origin.address);
                self.shared.notes.note_strays(origin.place);
            }
            Behind::End => {}
        }
    }

    // A fetch over a connection that was kept, or a new one that may tell of the origin.
    fn new_fetch<R: OriginRuntime>(
        &self,
        rt: &R,
        alloc: Global,
        errand: Errand,
    ) -> Result<Fetch, Lost> {
        let reach = Reach::new(alloc)?;
        let attempt = match self.kept(rt, errand.origin) {
            Some(idle) => self.attempt(alloc, &errand.url, idle.socket, true, None)?,
            None => {
                let told = reach.share()?;
                self.new_attempt(rt, alloc, &errand.url, errand.origin, told)?
            }
        };
        Ok(Fetch::new(errand, reach, attempt))
    }

    // An attempt over a new connection, which need not be made yet.
    fn new_attempt<R: OriginRuntime>(
        &self,
        rt: &R,
        alloc: Global,
        url: &PageUrl,
        origin: Chosen,
        told: Reach,
    ) -> Result<Attempt, Lost> {
        match OriginSocket::connecting(rt, origin) {
            Ok(socket) => self.attempt(alloc, url, socket, false, Some(told)),
            Err(error) => Err(lost_by(&error)),
        }
    }

    // An attempt over a socket.
    fn attempt(
        &self,
        alloc: Global,
        url: &PageUrl,
        socket: OriginSocket,
        is_kept: bool,
        told: Option<Reach>,
    ) -> Result<Attempt, Lost> {
        let request = self.request(alloc, url)?;
        let signals = StreamSignals::new(told);
        let most = self.limits.most();
        Ok(Attempt {
            exchange: Exchange::begun(alloc, self.keys, socket, signals, request, most)?,
            is_kept,
            watched: Watched::Nothing,
        })
    }

    // Has a fetch make a step; its answer if it has ended.
    fn stepped<R: OriginRuntime>(
        &self,
        rt: &R,
        alloc: Global,
        in_flight: &mut FetchesInFlight,
        key: usize,
    ) -> Result<Option<Arc<Answer>>, NoMemory> {
        match in_flight.step(rt, alloc, key) {
            FetchStep::Waits => Ok(None),
            FetchStep::Ended(end) => self.ended(rt, alloc, in_flight, key, end),
            FetchStep::Unheard => match self.retried(rt, alloc, in_flight, key) {
                Ok(()) => Ok(None),
                Err(lost) => self.ended(rt, alloc, in_flight, key, ExchangeEnd::lost(lost)),
            },
        }
    }

    // Begins a fetch once more, over a new connection, within the same time.
    fn retried<R: OriginRuntime>(
        &self,
        rt: &R,
        alloc: Global,
        in_flight: &mut FetchesInFlight,
        key: usize,
    ) -> Result<(), Lost> {
        let Some(fetch) = in_flight.fetches.get_mut(key) else {
            return Ok(());
        };
        let told = fetch.told()?;
        let attempt = self.new_attempt(rt, alloc, &fetch.url, fetch.origin, told)?;
        fetch.retries(attempt);
        match in_flight.due.push_back(key) {
            Ok(()) => Ok(()),
            Err(_) => Err(Lost::NoMemory),
        }
    }

    // The answer of a fetch that couldn't be begun.
    fn not_begun<R: Wait + Clock>(
        &self,
        rt: &R,
        alloc: Global,
        url: &PageUrl,
        origin: Option<Chosen>,
        lost: Lost,
    ) -> Result<Arc<Answer>, NoMemory>
        ensures { IfOk result (λ answer. (arc_value answer).url ≡ url.now) }
    {
        let came = Err(lost);
        if let Some(origin) = origin {
            self.told_end(rt, origin, end_of(false, &came));
        }
        self.noted(rt, alloc, url, origin, came)
    }

    // Takes out a fetch that has ended so: its answer.
    fn ended<R>(
        &self,
        rt: &R,
        alloc: Global,
        in_flight: &mut FetchesInFlight,
        key: usize,
        end: ExchangeEnd<OriginSocket>,
    ) -> Result<Option<Arc<Answer>>, NoMemory>
    where
        R: Wait + Clock,
    {
        let ExchangeEnd { came, behind } = end;
        let is_connected = match in_flight.fetches.get_mut(key) {
            Some(fetch) => fetch.is_connected(),
            None => false,
        };
        let end = end_of(is_connected, &came);
        let Some(fetch) = in_flight.remove(rt, key, end) else {
            return Ok(None);
        };
        self.told_end(rt, fetch.origin, end);
        self.leave(rt, fetch.origin, behind);
        let answer = self.noted(rt, alloc, &fetch.url, Some(fetch.origin), came)?;
        Ok(Some(answer))
    }
}

impl<R> ConcurrentSource<R> for HyperSource
where
    R: OriginRuntime,
{
    type InFlight = FetchesInFlight;

    fn nothing_in_flight(&self, _rt: &R, alloc: Global) -> FetchesInFlight {
        FetchesInFlight::new(alloc)
    }

    // The fetch makes its first step at once, by which its request is mostly sent.
    fn begin(
        &self,
        rt: &R,
        alloc: Global,
        in_flight: &mut FetchesInFlight,
        url: &PageUrl,
    ) -> Result<(), NoMemory> {
        in_flight.reserve()?;
        let origin = self.origin_of(rt, url);
        let begun = match self.begun(rt, alloc, in_flight, url, origin) {
            Ok(Some(key)) => self.stepped(rt, alloc, in_flight, key)?,
            Ok(None) => None,
            Err(lost) => Some(self.not_begun(rt, alloc, url, origin, lost)?),
        };
        if let Some(answer) = begun {
            in_flight.answers.push_back(answer)?;
        }
        Ok(())
    }

    // It has what the latest wait has told, which also took a ring of the bell. Where that was somebody else's, it looks once.
    fn next(&self, rt: &R, alloc: Global, in_flight: &mut FetchesInFlight) -> Arrival {
        for _ in rt.forever() {
            if let Some(answer) = in_flight.answers.pop_front() {
                return Ok(Some(Given::fetched(answer)));
            }
            let came = match in_flight.due.pop_front() {
                Some(key) => self.stepped(rt, alloc, in_flight, key)?,
                None if !in_flight.has_news() => return Ok(None),
                None => {
                    in_flight.look(rt)?;
                    self.looked_at_queue(rt, alloc, in_flight)?;
                    None
                }
            };
            if let Some(answer) = came {
                return Ok(Some(Given::fetched(answer)));
            }
        }
        unreachable!()
    }

    fn is_idle(&self, in_flight: &FetchesInFlight) -> bool {
        in_flight.is_idle()
    }

    fn wait(
        &self,
        rt: &R,
        _alloc: Global,
        in_flight: &mut FetchesInFlight,
        most: Option<Duration>,
    ) -> Result<(), NoMemory> {
        in_flight.wait(rt, most)
    }

    fn awaited(&self, _rt: &R, _alloc: Global, in_flight: &mut FetchesInFlight) -> Option<Awaited> {
        Some(Awaited {
            descriptor: in_flight.awaited_elsewhere()?,
            until: in_flight.until(),
        })
    }

    fn bell(&self, rt: &R, in_flight: &mut FetchesInFlight) -> Option<Bell> {
        if !self.has_poller(rt, in_flight) {
            return None;
        }
        in_flight.bell()
    }

    fn give_up(&self, rt: &R, _alloc: Global, in_flight: FetchesInFlight) {
        if let Some(poller) = in_flight.into_poller(rt) {
            self.shared.pollers.leave(rt, poller);
        }
    }
}
