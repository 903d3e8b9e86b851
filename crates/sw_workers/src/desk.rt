//! The desk of one thread.

ghost use Rattle.std.specs.Prelude.{◌≡◌, [], None, Some, IfSome};
ghost use Rattle.sw_core.specs.Seen.{ask_seen, work_seen};
ghost use Rattle.sw_talk.specs.CoreDesk.{TellsOfPiece, piece_seen};
ghost use Rattle.sw_talk.specs.Trace.{LeavesOf};
ghost use Rattle.sw_history.specs.Opened.{OpensAll};
ghost use Rattle.sw_workers.specs.Waits.{MayRest, limit_after, is_leave, serving_after, told_left};
ghost use Rattle.sw_history.specs.Asks.{AsksOnce};
ghost use Rattle.sw_workers.specs.Work.{Brings, SeesToWork, EndsPiece, LeavesGoneClient, desk_seen, IsRested, Works};
ghost use Rattle.sw_workers.specs.Work.{none_own};
ghost use Rattle.sw_workers.specs.declared.desk.WaitEnd.TheVariants.{ClientGone};

use crate::gate::{Gate, Point};
use crate::mainframe::Mainframe;
use crate::shared::{Shared, Woken};
use std::alloc::Global;
use std::sync::{Arc, Wait};
use std::time::Clock;
use sw_card::{Meter, Relay};
use sw_connections::{Limit, Room, Serving, Session, await_served, slice_of};
use sw_core::{Answer, Ask, SessionAnswer, SessionAsk, Sid, Work};
use sw_history::{BySession, Coming, DeskPart, EventKind, FromOutside};
use sw_session::{Desk, View, Wake};

/// The desk of a session or of a worker, which one thread has.
#[derive(Drop)]
pub struct SharedDesk<
    H: Mainframe,
    R: Relay,
    M: Meter,
    G: Gate + Drop,
    W: Wait + Clock + Copy + Drop,
> {
    pub(crate) part: DeskPart<H>,
    pub(crate) shared: Arc<Shared<H, R, M, G>, Global>,
    pub(crate) rt: W,
    /// What its thread serves.
    pub(crate) serving: Arc<Serving<H>, Global>,
    /// The session that it joined or attached to.
    session: Option<Session<H>>,
    /// The mainframe's turn after the last ask.
    seen: u64,
    /// The limit of the wait for a held ask. It continues from wait to wait.
    limit: Option<Limit>,
    /// The session that the desk serves.
    pub(crate) serves: Option<Sid>,
}

/// Whether the ask leaves a session.
fn is_leave(ask: &SessionAsk) -> bool
    ensures { result ≡ is_leave ask.now }
{
    matches!(ask, SessionAsk::Leave(_))
}

/// The session that a desk serves after an answer. `leaves`: the ask leaves a session.
fn serving_after(serves: Option<Sid>, leaves: bool, answer: &SessionAnswer) -> Option<Sid>
    ensures { result ≡ serving_after serves leaves answer.now }
{
    match answer {
        SessionAnswer::Joined(sid) => Some(*sid),
        _ if leaves => None,
        _ => serves,
    }
}

/// How a thread's wait ends.
enum WaitEnd {
    /// The session may ask again. This much of the limit is left.
    Again(Option<Limit>),
    /// The wait is over.
    Over,
    /// The client has ended its connection.
    ClientGone,
}

/// The limit as it is now, if there is one.
fn at_present<C: Clock>(rt: &C, limit: Option<Limit>) -> Option<Limit>
    ensures { limit ≡ None → result ≡ None }
{
    match limit {
        Some(limit) => Some(limit.at_present(rt)),
        None => None,
    }
}

/// What is left of a limit, if there is one.
fn told_ms(limit: Option<Limit>) -> Option<u32>
    ensures { limit ≡ None → result ≡ None }
{
    match limit {
        Some(limit) => Some(limit.left_ms()),
        None => None,
    }
}

/// What a wait reports to be left of a limit of `limit_ms` milliseconds.
fn left_ms(limit_ms: Option<u32>, limit: Option<Limit>) -> Option<u32>
    ensures told { result ≡ told_left limit_ms limit }
    ensures left { LeavesOf limit_ms (Wake.Again result) }
{
    let ms = limit_ms?;
    match limit {
        Some(limit) if limit.left_ms() < ms => Some(limit.left_ms()),
        _ => Some(ms),
    }
}

/// The limit of the wait for a held ask, after an answer: it continues while the mainframe holds the ask.
fn limit_after(limit: Option<Limit>, answer: &SessionAnswer) -> Option<Limit>
    ensures { result ≡ limit_after limit answer.now }
{
    match answer {
        SessionAnswer::Hold(_) => limit,
        _ => None,
    }
}

impl<H: Mainframe, R: Relay, M: Meter, G: Gate + Drop, W: Wait + Clock + Copy + Drop> SharedDesk<
    H,
    R,
    M,
    G,
    W,
> {
    /// One more desk. None where there are 2^33, the end has begun, or there is no memory.
    pub fn open(rt: W, shared: &Arc<Shared<H, R, M, G>, Global>) -> Option<Self>
        ensures { IfSome result (λ desk. (desk.part.amount ≡ 0) × (desk.part.seat.mine ≡ [])) }
    {
        let Ok(shared) = Arc::try_clone(shared) else {
            return None;
        };
        let serving = shared.serving()?;
        let part = shared.part(&rt)?;
        Some(SharedDesk {
            part,
            shared,
            rt,
            serving,
            session: None,
            seen: 0,
            limit: None,
            serves: None,
        })
    }

    /// Ends the scan that runs and opens every relay, whichever session has a lock: each card comes out of its slot and
    /// goes back.
    pub fn open_all(&mut self)
        ensures { OpensAll H.first self.new.part }
    {
        self.seen = self.shared.open_all(&self.rt, &mut self.part);
    }

    /// Carries a piece of work out, then sends or carries out what that brings.
    pub(crate) fn work_off(&mut self, piece: Work<M>)
        ensures { Works H.first none_own (Some (piece_seen piece)) self.old.part self.new.part }
    {
        let next = self.finish(piece);
        self.carry(next);
    }

    /// Sends work, if there is any, or carries it out, then does the same with what that brings.
    #[inline(always)]
    pub(crate) fn carry(&mut self, work: Option<Work<M>>)
        ensures { SeesToWork H.first H.sent (work_seen work) self.old.part self.new.part }
    {
        match work {
            None => {}
            Some(piece) => self.carry_piece(piece),
        }
    }

    /// Sends a piece of work, or carries it out, then does the same with what that brings.
    #[inline(never)]
    fn carry_piece(&mut self, piece: Work<M>)
        ensures { SeesToWork H.first H.sent (work_seen (Some piece)) self.old.part self.new.part }
    {
        let rt = self.rt;
        let mut left = Some(piece);
        for _ in rt.forever() {
            let Some(piece) = left else {
                return;
            };
            let Some(back) = self.shared.send(&rt, piece) else {
                return;
            };
            left = self.finish(back);
        }
        unreachable!()
    }

    /// Carries a piece of work out, and reports it to the mainframe, which gives the next piece.
    pub(crate) fn finish(&mut self, piece: Work<M>) -> Option<Work<M>>
        ensures { EndsPiece H.first (piece_seen piece) self.old.part (work_seen result) self.new.part }
    {
        let ask = self.carried_out(piece);
        self.tell(ask)
    }

    /// Reports to the mainframe, which gives the next piece.
    pub(crate) fn tell(&mut self, ask: Ask<R, M>) -> Option<Work<M>>
        ensures { Brings H.first (ask_seen ask) self.old.part (work_seen result) self.new.part }
    {
        let mut answer = Answer::Missed;
        self.act::<FromOutside>(None, ask, &mut answer, &mut ());
        let told = answer;
        match told {
            Answer::Taken(work) => work,
            other => {
                drop(other);
                None
            }
        }
    }

    /// Makes an ask of any kind. The threads of a session that it joins share this room. It leaves the answer in
    /// `answer`, and what comes beside it in `left`.
    #[inline(always)]
    fn act<E: EventKind<R, M>>(
        &mut self,
        room: Option<Arc<Room<H>, Global>>,
        ask: E::Ask,
        answer: &mut E::Answer,
        left: &mut E::Left,
    )
        requires { E.is_blank left.old }
        ensures { AsksOnce H.first (E.asked ask) (E.answered answer.new left.new)
            self.old.part self.new.part }
    {
        let leaves = self.is_left_by(E::coming(&ask));
        let (turn, session) = self
            .shared
            .act::<E, W>(&self.rt, &mut self.part, room, ask, answer, left);
        self.seen = turn;
        if let Some(session) = session {
            self.serving.learn(&self.rt, &session);
            self.session = Some(session);
        }
        if leaves {
            self.end_session();
        }
        self.leave_seen();
    }

    /// Leaves what the desk has seen for its session's next look at its status.
    #[inline(always)]
    fn leave_seen(&mut self)
        ensures { self.new.part ≡ self.old.part }
    {
        if let Some(session) = &self.session {
            self.shared.leave_seen(&self.rt, session, &mut self.part);
        }
    }

    /// Waits until it is this ask's turn: a release waits for what had come on the session's first connection.
    #[inline(always)]
    fn await_turn(&self, ask: &SessionAsk) {
        if let (SessionAsk::Release(_), Some(session)) = (ask, &self.session) {
            await_served(&self.rt, session);
        }
    }

    /// The room of the session that this ask is to join, if it is to join one and there is memory.
    #[inline(always)]
    fn room_for(&self, ask: &SessionAsk) -> Option<Arc<Room<H>, Global>> {
        match ask {
            SessionAsk::Join => self.serving.room(&self.rt),
            _ => None,
        }
    }

    /// Whether the session that this desk joined or attached to is to leave.
    #[inline(always)]
    fn is_left_by(&self, coming: Coming) -> bool {
        match (coming, &self.session) {
            (Coming::Leaves(sid), Some(session)) => sid == session.sid(),
            _ => false,
        }
    }

    /// The desk has left its session, whose lines end.
    fn end_session(&mut self)
        ensures { self.new.part ≡ self.old.part }
    {
        if let Some(session) = self.session.take() {
            session.end(&self.rt);
        }
    }

    /// Waits, for `limit_ms` milliseconds at most where there is a limit. A limit that the caller gives as the last
    /// wait left it continues.
    fn wait_limited(&self, limit_ms: Option<u32>) -> WaitEnd
        ensures { MayRest H.over H.client_gone limit_ms result }
    {
        let Some(ms) = limit_ms else {
            return self.wait_noted(None);
        };
        let limit = match self.limit {
            Some(limit) if limit.left_ms() == ms => Some(limit),
            _ => Limit::new(&self.rt, ms),
        };
        match limit {
            Some(limit) => self.wait_noted(Some(limit)),
            None => WaitEnd::Over,
        }
    }

    /// Waits until the mainframe's turn is another, the limit is over, or the client has ended its connection. The
    /// session's other thread sees that it waits.
    fn wait_noted(&self, limit: Option<Limit>) -> WaitEnd
        ensures over { limit ≡ None → MayRest H.over H.client_gone None result }
        ensures gone { result ≡ ClientGone → H.client_gone }
    {
        self.serving.note_wait(&self.rt, true);
        let end = self.wait_on(limit);
        self.serving.note_wait(&self.rt, false);
        end
    }

    /// Waits, and looks again and again whether the client has ended its connection.
    fn wait_on(&self, limit: Option<Limit>) -> WaitEnd
        ensures over { limit ≡ None → MayRest H.over H.client_gone None result }
        ensures gone { result ≡ ClientGone → H.client_gone }
    {
        let rt = self.rt;
        for _ in rt.forever() {
            let limit = at_present(&rt, limit);
            let left = told_ms(limit);
            if left == Some(0) {
                return WaitEnd::Over;
            }
            match self.shared.wait(&rt, self.seen, slice_of(left)) {
                Woken::Turned => return WaitEnd::Again(at_present(&rt, limit)),
                Woken::Closing => return WaitEnd::Over,
                Woken::Unchanged if self.serving.is_client_gone(&rt) => return WaitEnd::ClientGone,
                Woken::Unchanged => {}
            }
        }
        unreachable!()
    }

    /// Leaves the session that the desk serves, if there is one.
    fn leave_gone_client(&mut self)
        ensures { LeavesGoneClient H.first (desk_seen self.old.part self.old.serves)
            (desk_seen self.new.part self.new.serves) }
    {
        let Some(sid) = self.serves else {
            return;
        };
        drop(self.ask(SessionAsk::Leave(sid)));
    }

    /// Carries a piece of work out, and gives the ask that reports it. It holds no lock.
    fn carried_out(&self, piece: Work<M>) -> Ask<R, M>
        ensures tells { TellsOfPiece (piece_seen piece) (ask_seen result) }
        ensures rested { IsRested H.rested (piece_seen piece) }
    {
        match piece {
            Work::Measure(job) => {
                self.shared.gate().pass(&self.rt, Point::Job);
                Ask::Finished(job.run())
            }
            Work::Pause(ticket, micros) => {
                H::rest(&self.rt, micros);
                self.shared.gate().pass(&self.rt, Point::Pause);
                Ask::Elapsed(ticket)
            }
        }
    }
}

impl<H: Mainframe, R: Relay, M: Meter, G: Gate + Drop, W: Wait + Clock + Copy + Drop> Desk
    for SharedDesk<H, R, M, G, W> {
    ghost use Rattle.sw_workers.specs.Work.{DeskPasses, desk_seen};

    ghost passes = { λ before entry after. DeskPasses H.first H.over H.client_gone (desk_seen before.part before.serves)
        entry (desk_seen after.part after.serves) };

    fn ask(&mut self, ask: SessionAsk) -> SessionAnswer {
        let mut answer = SessionAnswer::Stranger;
        self.ask_into(ask, &mut answer);
        answer
    }

    fn ask_into(&mut self, ask: SessionAsk, answer: &mut SessionAnswer) {
        self.shared.gate().pass(&self.rt, Point::Ask);
        self.await_turn(&ask);
        let room = self.room_for(&ask);
        let serves = self.serves;
        let leaves = is_leave(&ask);
        let mut work = None;
        self.act::<BySession>(room, ask, answer, &mut work);
        self.carry(work);
        self.limit = limit_after(self.limit, answer);
        self.serves = serving_after(serves, leaves, answer);
    }

    fn wait(&mut self, limit_ms: Option<u32>) -> Wake {
        match self.wait_limited(limit_ms) {
            WaitEnd::Again(limit) => {
                self.limit = limit;
                Wake::Again(left_ms(limit_ms, limit))
            }
            WaitEnd::Over => {
                self.limit = None;
                Wake::Over
            }
            WaitEnd::ClientGone => {
                self.limit = None;
                self.leave_gone_client();
                Wake::Over
            }
        }
    }

    fn poll(&mut self, sid: Sid) -> View {
        let own = match &self.session {
            Some(session) if session.sid() == sid => Some(session),
            _ => None,
        };
        self.shared.poll(&self.rt, &mut self.part, own)
    }

    fn note(&mut self, sid: Sid, mav: bool) {
        if let Some(session) = &self.session {
            if session.sid() == sid {
                session.note(mav);
            }
        }
    }
}
