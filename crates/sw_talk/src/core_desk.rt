//! A desk over a mainframe of its own.

ghost use Rattle.std.specs.Prelude.{◌≡◌, ◌≤◌, Bool, true, [], ◌∷◌, ◌++◌, None, Some, IfSome, IfNone};
ghost use Rattle.sw_core.specs.Seen.{AskSeen, work_seen, AskSession, SaysSession};
ghost use Rattle.sw_core.specs.declared.ask.SessionAsk.TheVariants.{Unit};
ghost use Rattle.sw_cage.specs.Change.{any_failed};
ghost use Rattle.sw_core.specs.Run.{StepBrings};
ghost use Rattle.sw_core.specs.Step.{Step};
ghost use Rattle.sw_talk.specs.Available.{followed};
ghost use Rattle.sw_talk.specs.CoreDesk.{IsKept, IsCarried, IsFull, TellsOfPiece, WaitsOut, CorePasses};
ghost use Rattle.sw_talk.specs.CoreDesk.{desk_over, piece_seen};
ghost use Rattle.sw_talk.specs.Trace.{Waited, LeavesOf};

use crate::available::{Available, Seating, seating_of};
use crate::desk::{Desk, View, Wake};
use crate::work_queue::WorkQueue;
use std::alloc::Global;
use std::marker::Model;
use sw_card::{Meter, Relay};
use sw_core::{Core, SessionAnswer, SessionAsk, Sid, Work};
use sw_lex::Command;

/// A desk over a mainframe of its own, on one thread. Contracts see the mainframe's panel, the work that is
/// outstanding, the oldest first, for how much of it there is room, and for which sessions a message is available.
///
/// A wait carries out the oldest piece, and is over where there is none. Nothing takes time, so that all
/// of its limit is left. Where there is no memory for a piece, the oldest of all is carried out at once.
#[derive(Drop)]
pub struct CoreDesk<R: Relay, M: Meter> {
    alloc: Global,
    core: Core<R, M>,
    work: WorkQueue<M>,
    available: Available,
}

impl<R: Relay, M: Meter> Model for CoreDesk<R, M> {
    ghost use Rattle.sw_talk.specs.CoreDesk.{DeskSeen};

    ghost Value = { DeskSeen };

    ghost view = { λ d. record {
      panel = d.core.seen;
      work = d.work.pieces;
      room = d.work.room;
      available = d.available;
    } };
}

impl<R: Relay, M: Meter> CoreDesk<R, M> {
    /// A desk over this mainframe, with no work, room for one piece, and no message available.
    pub fn new(alloc: Global, core: Core<R, M>) -> Self
        ensures { result ≡ desk_over core.seen }
    {
        CoreDesk {
            alloc,
            core,
            work: WorkQueue::new(alloc),
            available: Available::new(),
        }
    }

    /// Waits until nothing is outstanding. After 2^64 - 1 waits it gives up and answers false.
    #[inline(always)]
    pub fn rest(&mut self) -> bool
        ensures rests { WaitsOut self.old result self.new }
        ensures rested { result ≡ true → self.new.work ≡ [] }
    {
        if self.work.is_empty() {
            return true;
        }
        self.wait_all()
    }

    /// Waits as `rest` does, for one piece after another.
    #[inline(never)]
    fn wait_all(&mut self) -> bool
        ensures rests { WaitsOut self.old result self.new }
        ensures rested { result ≡ true → self.new.work ≡ [] }
    {
        for _turn in 0..u64::MAX {
            let Some(piece) = self.take() else {
                return true;
            };
            let mut work = None;
            self.carry_out(piece, &mut work);
            self.keep(work);
        }
        false
    }

    /// Keeps work for a wait. Where there is no memory for that, it carries the oldest piece of all out at once in its
    /// place, and keeps in turn what that brings.
    #[inline(always)]
    fn keep(&mut self, work: Option<Work<M>>)
        ensures { IsKept self.old (work_seen work) self.new }
    {
        match work {
            None => {}
            Some(piece) => self.keep_piece(piece),
        }
    }

    /// Keeps a piece of work for a wait.
    #[inline(always)]
    fn keep_piece(&mut self, piece: Work<M>)
        ensures { IsKept self.old (work_seen (Some piece)) self.new }
    {
        if self.work.is_empty() {
            self.work.begin(piece);
        } else {
            self.keep_or_carry(piece);
        }
    }

    /// Keeps a piece of work behind others. Where the room for it has to grow and can't, pieces are carried out.
    #[inline(never)]
    fn keep_or_carry(&mut self, piece: Work<M>)
        ensures { IsKept self.old (work_seen (Some piece)) self.new }
    {
        let mut work = Some(piece);
        'pieces: loop {
            let Some(piece) = work else {
                return;
            };
            match self.put(piece) {
                None => return,
                Some(oldest) => work = self.carry(oldest),
            }
        }
    }

    /// Puts a piece behind the rest. Where there is no memory for it, the oldest of all comes off and gives it room.
    fn put(&mut self, piece: Work<M>) -> Option<Work<M>>
        ensures none { IfNone result (self.new ≡ record self.old {
          work = self.old.work ++ piece_seen piece ∷ [];
          room = self.new.room;
        }) }
        ensures some { IfSome result (λ oldest.
            self.old.work ++ piece_seen piece ∷ [] ≡ piece_seen oldest ∷ self.new.work) }
        ensures same { IfSome result (λ _.
            self.new ≡ record self.old { work = self.new.work; room = self.new.room }) }
        ensures full { IfSome result (λ _. IsFull self.old) }
        ensures roomy { self.old.room ≤ self.new.room }
    {
        self.work.put(piece)
    }

    /// Waits for the oldest piece: carries it out, and keeps what comes next.
    #[inline(always)]
    fn wait_for_oldest(&mut self, limit_ms: Option<u32>) -> Wake
        ensures passes { CorePasses self.old (Waited limit_ms result) self.new }
        ensures left { LeavesOf limit_ms result }
    {
        match self.take() {
            Some(piece) => {
                let mut work = None;
                self.carry_out(piece, &mut work);
                self.keep(work);
                Wake::Again(limit_ms)
            }
            None => Wake::Over,
        }
    }

    /// Takes the oldest piece off.
    #[inline(always)]
    fn take(&mut self) -> Option<Work<M>>
        ensures some { IfSome result (λ piece. self.old ≡ record self.new { work = piece_seen piece ∷ self.new.work }) }
        ensures none { IfNone result (self.old.work ≡ []) }
        ensures same { IfNone result (self.new ≡ self.old) }
    {
        self.work.take()
    }

    /// Carries a piece out and reports it to the mainframe, which gives the next piece.
    #[inline(never)]
    fn carry(&mut self, piece: Work<M>) -> Option<Work<M>>
        ensures { IsCarried self.old (piece_seen piece) (work_seen result) self.new }
    {
        let mut work = None;
        self.carry_out(piece, &mut work);
        work
    }

    /// Asks the mainframe what a session asks. Its answer is left in `answer`, and the work that its scan awaits now in
    /// `work`.
    fn tell_asked(
        &mut self,
        ask: SessionAsk,
        answer: &mut SessionAnswer,
        work: &mut Option<Work<M>>,
    )
        requires empty { work.old ≡ None }
        ensures step { Step self.old.panel (AskSession ask)
            (any_failed self.old.panel.cage.cards self.new.panel.cage.cards)
            (SaysSession answer.new (work_seen work.new)) self.new.panel }
        ensures work { self.new.work ≡ self.old.work }
        ensures room { self.new.room ≡ self.old.room }
        ensures available { self.new.available ≡ self.old.available }
    {
        self.core.ask(self.alloc, ask, answer, work);
    }

    /// Asks the mainframe what a session asks by the command of a unit, as `tell_asked` does.
    #[inline(always)]
    fn tell_unit(
        &mut self,
        sid: Sid,
        command: Command,
        answered: bool,
        answer: &mut SessionAnswer,
        work: &mut Option<Work<M>>,
    )
        requires empty { work.old ≡ None }
        ensures step { Step self.old.panel (AskSession (Unit sid command answered))
            (any_failed self.old.panel.cage.cards self.new.panel.cage.cards)
            (SaysSession answer.new (work_seen work.new)) self.new.panel }
        ensures work { self.new.work ≡ self.old.work }
        ensures room { self.new.room ≡ self.old.room }
        ensures available { self.new.available ≡ self.old.available }
    {
        self.core
            .ask_unit(self.alloc, sid, command, answered, answer, work);
    }

    /// Follows a session that joins or leaves.
    fn follow(&mut self, seating: Seating, answer: &SessionAnswer)
        ensures { self.new ≡ record self.old { available = followed self.old.available answer.now seating } }
    {
        self.available.follow(seating, answer);
    }

    /// Carries a piece out and reports it to the mainframe. It leaves the next piece in `work`.
    #[inline(always)]
    fn carry_out(&mut self, piece: Work<M>, work: &mut Option<Work<M>>)
        requires empty { work.old ≡ None }
        ensures step { (ask : AskSeen) × TellsOfPiece (piece_seen piece) ask
            × StepBrings self.old.panel ask (work_seen work.new) self.new.panel }
        ensures work { self.new.work ≡ self.old.work }
        ensures room { self.new.room ≡ self.old.room }
        ensures available { self.new.available ≡ self.old.available }
    {
        match piece {
            Work::Measure(job) => self.core.come_back(job.run(), work),
            Work::Pause(ticket, _) => self.core.elapse(ticket, work),
        }
    }
}

impl<R: Relay, M: Meter> Desk for CoreDesk<R, M> {
    ghost use Rattle.sw_talk.specs.CoreDesk.{CorePasses};

    ghost passes = { CorePasses };

    fn ask(&mut self, ask: SessionAsk) -> SessionAnswer {
        let mut answer = SessionAnswer::Stranger;
        self.ask_into(ask, &mut answer);
        answer
    }

    fn ask_into(&mut self, ask: SessionAsk, answer: &mut SessionAnswer) {
        let mut work = None;
        let seating = seating_of(&ask);
        self.tell_asked(ask, answer, &mut work);
        self.follow(seating, answer);
        self.keep(work);
    }

    #[inline(always)]
    fn ask_unit(&mut self, sid: Sid, command: Command, answered: bool, answer: &mut SessionAnswer) {
        let mut work = None;
        self.tell_unit(sid, command, answered, answer, &mut work);
        self.keep(work);
    }

    fn holds(&self, ask: &SessionAsk) -> bool {
        self.core.holds(ask)
    }

    #[inline(always)]
    fn wait(&mut self, limit_ms: Option<u32>) -> Wake {
        if self.work.is_empty() {
            return Wake::Over;
        }
        self.wait_for_oldest(limit_ms)
    }

    fn poll(&mut self, sid: Sid) -> View {
        let (byte, requests) = self.core.pair();
        View {
            byte,
            requests,
            mav: self.available.has(sid),
        }
    }

    fn note(&mut self, sid: Sid, mav: bool) {
        self.available.note(sid, mav);
    }
}
