//! What is behind the lock: the mainframe and its history, the count of its events, and the notes of the last ones.

ghost use Rattle.std.specs.Prelude.{◌≡◌, ◌==◌, ◌+◌, ◌<◌, ◌&&◌, ◌↔◌, ℕ, [], ◌∷◌, ◌++◌, not, IfOk, IfSome, IfNone, None};
ghost use Rattle.std.specs.Prelude.{Some, true};
ghost use mathlib.Core.List.{IsPrefix};
ghost use Rattle.circular_buffer.specs.Buffer.{buffer, keep_last};
ghost use Rattle.sw_cage.specs.Accounts.{accounts_of};
ghost use Rattle.sw_core.specs.Cards.{Keeps};
ghost use Rattle.sw_core.specs.Opening.{IsFresh, IsReached};
ghost use Rattle.sw_core.specs.Seen.{ask_seen, answer_seen, failed_in, HandsBack};
ghost use Rattle.sw_core.specs.Step.{Step};
ghost use Rattle.sw_history.specs.Board.{entry_of, reader};
ghost use Rattle.sw_history.specs.Came.{AllCame};
ghost use Rattle.sw_history.specs.Closing.{EndsAtRest, is_unasked};
ghost use Rattle.sw_history.specs.Entries.{last_pair, made_by};
ghost use Rattle.sw_history.specs.Held.{notes_of, noted};
ghost use Rattle.sw_history.specs.History.{pair_of, event, said_at, grown, IsHistory, AsksInHistory, AwaitsEnd};
ghost use Rattle.sw_history.specs.Kinds.{ask_kind};
ghost use Rattle.sw_history.specs.Shares.{all_parts, is_counted, is_event, one_if};
ghost use Rattle.sw_history.specs.Waking.{HoldsOn, TellsScan, turn_after};
ghost use Rattle.sw_history.specs.Asks.{AsksOnce};

use crate::board::StatusBoard;
use crate::event_kind::{EventKind, FromOutside};
use crate::laws::whoever_may_go_on_is_woken;
use crate::note::Note;
use crate::recorded::{Asked, Recorded, Recording};
use crate::seat::StatusSeat;
use crate::seat_slot::SeatSlot;
use crate::waking::{WakeScope, turn_after, wakes};
use circular_buffer::HeapCircularBuffer;
use std::alloc::{AllocError, Global};
use std::marker::{Brand, Model};
use std::sync::Wait;
use std::sync::ledger::{Book, Ledger, Share};
use sw_card::{Meter, Relay};
use sw_core::{Answer, Ask, Sid, runs_go_on};

/// Which mainframe it is, to the threads that wait for it. Only `end` proves that its end has begun; after that no
/// thread has to wait.
pub trait Lasting {
    /// The end has begun.
    ghost over: { Type 0 };

    /// It begins.
    fn end()
        ensures { over };
}

impl Lasting for Brand {
    ghost over = { Unit {0} };

    fn end() {}
}

/// Which mainframe it is: its ledger, its board, the panel that it opened with, what is asked of it, and its end.
pub trait History: Ledger + Recording + Asked + Lasting {}

impl History for Brand {}

/// The most desks.
const MOST_DESKS: u64 = 1 << 33;

/// How many events have a note.
const MOST_NOTES: usize = 64;

/// What is behind the lock. Contracts see the mainframe's panel and its cards, how many desks there are, and all
/// events.
///
/// Whenever it is seen, the number of events is the opening number plus the sum of all shares, and the notes are those
/// of the last 64 entries of the history.
#[derive(Drop)]
pub struct Held<H: History, R: Relay, M: Meter> {
    alloc: Global,
    core: Recorded<H, R, M>,
    events: Book<H>,
    /// The share that no desk has, until the end.
    spare: Option<Share<H>>,
    /// How many desks there are.
    given: u64,
    notes: HeapCircularBuffer<Note>,
    /// Changes where something happened that may admit a held ask, and where no more events can be numbered.
    turn: u64,
    closing: bool,
    /// Every relay was opened and no scan runs, and no session has asked since.
    at_rest: bool,
}

impl<H: History, R: Relay, M: Meter> Model for Held<H, R, M> {
    ghost use Rattle.std.specs.Prelude.{◌≡◌, ◌+◌, IfSome, true, ◌⊎◌};
    ghost use Rattle.sw_history.specs.Closing.{EndsAtRest};
    ghost use Rattle.sw_history.specs.Held.{Locked, most_notes, notes_of};
    ghost use Rattle.sw_history.specs.History.{pair_of};
    ghost use Rattle.sw_history.specs.Shares.{all_parts};

    ghost Value = { Locked (R ⊎ M) };

    ghost view = { λ h. record {
      panel = h.core.panel;
      cards = h.core.cards;
      given = h.given;
      history = h.core.history;
      turn = h.turn;
    } };

    ghost invariant = { λ h. (h.core.panel.events ≡ H.first.events + h.events.total) × (H.parts ≡ all_parts)
        × IfSome h.spare (λ s. (s.parts + h.given ≡ all_parts) × (s.amount ≡ 0)) × (h.notes.capacity ≡ most_notes)
        × (h.notes.items ≡ notes_of h.core.history) × (H.opening ≡ pair_of H.first) × (h.closing ≡ true → H.over)
        × (h.at_rest ≡ true → EndsAtRest H.first h.core.history h.core.panel) };
}

/// What a desk has: one part of the ledger, with how many events are this desk's, and the desk's seat at the board.
#[derive(Drop)]
pub struct DeskPart<H: History> {
    share: Share<H>,
    seat: StatusSeat<H>,
}

impl<H: History> Model for DeskPart<H> {
    ghost use Rattle.std.specs.Prelude.{◌≡◌, true};
    ghost use Rattle.sw_history.specs.Held.{AtDesk, is_desk};
    ghost use Rattle.sw_history.specs.History.{pair_of};

    ghost Value = { AtDesk };

    ghost view = { λ p. record { amount = p.share.amount; seat = p.seat } };

    ghost invariant = { λ p. (p.share.parts ≡ 1) × (is_desk p.seat.desk ≡ true) × (H.opening ≡ pair_of H.first) };
}

impl<H: History> DeskPart<H> {
    /// A seat of no desk that has seen the same as this desk's.
    pub fn reader(&mut self, board: &StatusBoard<H>) -> StatusSeat<H>
        ensures same { self.new ≡ self.old }
        ensures new { result ≡ reader self.old.seat }
    {
        self.seat.split(board)
    }

    /// Reads the board: not earlier than any that this desk had seen, nor than what the seat in this slot had seen. It
    /// takes the lock of the slot alone.
    pub fn poll<W: Wait>(&mut self, rt: &W, board: &StatusBoard<H>, slot: &SeatSlot<H>) -> (u8, u64)
        ensures later { IsPrefix self.old.seat.seen self.new.seat.seen }
        ensures pair { result ≡ last_pair (pair_of H.first) self.new.seat.seen }
        ensures own { (d : ℕ) → self.old.seat.desk ≡ Some d → made_by d self.new.seat.seen ≡ self.old.seat.mine }
        ensures desk { (self.new.seat.desk ≡ self.old.seat.desk) × (self.new.seat.mine ≡ self.old.seat.mine) }
        ensures amount { self.new.amount ≡ self.old.amount }
    {
        slot.poll(rt, board, &mut self.seat)
    }

    /// Reads the board: not earlier than any that this desk had seen.
    pub fn read(&mut self, board: &StatusBoard<H>) -> (u8, u64)
        ensures later { IsPrefix self.old.seat.seen self.new.seat.seen }
        ensures pair { result ≡ last_pair (pair_of H.first) self.new.seat.seen }
        ensures own { (d : ℕ) → self.old.seat.desk ≡ Some d → made_by d self.new.seat.seen ≡ self.old.seat.mine }
        ensures desk { (self.new.seat.desk ≡ self.old.seat.desk) × (self.new.seat.mine ≡ self.old.seat.mine) }
        ensures amount { self.new.amount ≡ self.old.amount }
    {
        self.seat.read(board)
    }

    /// The share of a desk that makes no more asks.
    pub fn into_share(self) -> Share<H>
        ensures { (result.parts ≡ 1) × (result.amount ≡ self.amount) }
    {
        let DeskPart { share, seat: _ } = self;
        share
    }
}

/// Notes an event, and counts it in a desk's share where the number before it was another.
#[inline(always)]
fn count<H: History>(
    notes: &mut HeapCircularBuffer<Note>,
    events: &mut Book<H>,
    share: &mut Share<H>,
    note: Note,
    before: u64,
)
    requires { 0 < share.old.parts }
    ensures notes { notes.new
        ≡ buffer (keep_last notes.old.capacity (notes.old.items ++ note ∷ [])) notes.old.capacity }
    ensures events { events.new.total ≡ events.old.total + one_if (not (note.number == before)) }
    ensures share { (share.new.parts ≡ share.old.parts)
        × (share.new.amount ≡ share.old.amount + one_if (not (note.number == before))) }
{
    let _ = notes.push_back(note);
    if note.number != before {
        events.add(share, 1);
    }
}

/// Whether the mainframe is still at rest after this ask: a session's ask ends the rest.
fn rests_on<R: Relay, M: Meter, E: EventKind<R, M>>(at_rest: bool, ask: &E::Ask) -> bool
    ensures { result ≡ at_rest && is_unasked (E.asked ask.now) }
{
    at_rest && E::is_unasked(ask)
}

impl<H: History, R: Relay, M: Meter> Held<H, R, M> {
    /// A mainframe with no desk and no event yet.
    pub fn new(
        alloc: Global,
        core: Recorded<H, R, M>,
        events: Book<H>,
        spare: Share<H>,
    ) -> Result<Self, AllocError>
        requires start { (core.panel.events ≡ H.first.events) × (core.history ≡ []) × (events.total ≡ 0) }
        requires pair { H.opening ≡ pair_of H.first }
        requires parts { (spare.parts ≡ all_parts) × (spare.amount ≡ 0) × (H.parts ≡ all_parts) }
        ensures { IfOk result (λ held. held ≡ record {
          panel = core.panel;
          cards = core.cards;
          given = 0;
          history = [];
          turn = 0;
        }) }
    {
        let notes = match HeapCircularBuffer::with_capacity(alloc, MOST_NOTES) {
            Ok(notes) => notes,
            Err(fault) => {
                drop(core);
                return Err(fault);
            }
        };
        Ok(Held {
            alloc,
            core,
            events,
            spare: Some(spare),
            given: 0,
            notes,
            turn: 0,
            closing: false,
            at_rest: false,
        })
    }

    /// A part for one more desk, which has seen the whole history and has no entry in it; or none where there are 2^33
    /// desks, or the end has begun.
    pub fn new_part(&mut self) -> Option<DeskPart<H>>
        ensures panel { (self.new.panel ≡ self.old.panel) × (self.new.history ≡ self.old.history) }
        ensures cards { self.new.cards ≡ self.old.cards }
        ensures turn { self.new.turn ≡ self.old.turn }
        ensures some { IfSome result (λ p. (p.amount ≡ 0) × (self.new.given ≡ self.old.given + 1)) }
        ensures seat { IfSome result (λ p. (p.seat.seen ≡ self.old.history) × (p.seat.mine ≡ [])) }
        ensures none { IfNone result (self.new.given ≡ self.old.given) }
    {
        if self.given >= MOST_DESKS {
            return None;
        }
        let Some(spare) = &mut self.spare else {
            return None;
        };
        let share = spare.split_off(1, 0);
        self.given += 1;
        Some(DeskPart {
            share,
            seat: self.core.new_desk(),
        })
    }

    /// A desk with a part that no desk has any more. It has seen the whole history and has no entry in it.
    pub fn last_part(&mut self, share: Share<H>) -> DeskPart<H>
        requires { share.parts ≡ 1 }
        ensures same { self.new ≡ self.old }
        ensures part { result.amount ≡ share.amount }
        ensures seat { (result.seat.seen ≡ self.old.history) × (result.seat.mine ≡ []) }
    {
        DeskPart {
            share,
            seat: self.core.new_desk(),
        }
    }

    /// Takes the share that no desk has, where there are `desks` desks. It can be taken once.
    pub fn take_spare(&mut self, desks: u64) -> Option<Share<H>>
        ensures same { self.new ≡ self.old }
        ensures some { IfSome result (λ s. (s.parts + desks ≡ all_parts) × (s.amount ≡ 0)) }
    {
        if self.given != desks {
            return None;
        }
        self.spare.take()
    }

    /// The number of events, for the caller that has every part: the opening number plus all that the shares counted.
    pub fn number(&mut self, all: &mut Share<H>) -> u64
        requires { all.old.parts ≡ all_parts }
        ensures same { self.new ≡ self.old }
        ensures number { (result ≡ self.old.panel.events) × (result ≡ H.first.events + all.old.amount) }
        ensures share { (all.new.parts ≡ all.old.parts) × (all.new.amount ≡ all.old.amount) }
    {
        self.events.audit(all);
        self.core.events()
    }

    /// Whenever it is seen, its history leads from the opening panel, which was fresh, to this one, which is reached,
    /// each meter is one that came, and the panel has the accounts of the cards themselves.
    pub fn has_history(&self)
        ensures leads { IsHistory H.first self.now.history self.now.panel }
        ensures reached { IsReached self.now.panel }
        ensures fresh { IsFresh H.first }
        ensures came { AllCame H.came self.now.cards }
        ensures accounts { self.now.panel.cage.cards ≡ accounts_of self.now.cards }
    {
        self.core.has_history();
    }

    /// Whether the mainframe would hold the session's `*OPC?` now: a scan runs, or others have a lock.
    pub fn awaits_end(&self, sid: Sid) -> bool
        ensures { (result ≡ true) ↔ AwaitsEnd self.now.panel sid }
    {
        self.core.awaits_end(sid)
    }

    /// The turn, which changes where something happened that may admit a held ask.
    pub fn turn(&self) -> u64
        ensures { result ≡ self.now.turn }
    {
        self.turn
    }

    /// Notes whether a held ask may proceed.
    pub fn take_turn(&mut self, may_go_on: bool)
        ensures { self.new ≡ record self.old {
          turn = turn_after self.old.turn may_go_on self.old.panel.events;
        } }
    {
        self.turn = turn_after(self.turn, may_go_on, self.core.events());
    }

    /// Whether a scan runs, where a session's ask may end it.
    fn tells_scan(&self, scope: WakeScope) -> bool
        ensures { TellsScan scope self.now.panel result }
    {
        match scope {
            WakeScope::ScanBy(sid) => self.awaits_end(sid),
            _ => false,
        }
    }

    /// Makes an ask of any kind, and takes another turn where a held ask may proceed. Where the turn stays, the
    /// mainframe still holds all that it held. It leaves the answer in `answer`, and what comes beside it in `left`.
    #[inline(always)]
    pub fn act<E: EventKind<R, M>>(
        &mut self,
        part: &mut DeskPart<H>,
        ask: E::Ask,
        answer: &mut E::Answer,
        left: &mut E::Left,
    )
        requires { E.is_blank left.old }
        ensures once { AsksOnce H.first (E.asked ask) (E.answered answer.new left.new) part.old part.new }
        ensures step { let said = E.answered answer.new left.new in Step self.old.panel (E.asked ask)
            (failed_in (E.asked ask) said self.old.panel.cage.cards self.new.panel.cage.cards) said self.new.panel }
        ensures waits { self.new.turn ≡ self.old.turn → HoldsOn self.old.panel self.new.panel }
    {
        whoever_may_go_on_is_woken();
        let scope = E::scope(&ask);
        let ran = self.tells_scan(scope);
        let happened = self.step::<E>(part, ask, answer, left);
        let runs = self.tells_scan(scope);
        self.take_turn(wakes::<R, M, E>(scope, ran, runs, happened, answer));
    }

    /// From now on no thread has to wait.
    pub fn close(&mut self)
        ensures { self.new ≡ self.old }
    {
        H::end();
        self.closing = true;
    }

    /// Whether the end has begun.
    pub fn is_closing(&self) -> bool
        ensures { result ≡ true → H.over }
    {
        self.closing
    }

    /// Notes that every relay was opened, and that all is at rest where no scan runs.
    pub fn note_opened(&mut self)
        requires { self.old.panel.cage.scan ≡ None → EndsAtRest H.first self.old.history self.old.panel }
        ensures { self.new ≡ self.old }
    {
        self.at_rest = !self.core.is_running();
    }

    /// Whether every relay was opened, and no session has asked since.
    pub fn is_at_rest(&self) -> bool
        ensures { result ≡ true → EndsAtRest H.first self.now.history self.now.panel }
    {
        self.at_rest
    }

    /// The notes of the last 64 events, the oldest first.
    pub fn recent(&self) -> Result<Vec<Note>, AllocError>
        ensures { IfOk result (λ notes. notes.items ≡ notes_of self.now.history) }
    {
        self.notes.to_vec(self.alloc)
    }

    /// Makes an ask of any kind, and gives whether that was an event. An event is published, becomes one more entry of
    /// the desk in the history, and gets a note. A numbered event counts in the desk's share, once. The desk's seat has
    /// then seen the whole history. It leaves the answer in `answer`, and what comes beside it in `left`.
    #[tactic(auto, using(crate::proofs::CountedLemmas::step_counted))]
    #[inline(always)]
    pub fn step<E: EventKind<R, M>>(
        &mut self,
        part: &mut DeskPart<H>,
        ask: E::Ask,
        answer: &mut E::Answer,
        left: &mut E::Left,
    ) -> bool
        requires { E.is_blank left.old }
        ensures step { let said = E.answered answer.new left.new in Step self.old.panel (E.asked ask)
            (failed_in (E.asked ask) said self.old.panel.cage.cards self.new.panel.cage.cards) said self.new.panel }
        ensures back { E.hands_back ask answer.new }
        ensures cards { E.keeps self.old.cards ask answer.new left.new self.new.cards }
        ensures event { result ≡ is_event (E.answered answer.new left.new) }
        ensures asked { AsksInHistory H.first self.old.panel part.old.seat
            (event (E.asked ask) (E.answered answer.new left.new) self.new.panel) part.new.seat }
        ensures seen { IsPrefix part.old.seat.seen self.old.history × (part.new.seat.seen ≡ self.new.history) }
        ensures history { let said = E.answered answer.new left.new in self.new.history ≡ grown
            (is_event said) self.old.history (entry_of part.old.seat (said_at self.new.panel (E.asked ask) said)) }
        ensures share { part.new.amount ≡ part.old.amount
            + one_if (is_counted self.old.panel.events (E.answered answer.new left.new)) }
        ensures given { (self.new.given ≡ self.old.given) × (self.new.turn ≡ self.old.turn) }
        ensures notes { let said = E.answered answer.new left.new in notes_of self.new.history
            ≡ noted (is_event said) (notes_of self.old.history)
            (record { number = self.new.panel.events; ask = ask_kind (E.asked ask) }) }
    {
        runs_go_on();
        self.core.has_history();
        let before = self.core.events();
        let kind = E::kind(&ask);
        self.at_rest = rests_on::<R, M, E>(self.at_rest, &ask);
        let happened = self
            .core
            .ask::<E>(self.alloc, &mut part.seat, ask, answer, left);
        if !happened {
            return false;
        }
        let number = self.core.events();
        let note = Note { number, ask: kind };
        count(
            &mut self.notes,
            &mut self.events,
            &mut part.share,
            note,
            before,
        );
        true
    }

    /// Asks the mainframe, as `step` does, and gives its answer.
    pub fn ask(&mut self, part: &mut DeskPart<H>, ask: Ask<R, M>) -> Answer<R, M>
        ensures step { Step self.old.panel (ask_seen ask)
            (failed_in (ask_seen ask) (answer_seen result) self.old.panel.cage.cards self.new.panel.cage.cards)
            (answer_seen result) self.new.panel }
        ensures back { HandsBack ask result }
        ensures cards { Keeps self.old.cards ask result self.new.cards }
        ensures asked { AsksInHistory H.first self.old.panel part.old.seat
            (event (ask_seen ask) (answer_seen result) self.new.panel) part.new.seat }
        ensures seen { IsPrefix part.old.seat.seen self.old.history × (part.new.seat.seen ≡ self.new.history) }
        ensures history { self.new.history ≡ grown (is_event (answer_seen result)) self.old.history
            (entry_of part.old.seat (said_at self.new.panel (ask_seen ask) (answer_seen result))) }
        ensures share { part.new.amount
            ≡ part.old.amount + one_if (is_counted self.old.panel.events (answer_seen result)) }
        ensures given { (self.new.given ≡ self.old.given) × (self.new.turn ≡ self.old.turn) }
        ensures notes { notes_of self.new.history ≡ noted (is_event (answer_seen result)) (notes_of self.old.history)
            (record { number = self.new.panel.events; ask = ask_kind (ask_seen ask) }) }
    {
        let mut answer = Answer::Missed;
        self.step::<FromOutside>(part, ask, &mut answer, &mut ());
        answer
    }
}
