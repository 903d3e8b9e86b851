//! The mainframe behind one lock, and what wakes the threads that wait for it.

ghost use Rattle.std.specs.Prelude.{◌≡◌, ◌+◌, ◌≤◌, [], IfErr, IfOk, IfSome, IfNone, None, Some, sum_by, replicate};
ghost use Rattle.std.specs.Vec.{vec_capacity};
ghost use Rattle.sw_base.specs.Limits.{most_sessions, most_slots};
ghost use Rattle.sw_cage.specs.Accounts.{accounts_of};
ghost use Rattle.sw_core.specs.Opening.{IsFresh};
ghost use Rattle.sw_talk.specs.CoreDesk.{piece_seen};
ghost use Rattle.sw_history.specs.Came.{AllCame};
ghost use Rattle.sw_history.specs.Closing.{IsClosedDown};
ghost use Rattle.sw_history.specs.History.{pair_of};
ghost use Rattle.sw_history.specs.Opened.{OpensAll};
ghost use Rattle.sw_core.specs.declared.ask.SessionAnswer.TheVariants.{Joined};
ghost use Rattle.sw_history.specs.Said.{session_told};
ghost use Rattle.sw_history.specs.Shares.{all_parts};
ghost use Rattle.sw_workers.specs.Waits.{outcome_of};
ghost use Rattle.sw_history.specs.Asks.{AsksOnce};
ghost use Rattle.sw_connections.specs.Reads.{ReadsStatus};
ghost use Rattle.sw_workers.specs.declared.shared.Woken.TheVariants.{Closing};

use crate::behind_lock::BehindLock;
use crate::closing::{Closed, close_held};
use crate::desk::SharedDesk;
use crate::gate::Gate;
use crate::halves::Halves;
use crate::mainframe::Mainframe;
use crate::tried::lock_soon;
use crate::work_channels::{WorkReceivers, WorkSenders, work_posts};
use crossbeam_utils::CachePadded;
use std::alloc::{AllocError, Global};
use std::sync::ledger::Blank;
use std::sync::{Arc, Condvar, Mutex, Wait};
use std::time::{Clock, Duration};
use sw_card::{Card, Meter, Relay};
use sw_connections::{Connections, Room, Serving, Session};
use sw_core::{Core, Work, runs_go_on};
use sw_history::{BlankBoard, DeskPart, EventKind, Held, Note, Recorded, StatusBoard};
use sw_session::View;

/// How many parts a ledger has.
const PARTS: u64 = (1 << 33) + 1;

/// A mainframe that was just made and offered cards, with a ledger and a board that have no name yet.
pub struct Opening<R: Relay, M: Meter> {
    /// The mainframe.
    pub core: Core<R, M>,
    /// Its ledger.
    pub blank: Blank,
    /// Its status board, with the core's pair.
    pub board: BlankBoard,
    pub ghost whole: { blank.parts ≡ all_parts },
    pub ghost pair: { board.table.shared.key ≡ pair_of core.seen },
}

impl<R: Relay, M: Meter> Opening<R, M> {
    /// A mainframe with a new ledger and a new board.
    pub fn new(alloc: Global, core: Core<R, M>) -> Result<Self, AllocError>
        requires { IsFresh core.seen }
        ensures { IfOk result (λ opening. opening.core ≡ core) }
    {
        runs_go_on();
        let board = BlankBoard::new(alloc, core.pair())?;
        let blank = Blank::new(PARTS);
        Ok(Opening { core, blank, board })
    }
}

/// What a wait for another turn ends with.
#[derive(Clone, Copy, Debug, PartialEq, Eq)]
pub enum Woken {
    /// The mainframe's turn is another one.
    Turned,
    /// The time is up.
    Unchanged,
    /// The end has begun.
    Closing,
}

/// The outcome of a look at the mainframe's turn: a wait continues while the turn is `seen` and the end hasn't begun.
fn outcome_of(seen: u64, turn: u64, is_closing: bool) -> Woken
    ensures { result ≡ outcome_of seen turn is_closing }
{
    if is_closing {
        Woken::Closing
    } else if turn == seen {
        Woken::Unchanged
    } else {
        Woken::Turned
    }
}

/// What the threads share beside the mainframe itself, and the ends of the channels of its work.
#[derive(Drop)]
struct Rooms<H: Mainframe, M: Meter> {
    halves: Halves<H>,
    connections: Arc<Connections, Global>,
    senders: WorkSenders<M>,
    receivers: WorkReceivers<M>,
}

impl<H: Mainframe, M: Meter> Rooms<H, M> {
    fn new(alloc: Global) -> Result<Self, AllocError>
        ensures { IfOk result (λ rooms. rooms.halves ≡ replicate most_sessions None) }
    {
        let halves = Halves::new(alloc)?;
        let connections = Arc::new(alloc, Connections::new(alloc)?)?;
        let (senders, receivers) = work_posts(alloc)?;
        Ok(Rooms {
            halves,
            connections,
            senders,
            receivers,
        })
    }
}

/// What a new mainframe keeps behind its lock, and the status board that it publishes to.
fn behind_lock<H: Mainframe, R: Relay, M: Meter>(
    alloc: Global,
    opening: Opening<R, M>,
) -> Result<(Held<H, R, M>, Arc<StatusBoard<H>, Global>), AllocError>
    requires first { opening.core.seen ≡ H.first }
    requires fresh { IsFresh opening.core.seen }
    requires came { AllCame H.came opening.core.cards }
    requires ledger { (opening.blank.name ≡ H.name) × (opening.blank.parts ≡ H.parts) }
    requires board { (opening.board.table.shared.table_id ≡ H.table)
        × (opening.board.table.shared.key ≡ H.opening) }
{
    let Opening { core, blank, board } = opening;
    let (events, spare) = blank.open::<H>();
    let (board, pass) = board.open::<H>();
    let board = match shared_twice(alloc, board) {
        Ok(board) => board,
        Err(fault) => {
            drop(core);
            return Err(fault);
        }
    };
    let recorded = Recorded::new(core, pass, board.0);
    let held = Held::new(alloc, recorded, events, spare)?;
    Ok((held, board.1))
}

/// A board for two owners.
fn shared_twice<H: Mainframe>(
    alloc: Global,
    board: StatusBoard<H>,
) -> Result<(Arc<StatusBoard<H>, Global>, Arc<StatusBoard<H>, Global>), AllocError> {
    let board = Arc::new(alloc, board)?;
    let copy = Arc::try_clone(&board)?;
    Ok((copy, board))
}

/// What all threads share.
#[derive(Drop)]
pub struct Shared<H: Mainframe, R: Relay, M: Meter, G: Gate + Drop> {
    /// On cache lines of its own: what is beside it is read by threads that don't have the lock.
    locked: CachePadded<Mutex<BehindLock<H, R, M>>>,
    /// Wakes the threads that wait: something happened that may admit a held ask.
    happened: Condvar,
    board: Arc<StatusBoard<H>, Global>,
    senders: Mutex<Option<WorkSenders<M>>>,
    connections: Arc<Connections, Global>,
    alloc: Global,
    gate: G,
}

impl<H: Mainframe, R: Relay, M: Meter, G: Gate + Drop> Shared<H, R, M, G> {
    /// The mainframe behind its lock, and the receiving ends of its work.
    pub fn new(
        alloc: Global,
        opening: Opening<R, M>,
        gate: G,
    ) -> Result<(Self, WorkReceivers<M>), AllocError>
        requires first { opening.core.seen ≡ H.first }
        requires fresh { IsFresh opening.core.seen }
        requires came { AllCame H.came opening.core.cards }
        requires ledger { (opening.blank.name ≡ H.name) × (opening.blank.parts ≡ H.parts) }
        requires board { (opening.board.table.shared.table_id ≡ H.table)
            × (opening.board.table.shared.key ≡ H.opening) }
    {
        let (held, board) = behind_lock(alloc, opening)?;
        let rooms = match Rooms::new(alloc) {
            Ok(rooms) => rooms,
            Err(fault) => {
                drop(held);
                drop(board);
                return Err(fault);
            }
        };
        let Rooms {
            halves,
            connections,
            senders,
            receivers,
        } = rooms;
        let shared = Shared {
            locked: CachePadded::new(Mutex::new(BehindLock::new(held, halves))),
            happened: Condvar::new(),
            board,
            senders: Mutex::new(Some(senders)),
            connections,
            alloc,
            gate,
        };
        Ok((shared, receivers))
    }

    /// The gate that each thread passes before a `Point`.
    pub fn gate(&self) -> &G {
        &self.gate
    }

    /// What the thread of one more desk serves: nothing yet. None where there is no memory.
    pub fn serving(&self) -> Option<Arc<Serving<H>, Global>> {
        let connections = Arc::try_clone(&self.connections).ok()?;
        Arc::new(self.alloc, Serving::new(self.alloc, connections)).ok()
    }

    /// A part for one more desk. None where there are 2^33 desks, or the end has begun.
    pub fn part<W: Wait>(&self, rt: &W) -> Option<DeskPart<H>>
        ensures { IfSome result (λ part. (part.amount ≡ 0) × (part.seat.mine ≡ [])) }
    {
        self.locked.lock(rt).new_part()
    }

    /// Makes an ask of any kind under the lock, and gives the turn after it, and the session that it brings the desk.
    /// The threads of one that has just joined share this room. If it changes the turn, it wakes the threads that wait.
    /// It leaves the answer in `answer`, and what comes beside it in `left`.
    #[inline(always)]
    pub fn act<E: EventKind<R, M>, W: Wait>(
        &self,
        rt: &W,
        part: &mut DeskPart<H>,
        room: Option<Arc<Room<H>, Global>>,
        ask: E::Ask,
        answer: &mut E::Answer,
        left: &mut E::Left,
    ) -> (u64, Option<Session<H>>)
        requires { E.is_blank left.old }
        ensures once { AsksOnce H.first (E.asked ask) (E.answered answer.new left.new) part.old part.new }
        ensures session { IfSome result.1 (λ session.
            session_told (E.answered answer.new left.new) ≡ Some (Joined session)) }
    {
        let mut guard = lock_soon(&self.locked, rt);
        let before = guard.held.turn();
        let session = guard.act::<E>(part, room, ask, answer, left);
        let turn = guard.held.turn();
        drop(guard);
        if turn != before {
            self.happened.notify_all();
        }
        (turn, session)
    }

    /// Ends the scan that runs and opens every relay under one lock, and wakes the threads that wait. It gives the turn
    /// after that.
    pub fn open_all<W: Wait>(&self, rt: &W, part: &mut DeskPart<H>) -> u64
        ensures { OpensAll H.first part.new }
    {
        let mut guard = lock_soon(&self.locked, rt);
        guard.open_all(part);
        let turn = guard.held.turn();
        drop(guard);
        self.happened.notify_all();
        turn
    }

    /// Sends a piece of work to its worker, or gives it back.
    pub fn send<W: Wait + Clock>(&self, rt: &W, piece: Work<M>) -> Option<Work<M>>
        ensures sent { IfNone result (H.sent (piece_seen piece)) }
        ensures back { IfSome result (λ back. piece_seen back ≡ piece_seen piece) }
    {
        let guard = self.senders.lock(rt);
        let Some(senders) = &*guard else {
            return Some(piece);
        };
        senders.send::<H, W>(rt, piece)
    }

    /// Waits at most `ms` milliseconds until the mainframe's turn is another than `seen`, or the end begins.
    pub fn wait<W: Wait + Clock>(&self, rt: &W, seen: u64, ms: u32) -> Woken
        ensures { result ≡ Closing → H.over }
    {
        let guard = self.locked.lock(rt);
        let (guard, _) = self
            .happened
            .wait_timeout_while(rt, guard, Duration::from_millis(ms as u64), |locked| {
                outcome_of(seen, locked.held.turn(), locked.held.is_closing()) == Woken::Unchanged
            });
        outcome_of(seen, guard.held.turn(), guard.held.is_closing())
    }

    /// Leaves what the desk of a session's first channel has seen, for the session's next look at its status.
    pub fn leave_seen<W: Wait>(&self, rt: &W, session: &Session<H>, part: &mut DeskPart<H>)
        ensures { part.new ≡ part.old }
    {
        session.leave_seen(rt, part, &self.board);
    }

    /// Looks at the status, as of a desk's session where one is given: only that has messages for the desk. It doesn't
    /// wait for the mainframe.
    pub fn poll<W: Wait>(
        &self,
        rt: &W,
        part: &mut DeskPart<H>,
        session: Option<&Session<H>>,
    ) -> View
        ensures { ReadsStatus H.first result part.old part.new }
    {
        match session {
            Some(session) => session.look(rt, part, &self.board),
            None => {
                let (byte, requests) = part.read(&self.board);
                View {
                    byte,
                    requests,
                    mav: false,
                }
            }
        }
    }

    /// The notes of the last 64 events, the oldest first.
    pub fn recent<W: Wait>(&self, rt: &W) -> Result<Vec<Note>, AllocError> {
        self.locked.lock(rt).held.recent()
    }

    /// Serves no connection that comes from now on, and reads nothing more from those that it serves: each session ends
    /// after its current message. Or it ends all connections at once.
    pub fn end_lines<W: Wait>(&self, rt: &W, is_at_once: bool) {
        self.connections.end_all(rt, is_at_once);
    }

    /// Ends every wait, and sends no more work: workers end once they have taken what was sent.
    pub fn end_work<W: Wait>(&self, rt: &W) {
        self.locked.lock(rt).close();
        self.happened.notify_all();
        let ended = self.senders.lock(rt).take();
        drop(ended);
    }

    /// Closes down, where all is at rest: the caller gives every desk back. Under one lock it gives the number of
    /// events, which is the opening number plus all that the shares counted, and takes the cards out of their slots,
    /// with nothing closed. Each meter is one that came into its slot. Else it gives the desks back.
    pub fn close_down<W: Wait + Clock + Copy + Drop>(
        &self,
        rt: &W,
        desks: Vec<SharedDesk<H, R, M, G, W>>,
        room: Vec<Option<Card<R, M>>>,
    ) -> Result<Closed<R, M>, Vec<SharedDesk<H, R, M, G, W>>>
        requires room { (room.items ≡ []) × (most_slots ≤ vec_capacity room) }
        ensures events { IfOk result (λ closed.
            closed.events ≡ H.first.events + sum_by (λ desk. desk.part.amount) desks.items) }
        ensures cards { IfOk result (λ closed.
            IsClosedDown H.first closed.events (accounts_of closed.cards.items)) }
        ensures came { IfOk result (λ closed. AllCame H.came closed.cards.items) }
        ensures back { IfErr result (λ back. back.items ≡ desks.items) }
    {
        let mut guard = self.locked.lock(rt);
        close_held(&mut guard.held, desks, room)
    }
}
