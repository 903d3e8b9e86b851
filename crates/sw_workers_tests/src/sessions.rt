//! HiSLIP sessions over connections in memory, each served by a thread of its own.

ghost use Rattle.std.specs.Prelude.{◌≡◌};
ghost use Rattle.sw_core.specs.Opening.{IsFresh};
ghost use Rattle.sw_history.specs.Came.{AllCame};

use crate::asides::{aborts_a_pause, both_leave, leaves_two};
use crate::shop::{Shop, fitted, join_both};
use crate::wires::End;
use std::alloc::Global;
use std::marker::Brand;
use std::sync::Wait;
use std::thread::Threads;
use std::time::Clock;
use sw_card::{Meter, Relay};
use sw_kinds::{SimDriver, SimSource};
use sw_workers::{Gate, Mainframe, Open, Opening, SharedDesk};

/// A client: the ends of its two connections, and how many sessions joined before it began.
#[derive(Drop)]
pub struct Client<W: Wait + Clock + Copy + Drop> {
    pub first: End<W>,
    pub second: End<W>,
    pub crowd: u8,
}

/// Initialize for `hislip0`.
const INITIALIZE: &[u8] = b"HS\x00\x00\x01\x00XX\x00\x00\x00\x00\x00\x00\x00\x07hislip0";

/// AsyncInitializeResponse.
const ATTACHED: &[u8] = b"HS\x12\x00\x00\x00SW\x00\x00\x00\x00\x00\x00\x00\x00";

/// The query `*IDN?`, after an answer that the client didn't say it took; and its answer.
pub const IDENTITY: &[u8] = b"HS\x07\x00\xff\xff\xff\x00\x00\x00\x00\x00\x00\x00\x00\x06*IDN?\n";

pub const IDENTIFIED: &[u8] =
    b"HS\x07\x00\xff\xff\xff\x00\x00\x00\x00\x00\x00\x00\x00\x15OPENBENCH,SWM8,0,1.0\n";

/// AsyncStatusQuery, and its response with this status byte.
const STATUS: &[u8] = b"HS\x15\x00\xff\xff\xff\x00\x00\x00\x00\x00\x00\x00\x00\x00";

fn status(byte: u8) -> [u8; 16] {
    let mut response = *b"HS\x16\x00\x00\x00\x00\x00\x00\x00\x00\x00\x00\x00\x00\x00";
    response[3] = byte;
    response
}

impl<W: Wait + Clock + Copy + Drop> Client<W> {
    /// A client that has not begun yet.
    pub fn new(alloc: Global, rt: W, crowd: u8) -> Option<Self> {
        Some(Client {
            first: End::new(alloc, rt).ok()?,
            second: End::new(alloc, rt).ok()?,
            crowd,
        })
    }

    /// Nothing more is sent.
    pub fn closes(&self) {
        self.first.close();
        self.second.close();
    }

    /// Whether a session gets both channels, the first, the second and so on after the crowd.
    pub fn begins(&self, nth: u8) -> bool {
        self.joins(nth) && self.attaches(nth)
    }

    /// Whether it gets its first channel.
    pub fn joins(&self, nth: u8) -> bool {
        let mut joined = *b"HS\x01\x00\x01\x00\x00\x00\x00\x00\x00\x00\x00\x00\x00\x00";
        joined[7] = self.crowd.saturating_add(nth);
        self.first.tells(INITIALIZE, &joined)
    }

    /// Whether it gets its second channel.
    pub fn attaches(&self, nth: u8) -> bool {
        let mut attach = *b"HS\x11\x00\x00\x00\x00\x00\x00\x00\x00\x00\x00\x00\x00\x00";
        attach[7] = self.crowd.saturating_add(nth);
        self.second.tells(&attach, ATTACHED)
    }

    /// Sends the header of the query in pieces, and asks for the status when it was answered.
    pub fn asks(&self) -> bool {
        let (front, back) = IDENTITY.split_at(5);
        self.begins(1)
            && self.first.sends(front)
            && self.first.is_silent()
            && self.first.tells(back, IDENTIFIED)
            && self.second.comes_to_tell(STATUS, &status(16))
            && self.second.is_silent()
    }

    /// A query interrupts an answer that was not taken. Both connections say so.
    pub fn is_interrupted(&self) -> bool {
        self.begins(1)
            && self.first.tells(IDENTITY, IDENTIFIED)
            && self.first.tells(IDENTITY, INTERRUPTED)
            && self.first.receives(IDENTIFIED)
            && self.second.receives(ASYNC_INTERRUPTED)
            && self.second.is_silent()
    }

    /// A device clear drops the part that has come of a program message.
    pub fn is_cleared(&self) -> bool {
        self.begins(1)
            && self.first.sends(BEGUN)
            && self.second.tells(CLEAR, CLEARING)
            && self.first.tells(CLEAR_COMPLETE, CLEARED)
            && self.first.tells(IDENTITY, IDENTIFIED)
    }
}

impl<W: Wait + Clock + Copy + Drop> Client<W> {
    /// A device clear makes a session give up a held query, which is never answered. The scan that it waits for stays.
    pub fn clears_what_is_held(&self) -> bool {
        self.begins(1)
            && self.first.sends(HELD)
            && self.second.comes_to_tell(STATUS, &status(128))
            && self.first.is_silent()
            && self.second.tells(CLEAR, CLEARING)
            && self.first.tells(CLEAR_COMPLETE, CLEARED)
            && self.first.tells(CONDITION, WAITS_FOR_TRIGGER)
    }
}

/// Interrupted and AsyncInterrupted with the parameter of the query.
pub const INTERRUPTED: &[u8] = b"HS\x0d\x00\xff\xff\xff\x00\x00\x00\x00\x00\x00\x00\x00\x00";

pub const ASYNC_INTERRUPTED: &[u8] = b"HS\x0e\x00\xff\xff\xff\x00\x00\x00\x00\x00\x00\x00\x00\x00";

/// Data with the beginning of a program message.
const BEGUN: &[u8] = b"HS\x06\x00\xff\xff\xff\x00\x00\x00\x00\x00\x00\x00\x00\x03*ID";

/// AsyncDeviceClear, AsyncDeviceClearAcknowledge, DeviceClearComplete and DeviceClearAcknowledge.
const CLEAR: &[u8] = b"HS\x13\x00\x00\x00\x00\x00\x00\x00\x00\x00\x00\x00\x00\x00";

const CLEARING: &[u8] = b"HS\x17\x00\x00\x00\x00\x00\x00\x00\x00\x00\x00\x00\x00\x00";

const CLEAR_COMPLETE: &[u8] = b"HS\x08\x00\x00\x00\x00\x00\x00\x00\x00\x00\x00\x00\x00\x00";

const CLEARED: &[u8] = b"HS\x09\x00\x00\x00\x00\x00\x00\x00\x00\x00\x00\x00\x00\x00";

/// `ROUTe:CLOSe? (@1!1)`, and its answers 0 and 1.
const CLOSED_QUERY: &[u8] =
    b"HS\x07\x00\xff\xff\xff\x00\x00\x00\x00\x00\x00\x00\x00\x12ROUT:CLOS? (@1!1)\n";

/// `ROUTe:CLOSe (@1!1)`, and a query for its end.
const CLOSE: &[u8] =
    b"HS\x07\x00\xff\xff\xff\x00\x00\x00\x00\x00\x00\x00\x00\x17ROUT:CLOS (@1!1);*OPC?\n";

pub const ONE: &[u8] = b"HS\x07\x00\xff\xff\xff\x00\x00\x00\x00\x00\x00\x00\x00\x021\n";

pub const ZERO: &[u8] = b"HS\x07\x00\xff\xff\xff\x00\x00\x00\x00\x00\x00\x00\x00\x020\n";

/// A scan that waits for the bus, which the status byte shows, and a query that waits for its end.
const HELD: &[u8] = b"HS\x07\x00\xff\xff\xff\x00\x00\x00\x00\x00\x00\x00\x00\x3f\
    ROUT:SCAN (@1!1);:TRIG:SOUR BUS;:STAT:OPER:ENAB 32;:INIT;*OPC?\n";

/// The query for what a scan waits for, and its answer where that is a trigger.
const CONDITION: &[u8] =
    b"HS\x07\x00\xff\xff\xff\x00\x00\x00\x00\x00\x00\x00\x00\x10STAT:OPER:COND?\n";

const WAITS_FOR_TRIGGER: &[u8] = b"HS\x07\x00\xff\xff\xff\x00\x00\x00\x00\x00\x00\x00\x00\x0332\n";

/// Data with a command that would close a channel, and AsyncLock for the lock that sessions with the key `k` share.
const BEGUN_CLOSING: &[u8] =
    b"HS\x06\x00\xff\xff\xff\x00\x00\x00\x00\x00\x00\x00\x00\x11ROUT:CLOS (@1!1);";

const LOCK_WITH_OTHERS: &[u8] = b"HS\x04\x01\x00\x00\x00\x00\x00\x00\x00\x00\x00\x00\x00\x01k";

/// AsyncLock for the exclusive lock, within no time and within 60 seconds; its release; and the answer that it was
/// granted or freed.
const LOCK: &[u8] = b"HS\x04\x01\x00\x00\x00\x00\x00\x00\x00\x00\x00\x00\x00\x00";

const LOCK_LATER: &[u8] = b"HS\x04\x01\x00\x00\xea\x60\x00\x00\x00\x00\x00\x00\x00\x00";

const RELEASE: &[u8] = b"HS\x04\x00\x00\x00\x00\x00\x00\x00\x00\x00\x00\x00\x00\x00";

const LOCKED: &[u8] = b"HS\x05\x01\x00\x00\x00\x00\x00\x00\x00\x00\x00\x00\x00\x00";

/// AsyncLockInfo, and its response that no session holds a lock.
const LOCK_INFO: &[u8] = b"HS\x18\x00\x00\x00\x00\x00\x00\x00\x00\x00\x00\x00\x00\x00";

const UNLOCKED: &[u8] = b"HS\x19\x00\x00\x00\x00\x00\x00\x00\x00\x00\x00\x00\x00\x00";

/// Two messages, the second an error for which the first asks to be served, and AsyncServiceRequest with the status
/// byte.
const SERVICE: &[u8] = b"HS\x07\x00\xff\xff\xff\x00\x00\x00\x00\x00\x00\x00\x00\x07*SRE 4\n\
    HS\x07\x00\xff\xff\xff\x02\x00\x00\x00\x00\x00\x00\x00\x04FOO\n";

const SERVICE_REQUEST: &[u8] = b"HS\x14\x44\x00\x00\x00\x00\x00\x00\x00\x00\x00\x00\x00\x00";

/// What two clients play.
#[derive(Clone, Copy, Debug, PartialEq, Eq)]
pub enum Play {
    ServesAgain,
    LeavesTwo,
    BothLeave,
    AbortsPause,
    Asks,
    Interrupted,
    Cleared,
    Locks,
    Service,
    Vanishes,
    LeavesAside,
    Breaks,
    ClearsHeld,
    LeavesPart,
}

impl Play {
    /// Whether all goes as it should.
    fn goes<W: Wait + Clock + Copy + Drop>(self, one: &Client<W>, other: &Client<W>) -> bool {
        match self {
            Play::ServesAgain => false,
            Play::LeavesTwo => leaves_two(one),
            Play::BothLeave => both_leave(one, other),
            Play::AbortsPause => aborts_a_pause(one, other),
            Play::Asks => one.asks(),
            Play::Interrupted => one.is_interrupted(),
            Play::Cleared => one.is_cleared(),
            Play::Locks => locks_out(one, other),
            Play::Service => asks_for_service(one, other),
            Play::Vanishes => vanishes(one, other),
            Play::LeavesAside => leaves_aside(one, other),
            Play::Breaks => breaks_with_the_lock(one, other),
            Play::ClearsHeld => one.clears_what_is_held(),
            Play::LeavesPart => leaves_a_part(one, other),
        }
    }
}

/// A lock holds the other session's query, and its request for the lock, until it is freed. That session gets its
/// status at once.
fn locks_out<W: Wait + Clock + Copy + Drop>(one: &Client<W>, other: &Client<W>) -> bool {
    one.begins(1)
        && other.begins(2)
        && one.second.tells(LOCK, LOCKED)
        && other.first.sends(CLOSED_QUERY)
        && other.second.tells(STATUS, &status(0))
        && other.second.sends(LOCK_LATER)
        && one.first.tells(CLOSE, ONE)
        && other.first.is_silent()
        && other.second.is_silent()
        && one.second.tells(RELEASE, LOCKED)
        && other.second.receives(LOCKED)
        && other.first.receives(ONE)
}

/// Both sessions get a service request, at a pause. The first status query reports it, the next one doesn't.
fn asks_for_service<W: Wait + Clock + Copy + Drop>(one: &Client<W>, other: &Client<W>) -> bool {
    one.begins(1)
        && other.begins(2)
        && one.first.sends(SERVICE)
        && one.second.receives(SERVICE_REQUEST)
        && other.second.receives(SERVICE_REQUEST)
        && one.second.is_silent()
        && one.second.tells(STATUS, &status(68))
        && one.second.tells(STATUS, &status(4))
}

/// A client with the lock closes its connections within a message, and the next one has its number and nothing else of
/// it.
fn vanishes<W: Wait + Clock + Copy + Drop>(one: &Client<W>, other: &Client<W>) -> bool {
    let (front, _) = IDENTITY.split_at(19);
    let is_gone = one.begins(1)
        && one.second.tells(LOCK, LOCKED)
        && one.first.tells(IDENTITY, IDENTIFIED)
        && one.first.sends(front);
    one.first.close();
    one.second.close();
    is_gone
        && one.first.ends()
        && one.second.ends()
        && one.first.is_silent()
        && other.begins(1)
        && other.second.tells(LOCK_INFO, UNLOCKED)
        && other.second.tells(STATUS, &status(0))
        && other.first.tells(IDENTITY, IDENTIFIED)
}

/// A session that has the lock and a connection that fails stops no other.
fn breaks_with_the_lock<W: Wait + Clock + Copy + Drop>(one: &Client<W>, other: &Client<W>) -> bool {
    let is_held = one.begins(1)
        && other.begins(2)
        && one.second.tells(LOCK, LOCKED)
        && other.first.sends(CLOSED_QUERY)
        && other.first.is_silent();
    one.first.breaks();
    is_held && other.first.receives(ZERO)
}

/// A session that leaves within a program message, with a lock that others may share, has done and keeps nothing.
fn leaves_a_part<W: Wait + Clock + Copy + Drop>(one: &Client<W>, other: &Client<W>) -> bool {
    let is_gone = one.begins(1)
        && one.second.tells(LOCK_WITH_OTHERS, LOCKED)
        && one.first.sends(BEGUN_CLOSING)
        && one.first.is_silent();
    one.first.close();
    one.second.close();
    is_gone
        && one.first.ends()
        && one.second.ends()
        && other.begins(1)
        && other.second.tells(LOCK_INFO, UNLOCKED)
        && other.first.tells(CLOSED_QUERY, ZERO)
}

/// What is left to a second channel that doesn't write it never reaches the next session of the number.
fn leaves_aside<W: Wait + Clock + Copy + Drop>(one: &Client<W>, other: &Client<W>) -> bool {
    let is_left = one.begins(1)
        && one.second.stops()
        && one.first.tells(IDENTITY, IDENTIFIED)
        && one.first.tells(IDENTITY, INTERRUPTED)
        && one.first.receives(IDENTIFIED);
    one.first.close();
    let is_next = is_left
        && one.first.ends()
        && other.begins(1)
        && other.second.tells(STATUS, &status(4))
        && other.second.is_silent();
    one.second.goes_on();
    is_next && one.second.is_silent() && other.second.is_silent()
}

impl<
    H: Mainframe + Send + Sync + 'static,
    R: Relay + Send + 'static,
    M: Meter + Send + 'static,
    G: Gate + Drop + Send + Sync + 'static,
    W: Threads + Wait + Clock + Copy + Drop + Send + Sync + 'static,
> Shop<H, R, M, G, W> {
    /// Serves both connections of two clients that play, and gives the desks back where all went as it should.
    fn serve_clients(
        &self,
        rt: W,
        alloc: Global,
        crowd: u8,
        play: Play,
    ) -> Option<Vec<SharedDesk<H, R, M, G, W>>> {
        let one = Client::new(alloc, rt, crowd)?;
        let other = Client::new(alloc, rt, crowd)?;
        match play {
            Play::ServesAgain => self.serve_again(rt, alloc, &one, &other),
            _ => self.serve_both(rt, alloc, &one, &other, play),
        }
    }

    /// Serves both connections of these two clients, which play. Gives the desks back where all went as it should.
    fn serve_both(
        &self,
        rt: W,
        alloc: Global,
        one: &Client<W>,
        other: &Client<W>,
        play: Play,
    ) -> Option<Vec<SharedDesk<H, R, M, G, W>>> {
        let desks = self.gather(rt, alloc, one.crowd)?;
        let of_one = self.connect_both(rt, alloc, one)?;
        let of_other = self.connect_both(rt, alloc, other)?;
        let goes = play.goes(one, other);
        one.closes();
        other.closes();
        let desks = join_both(&rt, desks, of_one)?;
        let desks = join_both(&rt, desks, of_other)?;
        goes.then_some(desks)
    }
}

/// Plays over a mainframe that is put behind its lock, and closes it down. Whether all went as it should.
fn play_behind<
    H: Mainframe + Send + Sync + 'static,
    R: Relay + Send + 'static,
    M: Meter + Send + 'static,
    G: Gate + Drop + Send + Sync + 'static,
    W: Threads + Wait + Clock + Copy + Drop + Send + Sync + 'static,
>(rt: W, alloc: Global, opening: Opening<R, M>, gate: G, crowd: u8, play: Play) -> bool
    requires first { (opening.core.seen ≡ H.first) × IsFresh opening.core.seen }
    requires came { AllCame H.came opening.core.cards }
    requires ledger { (opening.blank.name ≡ H.name) × (opening.blank.parts ≡ H.parts) }
    requires board { (opening.board.table.shared.table_id ≡ H.table) × (opening.board.table.shared.key ≡ H.opening) }
{
    let Some(shop) = Shop::<H, R, M, G, W>::open(rt, alloc, opening, gate) else {
        return false;
    };
    match shop.serve_clients(rt, alloc, crowd, play) {
        Some(desks) => shop.close(rt, alloc, desks).is_some(),
        None => false,
    }
}

/// Plays over a new mainframe, and closes it down. Whether all went as it should.
fn plays<W: Threads + Wait + Clock + Copy + Drop + Send + Sync + 'static>(
    rt: W,
    alloc: Global,
    play: Play,
) -> bool {
    plays_after(rt, alloc, 0, play)
}

/// The same once `crowd` sessions have joined, so that the clients are the sessions after these.
pub fn plays_after<W: Threads + Wait + Clock + Copy + Drop + Send + Sync + 'static>(
    rt: W,
    alloc: Global,
    crowd: u8,
    play: Play,
) -> bool {
    let Some(core) = fitted(alloc, SimDriver::new(), SimSource::new(1, 1)) else {
        return false;
    };
    match Opening::new(alloc, core) {
        Ok(opening) => play_behind::<Brand, _, _, Open, W>(rt, alloc, opening, Open, crowd, play),
        Err(_) => false,
    }
}

#[test]
fn both_channels_of_a_session_are_answered(rt: HostRuntime) {
    assert!(rt; plays(rt, rt.alloc(), Play::Asks));
}

#[test]
fn an_interrupted_answer_is_told_on_both_connections(rt: HostRuntime) {
    assert!(rt; plays(rt, rt.alloc(), Play::Interrupted));
}

#[test]
fn a_device_clear_goes_over_both_connections(rt: HostRuntime) {
    assert!(rt; plays(rt, rt.alloc(), Play::Cleared));
}

#[test]
fn a_lock_holds_the_other_session_until_it_is_freed(rt: HostRuntime) {
    assert!(rt; plays(rt, rt.alloc(), Play::Locks));
}

#[test]
fn a_service_request_is_told_at_a_pause(rt: HostRuntime) {
    assert!(rt; plays(rt, rt.alloc(), Play::Service));
}

#[test]
fn a_client_that_vanishes_leaves_nothing_to_the_next(rt: HostRuntime) {
    assert!(rt; plays(rt, rt.alloc(), Play::Vanishes));
}

#[test]
fn what_was_left_aside_never_reaches_the_next_session(rt: HostRuntime) {
    assert!(rt; plays(rt, rt.alloc(), Play::LeavesAside));
}

#[test]
fn a_lock_is_freed_where_its_session_fails(rt: HostRuntime) {
    assert!(rt; plays(rt, rt.alloc(), Play::Breaks));
}

#[test]
fn a_device_clear_gives_up_what_is_held(rt: HostRuntime) {
    assert!(rt; plays(rt, rt.alloc(), Play::ClearsHeld));
}

#[test]
fn a_session_that_leaves_within_a_message_has_done_nothing(rt: HostRuntime) {
    assert!(rt; plays(rt, rt.alloc(), Play::LeavesPart));
}
