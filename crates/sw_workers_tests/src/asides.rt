//! What the first channels of sessions leave to the second ones: more than one message, of more than one session, and
//! by a desk that served another session before. The clients are the sessions after a crowd.

use crate::served::serve_by;
use crate::sessions::{
    ASYNC_INTERRUPTED, Client, IDENTIFIED, IDENTITY, INTERRUPTED, ONE, Play, ZERO, plays_after,
};
use crate::shop::{Shop, join_both, with_one};
use std::alloc::Global;
use std::sync::Wait;
use std::thread::Threads;
use std::time::Clock;
use sw_card::{Meter, Relay};
use sw_workers::{Gate, Mainframe, SharedDesk};

/// A query interrupts an answer that was not taken, and its own answer comes.
fn interrupts<W: Wait + Clock + Copy + Drop>(client: &Client<W>) -> bool {
    client.first.tells(IDENTITY, INTERRUPTED) && client.first.receives(IDENTIFIED)
}

/// Two messages that are left one after another are both written, and nothing else.
pub fn leaves_two<W: Wait + Clock + Copy + Drop>(one: &Client<W>) -> bool {
    let are_left = one.begins(1)
        && one.second.stops()
        && one.first.tells(IDENTITY, IDENTIFIED)
        && interrupts(one)
        && interrupts(one);
    one.second.goes_on();
    are_left
        && one.second.receives(ASYNC_INTERRUPTED)
        && one.second.receives(ASYNC_INTERRUPTED)
        && one.second.is_silent()
}

/// What is left in two sessions at once reaches each its own.
pub fn both_leave<W: Wait + Clock + Copy + Drop>(one: &Client<W>, other: &Client<W>) -> bool {
    let are_left = one.begins(1)
        && other.begins(2)
        && one.second.stops()
        && other.second.stops()
        && one.first.tells(IDENTITY, IDENTIFIED)
        && other.first.tells(IDENTITY, IDENTIFIED)
        && interrupts(one)
        && interrupts(other);
    one.second.goes_on();
    let is_first = one.second.receives(ASYNC_INTERRUPTED) && one.second.is_silent();
    other.second.goes_on();
    are_left && is_first && other.second.receives(ASYNC_INTERRUPTED) && other.second.is_silent()
}

/// A scan that pauses for an hour, with a query of its number of readings once it runs; and a query of its end.
const PAUSED: &[u8] = b"HS\x07\x00\xff\xff\xff\x00\x00\x00\x00\x00\x00\x00\x00\x36\
    ROUT:SCAN (@1!1);:TRIG:DEL 3600;:INIT;:TRAC:POIN:ACT?\n";

const AWAITED: &[u8] = b"HS\x07\x01\xff\xff\xff\x02\x00\x00\x00\x00\x00\x00\x00\x06*OPC?\n";

const ABORTED: &[u8] = b"HS\x07\x00\xff\xff\xff\x00\x00\x00\x00\x00\x00\x00\x00\x0bABOR;*OPC?\n";

const ONE_LATER: &[u8] = b"HS\x07\x00\xff\xff\xff\x02\x00\x00\x00\x00\x00\x00\x00\x021\n";

/// A session that waits for a scan proceeds where another aborts the scan in a pause.
pub fn aborts_a_pause<W: Wait + Clock + Copy + Drop>(one: &Client<W>, other: &Client<W>) -> bool {
    one.begins(1)
        && other.begins(2)
        && one.first.tells(PAUSED, ZERO)
        && one.first.sends(AWAITED)
        && one.first.is_silent()
        && other.first.tells(ABORTED, ONE)
        && one.first.receives(ONE_LATER)
}

impl<
    H: Mainframe + Send + Sync + 'static,
    R: Relay + Send + 'static,
    M: Meter + Send + 'static,
    G: Gate + Drop + Send + Sync + 'static,
    W: Threads + Wait + Clock + Copy + Drop + Send + Sync + 'static,
> Shop<H, R, M, G, W> {
    /// A connection breaks that was to write what its session's other one had left, and the desk that served it serves
    /// the next session's: nothing of the first one comes out there. Gives the desks back where all went as it should.
    pub fn serve_again(
        &self,
        rt: W,
        alloc: Global,
        one: &Client<W>,
        other: &Client<W>,
    ) -> Option<Vec<SharedDesk<H, R, M, G, W>>> {
        let desks = self.gather(rt, alloc, one.crowd)?;
        let third = self.connect(rt, alloc, &other.first)?;
        let (first, second) = self.connect_both(rt, alloc, one)?;
        let is_left = leaves_one(one, other);
        let fourth = serve_by(rt, alloc, second.join(&rt), &other.second);
        let goes = is_left && other.attaches(2) && other.second.is_silent();
        one.closes();
        other.closes();
        let desks = join_both(&rt, desks, (first, third))?;
        let desks = with_one(desks, fourth?.join(&rt))?;
        goes.then_some(desks)
    }
}

/// One message is left to a second channel that doesn't write it, while another session begins; then its connection
/// breaks.
fn leaves_one<W: Wait + Clock + Copy + Drop>(one: &Client<W>, other: &Client<W>) -> bool {
    let is_left = one.begins(1)
        && other.joins(2)
        && one.second.stops()
        && one.first.tells(IDENTITY, IDENTIFIED)
        && interrupts(one);
    one.second.breaks();
    one.second.goes_on();
    is_left
}

/// What two clients play.
const PLAYS: [Play; 14] = [
    Play::ServesAgain,
    Play::LeavesTwo,
    Play::BothLeave,
    Play::AbortsPause,
    Play::Asks,
    Play::Interrupted,
    Play::Cleared,
    Play::Locks,
    Play::Service,
    Play::Vanishes,
    Play::LeavesAside,
    Play::Breaks,
    Play::ClearsHeld,
    Play::LeavesPart,
];

/// What one client plays by itself.
const ALONE: [Play; 5] = [
    Play::LeavesTwo,
    Play::Asks,
    Play::Interrupted,
    Play::Cleared,
    Play::ClearsHeld,
];

/// Whether each of these goes as it should, once `crowd` sessions have joined.
fn all_go<W: Threads + Wait + Clock + Copy + Drop + Send + Sync + 'static>(
    rt: W,
    alloc: Global,
    crowd: u8,
    plays: &[Play],
) -> bool {
    plays
        .iter()
        .all(|play| plays_after(rt, alloc, crowd, *play))
}

#[test]
fn all_is_so_of_sessions_2_and_3(rt: HostRuntime) {
    assert!(rt; all_go(rt, rt.alloc(), 1, &PLAYS));
}

#[test]
fn all_is_so_of_sessions_15_and_16(rt: HostRuntime) {
    assert!(rt; all_go(rt, rt.alloc(), 14, &PLAYS));
}

#[test]
fn all_is_so_of_session_16_alone(rt: HostRuntime) {
    assert!(rt; all_go(rt, rt.alloc(), 15, &ALONE));
}
