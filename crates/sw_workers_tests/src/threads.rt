//! A mainframe that several threads share: what is asked while a worker is stopped, what a lock holds, what is seen of
//! a session's status, and what closing it down gives.

use crate::lasting::{Paused, goes_far, lasts};
use crate::latches::{Latch, LatchedDriver, LatchedGate, LatchedSource, SharedLatch, turn};
use crate::notes::{is_attached_anew, is_succeeded, looks};
use crate::shop::{comes_to_tell, join, locks, played, played_by, releases, tells};
use crate::timers::{Signalled, outpaces};
use crate::waiters::{go_on_together, misses_no_wake, uses_its_limit_up};
use crate::wakes::is_undisturbed;
use std::alloc::Global;
use std::sync::Wait;
use std::test::Fail;
use std::thread;
use std::thread::Threads;
use std::time::Clock;
use sw_core::Sid;
use sw_kinds::{SimDriver, SimSource};
use sw_session::{Desk, View};
use sw_workers::{AskKind, Note, Open, Point};

/// What is played by three desks.
#[derive(Drop)]
pub enum Scene<C: Clock + Drop> {
    Meanwhile(Meanwhile<C>),
    Locked(Locked<C>),
    Busy(Busy<C>),
    Awaited(Awaited<C>),
    Signalled(Signalled<C>),
    Outpaced,
    Looked,
    Together,
    Missed,
    UsedUp,
    Lasts(Paused),
    Far,
    Succeeded,
    Attached,
    Undisturbed,
    Closes,
    AtOnce,
}

impl<W: Threads + Wait + Clock + Copy + Drop + Send + Sync + 'static> Scene<W> {
    /// Gives the desks back, where all went as it should.
    pub fn play<D: Desk + Drop + Send + 'static>(
        &self,
        rt: W,
        alloc: Global,
        first: D,
        second: D,
        third: D,
    ) -> Option<(D, D, D)> {
        match self {
            Scene::Meanwhile(scene) => scene.play(rt, alloc, first, second, third),
            Scene::Locked(scene) => scene.play(rt, alloc, first, second, third),
            Scene::Outpaced => outpaces(alloc, first, second, third),
            Scene::Looked => looks(alloc, first, second, third),
            Scene::Together => go_on_together(rt, alloc, first, second, third),
            Scene::Missed => misses_no_wake(alloc, first, second, third),
            Scene::UsedUp => uses_its_limit_up(rt, alloc, first, second, third),
            Scene::Lasts(scan) => lasts(&rt, alloc, scan, first, second, third),
            Scene::Far => goes_far(alloc, first, second, third),
            Scene::Succeeded => is_succeeded(first, second, third),
            Scene::Attached => is_attached_anew(first, second, third),
            Scene::Undisturbed => is_undisturbed(alloc, first, second, third),
            Scene::Closes => closes(alloc, first, second, third),
            Scene::AtOnce => asks_at_once(rt, alloc, first, second, third),
            Scene::Busy(scene) => scene.play(rt, alloc, first, second, third),
            Scene::Awaited(scene) => scene.play(rt, alloc, first, second, third),
            Scene::Signalled(scene) => scene.play(rt, alloc, first, second, third),
        }
    }
}

/// A scan begins. What it awaits continues only once two sessions were answered, one of them with OPERation's
/// condition.
#[derive(Drop)]
pub struct Meanwhile<C: Clock + Drop> {
    latch: SharedLatch<C>,
    begin: &'static [u8],
    told: &'static [u8],
}

impl<C: Clock + Drop> Meanwhile<C> {
    /// Whether it goes so, by the session that began the scan and another one.
    fn goes<D: Desk>(
        &self,
        alloc: Global,
        clock: &C,
        desk: &mut D,
        sid: Sid,
        other: &mut D,
        other_sid: Sid,
    ) -> bool {
        tells(alloc, desk, sid, self.begin, b"")
            && self.latch.is_reached()
            && tells(alloc, other, other_sid, b"STAT:OPER:COND?", self.told)
            && tells(alloc, desk, sid, b"*STB?", b"0\n")
            && self.latch.opens()
            && comes_to_tell(alloc, clock, other, other_sid, b"TRAC:POIN:ACT?", b"1\n")
            && tells(alloc, desk, sid, b"FETC?", b"0.000000001\n")
    }
}

impl<W: Threads + Wait + Clock + Copy + Drop + Send + Sync + 'static> Meanwhile<W> {
    /// Gives the desks back, where all went as it should.
    fn play<D: Desk + Drop + Send + 'static>(
        &self,
        rt: W,
        alloc: Global,
        first: D,
        second: D,
        third: D,
    ) -> Option<(D, D, D)> {
        let mut first = first;
        let mut second = second;
        let one = join(&mut first)?;
        let other = join(&mut second)?;
        if self.goes(alloc, &rt, &mut first, one, &mut second, other) {
            return Some((first, second, third));
        }
        None
    }
}

const READS: &[u8] = b"ROUT:SCAN (@1!1);:INIT";

const PAUSES: &[u8] = b"ROUT:SCAN (@1!1);:TRIG:DEL 0.001;:INIT";

const SETTLES: &[u8] = b"ROUT:SCAN (@1!1);:ROUT:CHAN:DEL 0.001;:INIT";

#[test]
fn sessions_are_answered_while_a_reading_is_held_at_the_gate(rt: HostRuntime) -> Result<(), Fail> {
    let latch = Latch::new(rt.alloc(), rt)?;
    let gate = LatchedGate {
        point: Point::Job,
        latch: latch.clone()?,
    };
    let scene = Scene::Meanwhile(Meanwhile {
        latch,
        begin: READS,
        told: b"16\n",
    });
    assert!(rt; played(rt, rt.alloc(), SimSource::new(1, 1), gate, &scene).is_some());
    Ok(())
}

#[test]
fn sessions_are_answered_while_a_reading_is_held_inside_its_source(
    rt: HostRuntime,
) -> Result<(), Fail> {
    let latch = Latch::new(rt.alloc(), rt)?;
    let source = LatchedSource {
        source: SimSource::new(1, 1),
        latch: latch.clone()?,
    };
    let scene = Scene::Meanwhile(Meanwhile {
        latch,
        begin: READS,
        told: b"16\n",
    });
    assert!(rt; played(rt, rt.alloc(), source, Open, &scene).is_some());
    Ok(())
}

#[test]
fn sessions_are_answered_while_a_pause_is_held_at_the_gate(rt: HostRuntime) -> Result<(), Fail> {
    let latch = Latch::new(rt.alloc(), rt)?;
    let gate = LatchedGate {
        point: Point::Pause,
        latch: latch.clone()?,
    };
    let scene = Scene::Meanwhile(Meanwhile {
        latch,
        begin: PAUSES,
        told: b"0\n",
    });
    assert!(rt; played(rt, rt.alloc(), SimSource::new(1, 1), gate, &scene).is_some());
    Ok(())
}

#[test]
fn sessions_are_answered_while_a_position_settles(rt: HostRuntime) -> Result<(), Fail> {
    let latch = Latch::new(rt.alloc(), rt)?;
    let gate = LatchedGate {
        point: Point::Pause,
        latch: latch.clone()?,
    };
    let scene = Scene::Meanwhile(Meanwhile {
        latch,
        begin: SETTLES,
        told: b"2\n",
    });
    assert!(rt; played(rt, rt.alloc(), SimSource::new(1, 1), gate, &scene).is_some());
    Ok(())
}

/// Whether that is seen of a session's status.
pub fn shows<D: Desk>(desk: &mut D, sid: Sid, byte: u8, requests: u64, mav: bool) -> bool {
    let view = View {
        byte,
        requests,
        mav,
    };
    desk.poll(sid) == view
}

/// A session asks in a thread of its own while another has the lock, which closes the channel that is asked for.
#[derive(Drop)]
pub struct Locked<C: Clock + Drop> {
    latch: SharedLatch<C>,
}

/// Asks whether 1!1 is closed, and gives the desk back with whether it is.
fn asks_closed<D: Desk, C: Clock + Drop>(
    alloc: Global,
    desk: D,
    sid: Sid,
    latch: SharedLatch<C>,
) -> (D, bool) {
    let mut desk = desk;
    latch.reach();
    let is_closed = tells(alloc, &mut desk, sid, b"ROUT:CLOS? (@1!1)", b"1\n");
    (desk, is_closed)
}

impl<C: Clock + Drop> Locked<C> {
    /// Whether the session that has the lock is answered and closes the channel, while the other one waits and is seen.
    fn goes<D: Desk>(
        &self,
        alloc: Global,
        clock: &C,
        desk: &mut D,
        sid: Sid,
        looks: &mut D,
        waiting: Sid,
    ) -> bool {
        let is_reached = self.latch.is_reached();
        for _ in 0..100 {
            turn(clock);
        }
        is_reached
            && tells(alloc, desk, sid, b"*STB?", b"0\n")
            && shows(looks, waiting, 0, 0, false)
            && tells(alloc, desk, sid, b"ROUT:CLOS (@1!1)", b"")
            && releases(desk, sid)
    }
}

impl<W: Threads + Wait + Clock + Copy + Drop + Send + Sync + 'static> Locked<W> {
    /// Gives the desks back, where all went as it should.
    fn play<D: Desk + Drop + Send + 'static>(
        &self,
        rt: W,
        alloc: Global,
        first: D,
        second: D,
        third: D,
    ) -> Option<(D, D, D)> {
        let mut first = first;
        let mut second = second;
        let mut third = third;
        let holder = join(&mut first)?;
        let waiting = join(&mut second)?;
        if !locks(alloc, &mut first, holder) {
            return None;
        }
        let latch = self.latch.clone().ok()?;
        let asking = thread::spawn(&rt, move || asks_closed(alloc, second, waiting, latch)).ok()?;
        let goes = self.goes(alloc, &rt, &mut first, holder, &mut third, waiting);
        let (second, is_closed) = asking.join(&rt);
        if goes && is_closed {
            return Some((first, second, third));
        }
        None
    }
}

#[test]
fn a_lock_holds_another_session(rt: HostRuntime) -> Result<(), Fail> {
    let scene = Scene::Locked(Locked {
        latch: Latch::new(rt.alloc(), rt)?,
    });
    assert!(rt; played(rt, rt.alloc(), SimSource::new(1, 1), Open, &scene).is_some());
    Ok(())
}

/// A session closes a channel, and that is all. Gives the desks back, where all went as it should.
fn closes<D: Desk + Drop + Send + 'static>(
    alloc: Global,
    first: D,
    second: D,
    third: D,
) -> Option<(D, D, D)> {
    let mut first = first;
    let sid = join(&mut first)?;
    if tells(alloc, &mut first, sid, b"ROUT:CLOS (@1!1)", b"") {
        return Some((first, second, third));
    }
    None
}

#[test]
fn closing_down_gives_every_card_with_nothing_closed(rt: HostRuntime) {
    let last = Note {
        number: 4,
        ask: AskKind::Unit,
    };
    assert!(rt; played(rt, rt.alloc(), SimSource::new(1, 1), Open, &Scene::Closes) == Some(last));
}

/// Joins, closes 1!1, and asks two things a hundred times.
fn asks_often<D: Desk>(alloc: Global, desk: D) -> (D, bool) {
    let mut desk = desk;
    let Some(sid) = join(&mut desk) else {
        return (desk, false);
    };
    for _ in 0..100u8 {
        if !tells(
            alloc,
            &mut desk,
            sid,
            b"ROUT:CLOS (@1!1);CLOS? (@1!1)",
            b"1\n",
        ) {
            return (desk, false);
        }
    }
    (desk, true)
}

/// Three sessions ask, each in a thread of its own. Gives the desks back, where all went as it should.
fn asks_at_once<
    W: Threads + Wait + Clock + Copy + Drop + Send + Sync + 'static,
    D: Desk + Drop + Send + 'static,
>(rt: W, alloc: Global, first: D, second: D, third: D) -> Option<(D, D, D)> {
    let asks_first = thread::spawn(&rt, move || asks_often(alloc, first)).ok()?;
    let asks_second = thread::spawn(&rt, move || asks_often(alloc, second)).ok()?;
    let (third, third_is_told) = asks_often(alloc, third);
    let (first, first_is_told) = asks_first.join(&rt);
    let (second, second_is_told) = asks_second.join(&rt);
    if first_is_told && second_is_told && third_is_told {
        return Some((first, second, third));
    }
    None
}

#[test]
fn every_event_of_three_threads_is_counted_once(rt: HostRuntime) {
    let last = Note {
        number: 605,
        ask: AskKind::Unit,
    };
    assert!(rt; played(rt, rt.alloc(), SimSource::new(1, 1), Open, &Scene::AtOnce) == Some(last));
}

/// A session closes a channel, in a thread of its own, and its card holds while the mainframe is locked.
#[derive(Drop)]
pub struct Busy<C: Clock + Drop> {
    latch: SharedLatch<C>,
}

/// Closes 1!1, and gives the desk back with whether it did.
fn closes_one<D: Desk>(alloc: Global, desk: D, sid: Sid) -> (D, bool) {
    let mut desk = desk;
    let is_done = tells(alloc, &mut desk, sid, b"ROUT:CLOS (@1!1)", b"");
    (desk, is_done)
}

impl<W: Threads + Wait + Clock + Copy + Drop + Send + Sync + 'static> Busy<W> {
    /// Gives the desks back, where another desk sees the session's status before the card continues.
    fn play<D: Desk + Drop + Send + 'static>(
        &self,
        rt: W,
        alloc: Global,
        first: D,
        second: D,
        third: D,
    ) -> Option<(D, D, D)> {
        let mut first = first;
        let mut third = third;
        let sid = join(&mut first)?;
        if !tells(alloc, &mut first, sid, b"*SRE 4;FOO", b"") {
            return None;
        }
        let closing = thread::spawn(&rt, move || closes_one(alloc, first, sid)).ok()?;
        let is_seen = self.latch.is_reached()
            && shows(&mut third, sid, 4, 1, false)
            && self.latch.opens();
        let (first, is_done) = closing.join(&rt);
        if is_seen && is_done {
            return Some((first, second, third));
        }
        None
    }
}

#[test]
fn a_status_is_seen_while_the_mainframe_is_locked(rt: HostRuntime) -> Result<(), Fail> {
    let latch = Latch::new(rt.alloc(), rt)?;
    let driver = LatchedDriver {
        driver: SimDriver::new(),
        latch: latch.clone()?,
    };
    let scene = Scene::Busy(Busy { latch });
    let source = SimSource::new(1, 1);
    assert!(rt; played_by(rt, rt.alloc(), driver, source, Open, &scene).is_some());
    Ok(())
}

/// A session waits in a thread of its own for the end of a scan, which another brings about.
#[derive(Drop)]
pub struct Awaited<C: Clock + Drop> {
    pub latch: SharedLatch<C>,
    pub end: &'static [u8],
}

/// Asks for the end of the scan, and gives the desk back with whether it came.
pub fn awaits_end<D: Desk, C: Clock + Drop>(
    alloc: Global,
    desk: D,
    sid: Sid,
    latch: SharedLatch<C>,
) -> (D, bool) {
    let mut desk = desk;
    latch.reach();
    let is_told = tells(alloc, &mut desk, sid, b"*OPC?", b"1\n");
    (desk, is_told)
}

pub const TRIGGERED: &[u8] = b"ROUT:SCAN (@1!1);:TRIG:SOUR BUS;:INIT";

impl<W: Threads + Wait + Clock + Copy + Drop + Send + Sync + 'static> Awaited<W> {
    /// Gives the desks back, where the session proceeded.
    fn play<D: Desk + Drop + Send + 'static>(
        &self,
        rt: W,
        alloc: Global,
        first: D,
        second: D,
        third: D,
    ) -> Option<(D, D, D)> {
        let mut first = first;
        let mut second = second;
        let one = join(&mut first)?;
        let other = join(&mut second)?;
        if !tells(alloc, &mut first, one, TRIGGERED, b"") {
            return None;
        }
        let latch = self.latch.clone().ok()?;
        let waiting = thread::spawn(&rt, move || awaits_end(alloc, second, other, latch)).ok()?;
        let is_ended = self.latch.is_reached()
            && pauses(&rt)
            && tells(alloc, &mut first, one, self.end, b"");
        let (second, is_told) = waiting.join(&rt);
        if is_ended && is_told {
            return Some((first, second, third));
        }
        None
    }
}

/// Lets other threads run for a while.
pub fn pauses<C: Clock>(clock: &C) -> bool {
    for _ in 0..100 {
        turn(clock);
    }
    true
}
