//! Timers of layers over threads: ends that come too late, and ends that wait for no other.

use crate::latches::{Latch, LatchedGate, SharedLatch, TURNS, turn};
use crate::shop::{join, played, tells};
use crate::threads::{Scene, shows};
use std::alloc::Global;
use std::sync::Wait;
use std::test::Fail;
use std::thread::Threads;
use std::time::Clock;
use sw_core::Sid;
use sw_kinds::SimSource;
use sw_session::Desk;
use sw_workers::{AskKind, Note, Open, Point};

/// A scan waits for TRIGger's timer. A gate stops the timer's end while another session's signal passes that wait.
#[derive(Drop)]
pub struct Signalled<C: Clock + Drop> {
    latch: SharedLatch<C>,
}

/// Three readings, each behind a quarter of a second. Service is asked for each time that TRIGger begins to wait.
const PACED: &[u8] =
    b"ROUT:SCAN (@1!1);:TRIG:COUN 3;SOUR TIM;TIM 0.25;:STAT:OPER:ENAB 32;*SRE 128;:INIT";

/// Takes note that TRIGger waits, and passes that wait.
const PASSES: &[u8] = b"STAT:OPER?;:STAT:OPER:COND?;:TRIG:SIGN";

/// What all three readings are.
const READINGS: &[u8] = b"1;0.000000001,0.000000002,0.000000003\n";

/// Whether TRIGger waits once more, within `TURNS` turns. It only looks at the status, so that no event is counted.
fn comes_to_wait<D: Desk, C: Clock>(clock: &C, desk: &mut D, sid: Sid) -> bool {
    for _ in 0..TURNS {
        if shows(desk, sid, 128, 2, false) {
            return true;
        }
        turn(clock);
    }
    false
}

impl<C: Clock + Drop> Signalled<C> {
    /// Whether the signal passes the first wait, and the scan has its three readings though that wait's end comes late.
    fn goes<D: Desk>(
        &self,
        alloc: Global,
        clock: &C,
        desk: &mut D,
        sid: Sid,
        other: &mut D,
        other_sid: Sid,
    ) -> bool {
        tells(alloc, desk, sid, PACED, b"")
            && self.latch.is_reached()
            && shows(desk, sid, 128, 1, false)
            && tells(alloc, other, other_sid, PASSES, b"32;32\n")
            && comes_to_wait(clock, desk, sid)
            && self.latch.opens()
            && tells(alloc, desk, sid, b"*OPC?;:FETC?", READINGS)
    }
}

impl<W: Threads + Wait + Clock + Copy + Drop + Send + Sync + 'static> Signalled<W> {
    /// Gives the desks back, where all went as it should.
    pub fn play<D: Desk + Drop + Send + 'static>(
        &self,
        rt: W,
        alloc: Global,
        first: D,
        second: D,
        third: D,
    ) -> Option<(D, D, D)> {
        let mut first = first;
        let mut second = second;
        let one = join(&mut first)?;
        let other = join(&mut second)?;
        if self.goes(alloc, &rt, &mut first, one, &mut second, other) {
            return Some((first, second, third));
        }
        None
    }
}

/// Two cards came in, two sessions joined, and they asked for 13 things, the beginning of the scan being two of them.
/// The scan itself makes 6 events: three readings, the late end, which it misses, and the two ends that it takes.
#[test]
fn the_end_of_a_timer_is_missed_once_a_signal_passed_its_wait(rt: HostRuntime) -> Result<(), Fail> {
    let latch = Latch::new(rt.alloc(), rt)?;
    let gate = LatchedGate {
        point: Point::Pause,
        latch: latch.clone()?,
    };
    let scene = Scene::Signalled(Signalled { latch });
    let last = Note {
        number: 23,
        ask: AskKind::Unit,
    };
    assert!(rt; played(rt, rt.alloc(), SimSource::new(1, 1), gate, &scene) == Some(last));
    Ok(())
}

/// A timer of an hour that a signal passed, and one of a scan that was aborted, hold up no timer of a millisecond.
/// Gives the desks back, where all went as it should.
pub fn outpaces<D: Desk + Drop + Send + 'static>(
    alloc: Global,
    first: D,
    second: D,
    third: D,
) -> Option<(D, D, D)> {
    let mut first = first;
    let mut second = second;
    let one = join(&mut first)?;
    let other = join(&mut second)?;
    if tells(alloc, &mut first, one, HOUR, b"")
        && tells(
            alloc,
            &mut second,
            other,
            b"ARM:LAY3:SIGN;*OPC?;:TRAC:POIN:ACT?",
            b"1;2\n",
        )
        && tells(
            alloc,
            &mut second,
            other,
            b"INIT;:STAT:OPER:COND?;:ABOR",
            b"64\n",
        )
        && tells(
            alloc,
            &mut first,
            one,
            b"ARM:LAY3:SOUR IMM;:INIT;*OPC?;:TRAC:POIN:ACT?",
            b"1;2\n",
        )
    {
        return Some((first, second, third));
    }
    None
}

/// Two readings behind a millisecond each, once an hour is over.
const HOUR: &[u8] =
    b"ROUT:SCAN (@1!1);:ARM:LAY3:SOUR TIM;TIM 3600;:TRIG:COUN 2;SOUR TIM;TIM 0.001;:INIT";

#[test]
fn a_timer_that_nothing_awaits_holds_no_other_up(rt: HostRuntime) {
    let source = SimSource::new(1, 1);
    assert!(rt; played(rt, rt.alloc(), source, Open, &Scene::Outpaced).is_some());
}
