//! The events after which waiting sessions proceed, and events after which they don't.

use crate::latches::Latch;
use crate::shop::{join, locks, played, played_by, releases, tells};
use crate::threads::{Awaited, Scene, TRIGGERED};
use std::alloc::Global;
use std::sync::Wait;
use std::thread::Threads;
use std::time::Clock;
use sw_core::Sid;
use sw_kinds::{Driver, Fuse, SimDriver, SimSource, Source, SourceFuse};
use sw_session::{Desk, Wake};
use sw_workers::Open;

/// Whether nothing that may let the session proceed happened since the desk asked last.
fn sleeps_on<D: Desk>(desk: &mut D) -> bool {
    desk.wait(Some(1)) == Wake::Over
}

/// Whether something did, which an ask of its own then puts behind it.
fn is_woken<D: Desk>(alloc: Global, desk: &mut D, sid: Sid) -> bool {
    matches!(desk.wait(Some(60_000)), Wake::Again(_)) && tells(alloc, desk, sid, b"*STB?", b"4\n")
}

/// Session 2 is woken by the end of a scan and by a lock, and by nothing that changes nothing. Gives the desks back,
/// where all went as it should.
pub fn is_undisturbed<D: Desk + Drop + Send + 'static>(
    alloc: Global,
    first: D,
    second: D,
    third: D,
) -> Option<(D, D, D)> {
    let mut first = first;
    let mut second = second;
    let one = join(&mut first)?;
    let other = join(&mut second)?;
    if tells(alloc, &mut first, one, b"ABOR;*RST;*TRG;:ABOR", b"")
        && sleeps_on(&mut second)
        && tells(alloc, &mut first, one, TRIGGERED, b"")
        && sleeps_on(&mut second)
        && tells(alloc, &mut first, one, b"ABOR", b"")
        && is_woken(alloc, &mut second, other)
        && tells(alloc, &mut first, one, b"ABOR", b"")
        && sleeps_on(&mut second)
        && tells(alloc, &mut first, one, TRIGGERED, b"")
        && tells(alloc, &mut first, one, b"*RST", b"")
        && is_woken(alloc, &mut second, other)
        && !releases(&mut first, one)
        && sleeps_on(&mut second)
        && locks(alloc, &mut first, one)
        && releases(&mut first, one)
        && is_woken(alloc, &mut second, other)
    {
        return Some((first, second, third));
    }
    None
}

#[test]
fn nobody_is_woken_by_what_changes_nothing(rt: HostRuntime) {
    let source = SimSource::new(1, 1);
    assert!(rt; played(rt, rt.alloc(), source, Open, &Scene::Undisturbed).is_some());
}

/// Whether a session that waits for a scan proceeds where this ends it.
fn goes_on<
    D: Driver + Send + 'static,
    I: Source + Send + 'static,
    W: Threads + Wait + Clock + Copy + Drop + Send + Sync + 'static,
>(rt: W, alloc: Global, driver: D, source: I, end: &'static [u8]) -> bool {
    let Ok(latch) = Latch::new(alloc, rt) else {
        return false;
    };
    let scene = Scene::Awaited(Awaited { latch, end });
    played_by(rt, alloc, driver, source, Open, &scene).is_some()
}

#[test]
fn who_waits_for_a_scan_goes_on_when_it_is_aborted(rt: HostRuntime) {
    assert!(rt;
        goes_on(
            rt,
            rt.alloc(),
            SimDriver::new(),
            SimSource::new(1, 1),
            b"ABOR"
        )
    );
    assert!(rt;
        goes_on(
            rt,
            rt.alloc(),
            SimDriver::new(),
            SimSource::new(1, 1),
            b"*RST"
        )
    );
}

#[test]
fn who_waits_for_a_scan_goes_on_when_it_has_its_readings(rt: HostRuntime) {
    assert!(rt;
        goes_on(
            rt,
            rt.alloc(),
            SimDriver::new(),
            SimSource::new(1, 1),
            b"*TRG"
        )
    );
}

#[test]
fn who_waits_for_a_scan_goes_on_when_a_relay_fails(rt: HostRuntime) {
    let driver = Fuse::new(SimDriver::new(), Some(1));
    assert!(rt; goes_on(rt, rt.alloc(), driver, SimSource::new(1, 1), b"*TRG"));
}

#[test]
fn who_waits_for_a_scan_goes_on_when_its_reading_fails(rt: HostRuntime) {
    let source = SourceFuse::new(SimSource::new(1, 1), Some(1));
    assert!(rt; goes_on(rt, rt.alloc(), SimDriver::new(), source, b"*TRG"));
}
