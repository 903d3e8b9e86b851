//! How long pauses last, by the clock that a test hands in, and long scans.

ghost use Rattle.std.specs.Prelude.{◌≡◌};
ghost use Rattle.sw_core.specs.Opening.{IsFresh};
ghost use Rattle.sw_history.specs.Came.{AllCame};

use crate::shop::{fitted, join, played, tells};
use crate::threads::{Scene, TRIGGERED};
use crate::waiters::is_held;
use std::alloc::Global;
use std::io;
use std::marker::Brand;
use std::sync::atomic::{AtomicU64, Ordering};
use std::sync::{Arc, Wait};
use std::time::{Clock, Duration, Instant};
use sw_card::{Meter, Relay};
use sw_kinds::{SimDriver, SimSource};
use sw_session::{Desk, Wake};
use sw_workers::{Mainframe, Open, Opening, Shared, SharedDesk};

/// A clock that advances only by the time slept by it, and by a step each time that it is read, in microseconds.
#[derive(Clone, Copy, Drop)]
struct Slept<'a, W: Wait + Copy + Drop> {
    rt: W,
    micros: &'a AtomicU64,
    step: u64,
}

impl<W: Wait + Copy + Drop> Wait for Slept<'_, W> {}

impl<W: Wait + Copy + Drop> Clock for Slept<'_, W> {
    fn monotonic(&self) -> io::Result<Duration> {
        Ok(Duration::from_micros(self.micros.fetch_add(self.step, Ordering::SeqCst)))
    }

    fn since_1970(&self) -> io::Result<Duration> {
        self.monotonic()
    }

    fn sleep(&self, duration: Duration) {
        let micros = u64::try_from(duration.as_micros()).unwrap_or(0);
        self.micros.fetch_add(micros, Ordering::SeqCst);
    }
}

/// A scan to its end, with pauses that take time.
#[derive(Clone, Copy)]
pub enum Paused {
    /// Two readings, each behind a pause of TRIGger of 50 milliseconds.
    Delayed,
    /// Three readings of a position that settles for 20 milliseconds each time.
    Settled,
}

impl Paused {
    fn message(self) -> &'static [u8] {
        match self {
            Paused::Delayed => {
                b"ROUT:SCAN (@1!1);:TRIG:COUN 2;DEL 0.05;:INIT;*OPC?;:TRAC:POIN:ACT?"
            }
            Paused::Settled => {
                b"ROUT:SCAN (@1!1);:ROUT:CHAN:DEL 0.02;:TRIG:COUN 3;:INIT;*OPC?;:TRAC:POIN:ACT?"
            }
        }
    }

    /// What is answered once it is over.
    fn told(self) -> &'static [u8] {
        match self {
            Paused::Delayed => b"1;2\n",
            Paused::Settled => b"1;3\n",
        }
    }

    /// How long its pauses take together, in microseconds.
    fn micros(self) -> u64 {
        match self {
            Paused::Delayed => 100_000,
            Paused::Settled => 60_000,
        }
    }
}

/// What is played by the desks of a mainframe that has no worker.
#[derive(Clone, Copy)]
enum Alone {
    /// A scan ends.
    Ends(Paused),
    /// The limit of a wait runs out.
    RunsOut,
}

/// Whether it goes so.
fn goes_alone<H: Mainframe, R: Relay, M: Meter, W: Wait + Clock + Copy + Drop>(
    rt: W,
    alloc: Global,
    opening: Opening<R, M>,
    alone: Alone,
) -> bool
    requires first { (opening.core.seen ≡ H.first) × IsFresh opening.core.seen }
    requires came { AllCame H.came opening.core.cards }
    requires ledger { (opening.blank.name ≡ H.name) × (opening.blank.parts ≡ H.parts) }
    requires board { (opening.board.table.shared.table_id ≡ H.table) × (opening.board.table.shared.key ≡ H.opening) }
{
    let Ok((shared, receivers)) = Shared::<H, R, M, Open>::new(alloc, opening, Open) else {
        return false;
    };
    drop(receivers);
    let Ok(shared) = Arc::new(alloc, shared) else {
        return false;
    };
    let first = SharedDesk::open(rt, &shared);
    match alone {
        Alone::Ends(scan) => ends_by(alloc, first, scan),
        Alone::RunsOut => runs_out_by(alloc, first, SharedDesk::open(rt, &shared)),
    }
}

/// Whether the scan ends by this desk.
fn ends_by<D: Desk + Drop>(alloc: Global, desk: Option<D>, scan: Paused) -> bool {
    let Some(mut desk) = desk else {
        return false;
    };
    match join(&mut desk) {
        Some(sid) => tells(alloc, &mut desk, sid, scan.message(), scan.told()),
        None => false,
    }
}

/// Whether a limit of a minute runs out by these desks, where the clock advances by a second each time that it is read:
/// where the limit begins, before the wait and after it. A limit that the desk gives as it was left continues, and
/// another begins.
fn runs_out_by<D: Desk + Drop>(alloc: Global, first: Option<D>, second: Option<D>) -> bool {
    let (Some(mut first), Some(mut second)) = (first, second) else {
        return false;
    };
    if !ends_before_the_wait(alloc, &mut first, &mut second) {
        return false;
    }
    let once = left_after(&mut second, 60_000);
    let twice = left_after(&mut second, once);
    let anew = left_after(&mut second, 60_000);
    once <= 58_000 && twice >= 50_000 && twice <= once.saturating_sub(2_000) && anew == once
}

/// Whether a scan ends after what waits for it was held, and before the wait.
fn ends_before_the_wait<D: Desk>(alloc: Global, first: &mut D, second: &mut D) -> bool {
    match (join(first), join(second)) {
        (Some(sid), Some(other)) => {
            tells(alloc, first, sid, TRIGGERED, b"")
                && is_held(second, other)
                && tells(alloc, first, sid, b"ABOR", b"")
        }
        _ => false,
    }
}

/// How many milliseconds of this limit are left when what was held may be asked again.
fn left_after<D: Desk>(desk: &mut D, limit_ms: u32) -> u32 {
    match desk.wait(Some(limit_ms)) {
        Wake::Again(Some(left_ms)) => left_ms,
        _ => 0,
    }
}

/// Whether it goes so over a new mainframe.
fn goes_unaided<W: Wait + Clock + Copy + Drop>(rt: W, alloc: Global, alone: Alone) -> bool {
    let Some(core) = fitted(alloc, SimDriver::new(), SimSource::new(1, 1)) else {
        return false;
    };
    match Opening::new(alloc, core) {
        Ok(opening) => goes_alone::<Brand, _, _, W>(rt, alloc, opening, alone),
        Err(_) => false,
    }
}

/// How far the clock has then advanced, in microseconds, where it went so by a clock with this step.
fn gone_on<W: Wait + Copy + Drop>(rt: W, alloc: Global, step: u64, alone: Alone) -> Option<u64> {
    let micros = AtomicU64::new(0);
    let clock = Slept {
        rt,
        micros: &micros,
        step,
    };
    if goes_unaided(clock, alloc, alone) {
        return Some(micros.load(Ordering::SeqCst));
    }
    None
}

#[test]
fn a_pause_that_no_worker_takes_is_waited_out_by_who_began_it(rt: HostRuntime) {
    assert!(rt; gone_on(rt, rt.alloc(), 0, Alone::Ends(Paused::Delayed)) == Some(100_000));
    assert!(rt; gone_on(rt, rt.alloc(), 0, Alone::Ends(Paused::Settled)) == Some(60_000));
}

#[test]
fn a_limit_runs_out_by_the_clock(rt: HostRuntime) {
    assert!(rt; gone_on(rt, rt.alloc(), 1_000_000, Alone::RunsOut).is_some());
}

/// A scan's pauses last as long as they are to. Gives the desks back, where all went as it should.
pub fn lasts<D: Desk + Drop + Send + 'static, C: Clock>(
    clock: &C,
    alloc: Global,
    scan: &Paused,
    first: D,
    second: D,
    third: D,
) -> Option<(D, D, D)> {
    let mut first = first;
    let sid = join(&mut first)?;
    let begin = Instant::now(clock).ok()?;
    let is_told = tells(alloc, &mut first, sid, scan.message(), scan.told());
    let end = Instant::now(clock).ok()?;
    if is_told && end.saturating_duration_since(begin) >= Duration::from_micros(scan.micros()) {
        return Some((first, second, third));
    }
    None
}

#[test]
fn a_pause_lasts_as_long_as_it_is_to(rt: HostRuntime) {
    let source = SimSource::new(1, 1);
    assert!(rt; played(rt, rt.alloc(), source, Open, &Scene::Lasts(Paused::Delayed)).is_some());
}

#[test]
fn each_position_settles_as_long_as_it_is_to(rt: HostRuntime) {
    let source = SimSource::new(1, 1);
    assert!(rt; played(rt, rt.alloc(), source, Open, &Scene::Lasts(Paused::Settled)).is_some());
}

/// A pause of an hour that was aborted, and a shorter one of the next scan.
const HOUR: &[u8] = b"ROUT:SCAN (@1!1);:TRIG:DEL 3600;:INIT;:ABOR";

const MOMENT: &[u8] = b"TRIG:DEL 0.001;:INIT;*OPC?;:TRAC:POIN:ACT?";

/// A scan of 5,000 readings.
const LONG: &[u8] = b"TRIG:DEL 0;COUN 5000;:TRAC:POIN 5000;:INIT;*OPC?;:TRAC:POIN:ACT?";

/// An aborted pause delays no other, and a long scan ends. Gives the desks back, where all went as it should.
pub fn goes_far<D: Desk + Drop + Send + 'static>(
    alloc: Global,
    first: D,
    second: D,
    third: D,
) -> Option<(D, D, D)> {
    let mut first = first;
    let mut second = second;
    let sid = join(&mut first)?;
    let other = join(&mut second)?;
    if tells(alloc, &mut first, sid, HOUR, b"")
        && tells(alloc, &mut second, other, MOMENT, b"1;1\n")
        && tells(alloc, &mut second, other, LONG, b"1;5000\n")
        && tells(alloc, &mut first, sid, b"TRAC:POIN:ACT?", b"5000\n")
    {
        return Some((first, second, third));
    }
    None
}

#[test]
fn an_aborted_pause_holds_no_other_up_and_a_long_scan_ends(rt: HostRuntime) {
    let source = SimSource::new(1, 1);
    assert!(rt; played(rt, rt.alloc(), source, Open, &Scene::Far).is_some());
}
