//! What is left of a wait's limit, for how long a thread waits before it looks whether its client is still there, and
//! for how long a connection may be without its session.

ghost use Rattle.std.specs.Prelude.{◌≡◌, ◌≤◌};
ghost use Rattle.sw_connections.specs.Limits.{left_of, slice_of, time_for, is_spent, micros_between, ms_between};

use std::time::{Clock, Duration, Instant};

/// For how many milliseconds at most a thread waits before it looks whether its client is still there.
pub const SLICE_MS: u32 = 100;

/// Within how many milliseconds of a connection's beginning its first header has to be whole.
const HEADER_MS: u64 = 10_000;

/// Within how many milliseconds of a connection's beginning its session has to have both connections.
const PAIR_MS: u64 = 60_000;

/// How long a connection may be open, in milliseconds from its beginning, if there is a limit. `is_heard`: its first
/// header is whole; `is_paired`: its session has both connections.
fn time_for(is_heard: bool, is_paired: bool) -> Option<u64>
    ensures { result ≡ time_for is_heard is_paired }
{
    match (is_heard, is_paired) {
        (false, _) => Some(HEADER_MS),
        (true, false) => Some(PAIR_MS),
        (true, true) => None,
    }
}

/// Whether such a connection is overdue `stood_ms` milliseconds after its beginning.
pub fn is_overdue(is_heard: bool, is_paired: bool, stood_ms: u64) -> bool
    ensures { result ≡ is_spent (time_for is_heard is_paired) stood_ms }
{
    match time_for(is_heard, is_paired) {
        Some(most) => stood_ms >= most,
        None => false,
    }
}

/// What is left of a limit `micros` microseconds before its end, in whole milliseconds, rounded up, never more than the
/// limit.
pub fn left_of(limit_ms: u32, micros: u64) -> u32
    ensures { result ≡ left_of limit_ms micros }
{
    let begun = if micros % 1000 == 0 { 0 } else { 1 };
    match u32::try_from(micros / 1000 + begun) {
        Ok(left) if left < limit_ms => left,
        _ => limit_ms,
    }
}

/// For how many milliseconds a thread waits before it looks again, where `left_ms` are left.
pub fn slice_of(left_ms: Option<u32>) -> u32
    ensures { result ≡ slice_of left_ms }
{
    match left_ms {
        Some(left) if left < SLICE_MS => left,
        _ => SLICE_MS,
    }
}

/// The whole milliseconds from one instant to another: none where that came before.
pub fn ms_between(earlier: Instant, later: Instant) -> u64
    ensures { result ≡ ms_between earlier later }
{
    let duration = later.saturating_duration_since(earlier);
    u64::try_from(duration.as_millis()).unwrap_or(u64::MAX)
}

/// The whole microseconds from one instant to another: none where that came before.
fn micros_between(earlier: Instant, later: Instant) -> u64
    ensures { result ≡ micros_between earlier later }
{
    let duration = later.saturating_duration_since(earlier);
    u64::try_from(duration.as_micros()).unwrap_or(u64::MAX)
}

/// When a limit is over, and what was left of it at the last look.
#[derive(Clone, Copy, Debug)]
pub struct Limit {
    at: Instant,
    left_ms: u32,
}

impl Limit {
    /// A limit of `limit_ms` milliseconds from now on. None where the clock can't be read.
    pub fn new<C: Clock>(rt: &C, limit_ms: u32) -> Option<Limit> {
        let now = Instant::now(rt).ok()?;
        let at = now.checked_add(Duration::from_millis(limit_ms as u64))?;
        Some(Limit {
            at,
            left_ms: limit_ms,
        })
    }

    /// What was left of it at the last look, in milliseconds.
    pub fn left_ms(&self) -> u32
        ensures { result ≡ self.now.left_ms }
    {
        self.left_ms
    }

    /// The same limit, looked at now.
    pub fn at_present<C: Clock>(&self, rt: &C) -> Limit
        ensures { result.left_ms ≤ self.now.left_ms }
    {
        Limit {
            at: self.at,
            left_ms: left_of(self.left_ms, self.micros(rt)),
        }
    }

    /// How many microseconds are left: none where the clock can't be read.
    fn micros<C: Clock>(&self, rt: &C) -> u64 {
        match Instant::now(rt) {
            Ok(now) => micros_between(now, self.at),
            Err(_) => 0,
        }
    }
}
