//! What the thread of a second connection waits for once that has ended: that what had come on the first one is served.

ghost use Rattle.std.specs.Prelude.{◌≡◌};
ghost use Rattle.sw_connections.specs.Leaving.{after_end};

use crate::clients::Clients;
use crate::room::Session;
use crate::serving::Serving;
use std::sync::Wait;
use std::thread;
use std::time::{Clock, Duration};

/// How long a thread rests between two looks at the first connection, in milliseconds.
const LOOK_MS: u64 = 5;

/// How long the first connection may still bring what its client sent before it ended the second one, in milliseconds.
const DRAIN_MS: u64 = 100;

/// How long a client may leave an answer on the first connection unread once it has ended the second one.
const UNREAD_MS: u64 = 1_000;

/// What the thread of a second connection that has ended does next.
#[derive(Clone, Copy, Debug, PartialEq, Eq)]
pub enum AfterEnd {
    /// It leaves the session.
    Leaves,
    /// It looks again.
    Awaits,
    /// It lets the first connection end after what has come there, and looks again.
    Stops,
}

/// What it does where the first connection is still open. `has_ended`: its client has ended that one too; `unread_ms`:
/// for how long a write on it has found no room; `waited_ms`: for how long the second one has been at its end, in
/// milliseconds.
fn after_end(has_ended: bool, unread_ms: u64, waited_ms: u64) -> AfterEnd
    ensures { result ≡ after_end has_ended unread_ms waited_ms }
{
    if unread_ms >= UNREAD_MS {
        AfterEnd::Leaves
    } else if has_ended || waited_ms < DRAIN_MS {
        AfterEnd::Awaits
    } else {
        AfterEnd::Stops
    }
}

/// Waits at the end of a second connection until the session has left, or is to be left. What had come on its first
/// connection is served before that.
pub fn await_left<H: Clients, W: Wait + Clock>(rt: &W, serving: &Serving<H>) {
    let mut waited_ms = 0_u64;
    let mut unread_ms = 0_u64;
    for _ in rt.forever() {
        let Some(first) = serving.first_line(rt) else {
            return;
        };
        match after_end(first.has_ended(), unread_ms, waited_ms) {
            AfterEnd::Leaves => return,
            AfterEnd::Awaits => {}
            AfterEnd::Stops => first.stop_reading(),
        }
        thread::sleep(rt, Duration::from_millis(LOOK_MS));
        waited_ms = waited_ms.saturating_add(LOOK_MS);
        unread_ms = if first.is_writing() {
            unread_ms.saturating_add(LOOK_MS)
        } else {
            0
        };
    }
}

/// For how many looks a release waits at most, a millisecond each.
const RELEASE_LOOKS: u32 = 1_000;

/// Waits until what had come on the session's first connection is served, or waits for something else, and for a second
/// at most. Two looks one after another have to find it so: bytes may have been taken right before one.
pub fn await_served<H: Clients, W: Wait + Clock>(rt: &W, session: &Session<H>) {
    let mut was_served = false;
    for _ in 0..RELEASE_LOOKS {
        let Some(first) = session.first_line(rt) else {
            return;
        };
        let is_served = first.is_served();
        if is_served && was_served {
            return;
        }
        was_served = is_served;
        thread::sleep(rt, Duration::from_millis(1));
    }
}
