//! Pauses that a timer waits out. A scan awaits one pause at a time, and a mainframe runs one scan, so only the latest
//! pause can still be awaited.

ghost use Rattle.std.specs.Prelude.{◌≡◌, ◌+◌, ◌*◌, None, IfSome, IfNone};
ghost use Rattle.std.specs.Time.{instant_nanos, FitsClock};
ghost use Rattle.sw_workers.specs.Pauses.{IsPause, is_earlier, is_latest, with_pause, with_none, after_next};

use std::time::{Clock, Duration, Instant};
use sw_cage::Ticket;

/// A pause to wait out: the ticket that its end is reported under, its length, its begin and its end.
#[derive(Clone, Copy, Debug)]
pub struct Pause {
    /// The ticket that its end is reported under.
    pub ticket: Ticket,
    /// How long it is, in microseconds.
    pub micros: u64,
    /// When it began.
    pub begin: Instant,
    /// When it is over.
    pub at: Instant,
}

impl Pause {
    /// A pause of `micros` microseconds that begins now. None where the clock can't be read, or doesn't reach the
    /// pause's end.
    pub fn begun<C: Clock>(rt: &C, ticket: Ticket, micros: u64) -> Option<Pause>
        ensures { IfSome result (λ pause. IsPause pause × (pause.ticket ≡ ticket) × (pause.micros ≡ micros)) }
    {
        let begin = Instant::now(rt).ok()?;
        let at = end_after(begin, micros)?;
        Some(Pause {
            ticket,
            micros,
            begin,
            at,
        })
    }
}

/// When a pause of `micros` microseconds is over that begins at this instant. None where the clock doesn't reach that.
fn end_after(begin: Instant, micros: u64) -> Option<Instant>
    ensures some { IfSome result (λ end. instant_nanos end ≡ instant_nanos begin + micros * 1000) }
    ensures none { IfNone result (FitsClock (instant_nanos begin + micros * 1000) → ⊥) }
{
    begin.checked_add(Duration::from_micros(micros))
}

/// Whether the first ticket was made before the other: in an earlier scan, or earlier in the same one.
pub fn is_earlier(first: Ticket, other: Ticket) -> bool
    ensures { result ≡ is_earlier first other }
{
    first.scan < other.scan || (first.scan == other.scan && first.index < other.index)
}

/// What comes next for a timer.
#[derive(Clone, Copy, Debug)]
pub enum Next {
    /// A pause came.
    Begins(Pause),
    /// The pause under this ticket is over.
    Ends(Ticket),
    /// No more can come.
    Over,
}

/// The ticket of the latest pause that came, and the current pause: the latest, until it is over.
#[derive(Clone, Copy, Debug)]
pub struct Standing {
    latest: Option<Ticket>,
    stands: Option<Pause>,
}

impl Standing {
    /// No pause came yet.
    pub fn new() -> Standing
        ensures { result ≡ record { latest = None; stands = None } }
    {
        Standing {
            latest: None,
            stands: None,
        }
    }

    /// The current pause, if there is one.
    pub fn pause(&self) -> Option<Pause>
        ensures { result ≡ self.now.stands }
    {
        self.stands
    }

    /// After what came next. A pause that came is current, unless a later one had come; the one before it is stale. A
    /// pause that is over is no longer current.
    pub fn after(self, next: Next) -> Standing
        ensures { result ≡ after_next self next }
    {
        match next {
            Next::Begins(pause) => self.with_pause(pause),
            Next::Ends(_) => self.with_none(),
            Next::Over => self,
        }
    }

    /// A pause came.
    fn with_pause(self, pause: Pause) -> Standing
        ensures { result ≡ with_pause self pause }
    {
        if !is_latest(self.latest, pause.ticket) {
            return self;
        }
        Standing {
            latest: Some(pause.ticket),
            stands: Some(pause),
        }
    }

    /// The current pause is over.
    fn with_none(self) -> Standing
        ensures { result ≡ with_none self }
    {
        Standing {
            latest: self.latest,
            stands: None,
        }
    }
}

/// Whether no ticket that came was made after this one.
fn is_latest(latest: Option<Ticket>, ticket: Ticket) -> bool
    ensures { result ≡ is_latest latest ticket }
{
    match latest {
        Some(latest) => is_earlier(latest, ticket),
        None => true,
    }
}
