//! A source of which one reading fails.

ghost use Rattle.std.specs.Prelude.{◌≡◌, ℕ, true, Option, IsErr};
ghost use Rattle.sw_kinds.specs.Fuse.{SamplesByFuse};
ghost use Rattle.sw_kinds.specs.FuseRuns.{FailByNumber, NeverFails, FailOnlyByNumber};

use crate::countdown::Countdown;
use crate::source::Source;
use std::marker::Model;
use sw_base::Reading;
use sw_card::CardFault;

/// A source that fails its k-th reading, counted from 1, once; the source stays as it was. Every other call passes.
///
/// Contracts see the source behind it, and the readings up to the failing one, that one included.
#[derive(Drop)]
pub struct SourceFuse<S: Source> {
    source: S,
    countdown: Countdown,
}

impl<S: Source> Model for SourceFuse<S> {
    ghost Value = { S × Option ℕ };

    ghost view = { λ f. (f.source, f.countdown) };
}

impl<S: Source> SourceFuse<S> {
    /// Lets the reading with this number fail; none where there is no number, nor with number 0.
    pub fn new(source: S, reading: Option<u32>) -> Self
        ensures { result ≡ (source, reading) }
    {
        SourceFuse {
            source,
            countdown: Countdown::new(reading),
        }
    }
}

impl<S: Source> Source for SourceFuse<S> {
    ghost samples = { λ f result g. SamplesByFuse S.samples f result g };

    fn sample(&mut self) -> Result<Reading, CardFault> {
        if self.countdown.count(true) {
            return Err(CardFault);
        }
        self.source.sample()
    }
}

/// A law: of the readings asked for through a new fuse exactly the one with its number fails by it, counted from 1, and
/// every other answers what the source behind it answered. Over a source that never fails it is the one that fails.
pub fn one_reading_fails<S: Source>()
    ensures numbered { FailByNumber (λ _. true) IsErr ⟦<SourceFuse<S> as Source>⟧.samples S.samples }
    ensures exactly { NeverFails IsErr S.samples
        → FailOnlyByNumber (λ _. true) IsErr ⟦<SourceFuse<S> as Source>⟧.samples }
{}
