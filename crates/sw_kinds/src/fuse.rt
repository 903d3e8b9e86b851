//! A driver of which one closing fails.

ghost use Rattle.std.specs.Prelude.{◌≡◌, ℕ, Option};
ghost use Rattle.sw_kinds.specs.Fuse.{DrivesByFuse};
ghost use Rattle.sw_kinds.specs.FuseRuns.{MakesCall, is_closing, HasFailed, FailByNumber, NeverFails, FailOnlyByNumber};

use crate::countdown::Countdown;
use crate::driver::Driver;
use std::marker::Model;
use sw_card::CardFault;

/// A driver that fails its k-th closing, counted from 1, once; the relay closes all the same. Every other call passes.
///
/// Contracts see the driver behind it, and the closings up to the failing one, that one included.
#[derive(Drop)]
pub struct Fuse<D: Driver> {
    driver: D,
    countdown: Countdown,
}

impl<D: Driver> Model for Fuse<D> {
    ghost Value = { D × Option ℕ };

    ghost view = { λ f. (f.driver, f.countdown) };
}

impl<D: Driver> Fuse<D> {
    /// Lets the closing with this number fail; none where there is no number, nor with number 0.
    pub fn new(driver: D, closing: Option<u32>) -> Self
        ensures { result ≡ (driver, closing) }
    {
        Fuse {
            driver,
            countdown: Countdown::new(closing),
        }
    }
}

impl<D: Driver> Driver for Fuse<D> {
    ghost driven = { λ f. D.driven f.0 };

    ghost sure = { λ f. D.sure f.0 };

    ghost drives = { λ f ch on result g. DrivesByFuse D.drives D.driven f ch on result g };

    ghost cuts = { λ f g. D.cuts f.0 g.0 × (g.1 ≡ f.1) };

    fn drive(&mut self, ch: u8, on: bool) -> Result<(), CardFault> {
        let failing = self.countdown.count(on);
        let outcome = self.driver.drive(ch, on);
        if failing {
            return Err(CardFault);
        }
        outcome
    }

    fn is_sure(&self) -> bool {
        self.driver.is_sure()
    }

    fn cut(&mut self) {
        self.driver.cut();
    }
}

/// A law: of the calls made through a new fuse, in any order, exactly the closing with its number fails by it, counted
/// from 1, and every other call answers what the driver behind it answered. Over a driver that never fails that closing
/// is the one call that fails.
pub fn one_closing_fails<D: Driver>()
    ensures numbered { let through = MakesCall ⟦<Fuse<D> as Driver>⟧.drives ⟦<Fuse<D> as Driver>⟧.cuts in
        FailByNumber is_closing HasFailed through (MakesCall D.drives D.cuts) }
    ensures exactly { let through = MakesCall ⟦<Fuse<D> as Driver>⟧.drives ⟦<Fuse<D> as Driver>⟧.cuts in
        NeverFails HasFailed (MakesCall D.drives D.cuts) → FailOnlyByNumber is_closing HasFailed through }
{}
