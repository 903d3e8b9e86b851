//! A driver of which one opening fails.

ghost use Rattle.std.specs.Prelude.{◌≡◌, ℕ, Option};
ghost use Rattle.sw_kinds.specs.Fuse.{DrivesByOpenFuse};
ghost use Rattle.sw_kinds.specs.FuseRuns.{MakesCall, is_opening, HasFailed, FailByNumber, NeverFails, FailOnlyByNumber};

use crate::countdown::Countdown;
use crate::driver::Driver;
use std::marker::Model;
use sw_card::CardFault;

/// A driver that fails its k-th opening, counted from 1, once; the relay stays as it was. Every other call passes.
///
/// Contracts see the driver behind it, and the openings up to the failing one, that one included.
#[derive(Drop)]
pub struct OpenFuse<D: Driver> {
    driver: D,
    countdown: Countdown,
}

impl<D: Driver> Model for OpenFuse<D> {
    ghost Value = { D × Option ℕ };

    ghost view = { λ f. (f.driver, f.countdown) };
}

impl<D: Driver> OpenFuse<D> {
    /// Lets the opening with this number fail; none where there is no number, nor with number 0.
    pub fn new(driver: D, opening: Option<u32>) -> Self
        ensures { result ≡ (driver, opening) }
    {
        OpenFuse {
            driver,
            countdown: Countdown::new(opening),
        }
    }
}

impl<D: Driver> Driver for OpenFuse<D> {
    ghost driven = { λ f. D.driven f.0 };

    ghost sure = { λ f. D.sure f.0 };

    ghost drives = { λ f ch on result g. DrivesByOpenFuse D.drives f ch on result g };

    ghost cuts = { λ f g. D.cuts f.0 g.0 × (g.1 ≡ f.1) };

    fn drive(&mut self, ch: u8, on: bool) -> Result<(), CardFault> {
        if self.countdown.count(!on) {
            return Err(CardFault);
        }
        self.driver.drive(ch, on)
    }

    fn is_sure(&self) -> bool {
        self.driver.is_sure()
    }

    fn cut(&mut self) {
        self.driver.cut();
    }
}

/// A law: of the calls made through a new fuse, in any order, exactly the opening with its number fails by it, counted
/// from 1, and every other call answers what the driver behind it answered. Over a driver that never fails that opening
/// is the one call that fails.
pub fn one_opening_fails<D: Driver>()
    ensures numbered { let through = MakesCall ⟦<OpenFuse<D> as Driver>⟧.drives ⟦<OpenFuse<D> as Driver>⟧.cuts in
        FailByNumber is_opening HasFailed through (MakesCall D.drives D.cuts) }
    ensures exactly { let through = MakesCall ⟦<OpenFuse<D> as Driver>⟧.drives ⟦<OpenFuse<D> as Driver>⟧.cuts in
        NeverFails HasFailed (MakesCall D.drives D.cuts) → FailOnlyByNumber is_opening HasFailed through }
{}
