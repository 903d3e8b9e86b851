//! A count down to one call.

ghost use Rattle.std.specs.Prelude.{◌≡◌, ℕ, Option};
ghost use Rattle.sw_kinds.specs.Fuse.{is_failing, left_after};

use std::marker::Model;

/// The calls up to the failing one, that one included; none where no call fails any more.
#[derive(Drop)]
pub(crate) struct Countdown {
    left: Option<u32>,
}

impl Model for Countdown {
    ghost Value = { Option ℕ };

    ghost view = { λ c. c.left };
}

impl Countdown {
    /// Down to the call with this number, counted from 1; to none where there is no number, nor with number 0.
    pub(crate) fn new(number: Option<u32>) -> Self
        ensures { result ≡ number }
    {
        Countdown { left: number }
    }

    /// Counts a call, if it is one of those that count, and says whether it is the failing one.
    pub(crate) fn count(&mut self, counts: bool) -> bool
        ensures failing { result ≡ is_failing counts self.old }
        ensures counted { self.new ≡ left_after counts self.old }
    {
        match self.left {
            Some(left) if counts && left > 1 => {
                self.left = Some(left - 1);
                false
            }
            Some(left) if counts => {
                self.left = None;
                left == 1
            }
            _ => false,
        }
    }
}
