//! A driver and a source without hardware.

ghost use Rattle.std.specs.Prelude.{◌≡◌, ℕ, ◌+◌, ℤ, false, Option, Some, Ok, IsOk, slice_index_or};
ghost use Rattle.sw_kinds.specs.Readings.{reading_after};

use crate::driver::Driver;
use crate::flags::no_flags;
use crate::source::Source;
use std::marker::Model;
use sw_base::Reading;
use sw_card::CardFault;

/// A driver without hardware: it keeps which channels it drives, and never fails.
#[derive(Drop)]
pub struct SimDriver {
    coils: [bool; 256],
}

impl SimDriver {
    /// A driver that drives no channel.
    pub fn new() -> Self
        ensures { (k : ℕ) → ⟦<SimDriver as Driver>⟧.driven result k ≡ false }
    {
        SimDriver { coils: no_flags() }
    }

    /// Whether it drives the channel.
    pub fn is_driven(&self, ch: u8) -> bool
        ensures { result ≡ ⟦<SimDriver as Driver>⟧.driven self.now ch }
    {
        self.coils[ch as usize]
    }
}

impl Driver for SimDriver {
    ghost driven = { λ d k. slice_index_or d.coils k false };

    ghost drives = { λ _ _ _ result _. IsOk result };

    fn drive(&mut self, ch: u8, on: bool) -> Result<(), CardFault> {
        self.coils[ch as usize] = on;
        Ok(())
    }

    fn is_sure(&self) -> bool {
        true
    }

    fn cut(&mut self) {
        self.coils = no_flags();
    }
}

/// A source without hardware: the first reading, then one step more each time, in nanovolts. Past what an i64 holds
/// it gives an overload, from then on.
#[derive(Drop)]
pub struct SimSource {
    next: Option<i64>,
    step: i64,
}

impl Model for SimSource {
    ghost Value = { Option ℤ × ℤ };

    ghost view = { λ s. (s.next, s.step) };
}

impl SimSource {
    /// A source of `first`, `first + step` and so on, in nanovolts.
    pub fn new(first: i64, step: i64) -> Self
        ensures { result ≡ (Some first, step) }
    {
        SimSource {
            next: Some(first),
            step,
        }
    }
}

impl Source for SimSource {
    ghost samples = { λ s result t.
        (result ≡ Ok (reading_after s 0)) × ((n : ℕ) → reading_after t n ≡ reading_after s (n + 1)) };

    fn sample(&mut self) -> Result<Reading, CardFault> {
        let Some(volts) = self.next else {
            return Ok(Reading::Overload);
        };
        self.next = volts.checked_add(self.step);
        Ok(Reading::Volts(volts))
    }
}
