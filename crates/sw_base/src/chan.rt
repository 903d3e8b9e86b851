//! Channels.

ghost use Rattle.std.specs.Prelude.{◌≡◌, ℕ, ◌≤◌};
ghost use Rattle.sw_base.specs.Limits.{most_slots, most_channels};

use std::marker::Model;

/// A relay of the cage: its card's slot, 1 to `SLOTS`, and its number on that card, 1 to `CHANNELS`.
///
/// Contracts see the pair of the two numbers.
#[derive(Clone, Copy, Debug, PartialEq, Eq)]
pub struct Chan {
    slot: u8,
    ch: u8,
}

impl Model for Chan {
    ghost Value = { ℕ × ℕ };

    ghost view = { λ c. (c.slot, c.ch) };

    ghost invariant = { λ c. (1 ≤ c.slot) × (c.slot ≤ most_slots) × (1 ≤ c.ch) × (c.ch ≤ most_channels) };

    ghost inverse = { λ d. record { slot = d.0; ch = d.1 } };
}

impl Chan {
    /// The channel `ch` of the card in `slot`.
    pub fn new(slot: u8, ch: u8) -> Chan
        requires slot_in { (1 ≤ slot) × (slot ≤ most_slots) }
        requires ch_in { (1 ≤ ch) × (ch ≤ most_channels) }
        ensures { result ≡ (slot, ch) }
    {
        Chan { slot, ch }
    }

    /// The slot of its card, from 1.
    pub fn slot(self) -> u8
        ensures value { result ≡ self.0 }
        ensures range { (1 ≤ result) × (result ≤ most_slots) }
    {
        self.slot
    }

    /// Its number on its card, from 1.
    pub fn ch(self) -> u8
        ensures value { result ≡ self.1 }
        ensures range { (1 ≤ result) × (result ≤ most_channels) }
    {
        self.ch
    }
}
