//! Sets of a card's channels, as bits of one number.

ghost use Rattle.std.specs.Prelude.{◌≡◌, ◌≢◌, ℕ, ◌<◌, ◌≤◌, ◌^◌, true, false, IfSome, IfNone};
ghost use Rattle.sw_base.specs.Limits.{most_channels};
ghost use Rattle.sw_card.specs.Mask.{in_mask};

use std::marker::Model;

/// A set of a card's channels as one number: bit `ch - 1` for channel `ch`. Contracts see the number.
#[derive(Clone, Copy, Debug, PartialEq, Eq)]
pub struct Mask {
    bits: u128,
}

impl Model for Mask {
    ghost Value = { ℕ };

    ghost view = { λ m. m.bits };

    ghost invariant = { λ m. m.bits < 2 ^ 128 };

    ghost inverse = { λ bits. record { bits = bits } };
}

impl Mask {
    /// The set with no channel.
    pub fn new() -> Mask
        ensures { (ch : ℕ) → in_mask result ch ≡ false }
    {
        Mask { bits: 0 }
    }

    /// Whether the channel is in the set.
    pub fn has(self, ch: u8) -> bool
        ensures { result ≡ in_mask self ch }
    {
        ch >= 1 && u32::from(ch) <= u128::BITS && (self.bits >> (ch - 1)) & 1 == 1
    }

    /// Whether no channel is in the set.
    pub fn is_empty(self) -> bool
        ensures none { result ≡ true → (ch : ℕ) → in_mask self ch ≡ false }
        ensures some { result ≡ false → (ch : ℕ) × (in_mask self ch ≡ true) }
    {
        self.bits == 0
    }

    /// The lowest channel of the set.
    pub fn lowest(self) -> Option<u8>
        ensures here { IfSome result (λ ch. in_mask self ch ≡ true) }
        ensures lowest { IfSome result (λ ch. (k : ℕ) → k < ch → in_mask self k ≡ false) }
        ensures none { IfNone result ((ch : ℕ) → in_mask self ch ≡ false) }
    {
        if self.bits == 0 {
            return None;
        }
        Some(self.bits.trailing_zeros() as u8 + 1)
    }

    /// Puts the channel into the set.
    pub fn insert(&mut self, ch: u8)
        requires { (1 ≤ ch) × (ch ≤ most_channels) }
        ensures here { in_mask self.new ch ≡ true }
        ensures others { (k : ℕ) → k ≢ ch → in_mask self.new k ≡ in_mask self.old k }
    {
        self.bits |= 1 << (ch - 1);
    }

    /// Takes the channel out of the set.
    pub fn remove(&mut self, ch: u8)
        requires { (1 ≤ ch) × (ch ≤ most_channels) }
        ensures here { in_mask self.new ch ≡ false }
        ensures others { (k : ℕ) → k ≢ ch → in_mask self.new k ≡ in_mask self.old k }
    {
        self.bits &= !(1 << (ch - 1));
    }
}
