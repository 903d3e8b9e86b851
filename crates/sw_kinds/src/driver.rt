//! What drives the coils of a relay card.

ghost use Rattle.std.specs.Prelude.{◌≡◌, ◌≢◌, ℕ, Bool, true, false, Result, OnOk, ⊤};
ghost use Rattle.sw_card.specs.declared.board.CardFault.{CardFault};

use sw_card::CardFault;

/// Drives the coils of a relay card's channels.
///
/// Contracts see the driven channels as a test. A driver that knows what a call did to it says so in `drives` and
/// `cuts`; one that does not leaves these out.
pub trait Driver: Drop {
    // Whether the channel's coil may be driven.
    ghost driven: { Self → ℕ → Bool };

    // Whether the driver is sure that no other coil is driven; one that has no way to know is sure.
    ghost sure: { Self → Bool } = { λ _. true };

    // What a call of `drive` may do: the driver before it, channel, state asked for, result, the driver after it.
    ghost drives: { Self → ℕ → Bool → Result (Unit {0}) CardFault → Self → Type 0 } = { λ _ _ _ _ _. ⊤ };

    // What a call of `cut` may do.
    ghost cuts: { Self → Self → Type 0 } = { λ _ _. ⊤ };

    /// Drives the channel's coil, or no longer. A fault leaves open what became of this channel, and of no other.
    fn drive(&mut self, ch: u8, on: bool) -> Result<(), CardFault>
        ensures ok { OnOk result (driven self.new ch ≡ on) }
        ensures others { (k : ℕ) → k ≢ ch → driven self.new k ≡ driven self.old k }
        ensures drives { drives self.old ch on result self.new };

    /// Whether the driver can say that no coil is driven but those of its account.
    fn is_sure(&self) -> bool
        ensures { result ≡ sure self.now };

    /// Cuts the supply of every coil. It cannot fail.
    fn cut(&mut self)
        ensures none { (k : ℕ) → driven self.new k ≡ false }
        ensures cuts { cuts self.old self.new };
}
