//! Boards of relays.

ghost use Rattle.std.specs.Prelude.{◌≡◌, ℕ, false, replicate, slice_index_or};

use crate::fault::DriverFault;
use sw_kinds::no_flags;

/// The account of a board's coils, by channel.
pub type Account = [bool; 256];

/// The account by which no coil is on.
pub fn none_on() -> Account
    ensures all { result ≡ replicate 256 false }
    ensures each { (k : ℕ) → slice_index_or result k false ≡ false }
{
    no_flags()
}

/// A board of relays.
///
/// Contracts see which channels' coils are on, as far as that is known, and what the board's last answer has shown.
pub trait Board: Drop {
    ghost use Rattle.std.specs.Prelude.{◌≡◌, ◌≢◌, ◌≤◌, ℕ, Bool, List, OnOk, IsTrue, false, replicate, set, ⊤};

    // Whether the channel's coil is on, as far as is known.
    ghost is_on: { Self → ℕ → Bool };

    // The board's last answer has shown these states of its coils, by channel, as far as the driver asks.
    ghost shows: { Self → List Bool → Type 0 };

    // From the first state to the second the driver set the board up, asked it for the states of its coils, and sent it
    // nothing else.
    ghost looks: { Self → Self → Type 0 } = { λ _ _. ⊤ };

    /// Opens the connection anew, sets the board up, and asks for the states of its coils, where the board answers
    /// that. Switches nothing.
    fn reach(&mut self) -> Result<(), DriverFault>
        ensures fewer { (k : ℕ) → IsTrue (is_on self.new k) → IsTrue (is_on self.old k) }
        ensures looks { OnOk result (looks self.old self.new) };

    /// Switches one coil. `Ok` only where the board has confirmed it. `before` has the states that the coils should
    /// have. No other coil comes on.
    fn switch(&mut self, ch: u8, on: bool, before: &Account) -> Result<(), DriverFault>
        ensures off { OnOk result (on ≡ false → is_on self.new ch ≡ false) }
        ensures others { (k : ℕ) → k ≢ ch → IsTrue (is_on self.new k) → IsTrue (is_on self.old k) }
        ensures shows { OnOk result (shows self.new (set before.now ch on)) };

    /// Switches all coils off. `Ok` only where the board has confirmed it. None comes on.
    fn clear(&mut self) -> Result<(), DriverFault>
        ensures off { OnOk result ((k : ℕ) → is_on self.new k ≡ false) }
        ensures fewer { (k : ℕ) → IsTrue (is_on self.new k) → IsTrue (is_on self.old k) }
        ensures shows { OnOk result (shows self.new (replicate 256 false)) };
}

/// A board without hardware.
#[derive(Drop)]
pub struct SimBoard;

impl Board for SimBoard {
    ghost use Rattle.std.specs.Prelude.{false, ⊤};

    ghost is_on = { λ _ _. false };

    ghost shows = { λ _ _. ⊤ };

    fn reach(&mut self) -> Result<(), DriverFault> {
        Ok(())
    }

    fn switch(&mut self, _ch: u8, _on: bool, _before: &Account) -> Result<(), DriverFault> {
        Ok(())
    }

    fn clear(&mut self) -> Result<(), DriverFault> {
        Ok(())
    }
}
