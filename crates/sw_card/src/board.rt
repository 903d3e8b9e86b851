//! What every card says of itself.

ghost use Rattle.std.specs.Prelude.{◌≡◌, ℕ};

/// A card could not do a call.
#[derive(Clone, Copy, Debug, PartialEq, Eq)]
pub struct CardFault;

/// A card that says which it is and how often it failed.
pub trait Board: Drop {
    ghost the_serial: { Self → ℕ };

    ghost failed: { Self → ℕ };

    /// The card's serial number.
    fn serial(&self) -> u32
        ensures { result ≡ the_serial self.now };

    /// How many calls failed so far; past 2^64 - 1 the count begins again at 0.
    fn failures(&self) -> u64
        ensures { result ≡ failed self.now };
}
