//! Coils of a board.

ghost use Rattle.std.specs.Prelude.{◌≤◌, ◌+◌};

use crate::frame::Wrapping;

/// Which coils of which board.
#[derive(Clone, Copy, Debug, PartialEq, Eq)]
pub struct Coils {
    pub wrapping: Wrapping,
    pub unit: u8,
    /// The address of channel 1's coil, counted from 0.
    pub first: u16,
    pub channels: u8,
    /// Whether the driver asks the board for the states after each change of them.
    pub verified: bool,
    ghost few: { channels ≤ 99 },
    ghost within: { first + channels ≤ 65536 },
}
