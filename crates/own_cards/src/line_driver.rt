//! Relays that obey lines of text.

ghost use Rattle.std.specs.Prelude.{slice_index_or, false};

use std::io::Write;
use sw_card::CardFault;
use sw_kinds::{Driver, no_flags};

/// Relays behind anything that takes lines: `1 close 3` and `1 open 3` for channel 3 of board 1, and `1 off`, by which
/// the board takes the supply from all its coils. A coil counts as driven from before it is switched on until it
/// surely is off.
#[derive(Drop)]
pub struct LineDriver<W: Write + Drop> {
    board: u8,
    line: W,
    coils: [bool; 256],
    is_sure: bool,
}

impl<W: Write + Drop> LineDriver<W> {
    /// The relays of this board.
    pub fn new(board: u8, line: W) -> Self {
        LineDriver {
            board,
            line,
            coils: no_flags(),
            is_sure: true,
        }
    }
}

impl<W: Write + Drop> Driver for LineDriver<W> {
    ghost driven = { λ d k. slice_index_or d.coils k false };

    ghost sure = { λ d. d.is_sure };

    fn drive(&mut self, ch: u8, on: bool) -> Result<(), CardFault> {
        let word = if on { "close" } else { "open" };
        self.coils[ch as usize] = true;
        if writeln!(self.line, "{} {word} {ch}", self.board).is_err() {
            return Err(CardFault);
        }
        self.coils[ch as usize] = on;
        Ok(())
    }

    fn is_sure(&self) -> bool {
        self.is_sure
    }

    fn cut(&mut self) {
        self.is_sure = writeln!(self.line, "{} off", self.board).is_ok();
        self.coils = no_flags();
    }
}
