//! What an operator types to a server.

ghost use Rattle.std.specs.Prelude.{◌≡◌, ◌↔◌, true, []};
ghost use Rattle.sw_serve.specs.Orders.{line_after, IsAbortLine};

use arrayvec::ArrayVec;
use std::marker::Model;

/// What a line says that opens every relay.
const ABORT: &[u8] = b"abort";

/// How much of a line is kept: one byte more than the longest that is an order.
const KEPT: usize = 6;

/// The line that is being typed, as far as it has come.
#[derive(Drop)]
pub struct Orders {
    line: ArrayVec<u8, KEPT>,
}

impl Model for Orders {
    ghost use Rattle.std.specs.Prelude.{ℕ, List};

    ghost Value = { List ℕ };

    ghost view = { λ o. o.line.items };
}

impl Orders {
    /// Nothing was typed yet.
    pub fn new() -> Self
        ensures { result ≡ [] }
    {
        Orders {
            line: ArrayVec::new(),
        }
    }

    /// Takes the next byte, and gives whether it ends a line `abort`.
    pub fn take(&mut self, byte: u8) -> bool
        ensures line { self.new ≡ line_after self.old byte }
        ensures result { (result ≡ true) ↔ IsAbortLine self.old byte }
    {
        if byte == b'\n' {
            let is_abort = self.line.as_slice() == ABORT;
            self.line.clear();
            return is_abort;
        }
        if byte != b'\r' && !self.line.is_full() {
            self.line.push(byte);
        }
        false
    }
}
