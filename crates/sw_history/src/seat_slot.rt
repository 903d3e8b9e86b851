//! A slot for a seat that has seen what a session's last event left.

ghost use Rattle.std.specs.Prelude.{◌≡◌, ℕ, Some};
ghost use mathlib.Core.List.{IsPrefix};
ghost use Rattle.sw_history.specs.Entries.{last_pair, made_by};

use crate::board::{BoardName, StatusBoard};
use crate::seat::StatusSeat;
use std::sync::{Mutex, Wait};

/// A slot for a seat, under a lock of its own.
#[derive(Drop)]
pub struct SeatSlot<B: BoardName> {
    seat: Mutex<Option<StatusSeat<B>>>,
}

impl<B: BoardName> SeatSlot<B> {
    /// No seat lies in it.
    pub fn new() -> Self {
        SeatSlot {
            seat: Mutex::new(None),
        }
    }

    /// Leaves a seat in the place of the one there.
    pub fn leave<W: Wait>(&self, rt: &W, seat: StatusSeat<B>) {
        *self.seat.lock(rt) = Some(seat);
    }

    /// A seat that has seen the same as the one here, if there is one.
    fn look<W: Wait>(&self, rt: &W, board: &StatusBoard<B>) -> Option<StatusSeat<B>> {
        let mut guard = self.seat.lock(rt);
        match &mut *guard {
            Some(seat) => Some(seat.split(board)),
            None => None,
        }
    }

    /// Reads the board: not earlier than any that this seat had seen, nor than what the seat here had seen. It takes
    /// the slot's lock alone.
    pub fn poll<W: Wait>(
        &self,
        rt: &W,
        board: &StatusBoard<B>,
        seat: &mut StatusSeat<B>,
    ) -> (u8, u64)
        ensures later { IsPrefix seat.old.seen seat.new.seen }
        ensures pair { result ≡ last_pair B.opening seat.new.seen }
        ensures desk { (seat.new.desk ≡ seat.old.desk) × (seat.new.mine ≡ seat.old.mine) }
        ensures own { (d : ℕ) → seat.old.desk ≡ Some d → made_by d seat.new.seen ≡ seat.old.mine }
    {
        if let Some(left) = self.look(rt, board) {
            seat.join(board, left);
        }
        seat.read(board)
    }
}
