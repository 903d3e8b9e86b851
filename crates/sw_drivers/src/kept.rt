//! A driver over a board: the account of its coils.

ghost use Rattle.std.specs.Prelude.{◌≡◌, ◌≢◌, ℕ, Bool, List, IsTrue, IfOk, OnOk, slice_index_or, set, true, false, Err};
ghost use Rattle.sw_drivers.specs.Kept.{HoldsOn};
ghost use Rattle.sw_drivers.specs.declared.fault.DriverFault.TheVariants.{Held};

use crate::board::{Account, Board, none_on};
use crate::fault::{DriverFault, Told};
use crate::interlock::Interlock;
use std::marker::Model;
use sw_card::CardFault;
use sw_kinds::Driver;

/// A board with the account of its coils: a coil counts as driven from before it is switched until the board has
/// confirmed that it is off. Contracts see the board, the account, and whether the last cut was confirmed; where it
/// was, each coil that is on is in the account.
#[derive(Drop)]
pub struct Kept<B: Board, T: Told + Drop> {
    board: B,
    slot: u8,
    coils: Account,
    is_sure: bool,
    interlock: Interlock,
    told: T,
}

impl<B: Board, T: Told + Drop> Model for Kept<B, T> {
    ghost Value = { B × List Bool × Bool };

    ghost view = { λ k. (k.board, k.coils, k.is_sure) };

    ghost invariant = { λ k. HoldsOn k.is_sure (B.is_on k.board) k.coils };
}

impl<B: Board, T: Told + Drop> Kept<B, T> {
    /// The board in this slot, with every coil off; or why it has not confirmed that.
    pub fn new(mut board: B, slot: u8, interlock: Interlock, told: T) -> Result<Self, DriverFault>
        ensures off { IfOk result (λ kept. (k : ℕ) → slice_index_or kept.1 k false ≡ false) }
        ensures shows { IfOk result (λ kept. B.shows kept.0 kept.1) }
        ensures sure { IfOk result (λ kept. kept.2 ≡ true) }
    {
        board.clear()?;
        Ok(Kept {
            board,
            slot,
            coils: none_on(),
            is_sure: true,
            interlock,
            told,
        })
    }
}

/// Switches a coil, but switches none on while a card's relays may be closed against its account.
fn switch<B: Board>(
    board: &mut B,
    ch: u8,
    on: bool,
    coils: &Account,
    is_held: bool,
) -> Result<(), DriverFault>
    ensures held { IsTrue on → IsTrue is_held → (result ≡ Err Held) × (board.new ≡ board.old) }
    ensures off { OnOk result (on ≡ false → B.is_on board.new ch ≡ false) }
    ensures others { (k : ℕ) → k ≢ ch → IsTrue (B.is_on board.new k) → IsTrue (B.is_on board.old k) }
    ensures shows { OnOk result (B.shows board.new (set coils.now ch on)) }
{
    if on && is_held {
        return Err(DriverFault::Held);
    }
    board.switch(ch, on, coils)
}

impl<B: Board, T: Told + Drop> Driver for Kept<B, T> {
    ghost driven = { λ d k. slice_index_or d.1 k false };

    ghost sure = { λ d. d.2 };

    // `Ok` only where the board has shown that its coils are as the account says; the driver switches none on while the
    // last cut is not confirmed.
    ghost drives = { λ d ch on result e. OnOk result (B.shows e.0 e.1 × (IsTrue on → IsTrue d.2)) };

    // What the board has shown confirms the cut.
    ghost cuts = { λ d e. IsTrue e.2 → B.shows e.0 e.1 × ((k : ℕ) → B.is_on e.0 k ≡ false) };

    fn drive(&mut self, ch: u8, on: bool) -> Result<(), CardFault> {
        let is_held = !self.is_sure || self.interlock.is_held();
        match switch(&mut self.board, ch, on, &self.coils, is_held) {
            Ok(()) => {
                self.coils[ch as usize] = on;
                Ok(())
            }
            Err(fault) => {
                self.coils[ch as usize] = true;
                self.told.tell(self.slot, fault);
                Err(CardFault)
            }
        }
    }

    /// Whether the board has confirmed the last cut.
    fn is_sure(&self) -> bool {
        self.is_sure
    }

    fn cut(&mut self) {
        let cleared = self.board.clear();
        self.coils = none_on();
        self.is_sure = cleared.is_ok();
        self.interlock.note(self.slot, self.is_sure);
        if let Err(fault) = cleared {
            self.told.tell(self.slot, fault);
        }
    }
}
