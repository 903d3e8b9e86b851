//! The rows of flags as they were where the open loops began.

ghost use Rattle.std.specs.Prelude.{◌≡◌, ◌∷◌, [], List, Bool, true, false, reverse, OnOk};

use crate::row::{KeptRow, Row};
use std::alloc::{AllocError, Global};
use std::marker::Model;

/// Rows that were kept, of which the newest is compared first. Contracts see the list of them, the newest first.
#[derive(Drop)]
pub struct SavedRows {
    /// How many rows with no flag are below those that took memory.
    clear: usize,
    /// The rows above these, the newest last.
    kept: Vec<KeptRow>,
}

impl Model for SavedRows {
    ghost use Rattle.std.specs.Prelude.{List, Bool};

    ghost Value = { List (List Bool) };

    ghost use Rattle.sw_verify.specs.SavedSeen.{saved_rows};

    ghost view = { saved_rows };
}

impl SavedRows {
    /// No row is kept.
    #[inline(always)]
    pub fn new(alloc: Global) -> SavedRows
        ensures { result ≡ [] }
    {
        SavedRows {
            clear: 0,
            kept: Vec::new(alloc),
        }
    }

    /// Keeps a row. Where a flag is set, it takes memory.
    #[inline(always)]
    pub fn push(&mut self, alloc: Global, row: &Row) -> Result<(), AllocError>
        ensures { OnOk result (self.new ≡ row.now ∷ self.old) }
    {
        if !self.kept.is_empty() || !row.is_clear() || self.clear == usize::MAX {
            return keep(alloc, &mut self.kept, row);
        }
        self.clear += 1;
        Ok(())
    }

    /// Lets the newest row go where this one is the same; whether it is. There is none that is where none is kept.
    #[inline(always)]
    pub fn pop_same(&mut self, row: &Row) -> bool
        ensures same { result ≡ true → self.old ≡ row.now ∷ self.new }
        ensures other { result ≡ false → (rest : List (List Bool)) → self.old ≡ row.now ∷ rest → ⊥ }
    {
        if !self.kept.is_empty() {
            return let_go(&mut self.kept, row);
        }
        if self.clear == 0 || !row.is_clear() {
            return false;
        }
        self.clear -= 1;
        true
    }
}

/// Adds a row to those that were kept.
#[inline(never)]
fn keep(alloc: Global, kept: &mut Vec<KeptRow>, row: &Row) -> Result<(), AllocError>
    ensures { OnOk result (reverse kept.new.items ≡ row.now ∷ reverse kept.old.items) }
{
    kept.push(row.keep(alloc)?)?;
    Ok(())
}

/// Lets the newest of these rows go; whether this one is the same.
#[inline(never)]
fn let_go(kept: &mut Vec<KeptRow>, row: &Row) -> bool
    ensures same { result ≡ true → reverse kept.old.items ≡ row.now ∷ reverse kept.new.items }
    ensures other { result ≡ false → (rest : List (List Bool)) → reverse kept.old.items ≡ row.now ∷ rest → ⊥ }
{
    match kept.pop() {
        Some(newest) => row.is_as(&newest),
        None => false,
    }
}
