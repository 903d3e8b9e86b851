//! Items of which the newest is taken off first.

ghost use Rattle.std.specs.Prelude.{◌≡◌, ◌∷◌, ◌++◌, [], reverse, IfSome, IfNone, OnOk};

use std::alloc::{AllocError, Global};
use std::marker::Model;

/// How many items take no memory.
const FEW: usize = 4;

/// A stack. Contracts see the list of its items, the newest first.
#[derive(Drop)]
pub struct Stack<T: Copy + Drop> {
    /// The oldest items, the newest of them last, and leftovers behind them.
    few: [T; FEW],
    /// How many of these are on it.
    count: usize,
    /// The items above them, the newest last.
    more: Vec<T>,
}

impl<T: Copy + Drop> Model for Stack<T> {
    ghost use Rattle.std.specs.Prelude.{List, ◌++◌, ◌≤◌, reverse, take};

    ghost Value = { List T };

    ghost view = { λ s. reverse s.more.items ++ reverse (take s.count s.few) };

    ghost invariant = { λ s. s.count ≤ 4 };
}

impl<T: Copy + Drop> Stack<T> {
    /// Nothing is on it; the item fills its room.
    #[inline(always)]
    pub fn new(alloc: Global, item: T) -> Self
        ensures { result ≡ [] }
    {
        Stack {
            few: [item; FEW],
            count: 0,
            more: Vec::new(alloc),
        }
    }

    /// Puts an item on it.
    #[inline(always)]
    pub fn push(&mut self, item: T) -> Result<(), AllocError>
        ensures { OnOk result (self.new ≡ item ∷ self.old) }
    {
        if self.count < FEW && self.more.is_empty() {
            self.few[self.count] = item;
            self.count += 1;
            return Ok(());
        }
        add(&mut self.more, item)
    }

    /// Takes the newest item off.
    #[inline(always)]
    pub fn pop(&mut self) -> Option<T>
        ensures some { IfSome result (λ item. self.old ≡ item ∷ self.new) }
        ensures none { IfNone result (self.old ≡ []) }
    {
        if !self.more.is_empty() {
            return self.more.pop();
        }
        if self.count == 0 {
            return None;
        }
        self.count -= 1;
        Some(self.few[self.count])
    }

    /// The items in two parts, each with its oldest item first; those of the second are newer.
    #[inline(always)]
    pub fn parts(&self) -> (&[T], &[T])
        ensures { reverse result.1.now ++ reverse result.0.now ≡ self.now }
    {
        (&self.few[..self.count], self.more.as_slice())
    }
}

/// Adds an item behind these.
#[inline(never)]
fn add<T: Copy + Drop>(items: &mut Vec<T>, item: T) -> Result<(), AllocError>
    ensures { OnOk result (reverse items.new.items ≡ item ∷ reverse items.old.items) }
{
    items.push(item)?;
    Ok(())
}
