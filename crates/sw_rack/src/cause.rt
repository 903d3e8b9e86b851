//! Why a text describes no rack.

ghost use Rattle.std.specs.Prelude.{◌≡◌};
ghost use Rattle.sw_rack.specs.declared.cause.ReadError.TheVariants.{Memory};

use crate::form::Form;
use crate::key::Key;
use std::alloc::{AllocError, AllocFailed};

/// What the value of a key must be.
#[derive(Clone, Copy, Debug, PartialEq, Eq)]
pub enum Wanted {
    Text,
    Number,
    Flag,
    Texts,
    Numbers,
}

/// Words; the value must be one of them.
#[derive(Clone, Copy, Debug, PartialEq, Eq)]
pub enum Choice {
    Card,
    RelayDriver,
    MeterDriver,
}

/// What is wrong with a file that is TOML. A fault has a word beside it; each variant says which.
#[derive(Clone, Copy, Debug, PartialEq, Eq)]
pub enum Cause {
    /// The key, the word, is neither `version` nor `slot`.
    Stranger,
    /// `version = 1` is missing, or another.
    Version,
    /// There is no card.
    NoCard,
    /// The key under `slot`, the word, is no slot.
    NoSuchSlot,
    /// This must be a table, and is of another type, the word.
    NoTable,
    /// No card has this key, the word.
    Unknown,
    /// Cards of this form don't have this key, the word.
    Stray(Form),
    Missing(Key),
    /// One of both is wanted, and not both.
    OneOf(Key, Key),
    /// The value is of another type, the word.
    Mistyped(Key, Wanted),
    /// The value must be from the first to the second number, and is the third.
    Range(Key, u32, u32, i64),
    /// The text or the list has nothing in it.
    Empty(Key),
    /// The word is none of these.
    Word(Choice),
    /// The number of groups, and the number of channels, which differs from it.
    Groups(usize, u32),
    /// The last channel's coil would have this address.
    Coil(u32),
    /// The braces of the word have a word in them that means nothing there.
    Template(Key),
}

/// Why reading ends: a fault with its word, or no memory.
#[derive(Debug, Drop)]
pub enum ReadError {
    Memory,
    Fault(Cause, String),
}

impl From<AllocError> for ReadError {
    ghost from_gives = { λ _ e. e ≡ Memory };

    fn from(_error: AllocError) -> ReadError {
        ReadError::Memory
    }
}

impl<T: Drop> From<AllocFailed<T>> for ReadError {
    ghost from_gives = { λ _ e. e ≡ Memory };

    fn from(_failed: AllocFailed<T>) -> ReadError {
        ReadError::Memory
    }
}
