//! Lists that a value owns.

ghost use Rattle.std.specs.Prelude.{◌≡◌, length, slice_get, List};

use std::marker::Model;

/// A list in a value that contracts compare, as the channels of a command or the bytes of an answer.
///
/// Contracts see the list of its items, and nothing of the room behind it. It is made from a `Vec` and given back
/// without taking memory.
#[derive(Debug, Drop)]
pub struct Sequence<T: Drop> {
    items: Vec<T>,
}

impl<T: Drop> Model for Sequence<T> {
    ghost Value = { List T };

    ghost view = { λ s. s.items.items };
}

impl<T: Drop> Sequence<T> {
    /// The sequence of these items.
    pub fn new(items: Vec<T>) -> Self
        ensures { result ≡ items.items }
    {
        Sequence { items }
    }

    /// Its items as a `Vec`.
    pub fn into_vec(self) -> Vec<T>
        ensures { result.items ≡ self }
    {
        let Sequence { items } = self;
        items
    }

    /// Its items as a slice.
    pub fn as_slice(&self) -> &[T]
        ensures { result.now ≡ self.now }
    {
        self.items.as_slice()
    }
}
