//! Values in boxes.

ghost use Rattle.std.specs.Prelude.{◌≡◌, IfOk};

use std::alloc::{AllocError, Global};
use std::marker::Model;

/// A value in a box: it is cheap to move, and no enum is as large as what it has in one. Contracts see the value.
#[derive(Debug, Drop)]
pub struct Boxed<T: Drop> {
    kept: Box<T>,
}

impl<T: Drop> Model for Boxed<T> {
    ghost Value = { T };

    ghost view = { λ b. b.kept.value };
}

impl<T: Drop> Boxed<T> {
    /// Puts a value into a box.
    pub fn new(alloc: Global, value: T) -> Result<Self, AllocError>
        ensures { IfOk result (λ b. b ≡ value) }
    {
        let kept = Box::new(alloc, value)?;
        Ok(Boxed { kept })
    }

    /// The value.
    pub fn get(&self) -> &T
        ensures { result.now ≡ self.now }
    {
        &self.kept
    }

    /// The value, out of its box.
    pub fn into_inner(self) -> T
        ensures { result ≡ self }
    {
        Box::into_inner(self.kept)
    }
}
