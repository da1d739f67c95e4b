//! What is done with each item of a list.

ghost use Rattle.std.specs.Prelude.{ℕ, IfOk};

use std::alloc::{AllocError, Global};

/// What is done with each item of a list. What comes of it borrows nothing from the item as it is lent here.
pub trait Piece<T, X> {
    /// That this comes of the item at that place of the list.
    ghost gives: { Self → ℕ → T → X → Type 0 };

    /// Works on the item at that place of the list.
    ///
    /// # Errors
    ///
    /// Memory was refused.
    fn work(&self, alloc: Global, place: usize, item: &T) -> Result<X, AllocError>
        ensures { IfOk result (gives self.now place item.now) };
}
