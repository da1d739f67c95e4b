//! Items that one thread works on.

ghost use Rattle.std.specs.Prelude.{◌+◌, ◌<◌, ◌^◌, IfOk, length};
ghost use Rattle.workers.specs.Pieces.{ComeOf};

use crate::piece::Piece;
use std::alloc::{AllocError, Global};
use std::thread::Promise;

/// Items that stand one after the other in a list, and what is done with each. As a promise: that this came of them.
pub struct Part<'g, T, J> {
    /// The place of the first of them in the list.
    pub first: usize,
    pub items: &'g [T],
    pub job: &'g J,
}

impl<'g, T, J> Drop for Part<'g, T, J> {
    fn drop(self) {
        let Self {
            first: _,
            items: _,
            job: _,
        } = self;
    }
}

impl<'g, T, X, J: Piece<T, X>> Promise<Result<Vec<X>, AllocError>> for Part<'g, T, J> {
    ghost kept_by = { λ part r. IfOk r
        (λ found. ComeOf (J.gives part.job.now) part.first part.items.now found.items) };
}

/// What comes of the items, in their order.
///
/// # Errors
///
/// Memory was refused; what came of those before is let go.
pub fn work_on<T, X: Drop, J: Piece<T, X>>(
    alloc: Global,
    first: usize,
    items: &[T],
    job: &J,
) -> Result<Vec<X>, AllocError>
    requires { first + length items.now < 2 ^ 64 }
    ensures { IfOk result (λ found. ComeOf (J.gives job.now) first items.now found.items) }
{
    let mut found = Vec::new(alloc);
    for (number, item) in items.iter().enumerate() {
        found.push(job.work(alloc, first + number, item)?)?;
    }
    Ok(found)
}
