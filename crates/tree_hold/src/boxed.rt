//! Parts in boxes. Where memory runs out, the part is let go.

ghost use Rattle.std.specs.Prelude.{◌≡◌, IfOk};

use std::alloc::{AllocError, Global};
use tree::{Bounds, Expr, Literal, Signature, Stmt};

/// A part in a box.
///
/// # Errors
///
/// Out of memory.
fn boxed<T: Drop>(alloc: Global, part: T) -> Result<Box<T>, AllocError>
    ensures { IfOk result (λ kept. kept.value ≡ part) }
{
    Ok(Box::new(alloc, part)?)
}

/// An expression in a box.
///
/// # Errors
///
/// Out of memory.
pub fn expression(alloc: Global, part: Expr) -> Result<Box<Expr>, AllocError>
    ensures { IfOk result (λ kept. kept.value ≡ part) }
{
    boxed(alloc, part)
}

/// A statement in a box.
///
/// # Errors
///
/// Out of memory.
pub fn statement(alloc: Global, part: Stmt) -> Result<Box<Stmt>, AllocError>
    ensures { IfOk result (λ kept. kept.value ≡ part) }
{
    boxed(alloc, part)
}

/// A function literal in a box.
///
/// # Errors
///
/// Out of memory.
pub fn literal(alloc: Global, part: Literal) -> Result<Box<Literal>, AllocError>
    ensures { IfOk result (λ kept. kept.value ≡ part) }
{
    boxed(alloc, part)
}

/// The bounds of a slice in a box.
///
/// # Errors
///
/// Out of memory.
pub fn bounds(alloc: Global, part: Bounds) -> Result<Box<Bounds>, AllocError>
    ensures { IfOk result (λ kept. kept.value ≡ part) }
{
    boxed(alloc, part)
}

/// A signature in a box.
///
/// # Errors
///
/// Out of memory.
pub fn signature(alloc: Global, part: Signature) -> Result<Box<Signature>, AllocError>
    ensures { IfOk result (λ kept. kept.value ≡ part) }
{
    boxed(alloc, part)
}
