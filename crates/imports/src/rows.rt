//! Rows of numbers.

ghost use Rattle.std.specs.Prelude.{◌≡◌, [], ◌∷◌, ◌++◌, IfOk, OnOk, OnErr, slice_set, slice_index_or, replicate};
ghost use Rattle.imports.specs.Views.{rows_view, slices_view};

use std::alloc::{AllocError, Global};
use std::mem::replace;

/// The rows as slices.
///
/// # Errors
///
/// Memory was refused.
pub fn slices<'a>(alloc: Global, rows: &'a [Vec<usize>]) -> Result<Vec<&'a [usize]>, AllocError>
    ensures { IfOk result (λ slices. slices_view slices.items ≡ rows_view rows.now) }
{
    let mut slices = Vec::new(alloc);
    for row in rows {
        slices.push(row.as_slice())?;
    }
    Ok(slices)
}

/// Rows with nothing in them.
///
/// # Errors
///
/// Memory was refused.
pub fn empty_rows(alloc: Global, count: usize) -> Result<Vec<Vec<usize>>, AllocError>
    ensures { IfOk result (λ rows. rows_view rows.items ≡ replicate count []) }
{
    let mut rows = Vec::new(alloc);
    for _ in 0..count {
        rows.push(Vec::new(alloc))?;
    }
    Ok(rows)
}

/// Puts the slice at that place, if there is one.
pub fn set_slice<'a>(slices: &mut Vec<&'a [usize]>, place: usize, slice: &'a [usize])
    ensures { slices_view slices.new.items ≡ slice_set (slices_view slices.old.items) place slice.now }
{
    if place < slices.len() {
        slices[place] = slice;
    }
}

/// Adds the item to the row at that place, if there is one. Where memory is refused, no row changes.
///
/// # Errors
///
/// Memory was refused.
pub fn push_at(rows: &mut Vec<Vec<usize>>, place: usize, item: usize) -> Result<(), AllocError>
    ensures ok { OnOk result (rows_view rows.new.items ≡ slice_set (rows_view rows.old.items) place
        (slice_index_or (rows_view rows.old.items) place [] ++ item ∷ [])) }
    ensures err { OnErr result (rows_view rows.new.items ≡ rows_view rows.old.items) }
{
    if place < rows.len() {
        rows[place].push(item)?;
    }
    Ok(())
}

/// Takes the row at that place, and leaves nothing in it.
pub fn take_row(alloc: Global, rows: &mut Vec<Vec<usize>>, place: usize) -> Vec<usize>
    ensures taken { result.items ≡ slice_index_or (rows_view rows.old.items) place [] }
    ensures left { rows_view rows.new.items ≡ slice_set (rows_view rows.old.items) place [] }
{
    if place < rows.len() {
        replace(&mut rows[place], Vec::new(alloc))
    } else {
        Vec::new(alloc)
    }
}
