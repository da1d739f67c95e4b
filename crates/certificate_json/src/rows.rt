//! Rows of masks, held one after the other.

ghost use Rattle.std.specs.Prelude.{◌≡◌, IfOk, drop, map, take};
ghost use Rattle.certificate_json.specs.Certificates.{rows_in};

use std::alloc::{AllocError, Global};

/// Rows of masks. All masks stand in one list, row after row, and beside it stands how many are in each row. So a row
/// takes no memory of its own.
#[derive(Debug, Drop, PartialEq)]
pub struct Rows {
    masks: Vec<u16>,
    widths: Vec<usize>,
}

impl Rows {
    ghost use Rattle.std.specs.Prelude.{◌≡◌, ◌++◌, ◌∷◌, [], IfOk, OnOk, length, map};
    ghost use Rattle.certificate_json.specs.Certificates.{rows_of};
    ghost use Rattle.certificate_json.specs.RowsHeld.{IsWhole};

    /// No rows.
    pub(crate) fn new(alloc: Global) -> Rows
        ensures whole { IsWhole result }
        ensures none { rows_of result ≡ [] }
    {
        Rows {
            masks: Vec::new(alloc),
            widths: Vec::new(alloc),
        }
    }

    /// Adds a row after those that are there.
    pub(crate) fn push(&mut self, row: &Vec<u16>) -> Result<(), AllocError>
        ensures { OnOk result (IsWhole self.old
            → IsWhole self.new × (rows_of self.new ≡ rows_of self.old ++ row.now.items ∷ [])) }
    {
        self.masks.extend_from_slice(row.as_slice())?;
        self.widths.push(row.len())?;
        Ok(())
    }

    /// The rows that stand in these lists.
    ///
    /// # Errors
    ///
    /// Memory was refused.
    pub fn of_lists(alloc: Global, lists: &[Vec<u16>]) -> Result<Rows, AllocError>
        ensures { IfOk result (λ rows. rows_of rows ≡ map (λ list. list.items) lists.now) }
    {
        let mut rows = Rows::new(alloc);
        for list in lists {
            rows.push(list)?;
        }
        Ok(rows)
    }

    /// How many rows there are.
    pub fn count(&self) -> usize
        ensures { result ≡ length (rows_of self.now) }
    {
        self.widths.len()
    }

    /// Each row in a list of its own.
    ///
    /// # Errors
    ///
    /// Memory was refused.
    pub fn to_lists(&self, alloc: Global) -> Result<Vec<Vec<u16>>, AllocError>
        ensures { IfOk result (λ lists. map (λ list. list.items) lists.items ≡ rows_of self.now) }
    {
        lists_of(alloc, &self.widths, &self.masks)
    }
}

/// The first masks, as many as that if there are so many, and those after them.
fn split(masks: &[u16], width: usize) -> (&[u16], &[u16])
    ensures row { result.0.now ≡ take width masks.now }
    ensures after { result.1.now ≡ drop width masks.now }
{
    let end = width.min(masks.len());
    masks.split_at(end)
}

/// A list of these masks.
fn list_of(alloc: Global, masks: &[u16]) -> Result<Vec<u16>, AllocError>
    ensures { IfOk result (λ list. list.items ≡ masks.now) }
{
    let mut list = Vec::new(alloc);
    list.extend_from_slice(masks)?;
    Ok(list)
}

/// The rows of these widths, each in a list of its own.
fn lists_of(alloc: Global, widths: &[usize], masks: &[u16]) -> Result<Vec<Vec<u16>>, AllocError>
    ensures { IfOk result (λ lists. map (λ list. list.items) lists.items ≡ rows_in widths.now masks.now) }
{
    let mut lists = Vec::new(alloc);
    let mut rest = masks;
    for width in widths {
        let (row, after) = split(rest, *width);
        lists.push(list_of(alloc, row)?)?;
        rest = after;
    }
    Ok(lists)
}
