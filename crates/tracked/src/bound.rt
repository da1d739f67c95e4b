//! Which rows bind the cancel variables that they obtain.

ghost use Rattle.std.specs.Prelude.{◌≡◌, ◌||◌, option_map, map};
ghost use Rattle.std.specs.List.{list_all};
ghost use Rattle.facts.specs.FactViews.{kind_view, cancel_result_view};
ghost use Rattle.meaning.specs.Tracked.{is_outer_at};
ghost use Rattle.meaning.specs.Uses.{is_cancel, kind_at, row_binds};
ghost use Rattle.mentions.specs.MarkViews.{row_view};
ghost use Rattle.tracked.specs.LocalViews.{seen_view, SeesLocals};

use crate::seen::Seen;
use facts::{CancelResult, VariableKind};
use mentions::Row;
use tracked_rows::{is_outer_at, local_at, row_giving};

/// Whether it is the kind of cancel functions.
pub fn is_cancel(kind: Option<VariableKind>) -> bool
    ensures { result ≡ is_cancel (option_map kind_view kind) }
{
    match kind {
        Some(kind) => kind.is_cancel(),
        None => false,
    }
}

/// The kind of the local on the left side of that number.
pub fn kind_at(seen: &Seen<'_, '_, '_>, row: Row<'_>, index: usize) -> Option<VariableKind>
    requires { SeesLocals seen.now }
    ensures { option_map kind_view result ≡ kind_at (seen_view seen.now) (row_view row.entry) index }
{
    seen.kind_of(local_at(seen.known, row, index))
}

/// Whether a cancel variable stands on the left side of that number, or a field of an outer object that keeps.
fn is_cancel_at(seen: &Seen<'_, '_, '_>, row: Row<'_>, index: usize) -> bool
    requires { SeesLocals seen.now }
    ensures { result ≡ (is_cancel (kind_at (seen_view seen.now) (row_view row.entry) index)
        || is_outer_at (seen_view seen.now).known (row_view row.entry) index) }
{
    is_cancel(kind_at(seen, row, index)) || is_outer_at(seen.known, row, index)
}

/// Whether cancel variables stand on each of these left sides, or fields of outer objects that keep.
pub fn are_cancels(seen: &Seen<'_, '_, '_>, row: Row<'_>, gives: &[CancelResult]) -> bool
    requires { SeesLocals seen.now }
    ensures { result ≡ list_all (λ g. is_cancel (kind_at (seen_view seen.now) (row_view row.entry) g.position)
        || is_outer_at (seen_view seen.now).known (row_view row.entry) g.position) (map cancel_result_view gives.now) }
{
    for given in gives {
        if !is_cancel_at(seen, row, given.position) {
            return false;
        }
    }
    true
}

/// Whether the row binds all cancel variables that it obtains.
pub fn row_binds(seen: &Seen<'_, '_, '_>, row: Row<'_>) -> bool
    requires { SeesLocals seen.now }
    ensures { result ≡ row_binds (seen_view seen.now) (row_view row.entry) }
{
    match row_giving(seen.known, row) {
        Some(giving) => are_cancels(seen, row, giving.gives),
        None => false,
    }
}
