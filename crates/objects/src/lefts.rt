//! What left sides `x.f` stand for, by the offset of f.

ghost use Rattle.std.specs.Prelude.{◌≡◌, ℕ, IfOk, map};
ghost use Rattle.meaning.specs.Objects.{left_by, object_left};
ghost use Rattle.tracked.specs.LocalViews.{object_kind_view, object_row_view};
ghost use Rattle.tracked_rows.specs.RowViews.{object_left_view, left_among};

use std::alloc::{AllocError, Global};
use tracked::{ObjectKind, ObjectRow, first_place};
use tracked_rows::{ObjectLeft, PlacedLeft};

/// What the left side of a row stands for; a field of a new object is the variable of that number.
fn left_by(row: ObjectRow<'_>, number: u32) -> ObjectLeft
    ensures { object_left_view result ≡ left_by (object_kind_view row.entry.kind) row.entry.object number }
{
    match row.kind {
        ObjectKind::New => ObjectLeft::New {
            object: row.object,
            number,
        },
        ObjectKind::Outer => ObjectLeft::Outer,
    }
}

/// What the left sides of these rows stand for.
///
/// # Errors
///
/// Memory was refused.
pub fn placed_lefts(alloc: Global, rows: &[ObjectRow<'_>]) -> Result<Vec<PlacedLeft>, AllocError>
    ensures { IfOk result (λ lefts. (at : ℕ) → left_among lefts.items at
        ≡ object_left (map object_row_view rows.now) (map object_row_view rows.now) at) }
{
    let mut lefts: Vec<PlacedLeft> = Vec::new(alloc);
    for row in rows {
        lefts.push(PlacedLeft {
            at: row.field.span.start,
            left: left_by(*row, first_place(*row, rows)),
        })?;
    }
    Ok(lefts)
}
