//! Left sides `x.f` into which makers and givers give what the field keeps, and the variables that they are of new
//! objects.

ghost use Rattle.std.specs.Prelude.{◌≡◌, OnOk, map};
ghost use Rattle.meaning.specs.Objects.{is_same_field, first_place, field_local, field_locals};
ghost use Rattle.tracked.specs.LocalViews.{object_kind_view, object_row_view, lesser_place, AddsLocals};

use crate::local::{Local, LocalRole};
use crate::table::Locals;
use facts::{CancelType, TrackedType};
use std::alloc::AllocError;
use tree::Identifier;

/// A local of a body in whose fields cancel functions may be kept.
#[derive(Clone, Copy, PartialEq, Eq)]
pub enum ObjectKind {
    /// It is bound in its declaration alone.
    New,
    /// It is a parameter or receiver whose type is written with `*`: others hold the object.
    Outer,
}

/// A left side `x.f` of a row of a maker or giver, at a position that is given, where f keeps.
#[derive(Clone, Copy)]
pub struct ObjectRow<'a> {
    /// The number of x.
    pub object: u32,
    pub kind: ObjectKind,
    pub field: &'a Identifier,
    /// The type of the position.
    pub cancel_type: CancelType,
    /// The body of the row, by the offset of its `func`.
    pub body: u32,
}

fn is_same_field(row: ObjectRow<'_>, other: ObjectRow<'_>) -> bool
    ensures { result ≡ is_same_field (object_row_view row.entry) (object_row_view other.entry) }
{
    row.object == other.object && row.field.text.as_str() == other.field.text.as_str()
}

/// The least of a place, and of that of the other row, if it is of the same field of the same object.
fn lesser_place(row: ObjectRow<'_>, other: ObjectRow<'_>, place: u32) -> u32
    ensures { result ≡ lesser_place (object_row_view row.entry) (object_row_view other.entry) place }
{
    let at = other.field.span.start;
    if is_same_field(row, other) && at < place {
        at
    } else {
        place
    }
}

/// The first place, among these rows, of the field of that object.
pub fn first_place(row: ObjectRow<'_>, rows: &[ObjectRow<'_>]) -> u32
    ensures { result ≡ first_place (object_row_view row.entry) (map object_row_view rows.now) }
{
    let mut place = row.field.span.start;
    let mut index = rows.len();
    while index > 0 {
        index -= 1;
        place = lesser_place(row, rows[index], place);
    }
    place
}

/// Adds the variable of that number that is a field of a new object, at its first place.
fn add_field<'a>(row: ObjectRow<'a>, number: u32, locals: &mut Locals<'a>) -> Result<(), AllocError>
    ensures { OnOk result (AddsLocals locals.old locals.new (field_local (object_kind_view row.entry.kind)
        (object_row_view row.entry) number)) }
{
    match row.kind {
        ObjectKind::Outer => Ok(()),
        ObjectKind::New => {
            if row.field.span.start != number {
                return Ok(());
            }
            locals.add(Local {
                number,
                name: row.field.text.as_str(),
                at: number,
                role: LocalRole::InBlock,
                typed: Some(TrackedType::Cancel(row.cancel_type)),
                body: row.body,
            })
        }
    }
}

/// Adds the variables that are fields of new objects.
pub fn add_fields<'a>(rows: &[ObjectRow<'a>], locals: &mut Locals<'a>) -> Result<(), AllocError>
    ensures { OnOk result (AddsLocals locals.old locals.new (field_locals (map object_row_view rows.now)
        (map object_row_view rows.now))) }
{
    for row in rows {
        add_field(*row, first_place(*row, rows), locals)?;
    }
    Ok(())
}
