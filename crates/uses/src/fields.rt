//! Fields of new objects that rows obtain into: each is a variable of its own.

ghost use Rattle.std.specs.Prelude.{◌≡◌, OnOk, option_map};
ghost use Rattle.meaning.specs.Uses.{field_obtained, field_variable, field_faults};
ghost use Rattle.mentions.specs.MarkViews.{assigned_view, field_left_view, field_mark_view, standing_view};
ghost use Rattle.tracked.specs.LocalViews.{local_view, entry_view, entry_of, seen_view, Sees};
ghost use Rattle.tree.specs.View.{identifier_syntax};
ghost use Rattle.uses.specs.OutcomeViews.{AddsFaults, first_field_faults, type_field_faults, written_faults};

use crate::faults::{UseCode, UseFault, add_fault};
use mentions::{Assigned, FieldLeft, FieldMark, Standing};
use std::alloc::AllocError;
use tracked::{Local, Seen, SeenLocal, row_binds, type_from};
use tracked_rows::{object_left, own_variable, row_giving};
use tree::Identifier;

/// One that obtains as the first statement of a `for`.
fn add_first<'a>(
    standing: Standing,
    field: &'a Identifier,
    faults: &mut Vec<UseFault<'a>>,
) -> Result<(), AllocError>
    ensures { OnOk result (AddsFaults faults.old.items faults.new.items (first_field_faults (standing_view standing)
        (identifier_syntax field.now))) }
{
    match standing {
        Standing::FirstOfFor => add_fault(
            faults,
            field.span.start,
            UseCode::CancelUsedOtherwise,
            field.text.as_str(),
        ),
        _ => Ok(()),
    }
}

/// One that obtains from a position of the other type.
fn add_type<'a>(
    seen: &Seen<'_, '_, 'a>,
    local: Local<'a>,
    field: &'a Identifier,
    assigned: Assigned<'_, 'a>,
    faults: &mut Vec<UseFault<'a>>,
) -> Result<(), AllocError>
    requires { Sees seen.now }
    ensures { OnOk result (AddsFaults faults.old.items faults.new.items (type_field_faults (seen_view seen.now)
        (local_view local.entry) (identifier_syntax field.now) (assigned_view assigned.entry).row
        (assigned_view assigned.entry).left_side)) }
{
    let given = type_from(assigned.left_side, row_giving(seen.known, *assigned.row));
    if seen.cancel_type_of(local).is_same(given) {
        return Ok(());
    }
    add_fault(
        faults,
        field.span.start,
        UseCode::CancelUsedOtherwise,
        field.text.as_str(),
    )
}

/// One that obtains, since its row binds.
fn add_obtained<'a>(
    seen: &Seen<'_, '_, 'a>,
    local: Local<'a>,
    field: &'a Identifier,
    assigned: Assigned<'_, 'a>,
    faults: &mut Vec<UseFault<'a>>,
) -> Result<(), AllocError>
    requires { Sees seen.now }
    ensures { OnOk result (AddsFaults faults.old.items faults.new.items (field_obtained (seen_view seen.now)
        (local_view local.entry) (identifier_syntax field.now) (assigned_view assigned.entry).row
        (assigned_view assigned.entry).left_side)) }
{
    add_first(assigned.row.standing, field, faults)?;
    add_type(seen, local, field, assigned, faults)
}

/// The variable that the field is, if it is one of a new object that a row obtains into.
fn field_variable<'a>(seen: &Seen<'_, '_, 'a>, field: &Identifier) -> Option<SeenLocal<'a>>
    requires { Sees seen.now }
    ensures { option_map entry_view result ≡ option_map (entry_of (seen_view seen.now))
        (field_variable (seen_view seen.now) (identifier_syntax field.now)) }
{
    seen.entry(own_variable(object_left(seen.known, field.span.start)))
}

/// A field that gets a value by a row.
fn add_written<'a>(
    seen: &Seen<'_, '_, 'a>,
    left: FieldLeft<'a>,
    assigned: Assigned<'_, 'a>,
    faults: &mut Vec<UseFault<'a>>,
) -> Result<(), AllocError>
    requires { Sees seen.now }
    ensures { OnOk result (AddsFaults faults.old.items faults.new.items (written_faults (seen_view seen.now)
        (field_left_view left.entry) (assigned_view assigned.entry))) }
{
    match field_variable(seen, left.field) {
        Some(entry) => {
            if row_binds(seen, *assigned.row) {
                return add_obtained(seen, entry.local, left.field, assigned, faults);
            }
            Ok(())
        }
        None => Ok(()),
    }
}

/// Adds the faults of a mark of fields.
///
/// # Errors
///
/// Memory was refused.
pub fn add_field_faults<'a>(
    seen: &Seen<'_, '_, 'a>,
    mark: FieldMark<'_, 'a>,
    faults: &mut Vec<UseFault<'a>>,
) -> Result<(), AllocError>
    requires { Sees seen.now }
    ensures { OnOk result (AddsFaults faults.old.items faults.new.items (field_faults (seen_view seen.now)
        (field_mark_view mark.entry))) }
{
    match mark {
        FieldMark::WritesField { left, assigned } => match assigned {
            Some(assigned) => add_written(seen, left, assigned, faults),
            None => Ok(()),
        },
        _ => Ok(()),
    }
}
