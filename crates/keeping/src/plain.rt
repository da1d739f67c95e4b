//! What the marks of a file say of fields where none of them may put a cancel function into one.

ghost use Rattle.std.specs.Prelude.{◌≡◌, ◌++◌, OnOk, map, option_map};
ghost use Rattle.noted_fields.specs.NotedFields.{note_view};
ghost use Rattle.keeping.specs.PlainFiles.{is_set_to_nil, plain_field_notes, plain_notes, plain_notes_in, plain_written_note};
ghost use Rattle.mentions.specs.MarkViews.{assigned_view, body_view, field_left_view, field_mark_view, mark_view, marks_view};
ghost use Rattle.tracked_rows.specs.RowViews.{known_view};

use crate::noted::{add_key, add_method, add_note, called_note};
use crate::values::{is_nil_value, value_at};
use mentions::{Assigned, BodyPlace, FieldLeft, FieldMark, Mark};
use noted_fields::Note;
use std::alloc::{AllocError, Global};
use tracked::enter;
use tracked_rows::Known;

fn is_set_to_nil(known: Known<'_, '_>, assigned: Option<Assigned<'_, '_>>) -> bool
    ensures { result ≡ is_set_to_nil (known_view known.entry) (option_map assigned_view assigned.entry) }
{
    match assigned {
        Some(Assigned { left_side, row }) => is_nil_value(known, value_at(*row, left_side)),
        None => false,
    }
}

/// What is said of a field that gets a value, which is no cancel function.
fn plain_written_note<'a>(
    known: Known<'_, 'a>,
    left: FieldLeft<'a>,
    assigned: Option<Assigned<'_, 'a>>,
) -> Option<Note<'a>>
    ensures { option_map note_view result ≡ plain_written_note (known_view known.entry)
        (field_left_view left.entry) (option_map assigned_view assigned.entry) }
{
    if is_set_to_nil(known, assigned) {
        None
    } else {
        Some(Note::Spoiled(left.field.text.as_str()))
    }
}

fn add_plain_field<'a>(
    known: Known<'_, 'a>,
    bodies: &[BodyPlace<'a>],
    mark: FieldMark<'_, 'a>,
    notes: &mut Vec<Note<'a>>,
) -> Result<(), AllocError>
    ensures { OnOk result (map note_view notes.new.items ≡ map note_view notes.old.items
        ++ plain_field_notes (known_view known.entry) (map body_view bodies.now) (field_mark_view mark.entry)) }
{
    match mark {
        FieldMark::CallsField(name) => add_note(called_note(bodies, name), notes),
        FieldMark::WritesField { left, assigned } => {
            notes.push(Note::Filled(left.field.text.as_str()))?;
            add_note(plain_written_note(known, left, assigned), notes)
        }
        FieldMark::HandsOver { .. } => Ok(()),
        FieldMark::HandsLiteral { .. } => Ok(()),
        FieldMark::Renews(_) => Ok(()),
        FieldMark::ImportsAll => Ok(()),
    }
}

/// Adds what a mark in these bodies says of fields.
fn add_plain_notes<'a>(
    known: Known<'_, 'a>,
    bodies: &[BodyPlace<'a>],
    mark: Mark<'_, 'a>,
    notes: &mut Vec<Note<'a>>,
) -> Result<(), AllocError>
    ensures { OnOk result (map note_view notes.new.items ≡ map note_view notes.old.items
        ++ plain_notes (known_view known.entry) (map body_view bodies.now) (mark_view mark.entry)) }
{
    match mark {
        Mark::Mentions(mention) => add_key(mention, notes),
        Mark::OfFields(_, field) => add_plain_field(known, bodies, *field, notes),
        Mark::Returns(_, _) => Ok(()),
        Mark::RunsLiteral(_, _, _) => Ok(()),
        Mark::Opens(body) => add_method(*body, notes),
        Mark::Closes => Ok(()),
    }
}

/// Adds what marks say of fields, of which none may put a cancel function into one.
///
/// # Errors
///
/// Memory was refused.
pub fn add_all_plainly<'a>(
    alloc: Global,
    known: Known<'_, 'a>,
    marks: &[Mark<'_, 'a>],
    notes: &mut Vec<Note<'a>>,
) -> Result<(), AllocError>
    ensures { OnOk result (map note_view notes.new.items ≡ map note_view notes.old.items
        ++ plain_notes_in (known_view known.entry) (marks_view marks.now)) }
{
    let mut bodies: Vec<BodyPlace<'a>> = Vec::new(alloc);
    for mark in marks {
        enter(&mut bodies, *mark)?;
        add_plain_notes(known, &bodies, *mark, notes)?;
    }
    Ok(())
}
