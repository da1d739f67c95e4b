//! The locals of a file that may be cancel variables, and the calls of makers and givers that fields get.

ghost use Rattle.std.specs.Prelude.{◌≡◌, ◌++◌, ◌==◌, IfOk, OnOk, is_some, option_map};
ghost use Rattle.std.specs.List.{list_any};
ghost use Rattle.facts.specs.FactViews.{tracked_type_view};
ghost use Rattle.keeping.specs.PlainFiles.{assigned_gives, cancels, cancels_there, field_gives, mark_gives, may_be_cancel, mentioned_cancels, number_list, row_gives};
ghost use Rattle.meaning.specs.Tracked.{is_obtained_by, only_cancel, role_typed, row_typed};
ghost use Rattle.mentions.specs.MarkViews.{assigned_view, field_mark_view, form_view, mark_view, marks_view, mention_view, role_view, row_view};
ghost use Rattle.tracked_rows.specs.RowViews.{known_view};

use facts::{TrackedType, tracked_type};
use mentions::{Assigned, FieldMark, Mark, Mention, Role, Row, RowForm};
use std::alloc::{AllocError, Global};
use tracked::variable_of;
use tracked_rows::{Known, giving_of, only_call, row_obtains};

/// Whether the only value of the row is a call of a maker or a giver.
fn row_gives(known: Known<'_, '_>, row: Row<'_>) -> bool
    ensures { result ≡ row_gives (known_view known.entry) (row_view row.entry) }
{
    match only_call(&row) {
        Some(call) => giving_of(known, call.callee).is_some(),
        None => false,
    }
}

fn assigned_gives(known: Known<'_, '_>, assigned: Option<Assigned<'_, '_>>) -> bool
    ensures { result ≡ assigned_gives (known_view known.entry) (option_map assigned_view assigned.entry) }
{
    match assigned {
        Some(Assigned { left_side: _, row }) => row_gives(known, *row),
        None => false,
    }
}

fn field_gives(known: Known<'_, '_>, field: FieldMark<'_, '_>) -> bool
    ensures { result ≡ field_gives (known_view known.entry) (field_mark_view field.entry) }
{
    match field {
        FieldMark::WritesField { assigned, .. } => assigned_gives(known, assigned),
        _ => false,
    }
}

/// Whether a field gets a value by a call of a maker or a giver.
fn mark_gives(known: Known<'_, '_>, mark: Mark<'_, '_>) -> bool
    ensures { result ≡ mark_gives (known_view known.entry) (mark_view mark.entry) }
{
    match mark {
        Mark::OfFields(_, field) => field_gives(known, *field),
        _ => false,
    }
}

/// Whether by some of these marks a field gets a value by such a call.
pub fn some_gives(known: Known<'_, '_>, marks: &[Mark<'_, '_>]) -> bool
    ensures { result ≡ list_any (mark_gives (known_view known.entry)) (marks_view marks.now) }
{
    for mark in marks {
        if mark_gives(known, *mark) {
            return true;
        }
    }
    false
}

fn is_cancel_type(typed: Option<TrackedType>) -> bool
    ensures { result ≡ is_some (only_cancel (option_map tracked_type_view typed)) }
{
    match typed {
        Some(TrackedType::Cancel(_)) => true,
        _ => false,
    }
}

/// Whether names are declared with a type of cancel functions.
fn is_typed(known: Known<'_, '_>, form: RowForm<'_>) -> bool
    ensures { result ≡ is_some (row_typed (known_view known.entry) (form_view form.entry)) }
{
    match form {
        RowForm::Declares(_, _, Some(kind)) => {
            is_cancel_type(tracked_type(known.names, known.file, kind))
        }
        _ => false,
    }
}

fn role_is_typed(known: Known<'_, '_>, role: Role<'_, '_>) -> bool
    ensures { result ≡ is_some (role_typed (known_view known.entry) (role_view role.entry)) }
{
    match role {
        Role::Left(_, row) => is_typed(known, row.form),
        _ => false,
    }
}

fn is_obtained(known: Known<'_, '_>, mention: Mention<'_, '_>) -> bool
    ensures { result ≡ is_obtained_by (known_view known.entry) (mention_view mention.entry)
        (mention_view mention.entry).role }
{
    match mention.role {
        Role::Left(index, row) => row_obtains(known, *row, index),
        _ => false,
    }
}

/// Whether what is mentioned may be a cancel variable: its row obtains it, or declares it with such a type.
fn may_be_cancel(known: Known<'_, '_>, mention: Mention<'_, '_>) -> bool
    ensures { result ≡ may_be_cancel (known_view known.entry) (mention_view mention.entry) }
{
    is_obtained(known, mention) || role_is_typed(known, mention.role)
}

fn add_number(number: Option<u32>, numbers: &mut Vec<u32>) -> Result<(), AllocError>
    ensures { OnOk result (numbers.new.items ≡ numbers.old.items ++ number_list number) }
{
    if let Some(number) = number {
        numbers.push(number)?;
    }
    Ok(())
}

fn add_mentioned(
    known: Known<'_, '_>,
    mention: Mention<'_, '_>,
    numbers: &mut Vec<u32>,
) -> Result<(), AllocError>
    ensures { OnOk result (numbers.new.items ≡ numbers.old.items
        ++ mentioned_cancels (known_view known.entry) (mention_view mention.entry)) }
{
    if may_be_cancel(known, mention) {
        add_number(variable_of(known, mention), numbers)
    } else {
        Ok(())
    }
}

fn add_cancel(
    known: Known<'_, '_>,
    mark: Mark<'_, '_>,
    numbers: &mut Vec<u32>,
) -> Result<(), AllocError>
    ensures { OnOk result (numbers.new.items ≡ numbers.old.items
        ++ cancels_there (known_view known.entry) (mark_view mark.entry)) }
{
    match mark {
        Mark::Mentions(mention) => add_mentioned(known, mention, numbers),
        _ => Ok(()),
    }
}

/// The numbers of the locals that may be cancel variables.
///
/// # Errors
///
/// Memory was refused.
pub fn cancels(
    alloc: Global,
    known: Known<'_, '_>,
    marks: &[Mark<'_, '_>],
) -> Result<Vec<u32>, AllocError>
    ensures { IfOk result (λ numbers. numbers.items ≡ cancels (known_view known.entry) (marks_view marks.now)) }
{
    let mut numbers = Vec::new(alloc);
    for mark in marks {
        add_cancel(known, *mark, &mut numbers)?;
    }
    Ok(numbers)
}

/// Whether the number is among these.
pub fn has(numbers: &[u32], number: u32) -> bool
    ensures { result ≡ list_any (λ n. n == number) numbers.now }
{
    for other in numbers {
        if *other == number {
            return true;
        }
    }
    false
}
