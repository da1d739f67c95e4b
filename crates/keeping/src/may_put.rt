//! Whether a file may put cancel functions into fields, by the form of its marks: what each local is need not be known.

ghost use Rattle.std.specs.Prelude.{◌≡◌, IfOk, is_some, map, option_map};
ghost use Rattle.std.specs.List.{list_any};
ghost use Rattle.keeping.specs.PlainFiles.{assigned_may_put, element_may_put, field_may_put, gift_may_put, given_may_put, mark_may_put, may_be_put, may_put, role_may_put};
ghost use Rattle.kept_forms.specs.FormViews.{element_view, gift_view};
ghost use Rattle.meaning.specs.Mentions.{as_bare};
ghost use Rattle.mentions.specs.MarkViews.{assigned_view, field_mark_view, mark_view, marks_view, named_view, role_view};
ghost use Rattle.tracked_rows.specs.RowViews.{known_view};
ghost use Rattle.tree.specs.View.{expression_syntax};

use crate::cancels::{cancels, has, some_gives};
use crate::values::{bare, value_at};
use kept_forms::{Element, Gift, gifts, role_fields};
use mentions::{Assigned, FieldMark, Mark, Named, Role, as_bare};
use objects::local_named;
use std::alloc::{AllocError, Global};
use tracked_rows::Known;
use tree::Expr;

/// Whether the bare name means one of these locals.
fn may_be_put(known: Known<'_, '_>, numbers: &[u32], named: Option<Named<'_>>) -> bool
    ensures { result ≡ may_be_put (known_view known.entry) numbers.now (option_map named_view named.entry) }
{
    match local_named(known, named) {
        Some(number) => has(numbers, number),
        None => false,
    }
}

fn element_may_put(known: Known<'_, '_>, numbers: &[u32], element: Element<'_>) -> bool
    ensures { result ≡ element_may_put (known_view known.entry) numbers.now (element_view element.entry) }
{
    may_be_put(known, numbers, Some(element.value))
}

fn elements_may_put(known: Known<'_, '_>, numbers: &[u32], elements: &[Element<'_>]) -> bool
    ensures { result ≡ list_any (element_may_put (known_view known.entry) numbers.now)
        (map element_view elements.now) }
{
    for element in elements {
        if element_may_put(known, numbers, *element) {
            return true;
        }
    }
    false
}

fn gift_may_put(known: Known<'_, '_>, numbers: &[u32], gift: Gift<'_>) -> bool
    ensures { result ≡ gift_may_put (known_view known.entry) numbers.now (gift_view gift.entry) }
{
    match gift {
        Gift::Element(element) => element_may_put(known, numbers, element),
        Gift::Named(_) => false,
    }
}

fn gifts_may_put(known: Known<'_, '_>, numbers: &[u32], gifts: &[Gift<'_>]) -> bool
    ensures { result ≡ list_any (gift_may_put (known_view known.entry) numbers.now) (map gift_view gifts.now) }
{
    for gift in gifts {
        if gift_may_put(known, numbers, *gift) {
            return true;
        }
    }
    false
}

/// A bare name has no elements.
fn is_bare(value: &Expr) -> bool
    ensures { result ≡ is_some (as_bare (expression_syntax value.now)) }
{
    as_bare(value).is_some()
}

/// Whether an element of what is given may put one into its field.
fn given_may_put(
    alloc: Global,
    known: Known<'_, '_>,
    numbers: &[u32],
    value: &Expr,
) -> Result<bool, AllocError>
    ensures { IfOk result (λ may. may ≡ given_may_put (known_view known.entry) numbers.now
        (expression_syntax value.now)) }
{
    if is_bare(value) {
        return Ok(false);
    }
    let given = gifts(alloc, value)?;
    Ok(gifts_may_put(known, numbers, &given))
}

fn items_may_put(
    alloc: Global,
    known: Known<'_, '_>,
    numbers: &[u32],
    items: &[Expr],
) -> Result<bool, AllocError>
    ensures { IfOk result (λ may. may ≡ list_any (given_may_put (known_view known.entry) numbers.now)
        (map expression_syntax items.now)) }
{
    for item in items {
        let may = given_may_put(alloc, known, numbers, item)?;
        if may {
            return Ok(true);
        }
    }
    Ok(false)
}

fn assigned_may_put(
    known: Known<'_, '_>,
    numbers: &[u32],
    assigned: Option<Assigned<'_, '_>>,
) -> bool
    ensures { result ≡ assigned_may_put (known_view known.entry) numbers.now
        (option_map assigned_view assigned.entry) }
{
    match assigned {
        Some(Assigned { left_side, row }) => {
            may_be_put(known, numbers, bare(value_at(*row, left_side)))
        }
        None => false,
    }
}

fn field_may_put(
    alloc: Global,
    known: Known<'_, '_>,
    numbers: &[u32],
    field: FieldMark<'_, '_>,
) -> Result<bool, AllocError>
    ensures { IfOk result (λ may. may ≡ field_may_put (known_view known.entry) numbers.now
        (field_mark_view field.entry)) }
{
    match field {
        FieldMark::WritesField { assigned, .. } => Ok(assigned_may_put(known, numbers, assigned)),
        FieldMark::HandsOver { value, .. } => given_may_put(alloc, known, numbers, value),
        FieldMark::CallsField(_) => Ok(false),
        FieldMark::HandsLiteral { .. } => Ok(false),
        FieldMark::Renews(_) => Ok(false),
        FieldMark::ImportsAll => Ok(false),
    }
}

/// Whether an object is declared with an element that may put one into its field.
fn role_may_put(
    alloc: Global,
    known: Known<'_, '_>,
    numbers: &[u32],
    role: Role<'_, '_>,
) -> Result<bool, AllocError>
    ensures { IfOk result (λ may. may ≡ role_may_put (known_view known.entry) numbers.now (role_view role.entry)) }
{
    let elements = role_fields(alloc, role)?;
    Ok(elements_may_put(known, numbers, &elements))
}

/// Whether the mark may put one of these locals into a field.
fn mark_may_put(
    alloc: Global,
    known: Known<'_, '_>,
    numbers: &[u32],
    mark: Mark<'_, '_>,
) -> Result<bool, AllocError>
    ensures { IfOk result (λ may. may ≡ mark_may_put (known_view known.entry) numbers.now (mark_view mark.entry)) }
{
    match mark {
        Mark::Mentions(mention) => role_may_put(alloc, known, numbers, mention.role),
        Mark::OfFields(_, field) => field_may_put(alloc, known, numbers, *field),
        Mark::Returns(_, items) => items_may_put(alloc, known, numbers, items),
        Mark::RunsLiteral(_, _, _) => Ok(false),
        Mark::Opens(_) => Ok(false),
        Mark::Closes => Ok(false),
    }
}

fn some_may_put(
    alloc: Global,
    known: Known<'_, '_>,
    numbers: &[u32],
    marks: &[Mark<'_, '_>],
) -> Result<bool, AllocError>
    ensures { IfOk result (λ may. may ≡ list_any (mark_may_put (known_view known.entry) numbers.now)
        (marks_view marks.now)) }
{
    for mark in marks {
        let may = mark_may_put(alloc, known, numbers, *mark)?;
        if may {
            return Ok(true);
        }
    }
    Ok(false)
}

/// Whether one of these marks may put a cancel function into a field: a call of a maker or a giver gives it to one, or
/// a local that may be a cancel variable stands where a field gets a value.
///
/// # Errors
///
/// Memory was refused.
pub fn may_put(
    alloc: Global,
    known: Known<'_, '_>,
    marks: &[Mark<'_, '_>],
) -> Result<bool, AllocError>
    ensures { IfOk result (λ may. may ≡ may_put (known_view known.entry) (marks_view marks.now)) }
{
    if some_gives(known, marks) {
        return Ok(true);
    }
    let numbers = cancels(alloc, known, marks)?;
    if numbers.is_empty() {
        return Ok(false);
    }
    some_may_put(alloc, known, &numbers, marks)
}
