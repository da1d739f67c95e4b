//! The fields in which a file keeps what it obtained, or gives it to others.

ghost use Rattle.std.specs.Prelude.{◌≡◌, ℕ, OnOk, map, option_map};
ghost use Rattle.kept.specs.KeptViews.{keep_view};
ghost use Rattle.kept_forms.specs.FormViews.{element_view, gift_view};
ghost use Rattle.kept_events.specs.KeptEventViews.{assigned_names, gift_name, gift_names, is_told, kept_name, kept_names, value_names, left_name, AddsNames, KnowsFile, KnowsHere};
ghost use Rattle.meaning.specs.Kept.{belongs, gifts};
ghost use Rattle.meaning.specs.KeepingFields.{carried_field, carried_fields, field_of_obtained, fields_kept_there, gift_elements, given_elements, kept_variables, obtained_fields};
ghost use Rattle.meaning.specs.Mentions.{of_fields, writes_field, hands_over};
ghost use Rattle.mentions.specs.MarkViews.{assigned_view, body_view, field_left_view, field_mark_view, mark_view, taker_view};
ghost use Rattle.tracked.specs.LocalViews.{seen_view};
ghost use Rattle.tracked_rows.specs.RowViews.{known_view};
ghost use Rattle.tree.specs.Syntax.{missing_expression};
ghost use Rattle.tree.specs.View.{expression_syntax};

use crate::file::FileKept;
use crate::here::Here;
use kept::{Around, Keep, carried, keeps_there};
use kept_forms::{Element, Gift, gifts, takes_it};
use mentions::mark::{Assigned, FieldLeft, FieldMark, Taker};
use mentions::{BodyPlace, Mark};
use std::alloc::{AllocError, Global};
use tracked_rows::{Known, object_left};
use tree::Expr;

fn belongs(here: Here<'_, '_, '_, '_>, keep: Keep<'_>) -> bool
    requires { KnowsHere here }
    ensures { result ≡ belongs (seen_view here.entry.around.seen.now) (keep_view keep.entry) }
{
    here.kept.belongs(keep)
}

/// Whether what is kept belongs together, and was obtained.
fn is_told(here: Here<'_, '_, '_, '_>, keep: Keep<'_>) -> bool
    requires { KnowsHere here }
    ensures { result ≡ is_told (seen_view here.entry.around.seen.now) (keep_view keep.entry) }
{
    belongs(here, keep) && here.around.seen.is_obtained(keep.variable)
}

fn add_kept<'a>(
    here: Here<'_, '_, '_, 'a>,
    keep: &Keep<'a>,
    names: &mut Vec<&'a str>,
) -> Result<(), AllocError>
    requires { KnowsHere here }
    ensures { OnOk result (AddsNames names.old.items names.new.items (kept_name
        (seen_view here.entry.around.seen.now) (keep_view keep.now))) }
{
    if is_told(here, *keep) {
        names.push(keep.field)?;
    }
    Ok(())
}

fn add_all_kept<'a>(
    here: Here<'_, '_, '_, 'a>,
    keeps: &[Keep<'a>],
    names: &mut Vec<&'a str>,
) -> Result<(), AllocError>
    requires { KnowsHere here }
    ensures { OnOk result (AddsNames names.old.items names.new.items (kept_names
        (seen_view here.entry.around.seen.now) (map keep_view keeps.now))) }
{
    for keep in keeps {
        add_kept(here, keep, names)?;
    }
    Ok(())
}

/// Adds the fields in which a mark keeps what was obtained.
fn add_keeps<'a>(
    alloc: Global,
    here: Here<'_, '_, '_, 'a>,
    mark: &Mark<'_, 'a>,
    names: &mut Vec<&'a str>,
) -> Result<(), AllocError>
    requires { KnowsHere here }
    ensures { OnOk result (AddsNames names.old.items names.new.items (kept_variables
        (seen_view here.entry.around.seen.now) (map body_view here.entry.around.bodies.now)
        (mark_view mark.now))) }
{
    let keeps = keeps_there(alloc, here.around, *mark)?;
    add_all_kept(here, &keeps, names)
}

/// Adds the field of a left side, if a maker or giver gives into it.
fn add_left<'a>(
    known: Known<'_, '_>,
    left: FieldLeft<'a>,
    names: &mut Vec<&'a str>,
) -> Result<(), AllocError>
    ensures { OnOk result (AddsNames names.old.items names.new.items (left_name (known_view known.entry)
        (field_left_view left.entry))) }
{
    if object_left(known, left.field.span.start).is_some() {
        names.push(left.field.text.as_str())?;
    }
    Ok(())
}

fn add_written<'a>(
    known: Known<'_, '_>,
    left: FieldLeft<'a>,
    assigned: Option<Assigned<'_, 'a>>,
    names: &mut Vec<&'a str>,
) -> Result<(), AllocError>
    ensures { OnOk result (AddsNames names.old.items names.new.items (assigned_names (known_view known.entry)
        (writes_field (field_left_view left.entry) (option_map assigned_view assigned.entry)))) }
{
    match assigned {
        Some(_) => add_left(known, left, names),
        None => Ok(()),
    }
}

/// Adds the field that a mark writes, if a maker or giver gives into it.
fn add_field<'a>(
    known: Known<'_, '_>,
    field: FieldMark<'_, 'a>,
    names: &mut Vec<&'a str>,
) -> Result<(), AllocError>
    ensures { OnOk result (AddsNames names.old.items names.new.items (assigned_names (known_view known.entry)
        (field_mark_view field.entry))) }
{
    match field {
        FieldMark::WritesField { left, assigned } => add_written(known, left, assigned, names),
        _ => Ok(()),
    }
}

fn add_obtained<'a>(
    here: Here<'_, '_, '_, 'a>,
    mark: &Mark<'_, 'a>,
    names: &mut Vec<&'a str>,
) -> Result<(), AllocError>
    ensures { OnOk result (AddsNames names.old.items names.new.items (obtained_fields
        (seen_view here.entry.around.seen.now) (mark_view mark.now))) }
{
    match *mark {
        Mark::OfFields(_, field) => add_field(here.around.seen.known, *field, names),
        _ => Ok(()),
    }
}

/// Adds the field, if there is a variable that it gets, which was obtained.
fn add_variable<'a>(
    here: Here<'_, '_, '_, 'a>,
    variable: Option<u32>,
    field: &'a str,
    names: &mut Vec<&'a str>,
) -> Result<(), AllocError>
    requires { KnowsHere here }
    ensures { OnOk result (AddsNames names.old.items names.new.items (field_of_obtained
        (seen_view here.entry.around.seen.now) field.now variable)) }
{
    if let Some(variable) = variable {
        if here.around.seen.is_obtained(variable) {
            names.push(field)?;
        }
    }
    Ok(())
}

/// Adds the field of an element, if it carries what was obtained.
fn add_element<'a>(
    here: Here<'_, '_, '_, 'a>,
    element: Element<'a>,
    names: &mut Vec<&'a str>,
) -> Result<(), AllocError>
    requires { KnowsHere here }
    ensures { OnOk result (AddsNames names.old.items names.new.items (carried_field
        (seen_view here.entry.around.seen.now) (map body_view here.entry.around.bodies.now)
        (element_view element.entry))) }
{
    let around = here.around;
    let variable = carried(around.seen, around.bodies, element);
    add_variable(here, variable, element.field, names)
}

fn add_gift<'a>(
    here: Here<'_, '_, '_, 'a>,
    gift: &Gift<'a>,
    names: &mut Vec<&'a str>,
) -> Result<(), AllocError>
    requires { KnowsHere here }
    ensures { OnOk result (AddsNames names.old.items names.new.items (gift_name
        (seen_view here.entry.around.seen.now) (map body_view here.entry.around.bodies.now)
        (gift_view gift.now))) }
{
    match *gift {
        Gift::Element(element) => add_element(here, element, names),
        Gift::Named(_) => Ok(()),
    }
}

fn add_gifts<'a>(
    here: Here<'_, '_, '_, 'a>,
    gifts: &[Gift<'a>],
    names: &mut Vec<&'a str>,
) -> Result<(), AllocError>
    requires { KnowsHere here }
    ensures { OnOk result (AddsNames names.old.items names.new.items (gift_names
        (seen_view here.entry.around.seen.now) (map body_view here.entry.around.bodies.now)
        (map gift_view gifts.now))) }
{
    for gift in gifts {
        add_gift(here, gift, names)?;
    }
    Ok(())
}

/// Adds the fields in which an expression carries what was obtained.
fn add_value<'a>(
    alloc: Global,
    here: Here<'_, '_, '_, 'a>,
    value: &'a Expr,
    names: &mut Vec<&'a str>,
) -> Result<(), AllocError>
    requires { KnowsHere here }
    ensures { OnOk result (AddsNames names.old.items names.new.items (carried_fields
        (seen_view here.entry.around.seen.now) (map body_view here.entry.around.bodies.now)
        (gift_elements (gifts missing_expression (expression_syntax value.now))))) }
{
    let given = gifts(alloc, value)?;
    add_gifts(here, &given, names)
}

fn add_values<'a>(
    alloc: Global,
    here: Here<'_, '_, '_, 'a>,
    values: &'a [Expr],
    names: &mut Vec<&'a str>,
) -> Result<(), AllocError>
    requires { KnowsHere here }
    ensures { OnOk result (AddsNames names.old.items names.new.items (value_names
        (seen_view here.entry.around.seen.now) (map body_view here.entry.around.bodies.now)
        (map expression_syntax values.now))) }
{
    for value in values {
        add_value(alloc, here, value, names)?;
    }
    Ok(())
}

/// The same of an expression that is given to a taker.
fn add_taken<'a>(
    alloc: Global,
    here: Here<'_, '_, '_, 'a>,
    taker: Taker<'_, 'a>,
    value: &'a Expr,
    names: &mut Vec<&'a str>,
) -> Result<(), AllocError>
    requires { KnowsHere here }
    ensures { OnOk result ((site : ℕ) → AddsNames names.old.items names.new.items (carried_fields
        (seen_view here.entry.around.seen.now) (map body_view here.entry.around.bodies.now) (given_elements
        (seen_view here.entry.around.seen.now) (of_fields site (hands_over (taker_view taker.entry)
        (expression_syntax value.now)))))) }
{
    if !takes_it(here.around.seen.known, taker) {
        return Ok(());
    }
    add_value(alloc, here, value, names)
}

fn add_given<'a>(
    alloc: Global,
    here: Here<'_, '_, '_, 'a>,
    field: FieldMark<'_, 'a>,
    names: &mut Vec<&'a str>,
) -> Result<(), AllocError>
    requires { KnowsHere here }
    ensures { OnOk result ((site : ℕ) → AddsNames names.old.items names.new.items (carried_fields
        (seen_view here.entry.around.seen.now) (map body_view here.entry.around.bodies.now) (given_elements
        (seen_view here.entry.around.seen.now) (of_fields site (field_mark_view field.entry))))) }
{
    match field {
        FieldMark::HandsOver { taker, value } => add_taken(alloc, here, taker, value, names),
        _ => Ok(()),
    }
}

/// Adds the fields in which a mark gives what was obtained to others.
fn add_carried<'a>(
    alloc: Global,
    here: Here<'_, '_, '_, 'a>,
    mark: &Mark<'_, 'a>,
    names: &mut Vec<&'a str>,
) -> Result<(), AllocError>
    requires { KnowsHere here }
    ensures { OnOk result (AddsNames names.old.items names.new.items (carried_fields
        (seen_view here.entry.around.seen.now) (map body_view here.entry.around.bodies.now) (given_elements
        (seen_view here.entry.around.seen.now) (mark_view mark.now)))) }
{
    match *mark {
        Mark::OfFields(_, field) => add_given(alloc, here, *field, names),
        Mark::Returns(_, values) => add_values(alloc, here, values, names),
        _ => Ok(()),
    }
}

fn add_here<'a>(
    alloc: Global,
    here: Here<'_, '_, '_, 'a>,
    mark: &Mark<'_, 'a>,
    names: &mut Vec<&'a str>,
) -> Result<(), AllocError>
    requires { KnowsHere here }
    ensures { OnOk result (AddsNames names.old.items names.new.items (fields_kept_there
        (seen_view here.entry.around.seen.now) (map body_view here.entry.around.bodies.now)
        (mark_view mark.now))) }
{
    add_keeps(alloc, here, mark, names)?;
    add_obtained(here, mark, names)?;
    add_carried(alloc, here, mark, names)
}

/// Adds the fields in which a mark in these bodies keeps what was obtained, or gives it to others. A name may come more
/// than once.
///
/// # Errors
///
/// Memory was refused.
pub fn add_names<'s, 'k, 'm, 'a>(
    alloc: Global,
    file: FileKept<'s, 'k, 'm, 'a>,
    bodies: &'s [BodyPlace<'a>],
    mark: &Mark<'_, 'a>,
    names: &mut Vec<&'a str>,
) -> Result<(), AllocError>
    requires { KnowsFile file }
    ensures { OnOk result (AddsNames names.old.items names.new.items (fields_kept_there
        (seen_view file.entry.seen.now) (map body_view bodies.now) (mark_view mark.now))) }
{
    match file.kept {
        Some(kept) => {
            let around = Around {
                seen: file.seen,
                bodies,
            };
            add_here(alloc, Here { around, kept }, mark, names)
        }
        None => Ok(()),
    }
}
