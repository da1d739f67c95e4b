//! The events of a mark that are about objects, and those of returns.

ghost use Rattle.std.specs.Prelude.{◌≡◌, ℕ, IfOk, OnOk, map, option_map};
ghost use Rattle.kept_events.specs.KeptEventViews.{kept_part, object_part, return_part, AddsEvents, AddsHanded, KnowsFile, KnowsHere};
ghost use Rattle.meaning.specs.BodyEvents.{handed_on};
ghost use Rattle.meaning.specs.Kept.{field_events, handed_in_fields, object_events};
ghost use Rattle.meaning.specs.Mentions.{of_fields, writes_field, hands_over, hands_literal};
ghost use Rattle.mentions.specs.MarkViews.{assigned_view, body_view, field_left_view, field_mark_view, mark_view, mention_view, taker_view};
ghost use Rattle.tracked.specs.LocalViews.{seen_view};
ghost use Rattle.tracked_rows.specs.EventViews.{handed_view};
ghost use Rattle.tree.specs.View.{expression_syntax, expressions_syntax};

use crate::called::add_called;
use crate::declared::{add_declared, add_renewal};
use crate::file::FileKept;
use crate::gives::add_given;
use crate::here::Here;
use crate::literals::add_literal;
use crate::returned::{add_in_fields, add_item};
use crate::written::add_written;
use allowed_uses::body_gives;
use kept::Around;
use kept_forms::takes_it;
use mentions::mark::{Assigned, FieldLeft, FieldMark, Taker};
use mentions::{BodyPlace, Mark, Mention, Role};
use std::alloc::{AllocError, Global};
use tracked_rows::{Event, Handed};
use tree::Expr;

/// Adds what a mention does to what an object keeps.
fn add_mention<'a>(
    alloc: Global,
    here: Here<'_, '_, '_, 'a>,
    mention: Mention<'_, 'a>,
    events: &mut Vec<Event<'a>>,
) -> Result<(), AllocError>
    requires { KnowsHere here }
    ensures { OnOk result (AddsEvents events.old.items events.new.items (object_events
        (seen_view here.entry.around.seen.now) (map body_view here.entry.around.bodies.now)
        (mention_view mention.entry))) }
{
    match mention.role {
        Role::Called(call) => add_called(here, mention, *call, events),
        Role::Left(_, _) => add_declared(alloc, here, mention, events),
        Role::Exposed => add_declared(alloc, here, mention, events),
        _ => Ok(()),
    }
}

/// Adds what an expression gives, if the taker takes it.
fn add_taken<'a>(
    alloc: Global,
    here: Here<'_, '_, '_, 'a>,
    taker: Taker<'_, 'a>,
    value: &'a Expr,
    events: &mut Vec<Event<'a>>,
) -> Result<(), AllocError>
    requires { KnowsHere here }
    ensures { OnOk result ((site : ℕ) → AddsEvents events.old.items events.new.items (field_events
        (seen_view here.entry.around.seen.now) (map body_view here.entry.around.bodies.now)
        (of_fields site (hands_over (taker_view taker.entry) (expression_syntax value.now)))
        (hands_over (taker_view taker.entry) (expression_syntax value.now)))) }
{
    if !takes_it(here.around.seen.known, taker) {
        return Ok(());
    }
    add_given(alloc, here, value, events)
}

/// Adds what the literal at that offset gives, if the taker takes it.
fn add_taken_literal<'a>(
    alloc: Global,
    here: Here<'_, '_, '_, 'a>,
    taker: Taker<'_, 'a>,
    literal: u32,
    events: &mut Vec<Event<'a>>,
) -> Result<(), AllocError>
    requires { KnowsHere here }
    ensures { OnOk result ((site : ℕ) → AddsEvents events.old.items events.new.items (field_events
        (seen_view here.entry.around.seen.now) (map body_view here.entry.around.bodies.now)
        (of_fields site (hands_literal (taker_view taker.entry) literal))
        (hands_literal (taker_view taker.entry) literal))) }
{
    if !takes_it(here.around.seen.known, taker) {
        return Ok(());
    }
    add_literal(alloc, here, literal, events)
}

/// Adds what a value does that a field gets, if it is by a row.
fn add_assigned<'a>(
    alloc: Global,
    here: Here<'_, '_, '_, 'a>,
    left: FieldLeft<'a>,
    assigned: Option<Assigned<'_, 'a>>,
    events: &mut Vec<Event<'a>>,
) -> Result<(), AllocError>
    requires { KnowsHere here }
    ensures { OnOk result ((site : ℕ) → AddsEvents events.old.items events.new.items (field_events
        (seen_view here.entry.around.seen.now) (map body_view here.entry.around.bodies.now)
        (of_fields site (writes_field (field_left_view left.entry) (option_map assigned_view assigned.entry)))
        (writes_field (field_left_view left.entry) (option_map assigned_view assigned.entry)))) }
{
    match assigned {
        Some(assigned) => add_written(alloc, here, left, assigned, events),
        None => Ok(()),
    }
}

/// Adds what a mark of fields does.
fn add_field<'a>(
    alloc: Global,
    here: Here<'_, '_, '_, 'a>,
    field: FieldMark<'_, 'a>,
    events: &mut Vec<Event<'a>>,
) -> Result<(), AllocError>
    requires { KnowsHere here }
    ensures { OnOk result ((site : ℕ) → AddsEvents events.old.items events.new.items (field_events
        (seen_view here.entry.around.seen.now) (map body_view here.entry.around.bodies.now)
        (of_fields site (field_mark_view field.entry)) (field_mark_view field.entry))) }
{
    match field {
        FieldMark::CallsField(_) => Ok(()),
        FieldMark::WritesField { left, assigned } => {
            add_assigned(alloc, here, left, assigned, events)
        }
        FieldMark::HandsOver { taker, value } => add_taken(alloc, here, taker, value, events),
        FieldMark::HandsLiteral { taker, at } => add_taken_literal(alloc, here, taker, at, events),
        FieldMark::Renews(number) => add_renewal(here, Some(number), events),
        FieldMark::ImportsAll => Ok(()),
    }
}

/// Adds the events of a mark that are about objects, where some field keeps.
fn add_mark<'a>(
    alloc: Global,
    here: Here<'_, '_, '_, 'a>,
    mark: &Mark<'_, 'a>,
    events: &mut Vec<Event<'a>>,
) -> Result<(), AllocError>
    requires { KnowsHere here }
    ensures { OnOk result (AddsEvents events.old.items events.new.items (object_part
        (seen_view here.entry.around.seen.now) (map body_view here.entry.around.bodies.now)
        (mark_view mark.now))) }
{
    match *mark {
        Mark::Mentions(mention) => add_mention(alloc, here, mention, events),
        Mark::OfFields(_, field) => add_field(alloc, here, *field, events),
        _ => Ok(()),
    }
}

/// Adds the events of a mark in these bodies that are about objects.
fn add_objects<'s, 'k, 'm, 'a>(
    alloc: Global,
    file: FileKept<'s, 'k, 'm, 'a>,
    bodies: &'s [BodyPlace<'a>],
    mark: &Mark<'_, 'a>,
    events: &mut Vec<Event<'a>>,
) -> Result<(), AllocError>
    requires { KnowsFile file }
    ensures { OnOk result (AddsEvents events.old.items events.new.items (object_part
        (seen_view file.entry.seen.now) (map body_view bodies.now) (mark_view mark.now))) }
{
    match file.kept {
        Some(kept) => {
            let around = Around {
                seen: file.seen,
                bodies,
            };
            add_mark(alloc, Here { around, kept }, mark, events)
        }
        None => Ok(()),
    }
}

/// An item of a return.
#[derive(Clone, Copy)]
struct Item<'a> {
    position: usize,
    value: &'a Expr,
}

/// Adds what an item of a return in these bodies takes with it in fields.
fn add_item_fields<'s, 'k, 'm, 'a>(
    alloc: Global,
    file: FileKept<'s, 'k, 'm, 'a>,
    bodies: &'s [BodyPlace<'a>],
    item: Item<'a>,
    handed: &mut Vec<Handed>,
) -> Result<(), AllocError>
    requires { KnowsFile file }
    ensures { OnOk result (AddsHanded handed.old.items handed.new.items (handed_in_fields
        (seen_view file.entry.seen.now) (map body_view bodies.now) item.entry.position
        (expression_syntax item.entry.value.now))) }
{
    match file.kept {
        Some(kept) => {
            let around = Around {
                seen: file.seen,
                bodies,
            };
            let here = Here { around, kept };
            add_in_fields(alloc, here, item.position, item.value, handed)
        }
        None => Ok(()),
    }
}

/// What a return in these bodies hands on.
fn handed_on<'s, 'k, 'm, 'a>(
    alloc: Global,
    file: FileKept<'s, 'k, 'm, 'a>,
    bodies: &'s [BodyPlace<'a>],
    values: &'a [Expr],
) -> Result<Vec<Handed>, AllocError>
    requires { KnowsFile file }
    ensures { IfOk result (λ handed. map handed_view handed.items ≡ handed_on (seen_view file.entry.seen.now)
        (map body_view bodies.now) 0 (expressions_syntax values.now)) }
{
    let gives = body_gives(alloc, file.seen.known, bodies)?;
    let mut handed: Vec<Handed> = Vec::new(alloc);
    for (position, value) in values.iter().enumerate() {
        add_item(file.seen, &gives, position, value, &mut handed)?;
        let item = Item { position, value };
        add_item_fields(alloc, file, bodies, item, &mut handed)?;
    }
    Ok(handed)
}

/// Adds the event of a return in these bodies, if the mark is one.
fn add_return<'s, 'k, 'm, 'a>(
    alloc: Global,
    file: FileKept<'s, 'k, 'm, 'a>,
    bodies: &'s [BodyPlace<'a>],
    mark: &Mark<'_, 'a>,
    events: &mut Vec<Event<'a>>,
) -> Result<(), AllocError>
    requires { KnowsFile file }
    ensures { OnOk result (AddsEvents events.old.items events.new.items (return_part
        (seen_view file.entry.seen.now) (map body_view bodies.now) (mark_view mark.now))) }
{
    if let Mark::Returns(_, values) = *mark {
        let handed = handed_on(alloc, file, bodies, values)?;
        events.push(Event::Return { handed })?;
    }
    Ok(())
}

/// Adds the events of a mark in these bodies that are about objects, or that of a return.
///
/// # Errors
///
/// Memory was refused.
pub fn add_mark_events<'s, 'k, 'm, 'a>(
    alloc: Global,
    file: FileKept<'s, 'k, 'm, 'a>,
    bodies: &'s [BodyPlace<'a>],
    mark: &Mark<'_, 'a>,
    events: &mut Vec<Event<'a>>,
) -> Result<(), AllocError>
    requires { KnowsFile file }
    ensures { OnOk result (AddsEvents events.old.items events.new.items (kept_part
        (seen_view file.entry.seen.now) (map body_view bodies.now) (mark_view mark.now))) }
{
    add_return(alloc, file, bodies, mark, events)?;
    add_objects(alloc, file, bodies, mark, events)
}
