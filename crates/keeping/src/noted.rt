//! What each mark says of fields.

ghost use Rattle.std.specs.Prelude.{◌≡◌, ◌++◌, OnOk, flat_map, map, option_map};
ghost use Rattle.keeping.specs.Notes.{called_note, element_notes, field_notes, gift_notes, given_notes, key_notes, method_notes, notes_there, one_note, written_note};
ghost use Rattle.noted_fields.specs.NotedFields.{note_view};
ghost use Rattle.kept_forms.specs.FormViews.{element_view, gift_view};
ghost use Rattle.mentions.specs.MarkViews.{assigned_view, body_view, field_left_view, field_mark_view, mark_view, mention_view};
ghost use Rattle.tracked.specs.LocalViews.{seen_view, Sees};
ghost use Rattle.tree.specs.View.{expression_syntax};

use crate::values::{holds_after, may_keep};
use kept::field_value;
use kept_forms::{Element, Gift, gifts, role_fields};
use mentions::{Assigned, BodyPlace, FieldLeft, FieldMark, Mark, Mention, Role};
use noted_fields::Note;
use std::alloc::{AllocError, Global};
use tracked::Seen;
use tree::Expr;

/// An element of a literal puts what it has into its field, where that is a cancel variable of the body.
fn add_element<'a>(
    seen: &Seen<'_, '_, 'a>,
    bodies: &[BodyPlace<'a>],
    element: Element<'a>,
    notes: &mut Vec<Note<'a>>,
) -> Result<(), AllocError>
    requires { Sees seen.now }
    ensures { OnOk result (map note_view notes.new.items ≡ map note_view notes.old.items
        ++ element_notes (seen_view seen.now) (map body_view bodies.now) (element_view element.entry)) }
{
    if field_value(seen, bodies, element).is_some() {
        notes.push(Note::Put(element.field))?;
    }
    Ok(())
}

fn add_elements<'a>(
    seen: &Seen<'_, '_, 'a>,
    bodies: &[BodyPlace<'a>],
    elements: &[Element<'a>],
    notes: &mut Vec<Note<'a>>,
) -> Result<(), AllocError>
    requires { Sees seen.now }
    ensures { OnOk result (map note_view notes.new.items ≡ map note_view notes.old.items
        ++ flat_map (element_notes (seen_view seen.now) (map body_view bodies.now)) (map element_view elements.now)) }
{
    for element in elements {
        add_element(seen, bodies, *element, notes)?;
    }
    Ok(())
}

/// What is given puts into fields what its elements do.
fn add_gift<'a>(
    seen: &Seen<'_, '_, 'a>,
    bodies: &[BodyPlace<'a>],
    gift: Gift<'a>,
    notes: &mut Vec<Note<'a>>,
) -> Result<(), AllocError>
    requires { Sees seen.now }
    ensures { OnOk result (map note_view notes.new.items ≡ map note_view notes.old.items
        ++ gift_notes (seen_view seen.now) (map body_view bodies.now) (gift_view gift.entry)) }
{
    match gift {
        Gift::Element(element) => add_element(seen, bodies, element, notes),
        Gift::Named(_) => Ok(()),
    }
}

fn add_gifts<'a>(
    seen: &Seen<'_, '_, 'a>,
    bodies: &[BodyPlace<'a>],
    gifts: &[Gift<'a>],
    notes: &mut Vec<Note<'a>>,
) -> Result<(), AllocError>
    requires { Sees seen.now }
    ensures { OnOk result (map note_view notes.new.items ≡ map note_view notes.old.items
        ++ flat_map (gift_notes (seen_view seen.now) (map body_view bodies.now)) (map gift_view gifts.now)) }
{
    for gift in gifts {
        add_gift(seen, bodies, *gift, notes)?;
    }
    Ok(())
}

/// What stands where something is given.
fn add_given<'a>(
    alloc: Global,
    seen: &Seen<'_, '_, 'a>,
    bodies: &[BodyPlace<'a>],
    value: &'a Expr,
    notes: &mut Vec<Note<'a>>,
) -> Result<(), AllocError>
    requires { Sees seen.now }
    ensures { OnOk result (map note_view notes.new.items ≡ map note_view notes.old.items
        ++ given_notes (seen_view seen.now) (map body_view bodies.now) (expression_syntax value.now)) }
{
    let given = gifts(alloc, value)?;
    add_gifts(seen, bodies, &given, notes)
}

/// The items of a return.
fn add_items<'a>(
    alloc: Global,
    seen: &Seen<'_, '_, 'a>,
    bodies: &[BodyPlace<'a>],
    items: &'a [Expr],
    notes: &mut Vec<Note<'a>>,
) -> Result<(), AllocError>
    requires { Sees seen.now }
    ensures { OnOk result (map note_view notes.new.items ≡ map note_view notes.old.items
        ++ flat_map (given_notes (seen_view seen.now) (map body_view bodies.now)) (map expression_syntax items.now)) }
{
    for item in items {
        add_given(alloc, seen, bodies, item, notes)?;
    }
    Ok(())
}

/// What is said of a field that gets a value.
fn written_note<'a>(
    seen: &Seen<'_, '_, 'a>,
    bodies: &[BodyPlace<'a>],
    left: FieldLeft<'a>,
    assigned: Option<Assigned<'_, 'a>>,
) -> Option<Note<'a>>
    requires { Sees seen.now }
    ensures { option_map note_view result ≡ written_note (seen_view seen.now) (map body_view bodies.now)
        (field_left_view left.entry) (option_map assigned_view assigned.entry) }
{
    if holds_after(seen, bodies, assigned) {
        return Some(Note::Put(left.field.text.as_str()));
    }
    if may_keep(seen, bodies, assigned) {
        return None;
    }
    Some(Note::Spoiled(left.field.text.as_str()))
}

/// What is said of a field that is called: that a body does so.
pub fn called_note<'a>(bodies: &[BodyPlace<'a>], name: &'a str) -> Option<Note<'a>>
    ensures { option_map note_view result ≡ called_note (map body_view bodies.now) name.now }
{
    if bodies.is_empty() {
        None
    } else {
        Some(Note::Called(name))
    }
}

/// Adds what is said, if something is.
///
/// # Errors
///
/// Memory was refused.
pub fn add_note<'a>(note: Option<Note<'a>>, notes: &mut Vec<Note<'a>>) -> Result<(), AllocError>
    ensures { OnOk result (map note_view notes.new.items ≡ map note_view notes.old.items
        ++ one_note (option_map note_view note.entry)) }
{
    if let Some(note) = note {
        notes.push(note)?;
    }
    Ok(())
}

/// A mark of fields.
fn add_of_field<'a>(
    alloc: Global,
    seen: &Seen<'_, '_, 'a>,
    bodies: &[BodyPlace<'a>],
    mark: FieldMark<'_, 'a>,
    notes: &mut Vec<Note<'a>>,
) -> Result<(), AllocError>
    requires { Sees seen.now }
    ensures { OnOk result (map note_view notes.new.items ≡ map note_view notes.old.items
        ++ field_notes (seen_view seen.now) (map body_view bodies.now) (field_mark_view mark.entry)) }
{
    match mark {
        FieldMark::CallsField(name) => add_note(called_note(bodies, name), notes),
        FieldMark::WritesField { left, assigned } => {
            notes.push(Note::Filled(left.field.text.as_str()))?;
            add_note(written_note(seen, bodies, left, assigned), notes)
        }
        FieldMark::HandsOver { value, .. } => add_given(alloc, seen, bodies, value, notes),
        FieldMark::HandsLiteral { .. } => Ok(()),
        FieldMark::Renews(_) => Ok(()),
        FieldMark::ImportsAll => Ok(()),
    }
}

/// A key of an element.
///
/// # Errors
///
/// Memory was refused.
pub fn add_key<'a>(mention: Mention<'_, 'a>, notes: &mut Vec<Note<'a>>) -> Result<(), AllocError>
    ensures { OnOk result (map note_view notes.new.items ≡ map note_view notes.old.items
        ++ key_notes (mention_view mention.entry)) }
{
    match mention.role {
        Role::Key => {
            notes.push(Note::Filled(mention.named.name))?;
            Ok(())
        }
        _ => Ok(()),
    }
}

/// A body of a method tells the method's name.
///
/// # Errors
///
/// Memory was refused.
pub fn add_method<'a>(body: BodyPlace<'a>, notes: &mut Vec<Note<'a>>) -> Result<(), AllocError>
    ensures { OnOk result (map note_view notes.new.items ≡ map note_view notes.old.items
        ++ method_notes (body_view body.entry)) }
{
    let name = match body.name {
        Some(name) => name,
        None => return Ok(()),
    };
    match body.receiver {
        Some(_) => {
            notes.push(Note::Method(name.text.as_str()))?;
            Ok(())
        }
        None => Ok(()),
    }
}

/// Adds what a mark in these bodies says of fields.
///
/// # Errors
///
/// Memory was refused.
pub fn add_notes<'a>(
    alloc: Global,
    seen: &Seen<'_, '_, 'a>,
    bodies: &[BodyPlace<'a>],
    mark: Mark<'_, 'a>,
    notes: &mut Vec<Note<'a>>,
) -> Result<(), AllocError>
    requires { Sees seen.now }
    ensures { OnOk result (map note_view notes.new.items ≡ map note_view notes.old.items
        ++ notes_there (seen_view seen.now) (map body_view bodies.now) (mark_view mark.entry)) }
{
    match mark {
        Mark::Mentions(mention) => {
            add_key(mention, notes)?;
            let elements = role_fields(alloc, mention.role)?;
            add_elements(seen, bodies, &elements, notes)
        }
        Mark::OfFields(_, field) => add_of_field(alloc, seen, bodies, *field, notes),
        Mark::Returns(_, items) => add_items(alloc, seen, bodies, items, notes),
        Mark::RunsLiteral(_, _, _) => Ok(()),
        Mark::Opens(body) => add_method(*body, notes),
        Mark::Closes => Ok(()),
    }
}
