//! What a mark keeps in fields of the objects of its body.

ghost use Rattle.std.specs.Prelude.{◌≡◌, ◌∷◌, [], IfOk, OnOk, map, option_map};
ghost use Rattle.std.specs.List.{filter, list_any};
ghost use Rattle.kept.specs.KeptViews.{element_keeps, field_keeps, keep_view, is_carried, listed_keep, stored_keeps_by, is_there, AddsKeeps, AddsThere, SeesKeeping};
ghost use Rattle.kept_forms.specs.FormViews.{element_view};
ghost use Rattle.meaning.specs.Kept.{holder, kept_element, keeps_there};
ghost use Rattle.meaning.specs.Mentions.{mentions};
ghost use Rattle.meaning.specs.Tracked.{declared_by};
ghost use Rattle.mentions.specs.MarkViews.{assigned_view, body_view, field_left_view, field_mark_view, mark_view, mention_view};
ghost use Rattle.tracked.specs.LocalViews.{seen_view};
ghost use Rattle.tracked_rows.specs.RowViews.{known_view};

use crate::around::Around;
use crate::holder::holder;
use crate::own::carried;
use crate::row::{Keep, kept_in};
use crate::stored::stored;
use kept_forms::{Element, role_fields};
use mentions::mark::{Assigned, FieldLeft, FieldMark};
use mentions::{Mark, Mention};
use objects::object_in;
use std::alloc::{AllocError, Global};
use tracked::declared_by;

/// Whether what is kept is kept in an object of the body.
fn is_there(
    alloc: Global,
    around: Around<'_, '_, '_, '_>,
    keep: Keep<'_>,
) -> Result<bool, AllocError>
    requires { SeesKeeping around.seen.now }
    ensures { IfOk result (λ is. is ≡ is_there (seen_view around.entry.seen.now)
        (map body_view around.entry.bodies.now) (keep_view keep.entry)) }
{
    let kind = object_in(alloc, around.seen, around.bodies, Some(keep.object))?;
    Ok(kind.is_some())
}

/// It, if it is kept in an object of the body.
fn if_there<'a>(
    alloc: Global,
    around: Around<'_, '_, '_, '_>,
    keep: Keep<'a>,
) -> Result<Option<Keep<'a>>, AllocError>
    requires { SeesKeeping around.seen.now }
    ensures { IfOk result (λ kept. listed_keep kept ≡ filter (is_there (seen_view around.entry.seen.now)
        (map body_view around.entry.bodies.now)) (keep_view keep.entry ∷ [])) }
{
    let is = is_there(alloc, around, keep)?;
    if is {
        return Ok(Some(keep));
    }
    Ok(None)
}

/// The same of what may be kept.
fn some_there<'a>(
    alloc: Global,
    around: Around<'_, '_, '_, '_>,
    keep: Option<Keep<'a>>,
) -> Result<Option<Keep<'a>>, AllocError>
    requires { SeesKeeping around.seen.now }
    ensures { IfOk result (λ kept. listed_keep kept ≡ filter (is_there (seen_view around.entry.seen.now)
        (map body_view around.entry.bodies.now)) (listed_keep keep.entry)) }
{
    match keep {
        Some(keep) => if_there(alloc, around, keep),
        None => Ok(None),
    }
}

/// Adds what is kept, if something is.
///
/// # Errors
///
/// Memory was refused.
pub fn add_keep<'a>(keep: Option<Keep<'a>>, keeps: &mut Vec<Keep<'a>>) -> Result<(), AllocError>
    ensures { OnOk result (AddsKeeps keeps.old.items keeps.new.items (listed_keep keep.entry)) }
{
    if let Some(keep) = keep {
        keeps.push(keep)?;
    }
    Ok(())
}

/// Adds what an element of a literal keeps in a field of that object.
fn add_element<'a>(
    alloc: Global,
    around: Around<'_, '_, '_, '_>,
    object: Option<u32>,
    element: &Element<'a>,
    keeps: &mut Vec<Keep<'a>>,
) -> Result<(), AllocError>
    requires { SeesKeeping around.seen.now }
    ensures { OnOk result (AddsThere (seen_view around.entry.seen.now) (map body_view around.entry.bodies.now)
        keeps.old.items keeps.new.items (kept_element (seen_view around.entry.seen.now)
        (map body_view around.entry.bodies.now) object (element_view element.now))) }
{
    let variable = carried(around.seen, around.bodies, *element);
    let keep = some_there(alloc, around, kept_in(variable, object, element.field))?;
    add_keep(keep, keeps)
}

/// The same of all elements of a literal.
fn add_elements<'a>(
    alloc: Global,
    around: Around<'_, '_, '_, '_>,
    object: Option<u32>,
    elements: &[Element<'a>],
    keeps: &mut Vec<Keep<'a>>,
) -> Result<(), AllocError>
    requires { SeesKeeping around.seen.now }
    ensures { OnOk result (AddsKeeps keeps.old.items keeps.new.items (element_keeps (seen_view around.entry.seen.now)
        (map body_view around.entry.bodies.now) object (map element_view elements.now))) }
{
    for element in elements {
        add_element(alloc, around, object, element, keeps)?;
    }
    Ok(())
}

/// Whether the element puts something into a field that keeps.
fn is_carried(around: Around<'_, '_, '_, '_>, element: Element<'_>) -> bool
    requires { SeesKeeping around.seen.now }
    ensures { result ≡ is_carried (seen_view around.entry.seen.now) (map body_view around.entry.bodies.now)
        (element_view element.entry) }
{
    let variable = carried(around.seen, around.bodies, element);
    variable.is_some()
}

fn some_carried(around: Around<'_, '_, '_, '_>, elements: &[Element<'_>]) -> bool
    requires { SeesKeeping around.seen.now }
    ensures { result ≡ list_any (is_carried (seen_view around.entry.seen.now)
        (map body_view around.entry.bodies.now)) (map element_view elements.now) }
{
    for element in elements {
        if is_carried(around, *element) {
            return true;
        }
    }
    false
}

/// Adds what these elements keep in what the mention declares. The marks are asked whether that is an object only if
/// one of them puts something into a field that keeps.
fn add_held<'a>(
    alloc: Global,
    around: Around<'_, '_, '_, 'a>,
    mention: Mention<'_, 'a>,
    elements: &[Element<'a>],
    keeps: &mut Vec<Keep<'a>>,
) -> Result<(), AllocError>
    requires { SeesKeeping around.seen.now }
    ensures { OnOk result (AddsKeeps keeps.old.items keeps.new.items (element_keeps (seen_view around.entry.seen.now)
        (map body_view around.entry.bodies.now) (holder (seen_view around.entry.seen.now) (declared_by
        (known_view around.entry.seen.now.known) (mention_view mention.entry))) (map element_view elements.now))) }
{
    if !some_carried(around, elements) {
        return Ok(());
    }
    let declared = declared_by(around.seen.known, mention);
    let object = holder(alloc, around.seen, declared)?;
    add_elements(alloc, around, object, elements, keeps)
}

/// Adds what a mention keeps, which declares an object with a literal.
///
/// # Errors
///
/// Memory was refused.
pub fn add_declared<'a>(
    alloc: Global,
    around: Around<'_, '_, '_, 'a>,
    mention: Mention<'_, 'a>,
    keeps: &mut Vec<Keep<'a>>,
) -> Result<(), AllocError>
    requires { SeesKeeping around.seen.now }
    ensures { OnOk result (AddsKeeps keeps.old.items keeps.new.items (keeps_there (seen_view around.entry.seen.now)
        (map body_view around.entry.bodies.now) (mentions (mention_view mention.entry)))) }
{
    let elements = role_fields(alloc, mention.role)?;
    add_held(alloc, around, mention, &elements, keeps)
}

/// What an assignment to a field keeps in an object of the body.
///
/// # Errors
///
/// Memory was refused.
pub fn stored_there<'a>(
    alloc: Global,
    around: Around<'_, '_, '_, 'a>,
    left: FieldLeft<'a>,
    assigned: Option<Assigned<'_, 'a>>,
) -> Result<Option<Keep<'a>>, AllocError>
    requires { SeesKeeping around.seen.now }
    ensures { IfOk result (λ kept. listed_keep kept ≡ filter (is_there (seen_view around.entry.seen.now)
        (map body_view around.entry.bodies.now)) (stored_keeps_by (seen_view around.entry.seen.now)
        (map body_view around.entry.bodies.now) (field_left_view left.entry)
        (option_map assigned_view assigned.entry))) }
{
    let keep = stored(around.seen, around.bodies, left, assigned);
    some_there(alloc, around, keep)
}

/// Adds what is kept in an object of the body by what is asked of a field.
fn add_stored<'a>(
    alloc: Global,
    around: Around<'_, '_, '_, 'a>,
    field: FieldMark<'_, 'a>,
    keeps: &mut Vec<Keep<'a>>,
) -> Result<(), AllocError>
    requires { SeesKeeping around.seen.now }
    ensures { OnOk result (AddsThere (seen_view around.entry.seen.now) (map body_view around.entry.bodies.now)
        keeps.old.items keeps.new.items (field_keeps (seen_view around.entry.seen.now)
        (map body_view around.entry.bodies.now) (field_mark_view field.entry))) }
{
    match field {
        FieldMark::WritesField { left, assigned } => {
            let keep = stored_there(alloc, around, left, assigned)?;
            add_keep(keep, keeps)
        }
        _ => Ok(()),
    }
}

/// Adds what a mark keeps in fields of objects of the body.
fn add_keeps<'a>(
    alloc: Global,
    around: Around<'_, '_, '_, 'a>,
    mark: Mark<'_, 'a>,
    keeps: &mut Vec<Keep<'a>>,
) -> Result<(), AllocError>
    requires { SeesKeeping around.seen.now }
    ensures { OnOk result (AddsKeeps keeps.old.items keeps.new.items (keeps_there (seen_view around.entry.seen.now)
        (map body_view around.entry.bodies.now) (mark_view mark.entry))) }
{
    match mark {
        Mark::Mentions(mention) => add_declared(alloc, around, mention, keeps),
        Mark::OfFields(_, field) => add_stored(alloc, around, *field, keeps),
        _ => Ok(()),
    }
}

/// What a mark keeps in fields of objects of the body.
///
/// # Errors
///
/// Memory was refused.
pub fn keeps_there<'a>(
    alloc: Global,
    around: Around<'_, '_, '_, 'a>,
    mark: Mark<'_, 'a>,
) -> Result<Vec<Keep<'a>>, AllocError>
    requires { SeesKeeping around.seen.now }
    ensures { IfOk result (λ keeps. map keep_view keeps.items ≡ keeps_there (seen_view around.entry.seen.now)
        (map body_view around.entry.bodies.now) (mark_view mark.entry)) }
{
    let mut keeps: Vec<Keep<'a>> = Vec::new(alloc);
    add_keeps(alloc, around, mark, &mut keeps)?;
    Ok(keeps)
}
