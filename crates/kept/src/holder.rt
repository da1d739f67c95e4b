//! Objects that are declared with a literal, and may get no other value by their addresses.

ghost use Rattle.std.specs.Prelude.{◌≡◌, ◌==◌, Some, IfOk, map};
ghost use Rattle.std.specs.List.{list_any};
ghost use Rattle.kept.specs.KeptViews.{field_places, gives_at, gives_there, is_name_at};
ghost use Rattle.kept_forms.specs.FormViews.{gift_view};
ghost use Rattle.meaning.specs.Kept.{holder, is_given_at, is_place_given, places_given, points_elsewhere};
ghost use Rattle.mentions.specs.MarkViews.{body_view, field_mark_view, mark_view, marks_view};
ghost use Rattle.tracked.specs.LocalViews.{seen_view, Sees};
ghost use Rattle.tracked_rows.specs.RowViews.{known_view};
ghost use Rattle.tree.specs.View.{expression_syntax};

use crate::around::is_declared_in;
use kept_forms::{Gift, gifts, takes_it};
use mentions::{BodyPlace, FieldMark, Mark};
use objects::{is_value_in, points_to};
use std::alloc::{AllocError, Global};
use tracked::{Seen, enter};
use tracked_rows::Known;
use tree::Expr;

/// `&x`, by the number of x and the offset where x stands.
#[derive(Clone, Copy)]
struct Address {
    object: u32,
    at: u32,
}

/// Whether it is a name that stands at that offset.
fn is_name_at(gift: Gift<'_>, at: u32) -> bool
    ensures { result ≡ is_name_at at (gift_view gift.entry) }
{
    match gift {
        Gift::Named(named) => named.at == at,
        Gift::Element(_) => false,
    }
}

/// Whether one of them is.
fn some_name_at(gifts: &[Gift<'_>], at: u32) -> bool
    ensures { result ≡ list_any (is_name_at at) (map gift_view gifts.now) }
{
    for gift in gifts {
        if is_name_at(*gift, at) {
            return true;
        }
    }
    false
}

/// Whether a name that is given by what stands there stands at that offset.
fn gives_at(alloc: Global, value: &Expr, at: u32) -> Result<bool, AllocError>
    ensures { IfOk result (λ is. is ≡ gives_at at (expression_syntax value.now)) }
{
    let given = gifts(alloc, value)?;
    Ok(some_name_at(&given, at))
}

/// Whether one of these expressions gives such a name.
fn some_give_at(alloc: Global, values: &[Expr], at: u32) -> Result<bool, AllocError>
    ensures { IfOk result (λ is. is ≡ list_any (gives_at at) (map expression_syntax values.now)) }
{
    for value in values {
        let gives = gives_at(alloc, value, at)?;
        if gives {
            return Ok(true);
        }
    }
    Ok(false)
}

/// Whether a mark of fields does.
fn field_gives_at(
    alloc: Global,
    known: Known<'_, '_>,
    field: FieldMark<'_, '_>,
    at: u32,
) -> Result<bool, AllocError>
    ensures { IfOk result (λ is. is ≡ list_any (λ n. n == at)
        (field_places (known_view known.entry) (field_mark_view field.entry))) }
{
    match field {
        FieldMark::HandsOver { taker, value } => {
            if takes_it(known, taker) {
                return gives_at(alloc, value, at);
            }
            Ok(false)
        }
        _ => Ok(false),
    }
}

/// Whether a mark does.
fn mark_gives_at(
    alloc: Global,
    known: Known<'_, '_>,
    mark: Mark<'_, '_>,
    at: u32,
) -> Result<bool, AllocError>
    ensures { IfOk result (λ is. is ≡ list_any (λ n. n == at)
        (places_given (known_view known.entry) (mark_view mark.entry))) }
{
    match mark {
        Mark::OfFields(_, field) => field_gives_at(alloc, known, *field, at),
        Mark::Returns(_, items) => some_give_at(alloc, items, at),
        _ => Ok(false),
    }
}

/// Whether a mark in these bodies gives x where its address is taken, and the innermost of them declares x.
fn gives_there(
    alloc: Global,
    seen: &Seen<'_, '_, '_>,
    bodies: &[BodyPlace<'_>],
    mark: Mark<'_, '_>,
    address: Address,
) -> Result<bool, AllocError>
    requires { Sees seen.now }
    ensures { IfOk result (λ is. is ≡ gives_there (seen_view seen.now) address.object address.at
        (map body_view bodies.now) (mark_view mark.entry)) }
{
    if is_declared_in(seen, bodies, address.object) {
        return mark_gives_at(alloc, seen.known, mark, address.at);
    }
    Ok(false)
}

/// Whether the body that declares x gives it where its address is taken.
fn is_given_at<'a>(
    alloc: Global,
    seen: &Seen<'_, '_, 'a>,
    address: Address,
) -> Result<bool, AllocError>
    requires { Sees seen.now }
    ensures { IfOk result (λ is. is ≡ is_given_at (seen_view seen.now) address.object address.at) }
{
    let mut bodies: Vec<BodyPlace<'a>> = Vec::new(alloc);
    for mark in &seen.marks {
        enter(&mut bodies, *mark)?;
        let gives = gives_there(alloc, seen, &bodies, *mark, address)?;
        if gives {
            return Ok(true);
        }
    }
    Ok(false)
}

/// Whether x is given where the mark is a mention of it.
fn is_place_given(
    alloc: Global,
    seen: &Seen<'_, '_, '_>,
    object: u32,
    mark: Mark<'_, '_>,
) -> Result<bool, AllocError>
    requires { Sees seen.now }
    ensures { IfOk result (λ is. is ≡ is_place_given (seen_view seen.now) object (mark_view mark.entry)) }
{
    match mark {
        Mark::Mentions(mention) => {
            let at = mention.named.at;
            is_given_at(alloc, seen, Address { object, at })
        }
        _ => Ok(false),
    }
}

/// `&x`, other than where it is given.
fn points_elsewhere(
    alloc: Global,
    seen: &Seen<'_, '_, '_>,
    object: u32,
    mark: Mark<'_, '_>,
) -> Result<bool, AllocError>
    requires { Sees seen.now }
    ensures { IfOk result (λ is. is ≡ points_elsewhere (seen_view seen.now) object (mark_view mark.entry)) }
{
    if !points_to(seen.known, object, mark) {
        return Ok(false);
    }
    let is_given = is_place_given(alloc, seen, object, mark)?;
    Ok(!is_given)
}

/// Whether one of these marks is such a `&x`.
fn some_point_elsewhere(
    alloc: Global,
    seen: &Seen<'_, '_, '_>,
    object: u32,
    marks: &[Mark<'_, '_>],
) -> Result<bool, AllocError>
    requires { Sees seen.now }
    ensures { IfOk result (λ is. is ≡ list_any (points_elsewhere (seen_view seen.now) object)
        (marks_view marks.now)) }
{
    for mark in marks {
        let points = points_elsewhere(alloc, seen, object, *mark)?;
        if points {
            return Ok(true);
        }
    }
    Ok(false)
}

/// The object of that number, unless it may get another value by its address.
fn held(alloc: Global, seen: &Seen<'_, '_, '_>, object: u32) -> Result<Option<u32>, AllocError>
    requires { Sees seen.now }
    ensures { IfOk result (λ x. x ≡ holder (seen_view seen.now) (Some object)) }
{
    let points = some_point_elsewhere(alloc, seen, object, &seen.marks)?;
    if !points {
        return Ok(Some(object));
    }
    if is_value_in(seen.known, &seen.marks, object) {
        return Ok(Some(object));
    }
    Ok(None)
}

/// The object that is declared with a literal, unless it may get another value by its address.
///
/// # Errors
///
/// Memory was refused.
pub fn holder(
    alloc: Global,
    seen: &Seen<'_, '_, '_>,
    object: Option<u32>,
) -> Result<Option<u32>, AllocError>
    requires { Sees seen.now }
    ensures { IfOk result (λ x. x ≡ holder (seen_view seen.now) object) }
{
    match object {
        Some(object) => held(alloc, seen, object),
        None => Ok(None),
    }
}
