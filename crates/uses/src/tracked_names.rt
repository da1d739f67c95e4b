//! Whether an expression names a tracked variable.

ghost use Rattle.std.specs.Prelude.{◌≡◌, ◌&&◌, IfOk, map, option_map, []};
ghost use Rattle.tracked.specs.LocalViews.{seen_view, Sees};
ghost use Rattle.mentions.specs.MarkViews.{body_view, mark_view, marks_view};
ghost use Rattle.facts.specs.FactViews.{kind_view};
ghost use Rattle.meaning.specs.Uses.{tracked_kind, found, has_tracked, has_tracked_outside, names_tracked, names_tracked_outside, is_outside, is_free};
ghost use Rattle.tree.specs.View.{expression_syntax};
ghost use Rattle.std.specs.List.{list_any};
ghost use Rattle.meaning.specs.Tracked.{placed};

use allowed_uses::literal_at;
use bumpalo::Bump;
use facts::VariableKind;
use marks::expression_marks;
use mentions::{BodyPlace, Mark};
use std::alloc::{AllocError, Global};
use tracked::{Seen, enter, tracked_kind, variable_of};
use tree::Expr;

fn names_tracked(seen: &Seen<'_, '_, '_>, mark: Mark<'_, '_>) -> bool
    requires { Sees seen.now }
    ensures { result ≡ names_tracked (seen_view seen.now) (mark_view mark.entry) }
{
    match mark {
        Mark::Mentions(mention) => seen.is_tracked(variable_of(seen.known, mention)),
        _ => false,
    }
}

/// What the local of that number is tracked as.
pub fn tracked_as(seen: &Seen<'_, '_, '_>, number: Option<u32>) -> Option<VariableKind>
    requires { Sees seen.now }
    ensures { option_map kind_view result ≡ tracked_kind (seen_view seen.now) (found (seen_view seen.now) number) }
{
    match seen.entry(number) {
        Some(entry) => tracked_kind(entry),
        None => None,
    }
}

fn any_tracked(seen: &Seen<'_, '_, '_>, marks: &[Mark<'_, '_>]) -> bool
    requires { Sees seen.now }
    ensures { result ≡ list_any (names_tracked (seen_view seen.now)) (marks_view marks.now) }
{
    for mark in marks {
        if names_tracked(seen, *mark) {
            return true;
        }
    }
    false
}

/// Whether the expression names one, in literals too.
///
/// # Errors
///
/// Memory was refused.
pub fn has_tracked(alloc: Global, seen: &Seen<'_, '_, '_>, value: &Expr) -> Result<bool, AllocError>
    requires { Sees seen.now }
    ensures { IfOk result (λ has. has ≡ has_tracked (seen_view seen.now) (expression_syntax value.now)) }
{
    let arena = Bump::new(alloc);
    let marks = expression_marks(alloc, &arena, value)?;
    Ok(any_tracked(seen, &marks))
}

/// Whether a mark in these bodies stands in none and names one.
fn names_tracked_outside(
    seen: &Seen<'_, '_, '_>,
    bodies: &[BodyPlace<'_>],
    mark: Mark<'_, '_>,
) -> bool
    requires { Sees seen.now }
    ensures { result ≡ (is_outside (map body_view bodies.now) && names_tracked (seen_view seen.now)
        (mark_view mark.entry)) }
{
    is_outside(bodies) && names_tracked(seen, mark)
}

fn is_outside(bodies: &[BodyPlace<'_>]) -> bool
    ensures { result ≡ is_outside (map body_view bodies.now) }
{
    bodies.first().is_none()
}

/// Whether one is named among the marks outside all bodies that open there.
fn any_outside(
    alloc: Global,
    seen: &Seen<'_, '_, '_>,
    marks: &[Mark<'_, '_>],
) -> Result<bool, AllocError>
    requires { Sees seen.now }
    ensures { IfOk result (λ has. has ≡ list_any (names_tracked_outside (seen_view seen.now))
        (placed [] (marks_view marks.now))) }
{
    let mut bodies: Vec<BodyPlace<'_>> = Vec::new(alloc);
    for mark in marks {
        enter(&mut bodies, *mark)?;
        if names_tracked_outside(seen, &bodies, *mark) {
            return Ok(true);
        }
    }
    Ok(false)
}

/// Whether the expression names one outside literals.
///
/// # Errors
///
/// Memory was refused.
fn has_tracked_outside(
    alloc: Global,
    seen: &Seen<'_, '_, '_>,
    value: &Expr,
) -> Result<bool, AllocError>
    requires { Sees seen.now }
    ensures { IfOk result (λ has. has ≡ has_tracked_outside (seen_view seen.now) (expression_syntax value.now)) }
{
    let arena = Bump::new(alloc);
    let marks = expression_marks(alloc, &arena, value)?;
    any_outside(alloc, seen, &marks)
}

/// x of `g.Go(x)`: a function literal, or an expression without a tracked name outside literals.
///
/// # Errors
///
/// Memory was refused.
pub fn is_free(
    alloc: Global,
    seen: &Seen<'_, '_, '_>,
    argument: Option<&Expr>,
) -> Result<bool, AllocError>
    requires { Sees seen.now }
    ensures { IfOk result (λ free. free ≡ is_free (seen_view seen.now)
        (option_map (λ e. expression_syntax e.now) argument.entry)) }
{
    let value = match argument {
        Some(value) => value,
        None => return Ok(false),
    };
    if literal_at(value).is_some() {
        return Ok(true);
    }
    let has = has_tracked_outside(alloc, seen, value)?;
    Ok(!has)
}
