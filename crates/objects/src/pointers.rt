//! Parameters and receivers whose types are written with `*`.

ghost use Rattle.std.specs.Prelude.{◌≡◌, IfOk, map, option_map};
ghost use Rattle.std.specs.List.{list_any};
ghost use Rattle.facts.specs.FactViews.{item_view};
ghost use Rattle.meaning.specs.Objects.{is_pointer, is_at, points, points_in};
ghost use Rattle.meaning.specs.Tracked.{receiver_items};
ghost use Rattle.mentions.specs.MarkViews.{body_view};
ghost use Rattle.tree.specs.Syntax.{present_expression};
ghost use Rattle.tree.specs.View.{expression_syntax, identifier_syntax, optional_expression_of, parameters_syntax};

use facts::{Item, parameter_items};
use mentions::BodyPlace;
use std::alloc::{AllocError, Global};
use tree::{Expr, ExprKind, Identifier, Param};

/// `*T`.
pub fn is_star(kind: &Expr) -> bool
    ensures { result ≡ is_pointer (present_expression (expression_syntax kind.now)) }
{
    match &kind.kind {
        ExprKind::Star(_) => true,
        _ => false,
    }
}

fn is_pointer(kind: Option<&Expr>) -> bool
    ensures { result ≡ is_pointer (optional_expression_of (option_map (λ t. expression_syntax t.now) kind.entry)) }
{
    match kind {
        Some(kind) => is_star(kind),
        None => false,
    }
}

/// Whether the name stands at that offset.
fn is_at(number: u32, name: Option<&Identifier>) -> bool
    ensures { result ≡ is_at number (option_map (λ n. identifier_syntax n.now) name.entry) }
{
    match name {
        Some(name) => name.span.start == number,
        None => false,
    }
}

fn points(number: u32, item: &Item<'_>) -> bool
    ensures { result ≡ points number (item_view item.now) }
{
    is_at(number, item.name) && !item.is_variadic && is_pointer(item.kind)
}

fn some_points(number: u32, items: &[Item<'_>]) -> bool
    ensures { result ≡ list_any (points number) (map item_view items.now) }
{
    for item in items {
        if points(number, item) {
            return true;
        }
    }
    false
}

fn receiver_points(
    alloc: Global,
    number: u32,
    receiver: Option<&[Param]>,
) -> Result<bool, AllocError>
    ensures { IfOk result (λ is. is ≡ list_any (points number) (receiver_items
        (option_map (λ ps. parameters_syntax ps.now) receiver.entry))) }
{
    match receiver {
        Some(params) => {
            let items = parameter_items(alloc, params)?;
            Ok(some_points(number, &items))
        }
        None => Ok(false),
    }
}

/// Whether the parameter or receiver of that number has a type that is written with `*`, without `...`.
///
/// # Errors
///
/// Memory was refused.
pub fn points_in(alloc: Global, body: BodyPlace<'_>, number: u32) -> Result<bool, AllocError>
    ensures { IfOk result (λ is. is ≡ points_in (body_view body.entry) number) }
{
    let is_receiver = receiver_points(alloc, number, body.receiver)?;
    if is_receiver {
        return Ok(true);
    }
    let items = parameter_items(alloc, &body.signature.params)?;
    Ok(some_points(number, &items))
}
