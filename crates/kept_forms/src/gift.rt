//! What is given where something goes to others.

ghost use Rattle.std.specs.Prelude.{◌≡◌, ◌∷◌, [], IfOk, OnOk, map};
ghost use Rattle.kept_forms.specs.FormViews.{addressed_gifts, gift_view, type_syntax, AddsGifts};
ghost use Rattle.meaning.specs.Kept.{element, element_gift, fields_of, gifts, elements_gifts, named_gift};
ghost use Rattle.meaning.specs.Mentions.{bare};
ghost use Rattle.tree.specs.Syntax.{missing_expression, no_expression, expression_and};
ghost use Rattle.tree.specs.View.{expression_syntax, expressions_syntax};

use crate::element::{Element, as_element};
use crate::literal_type::{element_type, may_have_fields};
use mentions::Named;
use std::alloc::{AllocError, Global};
use tree::{Expr, ExprKind, UnaryOperator};

/// What is given.
#[derive(Clone, Copy)]
pub enum Gift<'a> {
    /// A name, bare or behind `&`.
    Named(Named<'a>),
    /// An element of a composite literal.
    Element(Element<'a>),
}

/// Adds the element, if it is `f: c`.
fn add_element<'a>(value: &'a Expr, found: &mut Vec<Gift<'a>>) -> Result<(), AllocError>
    ensures { OnOk result (AddsGifts found.old.items found.new.items (map element_gift
        (element (expression_syntax value.now)))) }
{
    if let Some(element) = as_element(value) {
        found.push(Gift::Element(element))?;
    }
    Ok(())
}

/// The same, if it stands in a field of a literal of that type.
fn add_own_element<'a>(
    value: &'a Expr,
    literal: Option<&Expr>,
    found: &mut Vec<Gift<'a>>,
) -> Result<(), AllocError>
    ensures { OnOk result (AddsGifts found.old.items found.new.items (map element_gift (fields_of
        (type_syntax literal.entry) (expression_and (expression_syntax value.now) no_expression)))) }
{
    if may_have_fields(literal) {
        return add_element(value, found);
    }
    Ok(())
}

/// Adds a name.
fn add_name<'a>(name: &'a str, at: u32, found: &mut Vec<Gift<'a>>) -> Result<(), AllocError>
    ensures { OnOk result (AddsGifts found.old.items found.new.items (named_gift (bare name.now at) ∷ [])) }
{
    found.push(Gift::Named(Named {
        name,
        at,
        selected: None,
    }))?;
    Ok(())
}

/// Adds what is given by what stands there; a literal without a type has this one.
#[cycle(given)]
fn add_gifts<'a>(
    value: &'a Expr,
    literal: Option<&'a Expr>,
    found: &mut Vec<Gift<'a>>,
) -> Result<(), AllocError>
    ensures { OnOk result (AddsGifts found.old.items found.new.items (gifts (type_syntax literal.entry)
        (expression_syntax value.now))) }
{
    match &value.kind {
        ExprKind::Name(text) => add_name(text.as_str(), value.span.start, found),
        ExprKind::Unary(operator, operand) => add_addressed(*operator, operand, found),
        ExprKind::CompositeLit(kind, values) => add_elements(values, Some(kind), found),
        ExprKind::LiteralValue(values) => add_elements(values, literal, found),
        ExprKind::KeyValue(_, value) => add_gifts(value, literal, found),
        _ => Ok(()),
    }
}

/// Adds what the operand gives, if it stands behind `&`.
#[cycle(given)]
fn add_addressed<'a>(
    operator: UnaryOperator,
    operand: &'a Expr,
    found: &mut Vec<Gift<'a>>,
) -> Result<(), AllocError>
    ensures { OnOk result (AddsGifts found.old.items found.new.items (addressed_gifts operator
        (expression_syntax operand.now))) }
{
    match operator {
        UnaryOperator::Address => add_gifts(operand, None, found),
        _ => Ok(()),
    }
}

/// The same of the elements of a literal of that type; keys are not given.
#[cycle(given)]
fn add_elements<'a>(
    values: &'a [Expr],
    literal: Option<&'a Expr>,
    found: &mut Vec<Gift<'a>>,
) -> Result<(), AllocError>
    ensures { OnOk result (AddsGifts found.old.items found.new.items (elements_gifts (type_syntax literal.entry)
        (expressions_syntax values.now))) }
{
    let inner = element_type(literal);
    for value in values {
        add_own_element(value, literal, found)?;
        add_gifts(value, inner, found)?;
    }
    Ok(())
}

/// What is given by an expression that stands where something goes to others.
///
/// # Errors
///
/// Memory was refused.
pub fn gifts<'a>(alloc: Global, value: &'a Expr) -> Result<Vec<Gift<'a>>, AllocError>
    ensures { IfOk result (λ found. map gift_view found.items ≡ gifts missing_expression
        (expression_syntax value.now)) }
{
    let mut found: Vec<Gift<'a>> = Vec::new(alloc);
    add_gifts(value, None, &mut found)?;
    Ok(found)
}
