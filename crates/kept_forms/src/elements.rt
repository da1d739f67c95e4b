//! The elements of composite literals that stand in fields.

ghost use Rattle.std.specs.Prelude.{◌≡◌, [], IfOk, OnOk, map};
ghost use Rattle.kept_forms.specs.FormViews.{element_view, type_syntax, addressed_fields, declares_one, literal_fields, AddsElements};
ghost use Rattle.meaning.specs.Kept.{element, elements, fields_of, fields_in, some_fields, only_value_of, declared_fields, role_fields};
ghost use Rattle.mentions.specs.MarkViews.{form_view, role_view};
ghost use Rattle.tree.specs.View.{expression_syntax, expressions_syntax};

use crate::element::{Element, as_element};
use crate::literal_type::may_have_fields;
use mentions::{Role, RowForm};
use std::alloc::{AllocError, Global};
use tracked_rows::only;
use tree::{DeclKeyword, Expr, ExprKind, UnaryOperator};

fn add_element<'a>(value: &'a Expr, found: &mut Vec<Element<'a>>) -> Result<(), AllocError>
    ensures { OnOk result (AddsElements found.old.items found.new.items (element (expression_syntax value.now))) }
{
    if let Some(element) = as_element(value) {
        found.push(element)?;
    }
    Ok(())
}

fn add_elements<'a>(values: &'a [Expr], found: &mut Vec<Element<'a>>) -> Result<(), AllocError>
    ensures { OnOk result (AddsElements found.old.items found.new.items (elements (expressions_syntax values.now))) }
{
    for value in values {
        add_element(value, found)?;
    }
    Ok(())
}

/// Adds the elements of a literal of that type, if they may stand in fields.
///
/// # Errors
///
/// Memory was refused.
pub fn add_fields_of<'a>(
    literal: Option<&Expr>,
    values: &'a [Expr],
    found: &mut Vec<Element<'a>>,
) -> Result<(), AllocError>
    ensures { OnOk result (AddsElements found.old.items found.new.items (fields_of (type_syntax literal.entry)
        (expressions_syntax values.now))) }
{
    if may_have_fields(literal) {
        return add_elements(values, found);
    }
    Ok(())
}

/// Those of `T{..}`.
fn add_literal_fields<'a>(value: &'a Expr, found: &mut Vec<Element<'a>>) -> Result<(), AllocError>
    ensures { OnOk result (AddsElements found.old.items found.new.items
        (literal_fields (expression_syntax value.now))) }
{
    match &value.kind {
        ExprKind::CompositeLit(kind, values) => add_fields_of(Some(kind), values, found),
        _ => Ok(()),
    }
}

/// Those of `T{..}` behind the operator, if it is `&`.
fn add_addressed_fields<'a>(
    operator: UnaryOperator,
    operand: &'a Expr,
    found: &mut Vec<Element<'a>>,
) -> Result<(), AllocError>
    ensures { OnOk result (AddsElements found.old.items found.new.items
        (addressed_fields operator (expression_syntax operand.now))) }
{
    match operator {
        UnaryOperator::Address => add_literal_fields(operand, found),
        _ => Ok(()),
    }
}

/// Those of `T{..}` and `&T{..}`.
fn add_fields_in<'a>(value: &'a Expr, found: &mut Vec<Element<'a>>) -> Result<(), AllocError>
    ensures { OnOk result (AddsElements found.old.items found.new.items
        (fields_in (expression_syntax value.now))) }
{
    match &value.kind {
        ExprKind::Unary(operator, operand) => add_addressed_fields(*operator, operand, found),
        _ => add_literal_fields(value, found),
    }
}

/// `x := ..` and `var x = ..`, with one name and no type.
fn declares_one(form: RowForm<'_>) -> bool
    ensures { result ≡ declares_one (form_view form.entry) }
{
    match form {
        RowForm::Defines(names) => names.len() == 1,
        RowForm::Declares(DeclKeyword::Var, names, kind) => names.len() == 1 && kind.is_none(),
        RowForm::Declares(_, _, _) => false,
        RowForm::Assigns(_) => false,
    }
}

fn add_only_fields<'a>(values: &'a [Expr], found: &mut Vec<Element<'a>>) -> Result<(), AllocError>
    ensures { OnOk result (AddsElements found.old.items found.new.items
        (some_fields (only_value_of (expressions_syntax values.now)))) }
{
    match only(values) {
        Some(value) => add_fields_in(value, found),
        None => Ok(()),
    }
}

fn add_declared_fields<'a>(
    form: RowForm<'_>,
    values: &'a [Expr],
    found: &mut Vec<Element<'a>>,
) -> Result<(), AllocError>
    ensures { OnOk result (AddsElements found.old.items found.new.items (declared_fields (form_view form.entry)
        (expressions_syntax values.now))) }
{
    if declares_one(form) {
        return add_only_fields(values, found);
    }
    Ok(())
}

/// The elements that stand in fields of the object that a left side declares, by `x := L` or `var x = L`.
///
/// # Errors
///
/// Memory was refused.
pub fn role_fields<'a>(alloc: Global, role: Role<'_, 'a>) -> Result<Vec<Element<'a>>, AllocError>
    ensures { IfOk result (λ found. map element_view found.items ≡ role_fields (role_view role.entry)) }
{
    let mut found: Vec<Element<'a>> = Vec::new(alloc);
    if let Role::Left(_, row) = role {
        add_declared_fields(row.form, row.values, &mut found)?;
    }
    Ok(found)
}
