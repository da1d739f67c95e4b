//! Locals that may get another value by their addresses.

ghost use Rattle.std.specs.Prelude.{◌≡◌, List, [], map};
ghost use Rattle.std.specs.List.{list_any};
ghost use Rattle.meaning.specs.Mentions.{declares, defines, mentions};
ghost use Rattle.meaning.specs.Objects.{declares_value, is_address, is_literal, is_value, is_value_in, is_value_row, points_to, unaddressed};
ghost use Rattle.meaning.specs.Tracked.{is_variable, placed};
ghost use Rattle.mentions.specs.MarkViews.{form_view, mark_view, marks_view, mention_view, role_view};
ghost use Rattle.tracked_rows.specs.RowViews.{known_view};
ghost use Rattle.tree.specs.Syntax.{Identifier as MeantIdentifier, expression_and, missing_expression, no_expression, present_expression};
ghost use Rattle.tree.specs.View.{expression_syntax, expressions_syntax, identifier_syntax, optional_expression_syntax};
ghost use Rattle.tree.specs.declared.operator.DeclKeyword.TheVariants.{Var};

use crate::pointers::is_star;
use mentions::{Mark, Mention, Role, RowForm};
use tracked::{declared_by, variable_of};
use tracked_rows::{Known, only};
use tree::{DeclKeyword, Expr, ExprKind, Identifier};

/// `&n`.
fn is_address(role: Role<'_, '_>) -> bool
    ensures { result ≡ is_address (role_view role.entry) }
{
    match role {
        Role::PointedTo => true,
        Role::Argument(has_address, _, _) => has_address,
        _ => false,
    }
}

fn is_variable(variable: Option<u32>, number: u32) -> bool
    ensures { result ≡ is_variable variable number }
{
    match variable {
        Some(variable) => variable == number,
        None => false,
    }
}

/// Whether the mention takes the address of the local of that number. Its role is asked first, since few take one.
fn mention_points_to(known: Known<'_, '_>, number: u32, mention: Mention<'_, '_>) -> bool
    ensures { result ≡ points_to (known_view known.entry) number (mentions (mention_view mention.entry)) }
{
    if is_address(mention.role) {
        return is_variable(variable_of(known, mention), number);
    }
    false
}

/// Whether the mark is a mention that takes the address of the local of that number.
pub fn points_to(known: Known<'_, '_>, number: u32, mark: Mark<'_, '_>) -> bool
    ensures { result ≡ points_to (known_view known.entry) number (mark_view mark.entry) }
{
    match mark {
        Mark::Mentions(mention) => mention_points_to(known, number, mention),
        _ => false,
    }
}

/// The only value is a composite literal.
fn is_composite(value: &Expr) -> bool
    ensures { result ≡ is_literal (expression_and (expression_syntax value.now) no_expression) }
{
    match &value.kind {
        ExprKind::CompositeLit(_, _) => true,
        _ => false,
    }
}

/// One composite literal.
fn is_literal(values: &[Expr]) -> bool
    ensures { result ≡ is_literal (expressions_syntax values.now) }
{
    match only(values) {
        Some(value) => is_composite(value),
        None => false,
    }
}

/// One name gets one composite literal, by `:=` or by `var` without a type.
fn names_literal(names: &[Identifier], values: &[Expr]) -> bool
    ensures defined { result ≡ is_value_row (defines (map identifier_syntax names.now))
        (expressions_syntax values.now) }
    ensures declared { result ≡ is_value_row (declares Var (map identifier_syntax names.now) missing_expression)
        (expressions_syntax values.now) }
{
    if names.len() == 1 {
        is_literal(values)
    } else {
        false
    }
}

/// A type that isn't written with `*`, without values: so it is for any names.
fn has_value_type(kind: &Expr, values: &[Expr]) -> bool
    ensures { (names : List MeantIdentifier) → result ≡ is_value_row (declares Var names
        (present_expression (expression_syntax kind.now))) (expressions_syntax values.now) }
{
    if is_star(kind) {
        return false;
    }
    values.is_empty()
}

/// `var x = T{..}`, `var x T`.
fn is_value_spec(names: &[Identifier], kind: &Option<Box<Expr>>, values: &[Expr]) -> bool
    ensures { result ≡ is_value_row (declares Var (map identifier_syntax names.now)
        (optional_expression_syntax kind.now)) (expressions_syntax values.now) }
{
    match kind {
        Some(kind) => has_value_type(kind, values),
        None => names_literal(names, values),
    }
}

/// `x := T{..}`, `var x = T{..}`, `var x T`: x itself has the fields.
fn is_value_row(form: RowForm<'_>, values: &[Expr]) -> bool
    ensures { result ≡ is_value_row (form_view form.entry) (expressions_syntax values.now) }
{
    match form {
        RowForm::Defines(names) => names_literal(names, values),
        RowForm::Declares(DeclKeyword::Var, names, kind) => is_value_spec(names, kind, values),
        RowForm::Declares(_, _, _) => false,
        RowForm::Assigns(_) => false,
    }
}

fn is_value(role: Role<'_, '_>) -> bool
    ensures { result ≡ is_value (role_view role.entry) }
{
    match role {
        Role::Left(_, row) => is_value_row(row.form, row.values),
        _ => false,
    }
}

/// Whether the mention declares the local of that number as what itself has fields. Its role is asked first.
fn mention_declares_value(known: Known<'_, '_>, number: u32, mention: Mention<'_, '_>) -> bool
    ensures { result ≡ declares_value (known_view known.entry) number (mentions (mention_view mention.entry)) }
{
    if is_value(mention.role) {
        return is_variable(declared_by(known, mention), number);
    }
    false
}

fn declares_value(known: Known<'_, '_>, number: u32, mark: Mark<'_, '_>) -> bool
    ensures { result ≡ declares_value (known_view known.entry) number (mark_view mark.entry) }
{
    match mark {
        Mark::Mentions(mention) => mention_declares_value(known, number, mention),
        _ => false,
    }
}

/// Whether the local of that number itself has fields, by its declaration among these marks.
pub fn is_value_in(known: Known<'_, '_>, marks: &[Mark<'_, '_>], number: u32) -> bool
    ensures { result ≡ is_value_in (known_view known.entry) (placed [] (marks_view marks.now)) number }
{
    for mark in marks {
        if declares_value(known, number, *mark) {
            return true;
        }
    }
    false
}

fn is_pointed_to(known: Known<'_, '_>, marks: &[Mark<'_, '_>], number: u32) -> bool
    ensures { result ≡ list_any (λ p. points_to (known_view known.entry) number p.mark)
        (placed [] (marks_view marks.now)) }
{
    for mark in marks {
        if points_to(known, number, *mark) {
            return true;
        }
    }
    false
}

/// The local, unless it may get another value by its address.
pub fn unaddressed(known: Known<'_, '_>, marks: &[Mark<'_, '_>], number: Option<u32>) -> Option<u32>
    ensures { result ≡ unaddressed (known_view known.entry) (placed [] (marks_view marks.now)) number }
{
    let number = number?;
    if is_pointed_to(known, marks, number) && !is_value_in(known, marks, number) {
        None
    } else {
        Some(number)
    }
}
