//! The left sides of a row.

ghost use Rattle.std.specs.Prelude.{◌≡◌, None, option_map, length, slice_get, map};
ghost use Rattle.meaning.specs.Tracked.{lefts_of, left_name, left_of_name, left_of_expression, local_at, own_variable, is_of_outer, is_outer_at, is_blank_at, is_binding_form, may_bind};
ghost use Rattle.mentions.specs.MarkViews.{form_view, named_view, row_view};
ghost use Rattle.tracked_rows.specs.RowViews.{known_view, left_view, object_left_view, field_of};
ghost use Rattle.tree.specs.View.{expression_syntax, identifier_syntax};

use crate::fields::ObjectLeft;
use crate::known::{Known, local_meant, object_left};
use mentions::{Named, Row, RowForm, Standing, as_bare};
use tree::{BLANK, DeclKeyword, Expr, ExprKind, Identifier};

/// A left side.
#[derive(Clone, Copy)]
pub enum Left<'a> {
    Blank,
    /// A name, with the number of the local that it declares, if it declares.
    Name(Named<'a>, Option<u32>),
    /// `n.f`, by the offset of f.
    Field(u32),
    Other,
}

/// The number of left sides.
pub fn count(form: RowForm<'_>) -> usize
    ensures { result ≡ length (lefts_of (form_view form.entry)) }
{
    match form {
        RowForm::Defines(names) => names.len(),
        RowForm::Assigns(left) => left.len(),
        RowForm::Declares(_, names, _) => names.len(),
    }
}

/// A name that is declared, or perhaps only assigned to by `:=`, as a left side.
fn left_of_name(name: &Identifier) -> Left<'_>
    ensures { left_view result ≡ left_of_name (identifier_syntax name.now) }
{
    if name.text.as_str() == BLANK {
        return Left::Blank;
    }
    let named = Named {
        name: name.text.as_str(),
        at: name.span.start,
        selected: None,
    };
    Left::Name(named, Some(name.span.start))
}

/// A name as a left side that declares nothing.
fn left_of_named(named: Named<'_>) -> Left<'_>
    ensures { left_view result ≡ left_name (named_view named.entry) None }
{
    if named.name == BLANK {
        Left::Blank
    } else {
        Left::Name(named, None)
    }
}

/// `e.f` as a left side.
fn left_of_field<'a>(operand: Option<Named<'a>>, field: &Identifier) -> Left<'a>
    ensures { left_view result ≡ field_of (option_map named_view operand.entry) (identifier_syntax field.now) }
{
    match operand {
        Some(_) => Left::Field(field.span.start),
        None => Left::Other,
    }
}

/// An expression as a left side.
fn left_of_expression(value: &Expr) -> Left<'_>
    ensures { left_view result ≡ left_of_expression (expression_syntax value.now) }
{
    match &value.kind {
        ExprKind::Name(text) => left_of_named(Named {
            name: text.as_str(),
            at: value.span.start,
            selected: None,
        }),
        ExprKind::Selector(operand, field) => left_of_field(as_bare(operand), field),
        _ => Left::Other,
    }
}

fn name_at(names: &[Identifier], index: usize) -> Option<Left<'_>>
    ensures { option_map left_view result ≡ slice_get (map left_of_name (map identifier_syntax names.now)) index }
{
    match names.get(index) {
        Some(name) => Some(left_of_name(name)),
        None => None,
    }
}

/// The left side of that number.
pub fn left_of(form: RowForm<'_>, index: usize) -> Option<Left<'_>>
    ensures { option_map left_view result ≡ slice_get (lefts_of (form_view form.entry)) index }
{
    match form {
        RowForm::Defines(names) => name_at(names, index),
        RowForm::Declares(_, names, _) => name_at(names, index),
        RowForm::Assigns(left) => match left.get(index) {
            Some(item) => Some(left_of_expression(item)),
            None => None,
        },
    }
}

/// The local on the left side of that number.
pub fn local_at(known: Known<'_, '_>, row: Row<'_>, index: usize) -> Option<u32>
    ensures { result ≡ local_at (known_view known.entry) (row_view row.entry) index }
{
    match left_of(row.form, index) {
        Some(Left::Name(named, declares)) => local_meant(known, named.at, declares),
        Some(Left::Field(at)) => own_variable(object_left(known, at)),
        _ => None,
    }
}

/// The variable that a field of a new object is.
pub fn own_variable(left: Option<ObjectLeft>) -> Option<u32>
    ensures { result ≡ own_variable (option_map object_left_view left) }
{
    match left {
        Some(ObjectLeft::New { number, .. }) => Some(number),
        _ => None,
    }
}

fn is_of_outer(left: Option<ObjectLeft>) -> bool
    ensures { result ≡ is_of_outer (option_map object_left_view left) }
{
    match left {
        Some(ObjectLeft::Outer) => true,
        _ => false,
    }
}

/// Whether an outer object stands on the left side of that number, with a field that keeps.
pub fn is_outer_at(known: Known<'_, '_>, row: Row<'_>, index: usize) -> bool
    ensures { result ≡ is_outer_at (known_view known.entry) (row_view row.entry) index }
{
    match left_of(row.form, index) {
        Some(Left::Field(at)) => is_of_outer(object_left(known, at)),
        _ => false,
    }
}

/// Whether `_` is the left side of that number.
pub fn is_blank_at(row: Row<'_>, index: usize) -> bool
    ensures { result ≡ is_blank_at (row_view row.entry) index }
{
    match left_of(row.form, index) {
        Some(Left::Blank) => true,
        _ => false,
    }
}

/// `:=`, `=` and `var`.
pub fn is_binding_form(form: RowForm<'_>) -> bool
    ensures { result ≡ is_binding_form (form_view form.entry) }
{
    match form {
        RowForm::Defines(_) => true,
        RowForm::Assigns(_) => true,
        RowForm::Declares(DeclKeyword::Var, _, _) => true,
        RowForm::Declares(_, _, _) => false,
    }
}

/// The same, but for what a `select` waits for.
pub fn may_bind(row: Row<'_>) -> bool
    ensures { result ≡ may_bind (row_view row.entry).standing (row_view row.entry).form }
{
    match row.standing {
        Standing::Communication => false,
        _ => is_binding_form(row.form),
    }
}
