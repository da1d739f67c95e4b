//! What is kept by an assignment to a field.

ghost use Rattle.std.specs.Prelude.{◌≡◌, None, map, option_map};
ghost use Rattle.kept.specs.KeptViews.{assigns_one, listed_keep, put_in, put_there, stored_keeps_by};
ghost use Rattle.meaning.specs.Kept.{only_value_of, some_bare, stored_keeps, stored_name};
ghost use Rattle.mentions.specs.MarkViews.{assigned_view, body_view, field_left_view, form_view, named_view, row_view};
ghost use Rattle.tracked.specs.LocalViews.{seen_view, Sees};
ghost use Rattle.tree.specs.View.{expressions_syntax};

use crate::own::{own_cancel, owned};
use crate::row::{Keep, kept_in};
use mentions::mark::{Assigned, FieldLeft};
use mentions::{BodyPlace, Named, Row, RowForm, as_bare};
use objects::{local_named, unaddressed};
use tracked::Seen;
use tracked_rows::{ObjectLeft, has_field, object_left, only};
use tree::Expr;

/// The only value, if it is a name.
fn only_name(values: &[Expr]) -> Option<Named<'_>>
    ensures { option_map named_view result ≡ some_bare (only_value_of (expressions_syntax values.now)) }
{
    match only(values) {
        Some(value) => as_bare(value),
        None => None,
    }
}

/// `.. = ..`, with one left side.
fn assigns_one(form: RowForm<'_>) -> bool
    ensures { result ≡ assigns_one (form_view form.entry) }
{
    match form {
        RowForm::Assigns(left) => left.len() == 1,
        _ => false,
    }
}

/// c of `x.f = c`.
fn stored_name<'a>(row: Row<'a>) -> Option<Named<'a>>
    ensures { option_map named_view result ≡ stored_name (row_view row.entry).form (row_view row.entry).values }
{
    if assigns_one(row.form) {
        only_name(row.values)
    } else {
        None
    }
}

/// What is kept there of that variable, whatever the field is.
fn put_in<'a>(
    seen: &Seen<'_, '_, 'a>,
    left: FieldLeft<'a>,
    variable: Option<u32>,
) -> Option<Keep<'a>>
    ensures { listed_keep result ≡ put_in (seen_view seen.now) (field_left_view left.entry) variable }
{
    let named = local_named(seen.known, left.object);
    let object = unaddressed(seen.known, &seen.marks, named);
    kept_in(variable, object, left.field.text.as_str())
}

/// The same of the variable that the row has as its value, if there is one: only then the marks are asked.
fn put_there<'a>(
    seen: &Seen<'_, '_, 'a>,
    bodies: &[BodyPlace<'_>],
    left: FieldLeft<'a>,
    row: Row<'_>,
) -> Option<Keep<'a>>
    requires { Sees seen.now }
    ensures { listed_keep result ≡ put_there (seen_view seen.now) (map body_view bodies.now)
        (field_left_view left.entry) (row_view row.entry) }
{
    let variable = own_cancel(seen, bodies, stored_name(row));
    match variable {
        Some(_) => put_in(seen, left, variable),
        None => None,
    }
}

/// What a row keeps in a field that stands for no variable of its own.
fn stored_there<'a>(
    seen: &Seen<'_, '_, 'a>,
    bodies: &[BodyPlace<'_>],
    left: FieldLeft<'a>,
    row: Row<'_>,
) -> Option<Keep<'a>>
    requires { Sees seen.now }
    ensures { listed_keep result ≡ stored_keeps (seen_view seen.now) (map body_view bodies.now)
        (field_left_view left.entry) (row_view row.entry) None }
{
    if !left.has_brackets && has_field(seen.known.fields, left.field.text.as_str()) {
        return put_there(seen, bodies, left, row);
    }
    None
}

/// What a row keeps in a field that is its left side.
fn stored_by_row<'a>(
    seen: &Seen<'_, '_, 'a>,
    bodies: &[BodyPlace<'_>],
    left: FieldLeft<'a>,
    row: Row<'_>,
) -> Option<Keep<'a>>
    requires { Sees seen.now }
    ensures { listed_keep result ≡ stored_keeps (seen_view seen.now) (map body_view bodies.now)
        (field_left_view left.entry) (row_view row.entry)
        ((seen_view seen.now).known.object_lefts (field_left_view left.entry).field.span.start) }
{
    match object_left(seen.known, left.field.span.start) {
        Some(ObjectLeft::New { object, number }) => {
            let variable = owned(seen, bodies, Some(number));
            kept_in(variable, Some(object), left.field.text.as_str())
        }
        Some(ObjectLeft::Outer) => None,
        None => stored_there(seen, bodies, left, row),
    }
}

/// What an assignment to a field keeps there, whatever the object is.
pub fn stored<'a>(
    seen: &Seen<'_, '_, 'a>,
    bodies: &[BodyPlace<'_>],
    left: FieldLeft<'a>,
    assigned: Option<Assigned<'_, 'a>>,
) -> Option<Keep<'a>>
    requires { Sees seen.now }
    ensures { listed_keep result ≡ stored_keeps_by (seen_view seen.now) (map body_view bodies.now)
        (field_left_view left.entry) (option_map assigned_view assigned.entry) }
{
    match assigned {
        Some(assigned) => stored_by_row(seen, bodies, left, *assigned.row),
        None => None,
    }
}
