//! What an assignment gives a field.

ghost use Rattle.std.specs.Prelude.{◌≡◌, codes, map, option_map};
ghost use Rattle.keeping.specs.PlainFiles.{is_nil_value};
ghost use Rattle.meaning.specs.FunctionFacts.{means_universe};
ghost use Rattle.meaning.specs.KeepingFields.{holds_after, is_by_giver, is_own_or_nil, may_keep, value_at};
ghost use Rattle.meaning.specs.Kept.{some_bare};
ghost use Rattle.meaning.specs.Mentions.{as_bare};
ghost use Rattle.mentions.specs.MarkViews.{assigned_view, body_view, named_view, row_view};
ghost use Rattle.tracked.specs.LocalViews.{seen_view, Sees};
ghost use Rattle.tracked_rows.specs.RowViews.{known_view};
ghost use Rattle.tree.specs.View.{expression_syntax};

use kept::own_cancel;
use mentions::{Assigned, BodyPlace, Named, Row, as_bare};
use names::NameMeaning;
use tracked::Seen;
use tracked_rows::{Known, count, giving_of, may_bind, meaning, only_call};
use tree::Expr;

/// What the row gives its left side of that number, where it has as many values as left sides.
pub fn value_at<'a>(row: Row<'a>, index: usize) -> Option<&'a Expr>
    ensures { option_map (λ e. expression_syntax e.now) result ≡ value_at (row_view row.entry) index }
{
    if row.values.len() == count(row.form) {
        row.values.get(index)
    } else {
        None
    }
}

/// Whether the row is by a maker or a giver.
fn is_by_giver(seen: &Seen<'_, '_, '_>, row: Row<'_>) -> bool
    ensures { result ≡ is_by_giver (seen_view seen.now) (row_view row.entry) }
{
    if !may_bind(row) {
        return false;
    }
    match only_call(&row) {
        Some(call) => giving_of(seen.known, call.callee).is_some(),
        None => false,
    }
}

/// Whether it is the universe's `nil`.
fn is_nil(known: Known<'_, '_>, value: &Expr) -> bool
    ensures { result ≡ means_universe (known_view known.entry).means (codes "nil")
        (as_bare (expression_syntax value.now)) }
{
    match as_bare(value) {
        Some(named) => {
            if named.name != "nil" {
                return false;
            }
            match meaning(known, named.at) {
                Some(NameMeaning::Universe) => true,
                _ => false,
            }
        }
        None => false,
    }
}

/// Whether it is there, and the universe's `nil`.
pub fn is_nil_value(known: Known<'_, '_>, value: Option<&Expr>) -> bool
    ensures { result ≡ is_nil_value (known_view known.entry) (option_map (λ e. expression_syntax e.now) value.entry) }
{
    match value {
        Some(value) => is_nil(known, value),
        None => false,
    }
}

/// The name that a bare value is.
pub fn bare(value: Option<&Expr>) -> Option<Named<'_>>
    ensures { option_map named_view result ≡ some_bare (option_map (λ e. expression_syntax e.now) value.entry) }
{
    match value {
        Some(value) => as_bare(value),
        None => None,
    }
}

/// Whether it is a cancel variable that the innermost of these bodies declares, and no parameter, or `nil`.
fn is_own_or_nil(seen: &Seen<'_, '_, '_>, bodies: &[BodyPlace<'_>], value: Option<&Expr>) -> bool
    requires { Sees seen.now }
    ensures { result ≡ is_own_or_nil (seen_view seen.now) (map body_view bodies.now)
        (option_map (λ e. expression_syntax e.now) value.entry) }
{
    match value {
        Some(value) => is_nil(seen.known, value)
            || own_cancel(seen, bodies, as_bare(value)).is_some(),
        None => false,
    }
}

/// Whether the assignment puts a cancel function into the field.
pub fn holds_after(
    seen: &Seen<'_, '_, '_>,
    bodies: &[BodyPlace<'_>],
    assigned: Option<Assigned<'_, '_>>,
) -> bool
    requires { Sees seen.now }
    ensures { result ≡ holds_after (seen_view seen.now) (map body_view bodies.now)
        (option_map assigned_view assigned.entry) }
{
    match assigned {
        Some(Assigned { left_side, row }) => is_by_giver(seen, *row)
            || own_cancel(seen, bodies, bare(value_at(*row, left_side))).is_some(),
        None => false,
    }
}

/// Whether the field may keep what it holds after the assignment.
pub fn may_keep(
    seen: &Seen<'_, '_, '_>,
    bodies: &[BodyPlace<'_>],
    assigned: Option<Assigned<'_, '_>>,
) -> bool
    requires { Sees seen.now }
    ensures { result ≡ may_keep (seen_view seen.now) (map body_view bodies.now)
        (option_map assigned_view assigned.entry) }
{
    match assigned {
        Some(Assigned { left_side, row }) => is_by_giver(seen, *row)
            || is_own_or_nil(seen, bodies, value_at(*row, left_side)),
        None => false,
    }
}
