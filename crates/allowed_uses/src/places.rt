//! Where a call stands as a whole, and what it takes.

ghost use Rattle.std.specs.Prelude.{◌≡◌};
ghost use Rattle.meaning.specs.Uses.{is_value_place, is_statement_place, is_item_place, is_deferred_place, is_under_go, is_statement_or_value, is_call_place, is_empty, has_no_argument, takes};
ghost use Rattle.meaning.specs.BodyEvents.{item_variable};
ghost use Rattle.meaning.specs.Mentions.{as_bare};
ghost use Rattle.facts.specs.FactViews.{tracked_type_view};
ghost use Rattle.mentions.specs.MarkViews.{place_view, call_view};
ghost use Rattle.tracked_rows.specs.RowViews.{known_view};
ghost use Rattle.tree.specs.View.{expression_syntax, expressions_syntax};

use facts::TrackedType;
use mentions::{Call, CallPlace, as_bare};
use tracked_rows::{Known, facts_of, is_binding_form, local_meant};
use tree::Expr;

/// `:=`, `=` and `var` have a value that stands as a whole; `const` has none.
pub fn is_value_place(place: CallPlace<'_, '_>) -> bool
    ensures { result ≡ is_value_place (place_view place.entry) }
{
    match place {
        CallPlace::OnlyValue(row) => is_binding_form(row.form),
        _ => false,
    }
}

/// A call that is a statement.
pub fn is_statement_place(place: CallPlace<'_, '_>) -> bool
    ensures { result ≡ is_statement_place (place_view place.entry) }
{
    match place {
        CallPlace::Statement => true,
        _ => false,
    }
}

/// A call that is an item of a return list.
pub fn is_item_place(place: CallPlace<'_, '_>) -> bool
    ensures { result ≡ is_item_place (place_view place.entry) }
{
    match place {
        CallPlace::ReturnItem(_) => true,
        _ => false,
    }
}

/// A call after `defer`.
pub fn is_deferred_place(place: CallPlace<'_, '_>) -> bool
    ensures { result ≡ is_deferred_place (place_view place.entry) }
{
    match place {
        CallPlace::Deferred => true,
        _ => false,
    }
}

/// A call after `go`.
pub fn is_under_go(place: CallPlace<'_, '_>) -> bool
    ensures { result ≡ is_under_go (place_view place.entry) }
{
    match place {
        CallPlace::UnderGo => true,
        _ => false,
    }
}

/// A statement, or an only value.
pub fn is_statement_or_value(place: CallPlace<'_, '_>) -> bool
    ensures { result ≡ is_statement_or_value (place_view place.entry) }
{
    is_statement_place(place) || is_value_place(place)
}

/// A statement, an only value, or an item of a return list.
pub fn is_call_place(place: CallPlace<'_, '_>) -> bool
    ensures { result ≡ is_call_place (place_view place.entry) }
{
    is_statement_or_value(place) || is_item_place(place)
}

fn is_empty(values: &[Expr]) -> bool
    ensures { result ≡ is_empty (expressions_syntax values.now) }
{
    values.is_empty()
}

/// `()`.
pub fn has_no_argument(call: Call<'_, '_>) -> bool
    ensures { result ≡ has_no_argument (call_view call.entry) }
{
    is_empty(call.arguments) && !call.has_ellipsis
}

/// The variable that an argument, or an item of a return, names.
pub fn item_variable(known: Known<'_, '_>, value: &Expr) -> Option<u32>
    ensures { result ≡ item_variable (known_view known.entry) (as_bare (expression_syntax value.now)) }
{
    match as_bare(value) {
        Some(named) => local_meant(known, named.at, None),
        None => None,
    }
}

/// Whether the function takes what is of that type at that position.
pub fn takes(known: Known<'_, '_>, call: Call<'_, '_>, typed: TrackedType, position: usize) -> bool
    ensures { result ≡ takes (known_view known.entry) (call_view call.entry)
        (tracked_type_view typed) position }
{
    match facts_of(known, call.callee) {
        Some(facts) => facts.takes(typed, position),
        None => false,
    }
}
