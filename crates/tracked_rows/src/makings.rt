//! What a row obtains, makes or clears, by its form.

ghost use Rattle.std.specs.Prelude.{◌≡◌, ◌&&◌, ◌||◌, ◌==◌, if◌then◌else◌, Some, None, option_map, map, length, is_some};
ghost use Rattle.facts.specs.FactViews.{cancel_result_view};
ghost use Rattle.meaning.specs.FunctionFacts.{listed};
ghost use Rattle.meaning.specs.Tracked.{lefts_of, is_given, local_at, is_outer_at, are_locals, row_obtains, may_bind, row_makes, idle, is_group_type, is_new_call, made_by_call, made_by_value, made_by_type, made_by_pair, made_by_form, live, if_first};
ghost use Rattle.meaning.specs.Uses.{row_clears, is_no_giving, clears_at, clears_by_form, clears_by_type, is_empty_value};
ghost use Rattle.mentions.specs.MarkViews.{named_view, call_view, row_view};
ghost use Rattle.tracked_rows.specs.RowViews.{known_view, state_view, made_by_only, makes_with_context, clears_by_only};
ghost use Rattle.tree.specs.Syntax.{missing_expression, present_expression};
ghost use Rattle.tree.specs.View.{expression_syntax, expressions_syntax};

use crate::calls::{call_in, giving_of, only, only_call, row_giving};
use crate::known::{Known, is_named, is_of_universe};
use crate::lefts::{count, is_outer_at, local_at, may_bind};
use facts::{CancelResult, cancel_type_named};
use mentions::{Call, Named, Row, RowForm, as_bare, as_named, as_new_literal};
use names::ERRGROUP;
use tree::{DeclKeyword, Edition, Expr, ExprKind};

/// The state in which a group is made.
#[derive(Clone, Copy, PartialEq, Eq)]
pub enum GroupState {
    Idle,
    Live,
}

/// Whether the result of that number is given.
pub fn is_given(number: usize, gives: &[CancelResult]) -> bool
    ensures { result ≡ is_given number (map cancel_result_view gives.now) }
{
    for given in gives {
        if given.position == number {
            return true;
        }
    }
    false
}

/// Whether a local stands on the left side of that number, or a field of an outer object that keeps.
fn is_known_at(known: Known<'_, '_>, row: Row<'_>, index: usize) -> bool
    ensures { result ≡ (is_some (local_at (known_view known.entry) (row_view row.entry) index)
        || is_outer_at (known_view known.entry) (row_view row.entry) index) }
{
    local_at(known, row, index).is_some() || is_outer_at(known, row, index)
}

/// Whether a local stands on each of these left sides, or a field of an outer object that keeps.
pub fn are_locals(known: Known<'_, '_>, row: Row<'_>, gives: &[CancelResult]) -> bool
    ensures { result ≡ are_locals (known_view known.entry) (row_view row.entry) (map cancel_result_view gives.now) }
{
    for given in gives {
        if !is_known_at(known, row, given.position) {
            return false;
        }
    }
    true
}

/// Whether the row obtains what stands on its left side of that number, by its form: a local stands at each position
/// that is given.
pub fn row_obtains(known: Known<'_, '_>, row: Row<'_>, index: usize) -> bool
    ensures { result ≡ row_obtains (known_view known.entry) (row_view row.entry) index }
{
    match row_giving(known, row) {
        Some(giving) => { is_given(index, giving.gives) && are_locals(known, row, giving.gives) }
        None => false,
    }
}

fn is_group_type(known: Known<'_, '_>, named: Option<Named<'_>>) -> bool
    ensures { result ≡ is_group_type (known_view known.entry) (option_map named_view named.entry) }
{
    match named {
        Some(named) => is_named(known, ERRGROUP, "Group", named),
        None => false,
    }
}

/// `new(errgroup.Group)`, with the universe's `new`.
fn is_new_call(known: Known<'_, '_>, call: Call<'_, '_>) -> bool
    ensures { result ≡ is_new_call (known_view known.entry) (call_view call.entry).callee
        (call_view call.entry).arguments (call_view call.entry).has_ellipsis }
{
    match only(call.arguments) {
        Some(argument) => {
            !call.has_ellipsis
                && is_of_universe(known, "new", call.callee)
                && is_group_type(known, as_named(argument))
        }
        None => false,
    }
}

/// What a call makes that is the value of so many left sides.
fn made_by_call(
    known: Known<'_, '_>,
    count: usize,
    call: Option<Call<'_, '_>>,
) -> Option<GroupState>
    ensures { option_map state_view result ≡ made_by_call (known_view known.entry) count
        (option_map call_view call.entry) }
{
    let call = call?;
    if is_named(known, ERRGROUP, "WithContext", call.callee) {
        return if count == 2 {
            Some(GroupState::Live)
        } else {
            None
        };
    }
    if is_new_call(known, call) && count == 1 {
        Some(GroupState::Idle)
    } else {
        None
    }
}

/// What a literal `&T{}` makes that is the value of so many left sides.
fn made_by_literal(
    known: Known<'_, '_>,
    count: usize,
    named: Option<Named<'_>>,
) -> Option<GroupState>
    ensures { option_map state_view result ≡ if is_group_type (known_view known.entry)
        (option_map named_view named.entry) && (count == 1) then Some idle else None }
{
    if is_group_type(known, named) && count == 1 {
        Some(GroupState::Idle)
    } else {
        None
    }
}

/// What is made by the only value of a row, which the first of its left sides gets.
fn made_by_value<'a>(known: Known<'_, '_>, row: Row<'a>, value: &'a Expr) -> Option<GroupState>
    ensures { option_map state_view result ≡ made_by_value (known_view known.entry) (row_view row.entry)
        (length (lefts_of (row_view row.entry).form)) (expression_syntax value.now) }
{
    match &value.kind {
        ExprKind::Unary(operator, operand) => {
            made_by_literal(known, count(row.form), as_new_literal(*operator, operand))
        }
        _ => made_by_call(known, count(row.form), call_in(&row, value)),
    }
}

/// What names are by their type, where they have no values.
fn made_by_type(known: Known<'_, '_>, kind: &Expr, values: &[Expr]) -> Option<GroupState>
    ensures { option_map state_view result ≡ made_by_type (known_view known.entry)
        (present_expression (expression_syntax kind.now)) (expressions_syntax values.now) }
{
    if !values.is_empty() {
        return None;
    }
    if is_group_type(known, as_named(kind)) {
        Some(GroupState::Idle)
    } else {
        None
    }
}

/// What `var g, x = errgroup.WithContext(..)` makes, in the second edition alone.
fn made_by_pair(known: Known<'_, '_>, row: Row<'_>, index: usize) -> Option<GroupState>
    ensures { option_map state_view result ≡ if_first index (made_by_pair known.entry.edition (known_view known.entry)
        (row_view row.entry) (length (lefts_of (row_view row.entry).form)) missing_expression) }
{
    match known.edition {
        Edition::First => None,
        Edition::Second => {
            if index == 0 && count(row.form) == 2 {
                made_with_context(known, only_call(&row))
            } else {
                None
            }
        }
    }
}

/// What `errgroup.WithContext(..)` makes for the first of two left sides.
fn made_with_context(known: Known<'_, '_>, call: Option<Call<'_, '_>>) -> Option<GroupState>
    ensures { option_map state_view result ≡ if makes_with_context (known_view known.entry)
        (option_map call_view call.entry) then Some live else None }
{
    let call = call?;
    if is_named(known, ERRGROUP, "WithContext", call.callee) {
        Some(GroupState::Live)
    } else {
        None
    }
}

/// What a row that may bind makes on its left side of that number, by its form.
fn made_by_form(known: Known<'_, '_>, row: Row<'_>, index: usize) -> Option<GroupState>
    ensures { option_map state_view result ≡ if may_bind (row_view row.entry).standing (row_view row.entry).form
        then made_by_form (known_view known.entry) (row_view row.entry) index (row_view row.entry).form else None }
{
    if !may_bind(row) {
        return None;
    }
    match row.form {
        RowForm::Declares(_, _, Some(kind)) => made_by_type(known, kind, row.values),
        RowForm::Declares(_, _, None) => made_by_pair(known, row, index),
        RowForm::Defines(_) => made_first(known, row, index),
        RowForm::Assigns(_) => made_first(known, row, index),
    }
}

/// What the row makes on its left side of that number, by its form, where a local stands there.
pub fn row_makes(known: Known<'_, '_>, row: Row<'_>, index: usize) -> Option<GroupState>
    ensures { option_map state_view result ≡ row_makes (known_view known.entry) (row_view row.entry) index }
{
    // Few rows make something: what stands there is asked last, since that is looked up.
    let made = made_by_form(known, row, index)?;
    if local_at(known, row, index).is_some() {
        Some(made)
    } else {
        None
    }
}

fn made_first(known: Known<'_, '_>, row: Row<'_>, index: usize) -> Option<GroupState>
    ensures { option_map state_view result ≡ if_first index
        (made_by_only (known_view known.entry) (row_view row.entry)) }
{
    if index != 0 {
        return None;
    }
    match only(row.values) {
        Some(value) => made_by_value(known, row, value),
        None => None,
    }
}

/// A function literal, or the universe's `nil`.
fn is_empty_value(known: Known<'_, '_>, value: &Expr) -> bool
    ensures { result ≡ is_empty_value (known_view known.entry) (expression_syntax value.now) }
{
    match &value.kind {
        ExprKind::FuncLit(_) => true,
        _ => match as_bare(value) {
            Some(named) => is_of_universe(known, "nil", named),
            None => false,
        },
    }
}

/// Whether names are of a type of cancel functions, where they have no values.
fn clears_by_type(known: Known<'_, '_>, kind: &Expr, values: &[Expr]) -> bool
    ensures { result ≡ clears_by_type (known_view known.entry)
        (present_expression (expression_syntax kind.now)) (expressions_syntax values.now) }
{
    if !values.is_empty() {
        return false;
    }
    cancel_type_named(known.names, known.file, as_named(kind)).is_some()
}

/// Whether the value is there, and no call of a maker or a giver.
fn is_no_giving(known: Known<'_, '_>, row: Row<'_>, value: Option<&Expr>) -> bool
    ensures { result ≡ is_no_giving (known_view known.entry) (row_view row.entry)
        (option_map (λ e. expression_syntax e.now) value.entry) }
{
    match value {
        Some(value) => match call_in(&row, value) {
            Some(call) => giving_of(known, call.callee).is_none(),
            None => true,
        },
        None => false,
    }
}

/// Whether the values clear what stands on the left side of that number: there are none, or one for all left sides, or
/// one for each, and the value is no call of a maker or a giver.
fn clears_at(known: Known<'_, '_>, row: Row<'_>, index: usize) -> bool
    ensures { result ≡ clears_at (known_view known.entry) (row_view row.entry) index
        (listed (row_view row.entry).values) }
{
    if row.values.is_empty() {
        return true;
    }
    if row.values.len() == 1 {
        return is_no_giving(known, row, row.values.get(0));
    }
    row.values.len() == count(row.form) && is_no_giving(known, row, row.values.get(index))
}

/// Whether the row clears its only name, by its type or an empty value.
fn clears_by_form(known: Known<'_, '_>, row: Row<'_>) -> bool
    ensures { result ≡ clears_by_form (known_view known.entry) (row_view row.entry) (row_view row.entry).form }
{
    match row.form {
        RowForm::Declares(DeclKeyword::Var, _, Some(kind)) => {
            clears_by_type(known, kind, row.values)
        }
        RowForm::Declares(_, _, _) => false,
        RowForm::Defines(_) => clears_first(known, row),
        RowForm::Assigns(_) => clears_first(known, row),
    }
}

/// Whether the row may clear what stands on its left side of that number, if it is a cancel variable.
pub fn row_clears(known: Known<'_, '_>, row: Row<'_>, index: usize) -> bool
    ensures { result ≡ row_clears (known_view known.entry) (row_view row.entry) index }
{
    if !may_bind(row) {
        return false;
    }
    match known.edition {
        Edition::First => clears_by_form(known, row),
        Edition::Second => clears_at(known, row, index),
    }
}

fn clears_first(known: Known<'_, '_>, row: Row<'_>) -> bool
    ensures { result ≡ clears_by_only (known_view known.entry) (row_view row.entry) }
{
    match only(row.values) {
        Some(value) => count(row.form) == 1 && is_empty_value(known, value),
        None => false,
    }
}
