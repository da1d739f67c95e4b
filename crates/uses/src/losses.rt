//! What a row has not obtained where an error is not nil.

ghost use Rattle.std.specs.Prelude.{◌≡◌, ◌++◌, IfOk, OnOk, flat_map, length, map, option_map};
ghost use Rattle.std.specs.List.{filter, list_any};
ghost use Rattle.facts.specs.FactViews.{facts_view, unless_view};
ghost use Rattle.meaning.specs.Tracked.{is_variable, local_at, lefts_of, only_call};
ghost use Rattle.meaning.specs.Uses.{call, call_unless, has_hidden_left, is_left_of, is_obtained, lost_to, may_be_a_local, obtained_unless, stands_once, unless_in};
ghost use Rattle.mentions.specs.MarkViews.{form_view, mark_view, row_view};
ghost use Rattle.tracked.specs.LocalViews.{seen_view, Sees};
ghost use Rattle.tracked_rows.specs.RowViews.{known_view};
ghost use Rattle.tree.specs.View.{expression_syntax};
ghost use Rattle.uses.specs.OutcomeViews.{binding_view, error_calls, listed_number};

use crate::bindings::{Binding, binding_at};
use facts::{FunctionFacts, Unless};
use mentions::{Mark, Role, Row, RowForm};
use std::alloc::{AllocError, Global};
use tracked::{Seen, variable_of};
use tracked_rows::{Known, count, facts_of, local_at, means_universe, only_call};
use tree::{Expr, ExprKind};

fn unless_in(facts: Option<&FunctionFacts>) -> &[Unless]
    ensures { map unless_view result.now ≡ unless_in (option_map (λ f. facts_view f.now) facts.entry) }
{
    match facts {
        Some(facts) => &facts.unless,
        None => &[],
    }
}

/// What the function that is called as the only value of the row gives only where an error is nil.
fn call_unless<'k>(known: Known<'k, '_>, row: Row<'_>) -> &'k [Unless]
    ensures { map unless_view result.now ≡ call_unless (known_view known.entry) (only_call (row_view row.entry)
        (row_view row.entry).values) }
{
    match only_call(&row) {
        Some(call) => unless_in(facts_of(known, call.callee)),
        None => &[],
    }
}

fn is_obtained(binding: Option<Binding>) -> bool
    ensures { result ≡ is_obtained (option_map binding_view binding) }
{
    match binding {
        Some(Binding::Obtained(_)) => true,
        _ => false,
    }
}

/// Whether the local stands on the left side of that number.
fn is_left(known: Known<'_, '_>, row: Row<'_>, index: usize, number: u32) -> bool
    ensures { result ≡ is_variable (local_at (known_view known.entry) (row_view row.entry) index) number }
{
    match local_at(known, row, index) {
        Some(local) => local == number,
        None => false,
    }
}

/// On how many left sides the local stands.
fn times_left(known: Known<'_, '_>, row: Row<'_>, number: u32) -> usize
    ensures { result ≡ length (filter (is_left_of (known_view known.entry) number)
        (lefts_of (form_view row.entry.form))) }
{
    let mut times = 0;
    for index in 0..count(row.form) {
        if is_left(known, row, index, number) {
            times += 1;
        }
    }
    times
}

/// `*e`, or something in brackets: it may be a local by another name.
fn may_be_a_local(left: &Expr) -> bool
    ensures { result ≡ may_be_a_local (expression_syntax left.now) }
{
    match &left.kind {
        ExprKind::Star(_) => true,
        ExprKind::Paren(_) => true,
        _ => false,
    }
}

fn some_may_be_a_local(lefts: &[Expr]) -> bool
    ensures { result ≡ list_any may_be_a_local (map expression_syntax lefts.now) }
{
    for left in lefts {
        if may_be_a_local(left) {
            return true;
        }
    }
    false
}

/// Whether a left side of the row may be a local by another name.
fn has_hidden_left(row: Row<'_>) -> bool
    ensures { result ≡ has_hidden_left (form_view row.entry.form) }
{
    match row.form {
        RowForm::Assigns(lefts) => some_may_be_a_local(lefts),
        _ => false,
    }
}

/// Whether the local stands on the left side of that number, and nowhere else there, by another name neither.
fn stands_once(known: Known<'_, '_>, row: Row<'_>, index: usize, number: u32) -> bool
    ensures { result ≡ stands_once (known_view known.entry) (row_view row.entry) index number }
{
    is_left(known, row, index, number)
        && times_left(known, row, number) == 1
        && !has_hidden_left(row)
}

/// The variable that the row obtains from such a result, if that local is its error.
fn obtained_unless(
    alloc: Global,
    seen: &Seen<'_, '_, '_>,
    row: Row<'_>,
    error: u32,
    unless: Unless,
) -> Result<Option<u32>, AllocError>
    requires { Sees seen.now }
    ensures { IfOk result (λ lost. listed_number lost ≡ obtained_unless (seen_view seen.now) (row_view row.entry) error
        (unless_view unless)) }
{
    let binding = binding_at(alloc, seen, row, unless.given)?;
    if is_obtained(binding) && stands_once(seen.known, row, unless.error, error) {
        Ok(local_at(seen.known, row, unless.given))
    } else {
        Ok(None)
    }
}

fn add_number(number: Option<u32>, numbers: &mut Vec<u32>) -> Result<(), AllocError>
    ensures { OnOk result (numbers.new.items ≡ numbers.old.items ++ listed_number number) }
{
    if let Some(number) = number {
        numbers.push(number)?;
    }
    Ok(())
}

/// The variables that the row obtains from such results, each if that local is its error.
fn obtained_with(
    alloc: Global,
    seen: &Seen<'_, '_, '_>,
    row: Row<'_>,
    error: u32,
    results: &[Unless],
) -> Result<Vec<u32>, AllocError>
    requires { Sees seen.now }
    ensures { IfOk result (λ lost. lost.items ≡ flat_map (obtained_unless (seen_view seen.now) (row_view row.entry)
        error) (map unless_view results.now)) }
{
    let mut lost = Vec::new(alloc);
    for unless in results {
        let number = obtained_unless(alloc, seen, row, error, *unless)?;
        add_number(number, &mut lost)?;
    }
    Ok(lost)
}

/// The variables that the row has not obtained where that error is not nil.
fn lost_to(
    alloc: Global,
    seen: &Seen<'_, '_, '_>,
    row: Row<'_>,
    error: Option<u32>,
) -> Result<Vec<u32>, AllocError>
    requires { Sees seen.now }
    ensures { IfOk result (λ lost. lost.items ≡ lost_to (seen_view seen.now) (row_view row.entry) error) }
{
    match error {
        Some(error) => obtained_with(alloc, seen, row, error, call_unless(seen.known, row)),
        None => Ok(Vec::new(alloc)),
    }
}

/// The variables that are as good as called at a mark, since an error is not nil there, behind the row that was to
/// obtain them.
///
/// # Errors
///
/// Memory was refused.
pub fn lost_at(
    alloc: Global,
    seen: &Seen<'_, '_, '_>,
    mark: &Mark<'_, '_>,
) -> Result<Vec<u32>, AllocError>
    requires { Sees seen.now }
    ensures { IfOk result (λ lost. map call lost.items ≡ error_calls (seen_view seen.now) (mark_view mark.now)) }
{
    let mention = match *mark {
        Mark::Mentions(mention) => mention,
        _ => return Ok(Vec::new(alloc)),
    };
    match mention.role {
        Role::FoundError(nil, row) => {
            if means_universe(seen.known, nil) {
                lost_to(alloc, seen, *row, variable_of(seen.known, mention))
            } else {
                Ok(Vec::new(alloc))
            }
        }
        _ => Ok(Vec::new(alloc)),
    }
}
