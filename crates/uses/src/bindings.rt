//! How rows bind what stands on their left sides.

ghost use Rattle.std.specs.Prelude.{◌≡◌, IfOk, option_map, Some};
ghost use Rattle.std.specs.List.{list_all};
ghost use Rattle.facts.specs.FactViews.{kind_view};
ghost use Rattle.tracked.specs.LocalViews.{seen_view, Sees};
ghost use Rattle.meaning.specs.Mentions.{is_none_left};
ghost use Rattle.meaning.specs.Tracked.{lefts_of, left_local};
ghost use Rattle.meaning.specs.Uses.{is_second_free, made_binding, binding_at, makes_group, is_group, is_group_or_none, are_groups, is_made};
ghost use Rattle.mentions.specs.MarkViews.{form_view, row_view};
ghost use Rattle.tracked_rows.specs.RowViews.{state_view};
ghost use Rattle.uses.specs.OutcomeViews.{binding_view};

use crate::tracked_names::has_tracked;
use facts::VariableKind;
use mentions::{Row, RowForm};
use std::alloc::{AllocError, Global};
use tracked::{Seen, is_cancel, kind_at, row_binds};
use tracked_rows::{GroupState, count, local_at, row_clears, row_makes, row_obtains};

/// How a row binds a left side.
#[derive(Clone, Copy)]
pub enum Binding {
    /// It obtains the result of that number.
    Obtained(usize),
    Cleared,
    Made(GroupState),
}

fn is_group(kind: Option<VariableKind>) -> bool
    ensures { result ≡ is_group (option_map kind_view kind) }
{
    match kind {
        Some(kind) => kind.is_group(),
        None => false,
    }
}

fn has_no_value(row: Row<'_>) -> bool
    ensures { result ≡ is_none_left (row_view row.entry).values }
{
    row.values.is_empty()
}

/// Whether x of `g, x := errgroup.WithContext(..)`, or of `var`, has no tracked name, in literals neither.
fn is_second_free(alloc: Global, seen: &Seen<'_, '_, '_>, row: Row<'_>) -> Result<bool, AllocError>
    requires { Sees seen.now }
    ensures { IfOk result (λ free. free ≡ is_second_free (seen_view seen.now) (row_view row.entry)
        (form_view row.entry.form)) }
{
    match row.form {
        RowForm::Defines(_) => Ok(!seen.is_tracked(local_at(seen.known, row, 1))),
        RowForm::Declares(_, _, _) => {
            Ok(has_no_value(row) || !seen.is_tracked(local_at(seen.known, row, 1)))
        }
        RowForm::Assigns(left) => match left.get(1) {
            Some(second) => {
                let has = has_tracked(alloc, seen, second)?;
                Ok(!has)
            }
            None => Ok(true),
        },
    }
}

fn is_group_or_none(seen: &Seen<'_, '_, '_>, number: Option<u32>) -> bool
    requires { Sees seen.now }
    ensures { result ≡ is_group_or_none (seen_view seen.now) number }
{
    match number {
        Some(number) => is_group(seen.kind_of(Some(number))),
        None => true,
    }
}

/// Whether all names of a declaration are groups, or `_`.
fn are_all_groups(seen: &Seen<'_, '_, '_>, row: Row<'_>) -> bool
    requires { Sees seen.now }
    ensures { result ≡ list_all (λ l. is_group_or_none (seen_view seen.now)
        (left_local (seen_view seen.now).known (Some l))) (lefts_of (form_view row.entry.form)) }
{
    for index in 0..count(row.form) {
        if !is_group_or_none(seen, local_at(seen.known, row, index)) {
            return false;
        }
    }
    true
}

/// All names of `var g, h errgroup.Group` are groups; of another row the first name is.
fn are_groups(seen: &Seen<'_, '_, '_>, row: Row<'_>) -> bool
    requires { Sees seen.now }
    ensures { result ≡ are_groups (seen_view seen.now) (row_view row.entry) (form_view row.entry.form) }
{
    match row.form {
        RowForm::Declares(_, _, _) => {
            if has_no_value(row) {
                are_all_groups(seen, row)
            } else {
                is_group(kind_at(seen, row, 0))
            }
        }
        _ => is_group(kind_at(seen, row, 0)),
    }
}

fn made_binding(
    alloc: Global,
    seen: &Seen<'_, '_, '_>,
    row: Row<'_>,
    state: Option<GroupState>,
) -> Result<Option<Binding>, AllocError>
    requires { Sees seen.now }
    ensures { IfOk result (λ binding. option_map binding_view binding ≡ made_binding (seen_view seen.now)
        (row_view row.entry) (option_map state_view state)) }
{
    let state = match state {
        Some(state) => state,
        None => return Ok(None),
    };
    if !are_groups(seen, row) {
        return Ok(None);
    }
    let is_free = is_second_free(alloc, seen, row)?;
    if is_free {
        Ok(Some(Binding::Made(state)))
    } else {
        Ok(None)
    }
}

/// How the row binds what stands on its left side of that number.
///
/// # Errors
///
/// Memory was refused.
pub fn binding_at(
    alloc: Global,
    seen: &Seen<'_, '_, '_>,
    row: Row<'_>,
    index: usize,
) -> Result<Option<Binding>, AllocError>
    requires { Sees seen.now }
    ensures { IfOk result (λ binding. option_map binding_view binding ≡ binding_at (seen_view seen.now)
        (row_view row.entry) index) }
{
    if row_obtains(seen.known, row, index) {
        return if row_binds(seen, row) {
            Ok(Some(Binding::Obtained(index)))
        } else {
            Ok(None)
        };
    }
    if row_clears(seen.known, row, index) && is_cancel(kind_at(seen, row, index)) {
        return Ok(Some(Binding::Cleared));
    }
    made_binding(alloc, seen, row, row_makes(seen.known, row, index))
}

fn is_made(binding: Option<Binding>) -> bool
    ensures { result ≡ is_made (option_map binding_view binding) }
{
    match binding {
        Some(Binding::Made(_)) => true,
        _ => false,
    }
}

/// Whether the row makes a group.
///
/// # Errors
///
/// Memory was refused.
pub fn makes_group(alloc: Global, seen: &Seen<'_, '_, '_>, row: Row<'_>) -> Result<bool, AllocError>
    requires { Sees seen.now }
    ensures { IfOk result (λ makes. makes ≡ makes_group (seen_view seen.now) (row_view row.entry)) }
{
    let mut index = count(row.form);
    while index > 0 {
        index -= 1;
        let binding = binding_at(alloc, seen, row, index)?;
        if is_made(binding) {
            return Ok(true);
        }
    }
    Ok(false)
}
