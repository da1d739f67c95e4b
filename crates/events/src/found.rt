//! The variables of each body.

ghost use Rattle.std.specs.Prelude.{◌≡◌, ℕ, IfOk, OnOk, Some, map, nat_eq, slice_get};
ghost use Rattle.facts.specs.FactViews.{kind_view};
ghost use Rattle.indexmap.specs.IndexMap.{get};
ghost use Rattle.tracked.specs.LocalViews.{seen_view, local_view, Sees};
ghost use Rattle.meaning.specs.BodyEvents.{variables_of, variable_found};
ghost use Rattle.meaning.specs.OuterBlocks.{has_any};
ghost use Rattle.meaning.specs.Uses.{found};
ghost use Rattle.events.specs.VariableViews.{variable_view, ordered_in, AddsVariables, AddsOwn, AddsCaptured, AddsLocal, captured_entry, sightings_of, AddsAsCaptured};

use crate::merged::{merged, sighting_in};
use crate::order::in_their_order;
use crate::sightings::{Sighting, sightings, tracked_local};
use crate::variable::{Variable, captured_variable, own_variable};
use facts::VariableKind;
use indexmap::IndexMap;
use lists::Lists;
use std::alloc::{AllocError, Global};
use tracked::{Local, Seen};

/// A local that is tracked, and what it holds.
#[derive(Clone, Copy)]
struct TrackedLocal<'a> {
    local: Local<'a>,
    kind: VariableKind,
}

/// The variables of each body of a file.
#[derive(Drop)]
pub struct Variables<'a> {
    /// Those of the body at an offset, by the order in which the marks of the file declare them.
    lists: Lists<Variable<'a>>,
}

/// Adds a local to the variables of the body that declares it.
fn add_own<'a>(
    alloc: Global,
    tracked: TrackedLocal<'a>,
    bodies: &IndexMap<u32, Sighting>,
    lists: &mut Lists<Variable<'a>>,
) -> Result<(), AllocError>
    ensures { OnOk result (AddsOwn (local_view tracked.entry.local) (kind_view tracked.entry.kind)
        (get nat_eq bodies.now tracked.entry.local.body) lists.old lists.new) }
{
    let TrackedLocal { local, kind } = tracked;
    let sighting = sighting_in(bodies, local.body);
    lists.add(alloc, local.body, own_variable(local, kind, sighting))
}

/// Adds a local to the variables of a body, if that captures it.
fn add_in_body<'a>(
    alloc: Global,
    tracked: TrackedLocal<'a>,
    body: u32,
    sighting: Sighting,
    lists: &mut Lists<Variable<'a>>,
) -> Result<(), AllocError>
    ensures { OnOk result (AddsAsCaptured (local_view tracked.entry.local) (kind_view tracked.entry.kind) body sighting
        lists.old lists.new) }
{
    let TrackedLocal { local, kind } = tracked;
    if sighting.is_captured && local.body != body {
        return lists.add(alloc, body, captured_variable(local, kind, sighting.first));
    }
    Ok(())
}

/// Adds a local to the variables of the body of the entry at that index, if that captures it.
fn add_entry<'a>(
    alloc: Global,
    tracked: TrackedLocal<'a>,
    bodies: &IndexMap<u32, Sighting>,
    index: usize,
    lists: &mut Lists<Variable<'a>>,
) -> Result<(), AllocError>
    ensures { OnOk result (AddsVariables lists.old lists.new (λ body. captured_entry
        (local_view tracked.entry.local) (kind_view tracked.entry.kind) body
        (slice_get bodies.now.entries index))) }
{
    match bodies.get_index(index) {
        Some((body, sighting)) => add_in_body(alloc, tracked, *body, *sighting, lists),
        None => Ok(()),
    }
}

/// Adds a local to the variables of each body that captures it.
fn add_captured<'a>(
    alloc: Global,
    tracked: TrackedLocal<'a>,
    bodies: &IndexMap<u32, Sighting>,
    lists: &mut Lists<Variable<'a>>,
) -> Result<(), AllocError>
    ensures { OnOk result (AddsCaptured (local_view tracked.entry.local) (kind_view tracked.entry.kind)
        bodies.now.entries lists.old lists.new) }
{
    for index in 0..bodies.len() {
        add_entry(alloc, tracked, bodies, index, lists)?;
    }
    Ok(())
}

/// Adds a local with these sightings to the variables of each body that it is one of.
fn add_local<'a>(
    alloc: Global,
    tracked: TrackedLocal<'a>,
    sightings: &[Sighting],
    lists: &mut Lists<Variable<'a>>,
) -> Result<(), AllocError>
    ensures { OnOk result (AddsLocal (local_view tracked.entry.local) (kind_view tracked.entry.kind) sightings.now
        lists.old lists.new) }
{
    let bodies = merged(alloc, sightings)?;
    add_own(alloc, tracked, &bodies, lists)?;
    add_captured(alloc, tracked, &bodies, lists)
}

/// Adds the local of that number, if it is tracked.
fn add_number<'a>(
    alloc: Global,
    seen: &Seen<'_, '_, 'a>,
    number: u32,
    sightings: &[Sighting],
    lists: &mut Lists<Variable<'a>>,
) -> Result<(), AllocError>
    requires { Sees seen.now }
    ensures { OnOk result (sightings.now ≡ sightings_of (seen_view seen.now) number (seen_view seen.now).marks
        → AddsVariables lists.old lists.new (λ body. variable_found (seen_view seen.now) body
        (found (seen_view seen.now) (Some number)))) }
{
    match (
        tracked_local(seen, Some(number)),
        seen.kind_of(Some(number)),
    ) {
        (Some(local), Some(kind)) => {
            add_local(alloc, TrackedLocal { local, kind }, sightings, lists)
        }
        _ => Ok(()),
    }
}

/// The variables of each body of a file that was looked at.
///
/// # Errors
///
/// Memory was refused.
pub fn find_variables<'a>(
    alloc: Global,
    seen: &Seen<'_, '_, 'a>,
) -> Result<Variables<'a>, AllocError>
    requires { Sees seen.now }
    ensures { IfOk result (λ found. (body : ℕ) → ordered_in found body ≡ variables_of (seen_view seen.now) body) }
{
    let sightings = sightings(alloc, seen)?;
    let mut lists = Lists::new(alloc);
    for number in seen.numbers() {
        add_number(alloc, seen, *number, sightings.at(*number), &mut lists)?;
    }
    Ok(Variables { lists })
}

impl<'a> Variables<'a> {
    /// Those of the body at that offset in their order: parameters first; then by the first occurrence.
    ///
    /// # Errors
    ///
    /// Memory was refused.
    pub fn of(&self, alloc: Global, body: u32) -> Result<Vec<Variable<'a>>, AllocError>
        ensures { IfOk result (λ sorted. map variable_view sorted.items ≡ ordered_in self.now body) }
    {
        in_their_order(alloc, self.lists.at(body))
    }

    /// Whether the body at that offset has any.
    pub fn has_any(&self, body: u32) -> bool
        ensures { result ≡ has_any (ordered_in self.now body) }
    {
        !self.lists.at(body).is_empty()
    }
}
