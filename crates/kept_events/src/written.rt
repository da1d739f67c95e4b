//! Assignments to fields.

ghost use Rattle.std.specs.Prelude.{◌≡◌, ◌∷◌, [], ℕ, OnOk, Some, map};
ghost use Rattle.kept.specs.KeptViews.{keep_view, listed_keep};
ghost use Rattle.kept_events.specs.KeptEventViews.{obtained_all, written_all, AddsEvents, KnowsHere};
ghost use Rattle.meaning.specs.Kept.{field_events};
ghost use Rattle.meaning.specs.Mentions.{of_fields, writes_field};
ghost use Rattle.mentions.specs.MarkViews.{assigned_view, body_view, field_left_view};
ghost use Rattle.tracked.specs.LocalViews.{seen_view, Sees};
ghost use Rattle.tracked_rows.specs.EventViews.{events_view};

use crate::declared::add_kept;
use crate::here::{Here, add_event};
use kept::{Keep, stored_there};
use mentions::mark::{Assigned, FieldLeft};
use std::alloc::{AllocError, Global};
use tracked::{Seen, row_binds};
use tracked_rows::{Event, VariableAt, called_in, object_left, row_obtains};

/// A left side that is a field, and its row.
#[derive(Clone, Copy)]
struct Written<'m, 'a> {
    left: FieldLeft<'a>,
    assigned: Assigned<'m, 'a>,
}

/// What a row does that obtains into the field, if it binds what it obtains.
fn obtained<'a>(
    seen: &Seen<'_, '_, 'a>,
    written: Written<'_, 'a>,
    keep: Keep<'_>,
) -> Option<Event<'a>>
    requires { Sees seen.now }
    ensures { events_view result ≡ obtained_all (seen_view seen.now) (field_left_view written.entry.left)
        (assigned_view written.entry.assigned) (keep_view keep.entry ∷ []) }
{
    let Assigned { left_side, row } = written.assigned;
    if row_obtains(seen.known, *row, left_side) && row_binds(seen, *row) {
        return Some(Event::ObtainKept {
            variable: VariableAt {
                number: keep.variable,
                at: written.left.field.span.start,
            },
            source: called_in(seen.known, *row),
            result: left_side,
            object: keep.object,
        });
    }
    None
}

/// Adds what a row does that keeps this in a field.
fn add_keep<'a>(
    alloc: Global,
    here: Here<'_, '_, '_, 'a>,
    written: Written<'_, 'a>,
    keep: Keep<'a>,
    events: &mut Vec<Event<'a>>,
) -> Result<(), AllocError>
    requires { KnowsHere here }
    ensures { OnOk result (AddsEvents events.old.items events.new.items (written_all
        (seen_view here.entry.around.seen.now) (map body_view here.entry.around.bodies.now)
        (field_left_view written.entry.left) (assigned_view written.entry.assigned)
        ((seen_view here.entry.around.seen.now).known.object_lefts
        (field_left_view written.entry.left).field.span.start) (keep_view keep.entry ∷ []))) }
{
    let seen = here.around.seen;
    match object_left(seen.known, written.left.field.span.start) {
        Some(_) => add_event(obtained(seen, written, keep), events),
        None => add_kept(alloc, here, &keep, events),
    }
}

/// The same, if it keeps anything.
fn add_some_keep<'a>(
    alloc: Global,
    here: Here<'_, '_, '_, 'a>,
    written: Written<'_, 'a>,
    keep: Option<Keep<'a>>,
    events: &mut Vec<Event<'a>>,
) -> Result<(), AllocError>
    requires { KnowsHere here }
    ensures { OnOk result (AddsEvents events.old.items events.new.items (written_all
        (seen_view here.entry.around.seen.now) (map body_view here.entry.around.bodies.now)
        (field_left_view written.entry.left) (assigned_view written.entry.assigned)
        ((seen_view here.entry.around.seen.now).known.object_lefts
        (field_left_view written.entry.left).field.span.start) (listed_keep keep.entry))) }
{
    match keep {
        Some(keep) => add_keep(alloc, here, written, keep, events),
        None => Ok(()),
    }
}

/// Adds what an assignment to a field does.
///
/// # Errors
///
/// Memory was refused.
pub fn add_written<'a>(
    alloc: Global,
    here: Here<'_, '_, '_, 'a>,
    left: FieldLeft<'a>,
    assigned: Assigned<'_, 'a>,
    events: &mut Vec<Event<'a>>,
) -> Result<(), AllocError>
    requires { KnowsHere here }
    ensures { OnOk result ((site : ℕ) → AddsEvents events.old.items events.new.items (field_events
        (seen_view here.entry.around.seen.now) (map body_view here.entry.around.bodies.now)
        (of_fields site (writes_field (field_left_view left.entry) (Some (assigned_view assigned.entry))))
        (writes_field (field_left_view left.entry) (Some (assigned_view assigned.entry))))) }
{
    let keep = stored_there(alloc, here.around, left, Some(assigned))?;
    add_some_keep(alloc, here, Written { left, assigned }, keep, events)
}
