//! Calls of fields: `x.f()` and `defer x.f()`.

ghost use Rattle.std.specs.Prelude.{◌≡◌, OnOk, Some, flat_map, map};
ghost use Rattle.kept.specs.KeptViews.{keep_view};
ghost use Rattle.kept_events.specs.KeptEventViews.{is_call_of, AddsEvents, KnowsHere};
ghost use Rattle.meaning.specs.Kept.{field_call, field_calls, has_arguments_of};
ghost use Rattle.meaning.specs.Uses.{found};
ghost use Rattle.mentions.specs.MarkViews.{body_view, call_view, mention_view};
ghost use Rattle.tracked.specs.LocalViews.{seen_view, Sees};
ghost use Rattle.tracked_rows.specs.EventViews.{events_view};

use crate::here::{Here, add_event, kept_there};
use allowed_uses::{has_its_arguments, is_deferred_place, is_statement_place};
use kept::Keep;
use mentions::{Call, Mention};
use std::alloc::AllocError;
use tracked::{Seen, variable_of};
use tracked_rows::Event;

/// Whether the call has the arguments of a call of that cancel variable.
fn has_arguments_of(seen: &Seen<'_, '_, '_>, variable: u32, call: Call<'_, '_>) -> bool
    requires { Sees seen.now }
    ensures { result ≡ has_arguments_of (seen_view seen.now) (found (seen_view seen.now) (Some variable))
        (call_view call.entry) }
{
    match seen.entry(Some(variable)) {
        Some(entry) => has_its_arguments(seen.cancel_type_of(entry.local), call),
        None => false,
    }
}

/// Whether it is a call of what is kept.
fn is_call_of(seen: &Seen<'_, '_, '_>, field: &str, call: Call<'_, '_>, keep: Keep<'_>) -> bool
    requires { Sees seen.now }
    ensures { result ≡ is_call_of (seen_view seen.now) field.now (call_view call.entry) (keep_view keep.entry) }
{
    keep.field == field && has_arguments_of(seen, keep.variable, call)
}

/// What the call of a field does to what is kept.
fn field_call<'a>(
    seen: &Seen<'_, '_, '_>,
    field: &str,
    call: Call<'_, '_>,
    keep: Keep<'_>,
) -> Option<Event<'a>>
    requires { Sees seen.now }
    ensures { events_view result ≡ field_call (seen_view seen.now) field.now (call_view call.entry)
        (keep_view keep.entry) }
{
    let Keep {
        variable,
        object,
        ..
    } = keep;
    if !is_call_of(seen, field, call, keep) {
        return None;
    }
    if is_statement_place(call.place) {
        return Some(Event::CallKept { variable, object });
    }
    if is_deferred_place(call.place) {
        return Some(Event::DeferKept { variable, object });
    }
    None
}

/// Adds what the call of a field does to all that is kept in the object.
fn add_field_calls<'a>(
    seen: &Seen<'_, '_, '_>,
    field: &str,
    call: Call<'_, '_>,
    keeps: &[Keep<'_>],
    events: &mut Vec<Event<'a>>,
) -> Result<(), AllocError>
    requires { Sees seen.now }
    ensures { OnOk result (AddsEvents events.old.items events.new.items (flat_map (field_call
        (seen_view seen.now) field.now (call_view call.entry)) (map keep_view keeps.now))) }
{
    for keep in keeps {
        add_event(field_call(seen, field, call, *keep), events)?;
    }
    Ok(())
}

/// Adds what the call does of which the mention is the callee.
///
/// # Errors
///
/// Memory was refused.
pub fn add_called<'a>(
    here: Here<'_, '_, '_, 'a>,
    mention: Mention<'_, 'a>,
    call: Call<'_, 'a>,
    events: &mut Vec<Event<'a>>,
) -> Result<(), AllocError>
    requires { KnowsHere here }
    ensures { OnOk result (AddsEvents events.old.items events.new.items (field_calls
        (seen_view here.entry.around.seen.now) (map body_view here.entry.around.bodies.now)
        (mention_view mention.entry) (mention_view mention.entry).named.selected (call_view call.entry))) }
{
    match mention.named.selected {
        Some(field) => {
            let seen = here.around.seen;
            let keeps = kept_there(here, variable_of(seen.known, mention));
            add_field_calls(seen, field, call, keeps, events)
        }
        None => Ok(()),
    }
}
