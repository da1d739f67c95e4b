//! Objects that are made anew, and what they keep.

ghost use Rattle.std.specs.Prelude.{◌≡◌, OnOk, map, option_map};
ghost use Rattle.kept.specs.KeptViews.{keep_view};
ghost use Rattle.kept_events.specs.KeptEventViews.{kept_event, kept_events, AddsEvents, KnowsHere};
ghost use Rattle.meaning.specs.Kept.{declared_at_name, declared_events, keep_event, keep_events, kept_there, renew_all};
ghost use Rattle.meaning.specs.Tracked.{declared_by};
ghost use Rattle.mentions.specs.MarkViews.{body_view, mark_view, mention_view};
ghost use Rattle.tracked.specs.LocalViews.{object_kind_view, seen_view};
ghost use Rattle.tracked_rows.specs.RowViews.{known_view};
ghost use Rattle.tracked_rows.specs.EventViews.{events_view};

use crate::here::{Here, add_event, kept_there};
use kept::{Keep, keeps_there};
use mentions::{Mark, Mention};
use objects::object_in;
use std::alloc::{AllocError, Global};
use tracked::{ObjectKind, declared_by};
use tracked_rows::{Event, Known};

fn renew_all<'a>(keeps: &[Keep<'_>], events: &mut Vec<Event<'a>>) -> Result<(), AllocError>
    ensures { OnOk result (AddsEvents events.old.items events.new.items (renew_all (map keep_view keeps.now))) }
{
    for keep in keeps {
        events.push(Event::Renew {
            variable: keep.variable,
            object: keep.object,
        })?;
    }
    Ok(())
}

/// Adds that the object of that number is made anew.
///
/// # Errors
///
/// Memory was refused.
pub fn add_renewal<'a>(
    here: Here<'_, '_, '_, 'a>,
    object: Option<u32>,
    events: &mut Vec<Event<'a>>,
) -> Result<(), AllocError>
    requires { KnowsHere here }
    ensures { OnOk result (AddsEvents events.old.items events.new.items (renew_all (kept_there
        (seen_view here.entry.around.seen.now) (map body_view here.entry.around.bodies.now) object))) }
{
    renew_all(kept_there(here, object), events)
}

/// What it does that something is kept in an object of that kind.
fn keep_event<'a>(kind: Option<ObjectKind>, keep: Keep<'_>) -> Option<Event<'a>>
    ensures { events_view result ≡ keep_event (option_map object_kind_view kind) (keep_view keep.entry) }
{
    let Keep {
        variable,
        object,
        ..
    } = keep;
    match kind {
        Some(ObjectKind::New) => Some(Event::Keep { variable, object }),
        Some(ObjectKind::Outer) => Some(Event::GiveField { variable }),
        None => None,
    }
}

/// Adds that something is kept, if it belongs together.
///
/// # Errors
///
/// Memory was refused.
pub fn add_kept<'a>(
    alloc: Global,
    here: Here<'_, '_, '_, 'a>,
    keep: &Keep<'a>,
    events: &mut Vec<Event<'a>>,
) -> Result<(), AllocError>
    requires { KnowsHere here }
    ensures { OnOk result (AddsEvents events.old.items events.new.items (kept_event
        (seen_view here.entry.around.seen.now) (map body_view here.entry.around.bodies.now)
        (keep_view keep.now))) }
{
    if !here.kept.belongs(*keep) {
        return Ok(());
    }
    let around = here.around;
    let kind = object_in(alloc, around.seen, around.bodies, Some(keep.object))?;
    add_event(keep_event(kind, *keep), events)
}

fn add_all_kept<'a>(
    alloc: Global,
    here: Here<'_, '_, '_, 'a>,
    keeps: &[Keep<'a>],
    events: &mut Vec<Event<'a>>,
) -> Result<(), AllocError>
    requires { KnowsHere here }
    ensures { OnOk result (AddsEvents events.old.items events.new.items (kept_events
        (seen_view here.entry.around.seen.now) (map body_view here.entry.around.bodies.now)
        (map keep_view keeps.now))) }
{
    for keep in keeps {
        add_kept(alloc, here, keep, events)?;
    }
    Ok(())
}

/// Adds what a mark keeps that belongs together.
fn add_keeps<'a>(
    alloc: Global,
    here: Here<'_, '_, '_, 'a>,
    mark: Mark<'_, 'a>,
    events: &mut Vec<Event<'a>>,
) -> Result<(), AllocError>
    requires { KnowsHere here }
    ensures { OnOk result (AddsEvents events.old.items events.new.items (keep_events
        (seen_view here.entry.around.seen.now) (map body_view here.entry.around.bodies.now)
        (mark_view mark.entry))) }
{
    let keeps = keeps_there(alloc, here.around, mark)?;
    add_all_kept(alloc, here, &keeps, events)
}

/// The object that a mention declares where its name stands.
fn declared_at_name(known: Known<'_, '_>, mention: Mention<'_, '_>) -> Option<u32>
    ensures { result ≡ declared_at_name (mention_view mention.entry).named.at (declared_by (known_view known.entry)
        (mention_view mention.entry)) }
{
    match declared_by(known, mention) {
        Some(number) => {
            if number == mention.named.at {
                Some(number)
            } else {
                None
            }
        }
        None => None,
    }
}

/// Adds what a mention does that may declare an object: it is made anew, and keeps what its literal has.
///
/// # Errors
///
/// Memory was refused.
pub fn add_declared<'a>(
    alloc: Global,
    here: Here<'_, '_, '_, 'a>,
    mention: Mention<'_, 'a>,
    events: &mut Vec<Event<'a>>,
) -> Result<(), AllocError>
    requires { KnowsHere here }
    ensures { OnOk result (AddsEvents events.old.items events.new.items (declared_events
        (seen_view here.entry.around.seen.now) (map body_view here.entry.around.bodies.now)
        (mention_view mention.entry))) }
{
    let object = declared_at_name(here.around.seen.known, mention);
    add_renewal(here, object, events)?;
    add_keeps(alloc, here, Mark::Mentions(mention), events)
}
