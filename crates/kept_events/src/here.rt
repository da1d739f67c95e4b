//! A mark, where it stands, in a file of which it is known what is kept.

ghost use Rattle.std.specs.Prelude.{◌≡◌, OnOk, map};
ghost use Rattle.kept.specs.KeptViews.{keep_view};
ghost use Rattle.kept_events.specs.KeptEventViews.{AddsEvents, KnowsHere};
ghost use Rattle.meaning.specs.Kept.{kept_there};
ghost use Rattle.mentions.specs.MarkViews.{body_view};
ghost use Rattle.tracked.specs.LocalViews.{seen_view};
ghost use Rattle.tracked_rows.specs.EventViews.{events_view};

use kept::{Around, Keep, Kept};
use std::alloc::AllocError;
use tracked_rows::Event;

/// A mark in a file in which some field keeps.
#[derive(Clone, Copy)]
pub struct Here<'s, 'k, 'm, 'a> {
    pub around: Around<'s, 'k, 'm, 'a>,
    pub kept: &'s Kept<'a>,
}

/// What the body keeps in the object of that number.
pub fn kept_there<'s, 'a>(here: Here<'s, '_, '_, 'a>, object: Option<u32>) -> &'s [Keep<'a>]
    requires { KnowsHere here }
    ensures { map keep_view result.now ≡ kept_there (seen_view here.entry.around.seen.now)
        (map body_view here.entry.around.bodies.now) object }
{
    here.kept
        .there(here.around.seen, here.around.bodies, object)
}

/// Adds an event, if there is one.
///
/// # Errors
///
/// Memory was refused.
pub fn add_event<'a>(
    event: Option<Event<'a>>,
    events: &mut Vec<Event<'a>>,
) -> Result<(), AllocError>
    ensures { OnOk result (AddsEvents events.old.items events.new.items (events_view event.entry)) }
{
    if let Some(event) = event {
        events.push(event)?;
    }
    Ok(())
}
