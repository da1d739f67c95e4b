//! What a mark gives.

ghost use Rattle.std.specs.Prelude.{◌≡◌, OnOk, IfOk, map, ◌∷◌, []};
ghost use Rattle.facts.specs.FactViews.{item_view};
ghost use Rattle.tracked.specs.LocalViews.{seen_view, Sees};
ghost use Rattle.meaning.specs.Tracked.{result_locals, body_locals};
ghost use Rattle.meaning.specs.Uses.{field_faults, mention_faults, only_faults, variable_outcome, result_faults};
ghost use Rattle.meaning.specs.BodyEvents.{literal_events};
ghost use Rattle.mentions.specs.MarkViews.{body_view, field_mark_view, mention_view, moment_view, mark_view};
ghost use Rattle.tracked_rows.specs.EventViews.{events_view};
ghost use Rattle.tracked_rows.specs.RowViews.{known_view};
ghost use Rattle.uses.specs.OutcomeViews.{AddsFaults, Gives, plain_events, plain_faults};

use crate::at::At;
use crate::faults::{UseCode, UseFault, add_fault};
use crate::fields::add_field_faults;
use crate::givings::add_giving;
use crate::group_names::add_errgroup;
use crate::outcomes::variable_outcome;
use facts::{Item, TrackedType, item_type, parameter_items};
use mentions::{BodyPlace, FieldMark, Mark, Mention, Moment};
use std::alloc::{AllocError, Global};
use tracked::Seen;
use tracked_rows::{Event, Known};
use tree::{BLANK, Edition};

/// What a mention gives: faults, but for that of `recover`, and at most one event.
fn mention_outcome<'a>(
    alloc: Global,
    at: At<'_, '_, '_, 'a>,
    faults: &mut Vec<UseFault<'a>>,
) -> Result<Option<Event<'a>>, AllocError>
    requires { Sees at.seen.now }
    ensures { IfOk result (λ event. Gives faults.old.items faults.new.items event record {
      faults = mention_faults (seen_view at.entry.seen.now) (map body_view at.entry.bodies.now)
          (mention_view at.entry.mention.now);
      events = (variable_outcome (seen_view at.entry.seen.now) (map body_view at.entry.bodies.now)
          (mention_view at.entry.mention.now)).events;
    }) }
{
    let event = variable_outcome(alloc, at, faults)?;
    add_giving(alloc, at, faults)?;
    add_errgroup(alloc, at.seen, at.mention, faults)?;
    Ok(event)
}

/// A named result that is a cancel function.
fn add_result<'a>(
    known: Known<'_, 'a>,
    body: BodyPlace<'a>,
    item: &Item<'a>,
    faults: &mut Vec<UseFault<'a>>,
) -> Result<(), AllocError>
    ensures { OnOk result (AddsFaults faults.old.items faults.new.items (result_faults (result_locals
        (known_view known.entry) (body_view body.entry) (item_view item.now ∷ [])))) }
{
    match (item.name, item_type(known.names, known.file, item)) {
        (Some(name), Some(TrackedType::Cancel(_))) => {
            if name.text.as_str() == BLANK {
                return Ok(());
            }
            add_fault(
                faults,
                name.span.start,
                UseCode::BoundAgain,
                name.text.as_str(),
            )
        }
        _ => Ok(()),
    }
}

fn add_results<'a>(
    known: Known<'_, 'a>,
    body: BodyPlace<'a>,
    items: &[Item<'a>],
    faults: &mut Vec<UseFault<'a>>,
) -> Result<(), AllocError>
    ensures { OnOk result (AddsFaults faults.old.items faults.new.items (result_faults (result_locals
        (known_view known.entry) (body_view body.entry) (map item_view items.now)))) }
{
    for item in items {
        add_result(known, body, item, faults)?;
    }
    Ok(())
}

fn add_body<'a>(
    alloc: Global,
    known: Known<'_, 'a>,
    body: BodyPlace<'a>,
    faults: &mut Vec<UseFault<'a>>,
) -> Result<(), AllocError>
    ensures { OnOk result (AddsFaults faults.old.items faults.new.items (result_faults (body_locals
        (known_view known.entry) (body_view body.entry)))) }
{
    let items = parameter_items(alloc, &body.signature.results)?;
    add_results(known, body, &items, faults)
}

/// The same of a mention in these bodies.
fn outcome_there<'m, 'a>(
    alloc: Global,
    seen: &Seen<'_, 'm, 'a>,
    bodies: &[BodyPlace<'a>],
    mention: &Mention<'m, 'a>,
    faults: &mut Vec<UseFault<'a>>,
) -> Result<Option<Event<'a>>, AllocError>
    requires { Sees seen.now }
    ensures { IfOk result (λ event. Gives faults.old.items faults.new.items event record {
      faults = mention_faults (seen_view seen.now) (map body_view bodies.now) (mention_view mention.now);
      events = (variable_outcome (seen_view seen.now) (map body_view bodies.now) (mention_view mention.now)).events;
    }) }
{
    let at = At {
        seen,
        bodies,
        mention,
    };
    mention_outcome(alloc, at, faults)
}

/// What a mark of fields gives: faults alone.
fn field_outcome<'a>(
    seen: &Seen<'_, '_, 'a>,
    mark: FieldMark<'_, 'a>,
    faults: &mut Vec<UseFault<'a>>,
) -> Result<Option<Event<'a>>, AllocError>
    requires { Sees seen.now }
    ensures { IfOk result (λ event. Gives faults.old.items faults.new.items event (only_faults
        (field_faults (seen_view seen.now) (field_mark_view mark.entry)))) }
{
    add_field_faults(seen, mark, faults)?;
    Ok(None)
}

/// What the mark gives that opens a body: faults alone.
fn body_outcome<'a>(
    alloc: Global,
    known: Known<'_, 'a>,
    body: BodyPlace<'a>,
    faults: &mut Vec<UseFault<'a>>,
) -> Result<Option<Event<'a>>, AllocError>
    ensures { IfOk result (λ event. Gives faults.old.items faults.new.items event (only_faults
        (result_faults (body_locals (known_view known.entry) (body_view body.entry))))) }
{
    add_body(alloc, known, body, faults)?;
    Ok(None)
}

/// What a literal does that a statement calls: in the first edition one under `go` sees to nothing.
fn literal_event<'a>(edition: Edition, moment: Moment, literal: u32) -> Option<Event<'a>>
    ensures { events_view result ≡ literal_events edition (moment_view moment) literal }
{
    match moment {
        Moment::AtReturn => Some(Event::DeferLiteral { literal }),
        Moment::InGoroutine => match edition {
            Edition::First => None,
            Edition::Second => Some(Event::GoLiteral { literal }),
        },
    }
}

/// What a mark in these bodies gives: faults, which are added, and at most one event. Those of `recover` and `goto` are
/// not among them, since they go by the variables of bodies. Neither are the calls of `lost_at`, what
/// functions under `go` get, what is done to objects, and returns, which go by what is kept in fields.
///
/// # Errors
///
/// Memory was refused.
pub fn mark_outcome<'m, 'a>(
    alloc: Global,
    seen: &Seen<'_, 'm, 'a>,
    bodies: &[BodyPlace<'a>],
    mark: &Mark<'m, 'a>,
    faults: &mut Vec<UseFault<'a>>,
) -> Result<Option<Event<'a>>, AllocError>
    requires { Sees seen.now }
    ensures { IfOk result (λ event. Gives faults.old.items faults.new.items event record {
      faults = plain_faults (seen_view seen.now) (map body_view bodies.now) (mark_view mark.now);
      events = plain_events (seen_view seen.now) (map body_view bodies.now) (mark_view mark.now);
    }) }
{
    match mark {
        Mark::Mentions(mention) => outcome_there(alloc, seen, bodies, mention, faults),
        Mark::OfFields(_, mark) => field_outcome(seen, **mark, faults),
        Mark::RunsLiteral(moment, _, at) => Ok(literal_event(seen.known.edition, *moment, *at)),
        Mark::Returns(_, _) => Ok(None),
        Mark::Opens(body) => body_outcome(alloc, seen.known, **body, faults),
        Mark::Closes => Ok(None),
    }
}
