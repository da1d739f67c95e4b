//! What a mark adds to what is told of the bodies of its file.

ghost use Rattle.std.specs.Prelude.{◌≡◌, ◌++◌, ℕ, OnOk, map};
ghost use Rattle.tracked_rows.specs.EventViews.{event_view};
ghost use Rattle.events.specs.ToldViews.{AddsMark, AddsFaultsOf, AddsInner, AddsSiteEvent, AddsEvent, AddsSite, AddsPanic, TellsNothing, is_at};
ghost use Rattle.kept_events.specs.KeptEventViews.{kept_part, KnowsFile};
ghost use Rattle.meaning.specs.BodyEvents.{opened_by};
ghost use Rattle.events.specs.VariableViews.{KnowsBodies};
ghost use Rattle.tracked.specs.LocalViews.{seen_view, Sees};
ghost use Rattle.meaning.specs.BodyEvents.{is_panic, is_site};
ghost use Rattle.meaning.specs.Uses.{call, is_body};
ghost use Rattle.mentions.specs.MarkViews.{body_view, mark_view, mention_view, role_view};
ghost use Rattle.tracked_rows.specs.RowViews.{known_view};
ghost use Rattle.uses.specs.OutcomeViews.{fault_view, AddsFaults, error_calls, sent_part};
ghost use Rattle.tracked_rows.specs.EventViews.{events_view};

use crate::bound::add_bound;
use crate::by_variables::{SeenBodies, add_by_variables};
use kept_events::{FileKept, add_mark_events, add_names};
use lists::Lists;
use mentions::{BodyPlace, CallPlace, Mark, Mention, Role};
use std::alloc::{AllocError, Global};
use tracked::Seen;
use tracked_rows::{Event, Known, is_of_universe};
use tree::Edition;
use uses::{UseFault, lost_at, mark_outcome, sent_at};

/// An event, and the offset of its statement, spec, header or clause.
#[derive(Drop)]
pub struct SiteEvent<'a> {
    pub site: u32,
    pub event: Event<'a>,
}

/// What is told of the bodies of a file.
#[derive(Drop)]
pub struct Told<'a> {
    /// The edition by which its file is judged.
    pub edition: Edition,
    /// The use faults of what stands in no body.
    pub outer: Vec<UseFault<'a>>,
    /// Those of what stands in the body at an offset, and in no literal in it.
    pub faults: Lists<UseFault<'a>>,
    pub events: Lists<SiteEvent<'a>>,
    /// The sites of calls of the universe's `panic` as statements.
    pub panics: Lists<u32>,
    /// In the second edition the numbers of the locals to which the body at an offset, or a literal in it, may give
    /// another value; one may come more than once.
    pub bound: Lists<u32>,
    /// The fields in which the file keeps what it obtained, or gives it to others; a name may come more than once.
    pub keeping: Vec<&'a str>,
    /// The bodies: while marks are gone over in their order, and in the end in the order of their places.
    pub opened: Vec<BodyPlace<'a>>,
}

impl<'a> Told<'a> {
    /// Nothing yet of a file that is judged by that edition.
    pub fn new(alloc: Global, edition: Edition) -> Self
        ensures { TellsNothing edition result }
    {
        Told {
            edition,
            outer: Vec::new(alloc),
            faults: Lists::new(alloc),
            events: Lists::new(alloc),
            panics: Lists::new(alloc),
            bound: Lists::new(alloc),
            keeping: Vec::new(alloc),
            opened: Vec::new(alloc),
        }
    }
}

/// Adds faults to those of the innermost body, or to those of what stands in none.
fn add_faults<'a>(
    alloc: Global,
    bodies: &[BodyPlace<'a>],
    fresh: &[UseFault<'a>],
    outer: &mut Vec<UseFault<'a>>,
    faults: &mut Lists<UseFault<'a>>,
) -> Result<(), AllocError>
    ensures { OnOk result (AddsFaultsOf (map body_view bodies.now) (map fault_view fresh.now) outer.old.items
        outer.new.items faults.old faults.new) }
{
    match bodies.first() {
        Some(body) => add_inner_faults(alloc, body.at, fresh, faults),
        None => add_outer_faults(fresh, outer),
    }
}

fn add_inner_faults<'a>(
    alloc: Global,
    body: u32,
    fresh: &[UseFault<'a>],
    faults: &mut Lists<UseFault<'a>>,
) -> Result<(), AllocError>
    ensures { OnOk result (AddsInner body (map fault_view fresh.now) faults.old faults.new) }
{
    for fault in fresh {
        faults.add(alloc, body, *fault)?;
    }
    Ok(())
}

fn add_outer_faults<'a>(
    fresh: &[UseFault<'a>],
    outer: &mut Vec<UseFault<'a>>,
) -> Result<(), AllocError>
    ensures { OnOk result (AddsFaults outer.old.items outer.new.items (map fault_view fresh.now)) }
{
    for fault in fresh {
        outer.push(*fault)?;
    }
    Ok(())
}

/// The site of a mark.
fn site_of(mark: &Mark<'_, '_>) -> Option<u32>
    ensures { (at : ℕ) → is_at result at ≡ is_site (mark_view mark.now) at }
{
    match *mark {
        Mark::Mentions(mention) => Some(mention.site),
        Mark::OfFields(site, _) => Some(site),
        Mark::RunsLiteral(_, site, _) => Some(site),
        Mark::Returns(site, _) => Some(site),
        _ => None,
    }
}

/// The innermost body, by its offset.
fn innermost(bodies: &[BodyPlace<'_>]) -> Option<u32>
    ensures { (body : ℕ) → is_at result body ≡ is_body body (map body_view bodies.now) }
{
    let innermost = bodies.first();
    match innermost {
        Some(body) => Some(body.at),
        None => None,
    }
}

/// Adds an event at a site to those of the body.
fn add_site_event<'a>(
    alloc: Global,
    body: u32,
    site: u32,
    event: Event<'a>,
    events: &mut Lists<SiteEvent<'a>>,
) -> Result<(), AllocError>
    ensures { OnOk result (AddsSiteEvent body site (event_view event.entry) events.old events.new) }
{
    events.add(alloc, body, SiteEvent { site, event })
}

/// Adds the event of a mark to those of the innermost body.
fn add_event<'a>(
    alloc: Global,
    bodies: &[BodyPlace<'a>],
    mark: &Mark<'_, 'a>,
    event: Option<Event<'a>>,
    events: &mut Lists<SiteEvent<'a>>,
) -> Result<(), AllocError>
    ensures { OnOk result (AddsEvent (map body_view bodies.now) (mark_view mark.now) (events_view event.entry)
        events.old events.new) }
{
    match (innermost(bodies), site_of(mark), event) {
        (Some(body), Some(site), Some(event)) => add_site_event(alloc, body, site, event, events),
        _ => Ok(()),
    }
}

/// Adds calls of these variables, at the site of a mark, to the events of the innermost body.
fn add_calls<'a>(
    alloc: Global,
    bodies: &[BodyPlace<'a>],
    mark: &Mark<'_, 'a>,
    variables: &[u32],
    events: &mut Lists<SiteEvent<'a>>,
) -> Result<(), AllocError>
    ensures { OnOk result (AddsEvent (map body_view bodies.now) (mark_view mark.now) (map call variables.now)
        events.old events.new) }
{
    for variable in variables {
        let event = Event::Call {
            variable: *variable,
        };
        add_event(alloc, bodies, mark, Some(event), events)?;
    }
    Ok(())
}

/// Adds the calls that a mark gives behind a row with an error.
fn add_error_calls<'m, 'a>(
    alloc: Global,
    seen: &Seen<'_, 'm, 'a>,
    bodies: &[BodyPlace<'a>],
    mark: &Mark<'m, 'a>,
    events: &mut Lists<SiteEvent<'a>>,
) -> Result<(), AllocError>
    requires { Sees seen.now }
    ensures { OnOk result (AddsEvent (map body_view bodies.now) (mark_view mark.now) (error_calls
        (seen_view seen.now) (mark_view mark.now)) events.old events.new) }
{
    let variables = lost_at(alloc, seen, mark)?;
    add_calls(alloc, bodies, mark, &variables, events)
}

/// Adds these events, at the site of a mark, to those of the innermost body.
fn add_events<'a>(
    alloc: Global,
    bodies: &[BodyPlace<'a>],
    mark: &Mark<'_, 'a>,
    fresh: Vec<Event<'a>>,
    events: &mut Lists<SiteEvent<'a>>,
) -> Result<(), AllocError>
    ensures { OnOk result (AddsEvent (map body_view bodies.now) (mark_view mark.now)
        (map event_view fresh.entry.items) events.old events.new) }
{
    for event in fresh {
        add_event(alloc, bodies, mark, Some(event), events)?;
    }
    Ok(())
}

/// Adds the events of a mark that are about objects, or that of a return.
fn add_kept<'m, 'a>(
    alloc: Global,
    file: FileKept<'_, '_, 'm, 'a>,
    bodies: &[BodyPlace<'a>],
    mark: &Mark<'m, 'a>,
    events: &mut Lists<SiteEvent<'a>>,
) -> Result<(), AllocError>
    requires { KnowsFile file }
    ensures { OnOk result (AddsEvent (map body_view bodies.now) (mark_view mark.now) (kept_part
        (seen_view file.entry.seen.now) (map body_view bodies.now) (mark_view mark.now)) events.old events.new) }
{
    let mut fresh: Vec<Event<'a>> = Vec::new(alloc);
    add_mark_events(alloc, file, bodies, mark, &mut fresh)?;
    add_events(alloc, bodies, mark, fresh, events)
}

/// Adds what functions under `go` get at a mark.
fn add_sent<'m, 'a>(
    alloc: Global,
    seen: &Seen<'_, 'm, 'a>,
    bodies: &[BodyPlace<'a>],
    mark: &Mark<'m, 'a>,
    events: &mut Lists<SiteEvent<'a>>,
) -> Result<(), AllocError>
    requires { Sees seen.now }
    ensures { OnOk result (AddsEvent (map body_view bodies.now) (mark_view mark.now) (sent_part
        (seen_view seen.now) (map body_view bodies.now) (mark_view mark.now)) events.old events.new) }
{
    let event = sent_at(alloc, seen, bodies, mark)?;
    add_event(alloc, bodies, mark, event, events)
}

/// Whether it is a call of the universe's `panic` as a statement.
fn is_panic(known: Known<'_, '_>, mention: Mention<'_, '_>) -> bool
    ensures { result ≡ is_panic (known_view known.entry) (mention_view mention.entry)
        (role_view mention.entry.role) }
{
    match mention.role {
        Role::Called(call) => {
            is_of_universe(known, "panic", mention.named)
                && matches!(call.place, CallPlace::Statement)
        }
        _ => false,
    }
}

/// Adds a site to those of the body, if it panics.
fn add_site(
    alloc: Global,
    body: u32,
    site: u32,
    panics_there: bool,
    panics: &mut Lists<u32>,
) -> Result<(), AllocError>
    ensures { OnOk result (AddsSite body site panics_there panics.old panics.new) }
{
    if panics_there {
        panics.add(alloc, body, site)?;
    }
    Ok(())
}

/// Adds the site of a mark, if it panics.
fn add_panic<'a>(
    alloc: Global,
    known: &Known<'_, 'a>,
    bodies: &[BodyPlace<'a>],
    mark: &Mark<'_, 'a>,
    panics: &mut Lists<u32>,
) -> Result<(), AllocError>
    ensures { OnOk result (AddsPanic (known_view known.now) (map body_view bodies.now) (mark_view mark.now)
        panics.old panics.new) }
{
    match (innermost(bodies), *mark) {
        (Some(body), Mark::Mentions(mention)) => {
            add_site(alloc, body, mention.site, is_panic(*known, mention), panics)
        }
        _ => Ok(()),
    }
}

/// Adds the body that a mark opens.
fn add_opened<'a>(mark: &Mark<'_, 'a>, opened: &mut Vec<BodyPlace<'a>>) -> Result<(), AllocError>
    ensures { OnOk result (map body_view opened.new.items ≡ map body_view opened.old.items
        ++ opened_by (mark_view mark.now)) }
{
    if let Mark::Opens(body) = *mark {
        opened.push(*body)?;
    }
    Ok(())
}

/// Adds what a mark in these bodies gives.
///
/// # Errors
///
/// Memory was refused.
pub fn add_mark<'m, 'a>(
    alloc: Global,
    file: SeenBodies<'_, '_, 'm, 'a>,
    bodies: &[BodyPlace<'a>],
    mark: &Mark<'m, 'a>,
    told: &mut Told<'a>,
) -> Result<(), AllocError>
    requires { KnowsBodies file }
    ensures { OnOk result (AddsMark (seen_view file.entry.seen.now) (map body_view bodies.now) (mark_view mark.now)
        told.old told.new) }
{
    let kept = FileKept {
        seen: file.seen,
        kept: file.kept,
    };
    let mut fresh: Vec<UseFault<'a>> = Vec::new(alloc);
    let event = mark_outcome(alloc, file.seen, bodies, mark, &mut fresh)?;
    add_by_variables(alloc, file, bodies, mark, &mut fresh)?;
    add_faults(alloc, bodies, &fresh, &mut told.outer, &mut told.faults)?;
    add_event(alloc, bodies, mark, event, &mut told.events)?;
    add_error_calls(alloc, file.seen, bodies, mark, &mut told.events)?;
    add_kept(alloc, kept, bodies, mark, &mut told.events)?;
    add_sent(alloc, file.seen, bodies, mark, &mut told.events)?;
    add_names(alloc, kept, bodies, mark, &mut told.keeping)?;
    add_panic(alloc, &file.seen.known, bodies, mark, &mut told.panics)?;
    add_bound(alloc, file.seen, bodies, mark, &mut told.bound)?;
    add_opened(mark, &mut told.opened)
}
