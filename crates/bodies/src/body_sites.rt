//! What the sites of a body give.

ghost use Rattle.std.specs.Prelude.{IfOk, OnOk};
ghost use Rattle.bodies.specs.BodySites.{AddsEvents, AddsPanics, TellsSites};
ghost use Rattle.body_code.specs.SiteViews.{sites_view};

use crate::node::NodeEvent;
use body_code::Sites;
use events::{SiteEvent, Told};
use std::alloc::{AllocError, Global};

/// Adds each event to those of its site.
fn add_events<'e, 'a>(
    alloc: Global,
    events: &'e [SiteEvent<'a>],
    sites: &mut Sites<NodeEvent<'e, 'a>>,
) -> Result<(), AllocError>
    ensures { OnOk result (AddsEvents events.now (sites_view sites.old) (sites_view sites.new)) }
{
    for event in events {
        sites.add_event(alloc, event.site, NodeEvent::Does(&event.event))?;
    }
    Ok(())
}

/// Adds the sites that panic.
fn add_panics(panics: &[u32], sites: &mut Sites<NodeEvent<'_, '_>>) -> Result<(), AllocError>
    ensures { OnOk result (AddsPanics panics.now (sites_view sites.old) (sites_view sites.new)) }
{
    for site in panics {
        sites.add_panic(*site)?;
    }
    Ok(())
}

/// What the sites of the body at that byte offset give.
///
/// # Errors
///
/// Memory was refused.
pub fn sites_of<'e, 'a>(
    alloc: Global,
    told: &'e Told<'a>,
    body: u32,
) -> Result<Sites<NodeEvent<'e, 'a>>, AllocError>
    ensures { IfOk result (λ sites. TellsSites told.now body (sites_view sites)) }
{
    let mut sites = Sites::new(alloc, NodeEvent::Other, NodeEvent::FallsOff);
    add_events(alloc, told.events.at(body), &mut sites)?;
    add_panics(told.panics.at(body), &mut sites)?;
    Ok(sites)
}
