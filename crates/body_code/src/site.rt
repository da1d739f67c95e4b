//! The code of a site: its events, one after the other.

ghost use Rattle.std.specs.Prelude.{◌≡◌, ◌++◌, [], ◌∷◌, IfOk, OnOk};
ghost use Rattle.code.specs.CodeViews.{sequence, event_codes, way_view, Changes, IsCode};
ghost use Rattle.body_code.specs.SiteViews.{sites_view};
ghost use Rattle.meaning.specs.Code.{then_code, leave};
ghost use Rattle.meaning.specs.StatementCode.{stuck, or_other, in_order, site, branch, spec_events, declaration_code};
ghost use Rattle.tree.specs.Syntax.{no_spec};
ghost use Rattle.tree.specs.View.{specs_syntax, spec_and, declaration_syntax};

use crate::sites::Sites;
use code::parts::{Made, in_sequence, then};
use code::{Code, Occurrence, Way};
use std::alloc::{AllocError, Global};
use tree::{Decl, Spec};

/// Events of one offset, one after the other.
fn in_order<'a, E: Copy>(alloc: Global, sites: &Sites<E>, at: u32, events: &[E]) -> Made<'a, E>
    ensures { IsCode result (in_order (sites_view sites.now) at 0 events.now) }
{
    let mut codes = Vec::new(alloc);
    for (order, event) in events.iter().enumerate() {
        codes.push(Code::Does(Occurrence {
            at,
            order,
            event: *event,
        }))?;
    }
    Ok(in_sequence(codes))
}

/// One event at an offset.
fn alone<'a, E: Copy>(at: u32, event: E) -> Made<'a, E>
    ensures { IsCode result (sequence (event_codes at 0 (event ∷ []))) }
{
    Ok(Code::Alone(Occurrence {
        at,
        order: 0,
        event,
    }))
}

/// The events of a site, or the one that says nothing.
pub fn site<'a, E: Copy>(alloc: Global, sites: &Sites<E>, at: u32) -> Made<'a, E>
    ensures { IsCode result (site (sites_view sites.now) at) }
{
    let events = sites.events_at(at);
    if events.is_empty() {
        alone(at, sites.other())
    } else {
        in_order(alloc, sites, at, events)
    }
}

/// The code of a branch that begins at the brace at that offset: the brace's events, if there are any, and then what is
/// behind it. Without events the brace is no site.
pub fn branch_at<'a, E: Copy>(
    alloc: Global,
    sites: &Sites<E>,
    brace: u32,
    code: Made<'a, E>,
) -> Made<'a, E>
    ensures { Changes (branch (sites_view sites.now) brace) code.entry result }
{
    let events = sites.events_at(brace);
    if events.is_empty() {
        return code;
    }
    then(alloc, in_order(alloc, sites, brace, events), code)
}

/// The code of a statement after which nothing comes.
pub fn ending<'a, E: Copy>(alloc: Global, sites: &Sites<E>, at: u32) -> Made<'a, E>
    ensures { IsCode result (then_code (site (sites_view sites.now) at) stuck) }
{
    let events = site(alloc, sites, at);
    then(alloc, events, Ok(Code::Choice(Vec::new(alloc))))
}

/// The code of a statement that leaves.
pub fn leaving<'a, E: Copy>(alloc: Global, sites: &Sites<E>, at: u32, way: Way<'a>) -> Made<'a, E>
    ensures { IsCode result (then_code (site (sites_view sites.now) at) (leave (way_view way.entry))) }
{
    then(alloc, site(alloc, sites, at), Ok(Code::Leave(way)))
}

/// Adds the events of a site, or the one that says nothing.
fn add_site<E: Copy>(events: &mut Vec<E>, sites: &Sites<E>, at: u32) -> Result<(), AllocError>
    ensures { OnOk result (events.new.items ≡ events.old.items ++ or_other (sites_view sites.now)
        ((sites_view sites.now).events at)) }
{
    let fresh = sites.events_at(at);
    if fresh.is_empty() {
        events.push(sites.other())?;
    } else {
        events.extend_from_slice(fresh)?;
    }
    Ok(())
}

/// Adds the events of a spec.
fn add_spec<E: Copy>(events: &mut Vec<E>, sites: &Sites<E>, spec: &Spec) -> Result<(), AllocError>
    ensures { OnOk result (events.new.items ≡ events.old.items ++ spec_events (sites_view sites.now)
        (spec_and spec.now no_spec)) }
{
    match spec {
        Spec::Value(_, _, _, span) => add_site(events, sites, span.start),
        Spec::Type(_, _, _, _, span) => add_site(events, sites, span.start),
    }
}

/// The events of specs, one after the other.
fn spec_events<E: Copy>(
    alloc: Global,
    sites: &Sites<E>,
    specs: &[Spec],
) -> Result<Vec<E>, AllocError>
    ensures { IfOk result (λ events. events.items ≡ spec_events (sites_view sites.now) (specs_syntax specs.now)) }
{
    let mut events = Vec::new(alloc);
    for spec in specs {
        add_spec(&mut events, sites, spec)?;
    }
    Ok(events)
}

/// The events of a declaration stand where it begins.
pub fn declaration<'a, E: Copy>(alloc: Global, sites: &Sites<E>, declaration: &Decl) -> Made<'a, E>
    ensures { IsCode result (declaration_code (sites_view sites.now)
        (declaration_syntax declaration.now)) }
{
    let events = spec_events(alloc, sites, &declaration.specs)?;
    in_order(alloc, sites, declaration.span.start, &events)
}
