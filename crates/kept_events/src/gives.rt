//! What is given to others.

ghost use Rattle.std.specs.Prelude.{OnOk, flat_map, map};
ghost use Rattle.kept.specs.KeptViews.{keep_view};
ghost use Rattle.kept_forms.specs.FormViews.{gift_view};
ghost use Rattle.kept_events.specs.KeptEventViews.{AddsEvents, KnowsHere};
ghost use Rattle.meaning.specs.Kept.{gift_events, gifts, give_all, given_field};
ghost use Rattle.mentions.specs.MarkViews.{body_view};
ghost use Rattle.tracked.specs.LocalViews.{seen_view};
ghost use Rattle.tree.specs.Syntax.{missing_expression};
ghost use Rattle.tree.specs.View.{expression_syntax};

use crate::here::{Here, kept_there};
use kept::{Keep, carried};
use kept_forms::{Gift, gifts};
use objects::local_named;
use std::alloc::{AllocError, Global};
use tracked_rows::Event;
use tree::Expr;

/// Adds that all this is given.
///
/// # Errors
///
/// Memory was refused.
pub fn give_all<'a>(keeps: &[Keep<'_>], events: &mut Vec<Event<'a>>) -> Result<(), AllocError>
    ensures { OnOk result (AddsEvents events.old.items events.new.items (give_all (map keep_view keeps.now))) }
{
    for keep in keeps {
        events.push(Event::Give {
            variable: keep.variable,
            object: keep.object,
        })?;
    }
    Ok(())
}

fn give_field<'a>(variable: Option<u32>, events: &mut Vec<Event<'a>>) -> Result<(), AllocError>
    ensures { OnOk result (AddsEvents events.old.items events.new.items (given_field variable)) }
{
    if let Some(variable) = variable {
        events.push(Event::GiveField { variable })?;
    }
    Ok(())
}

/// Adds what a gift gives: what is kept in the object that it names, or what it carries.
fn add_gift<'a>(
    here: Here<'_, '_, '_, 'a>,
    gift: Gift<'a>,
    events: &mut Vec<Event<'a>>,
) -> Result<(), AllocError>
    requires { KnowsHere here }
    ensures { OnOk result (AddsEvents events.old.items events.new.items (gift_events
        (seen_view here.entry.around.seen.now) (map body_view here.entry.around.bodies.now)
        (gift_view gift.entry))) }
{
    let around = here.around;
    match gift {
        Gift::Named(named) => {
            let object = local_named(around.seen.known, Some(named));
            give_all(kept_there(here, object), events)
        }
        Gift::Element(element) => give_field(carried(around.seen, around.bodies, element), events),
    }
}

fn add_all<'a>(
    here: Here<'_, '_, '_, 'a>,
    gifts: &[Gift<'a>],
    events: &mut Vec<Event<'a>>,
) -> Result<(), AllocError>
    requires { KnowsHere here }
    ensures { OnOk result (AddsEvents events.old.items events.new.items (flat_map (gift_events
        (seen_view here.entry.around.seen.now) (map body_view here.entry.around.bodies.now))
        (map gift_view gifts.now))) }
{
    for gift in gifts {
        add_gift(here, *gift, events)?;
    }
    Ok(())
}

/// Adds what is given by an expression.
///
/// # Errors
///
/// Memory was refused.
pub fn add_given<'a>(
    alloc: Global,
    here: Here<'_, '_, '_, 'a>,
    value: &'a Expr,
    events: &mut Vec<Event<'a>>,
) -> Result<(), AllocError>
    requires { KnowsHere here }
    ensures { OnOk result (AddsEvents events.old.items events.new.items (flat_map (gift_events
        (seen_view here.entry.around.seen.now) (map body_view here.entry.around.bodies.now))
        (gifts missing_expression (expression_syntax value.now)))) }
{
    let given = gifts(alloc, value)?;
    add_all(here, &given, events)
}
