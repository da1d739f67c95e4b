//! What a return takes with it.

ghost use Rattle.std.specs.Prelude.{◌≡◌, OnOk, flat_map, map};
ghost use Rattle.facts.specs.FactViews.{cancel_result_view};
ghost use Rattle.kept.specs.KeptViews.{keep_view};
ghost use Rattle.kept_forms.specs.FormViews.{gift_view};
ghost use Rattle.kept_events.specs.KeptEventViews.{handed_keeps, AddsHanded, KnowsHere};
ghost use Rattle.meaning.specs.BodyEvents.{handed_at, handed_item};
ghost use Rattle.meaning.specs.Kept.{handed_field, handed_gift, handed_in_fields};
ghost use Rattle.mentions.specs.MarkViews.{body_view};
ghost use Rattle.tracked.specs.LocalViews.{entry_view, local_view, seen_view, tracked_kind_of_entry, Sees};
ghost use Rattle.tree.specs.View.{expression_syntax};

use crate::here::{Here, kept_there};
use allowed_uses::{is_given_as, item_variable};
use facts::{CancelResult, VariableKind};
use kept::{Keep, carried};
use kept_forms::{Gift, gifts};
use objects::local_named;
use std::alloc::{AllocError, Global};
use tracked::{Seen, SeenLocal, tracked_kind};
use tracked_rows::Handed;
use tree::Expr;

/// Adds a local that an item of a return names, if the return hands it on.
fn add_local<'a>(
    seen: &Seen<'_, '_, 'a>,
    gives: &[CancelResult],
    position: usize,
    entry: SeenLocal<'a>,
    handed: &mut Vec<Handed>,
) -> Result<(), AllocError>
    requires { Sees seen.now }
    ensures { OnOk result (AddsHanded handed.old.items handed.new.items (handed_at (seen_view seen.now) position
        (map cancel_result_view gives.now) (tracked_kind_of_entry (entry_view entry.entry))
        (local_view entry.entry.local))) }
{
    if let Some(VariableKind::Cancel) = tracked_kind(entry) {
        if is_given_as(position, seen.cancel_type_of(entry.local), gives) {
            handed.push(Handed {
                number: entry.local.number,
                position,
                object: None,
            })?;
        }
    }
    Ok(())
}

/// Adds what an item of a return hands on, which is a variable.
///
/// # Errors
///
/// Memory was refused.
pub fn add_item(
    seen: &Seen<'_, '_, '_>,
    gives: &[CancelResult],
    position: usize,
    value: &Expr,
    handed: &mut Vec<Handed>,
) -> Result<(), AllocError>
    requires { Sees seen.now }
    ensures { OnOk result (AddsHanded handed.old.items handed.new.items (handed_item (seen_view seen.now)
        (map cancel_result_view gives.now) position (expression_syntax value.now))) }
{
    match seen.entry(item_variable(seen.known, value)) {
        Some(entry) => add_local(seen, gives, position, entry, handed),
        None => Ok(()),
    }
}

fn add_keeps(
    position: usize,
    keeps: &[Keep<'_>],
    handed: &mut Vec<Handed>,
) -> Result<(), AllocError>
    ensures { OnOk result (AddsHanded handed.old.items handed.new.items (handed_keeps position
        (map keep_view keeps.now))) }
{
    for keep in keeps {
        handed.push(Handed {
            number: keep.variable,
            position,
            object: Some(keep.object),
        })?;
    }
    Ok(())
}

fn add_carried(
    position: usize,
    variable: Option<u32>,
    handed: &mut Vec<Handed>,
) -> Result<(), AllocError>
    ensures { OnOk result (AddsHanded handed.old.items handed.new.items (handed_field position variable)) }
{
    if let Some(number) = variable {
        handed.push(Handed {
            number,
            position,
            object: None,
        })?;
    }
    Ok(())
}

fn add_gift<'a>(
    here: Here<'_, '_, '_, 'a>,
    position: usize,
    gift: Gift<'a>,
    handed: &mut Vec<Handed>,
) -> Result<(), AllocError>
    requires { KnowsHere here }
    ensures { OnOk result (AddsHanded handed.old.items handed.new.items (handed_gift
        (seen_view here.entry.around.seen.now) (map body_view here.entry.around.bodies.now) position
        (gift_view gift.entry))) }
{
    let around = here.around;
    match gift {
        Gift::Named(named) => {
            let object = local_named(around.seen.known, Some(named));
            add_keeps(position, kept_there(here, object), handed)
        }
        Gift::Element(element) => add_carried(
            position,
            carried(around.seen, around.bodies, element),
            handed,
        ),
    }
}

fn add_gifts<'a>(
    here: Here<'_, '_, '_, 'a>,
    position: usize,
    gifts: &[Gift<'a>],
    handed: &mut Vec<Handed>,
) -> Result<(), AllocError>
    requires { KnowsHere here }
    ensures { OnOk result (AddsHanded handed.old.items handed.new.items (flat_map (handed_gift
        (seen_view here.entry.around.seen.now) (map body_view here.entry.around.bodies.now) position)
        (map gift_view gifts.now))) }
{
    for gift in gifts {
        add_gift(here, position, *gift, handed)?;
    }
    Ok(())
}

/// Adds what an item of a return takes with it in fields.
///
/// # Errors
///
/// Memory was refused.
pub fn add_in_fields<'a>(
    alloc: Global,
    here: Here<'_, '_, '_, 'a>,
    position: usize,
    value: &'a Expr,
    handed: &mut Vec<Handed>,
) -> Result<(), AllocError>
    requires { KnowsHere here }
    ensures { OnOk result (AddsHanded handed.old.items handed.new.items (handed_in_fields
        (seen_view here.entry.around.seen.now) (map body_view here.entry.around.bodies.now) position
        (expression_syntax value.now))) }
{
    let given = gifts(alloc, value)?;
    add_gifts(here, position, &given, handed)
}
