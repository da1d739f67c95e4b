//! Literals that are given to others, with what they mention.

ghost use Rattle.std.specs.Prelude.{◌≡◌, OnOk, flat_map, map};
ghost use Rattle.kept_events.specs.KeptEventViews.{gives_first, is_among, AddsEvents, AddsFirst, KnowsHere};
ghost use Rattle.literal_mentions.specs.LiteralViews.{mention_at_view};
ghost use Rattle.meaning.specs.Kept.{first_mentions, literal_gifts};
ghost use Rattle.mentions.specs.MarkViews.{body_view};
ghost use Rattle.tracked.specs.LocalViews.{seen_view};

use crate::gives::give_all;
use crate::here::{Here, kept_there};
use literal_mentions::{MentionAt, mentioned_in_order};
use std::alloc::{AllocError, Global};
use tracked_rows::Event;

fn is_among(numbers: &[u32], number: u32) -> bool
    ensures { result ≡ is_among numbers.now number }
{
    for other in numbers {
        if *other == number {
            return true;
        }
    }
    false
}

/// Adds that a local is given, if something is kept in it and it wasn't given yet; then it is given now.
fn add_first<'a>(
    here: Here<'_, '_, '_, 'a>,
    mention: &MentionAt,
    given: &mut Vec<u32>,
    events: &mut Vec<Event<'a>>,
) -> Result<(), AllocError>
    requires { KnowsHere here }
    ensures { OnOk result (AddsFirst (seen_view here.entry.around.seen.now)
        (map body_view here.entry.around.bodies.now) mention.now.number given.old.items given.new.items events.old.items
        events.new.items) }
{
    let number = mention.number;
    let keeps = kept_there(here, Some(number));
    if keeps.is_empty() {
        return Ok(());
    }
    if is_among(given, number) {
        return Ok(());
    }
    given.push(number)?;
    give_all(keeps, events)
}

/// Adds that the locals of these mentions are given, each where it comes first.
fn add_mentioned<'a>(
    alloc: Global,
    here: Here<'_, '_, '_, 'a>,
    mentions: &[MentionAt],
    events: &mut Vec<Event<'a>>,
) -> Result<(), AllocError>
    requires { KnowsHere here }
    ensures { OnOk result (AddsEvents events.old.items events.new.items (flat_map (gives_first
        (seen_view here.entry.around.seen.now) (map body_view here.entry.around.bodies.now))
        (first_mentions (map mention_at_view mentions.now)))) }
{
    let mut given = Vec::new(alloc);
    for mention in mentions {
        add_first(here, mention, &mut given, events)?;
    }
    Ok(())
}

/// Adds that the literal at that offset is given, with what it mentions.
///
/// # Errors
///
/// Memory was refused.
pub fn add_literal<'a>(
    alloc: Global,
    here: Here<'_, '_, '_, 'a>,
    literal: u32,
    events: &mut Vec<Event<'a>>,
) -> Result<(), AllocError>
    requires { KnowsHere here }
    ensures { OnOk result (AddsEvents events.old.items events.new.items (literal_gifts
        (seen_view here.entry.around.seen.now) (map body_view here.entry.around.bodies.now) literal)) }
{
    let around = here.around;
    if !here.kept.keeps_in(around.seen, around.bodies) {
        return Ok(());
    }
    let mentions = mentioned_in_order(alloc, around.seen, literal)?;
    add_mentioned(alloc, here, &mentions, events)
}
