//! In which bodies each tracked local is mentioned.

ghost use Rattle.std.specs.Prelude.{◌≡◌, ◌++◌, ℕ, IfOk, OnOk, Some, map, nat_eq, option_map};
ghost use Rattle.events.specs.ToldViews.{if_there};
ghost use Rattle.lists.specs.ListViews.{items_at};
ghost use Rattle.tracked.specs.LocalViews.{seen_view, local_view, Sees};
ghost use Rattle.mentions.specs.MarkViews.{body_view, mark_view, mention_view};
ghost use Rattle.events.specs.VariableViews.{body_sightings, tracked_local, sightings_of, AddsSightings};
ghost use Rattle.meaning.specs.Mentions.{mentions};

use lists::Lists;
use mentions::{BodyPlace, Mark, Mention};
use std::alloc::{AllocError, Global};
use tracked::{Local, Seen, enter, variable_of};

/// A mention of a local, or several, in the body at an offset, or in a literal in it.
#[derive(Clone, Copy)]
pub struct Sighting {
    pub body: u32,
    /// The least offset of a mention.
    pub first: u32,
    /// The body that declares the local stands around this one.
    pub is_captured: bool,
}

/// A mention of a tracked local.
#[derive(Clone, Copy)]
struct NumberedMention {
    /// The number of the local.
    number: u32,
    /// The body that declares it.
    declaring: u32,
    /// The offset of the mention.
    at: u32,
}

/// Notes a mention for each body around it.
fn add_in_bodies(
    alloc: Global,
    mention: NumberedMention,
    bodies: &[BodyPlace<'_>],
    sightings: &mut Lists<Sighting>,
) -> Result<(), AllocError>
    ensures { OnOk result ((n : ℕ) → items_at sightings.new n ≡ items_at sightings.old n
        ++ if_there (nat_eq mention.number n) (body_sightings mention.declaring mention.at
        (map body_view bodies.now))) }
{
    let mut is_captured = false;
    let mut index = bodies.len();
    while index > 0 {
        index -= 1;
        let body = bodies[index].at;
        let sighting = Sighting {
            body,
            first: mention.at,
            is_captured,
        };
        sightings.add(alloc, mention.number, sighting)?;
        is_captured = is_captured || body == mention.declaring;
    }
    Ok(())
}

/// The local of that number, if it is tracked.
pub fn tracked_local<'a>(seen: &Seen<'_, '_, 'a>, number: Option<u32>) -> Option<Local<'a>>
    requires { Sees seen.now }
    ensures { option_map local_view result ≡ tracked_local (seen_view seen.now) number }
{
    if !seen.is_tracked(number) {
        return None;
    }
    match seen.entry(number) {
        Some(entry) => Some(entry.local),
        None => None,
    }
}

fn add_mention<'a>(
    alloc: Global,
    seen: &Seen<'_, '_, 'a>,
    bodies: &[BodyPlace<'a>],
    mention: &Mention<'_, 'a>,
    sightings: &mut Lists<Sighting>,
) -> Result<(), AllocError>
    requires { Sees seen.now }
    ensures { OnOk result (AddsSightings (seen_view seen.now) (map body_view bodies.now)
        (mentions (mention_view mention.now)) sightings.old sightings.new) }
{
    let number = variable_of(seen.known, *mention);
    match (number, tracked_local(seen, number)) {
        (Some(number), Some(local)) => {
            let noted = NumberedMention {
                number,
                declaring: local.body,
                at: mention.named.at,
            };
            add_in_bodies(alloc, noted, bodies, sightings)
        }
        _ => Ok(()),
    }
}

/// Notes what a mark in these bodies mentions.
fn add_mark<'a>(
    alloc: Global,
    seen: &Seen<'_, '_, 'a>,
    bodies: &[BodyPlace<'a>],
    mark: &Mark<'_, 'a>,
    sightings: &mut Lists<Sighting>,
) -> Result<(), AllocError>
    requires { Sees seen.now }
    ensures { OnOk result (AddsSightings (seen_view seen.now) (map body_view bodies.now) (mark_view mark.now)
        sightings.old sightings.new) }
{
    match mark {
        Mark::Mentions(mention) => add_mention(alloc, seen, bodies, mention, sightings),
        _ => Ok(()),
    }
}

/// The sightings of each tracked local of a file, by its number: one for each mention and each body around it.
///
/// # Errors
///
/// Memory was refused.
pub fn sightings<'a>(alloc: Global, seen: &Seen<'_, '_, 'a>) -> Result<Lists<Sighting>, AllocError>
    requires { Sees seen.now }
    ensures { IfOk result (λ sightings. (n : ℕ) → items_at sightings n ≡ sightings_of (seen_view seen.now) n
        (seen_view seen.now).marks) }
{
    let mut sightings = Lists::new(alloc);
    let mut bodies: Vec<BodyPlace<'a>> = Vec::new(alloc);
    for mark in &seen.marks {
        enter(&mut bodies, *mark)?;
        add_mark(alloc, seen, &bodies, mark, &mut sightings)?;
    }
    Ok(sightings)
}
