//! To which locals a body may give another value.

ghost use Rattle.std.specs.Prelude.{◌≡◌, OnOk, map};
ghost use Rattle.events.specs.ToldViews.{AddsAround, AddsBound, AddsBoundThere, AddsNumber};
ghost use Rattle.meaning.specs.Mentions.{mentions};
ghost use Rattle.meaning_packages.specs.Credits.{may_set};
ghost use Rattle.mentions.specs.MarkViews.{body_view, mark_view, mention_view, role_view};
ghost use Rattle.tracked.specs.LocalViews.{seen_view};

use lists::Lists;
use mentions::{BodyPlace, Mark, Mention, Role};
use std::alloc::{AllocError, Global};
use tracked::{Seen, variable_of};
use tree::Edition;

/// Whether a name may get another value there.
fn may_set(role: Role<'_, '_>) -> bool
    ensures { result ≡ may_set (role_view role.entry) }
{
    match role {
        Role::Exposed => true,
        Role::Left(_, _) => true,
        _ => false,
    }
}

/// Adds the number to those of the body at that offset.
fn add_number(
    alloc: Global,
    body: u32,
    number: u32,
    bound: &mut Lists<u32>,
) -> Result<(), AllocError>
    ensures { OnOk result (AddsNumber body number bound.old bound.new) }
{
    bound.add(alloc, body, number)?;
    Ok(())
}

/// Adds the number to those of each of these bodies.
fn add_around(
    alloc: Global,
    bodies: &[BodyPlace<'_>],
    number: u32,
    bound: &mut Lists<u32>,
) -> Result<(), AllocError>
    ensures { OnOk result (AddsAround (map body_view bodies.now) number bound.old bound.new) }
{
    for body in bodies {
        add_number(alloc, body.at, number, bound)?;
    }
    Ok(())
}

/// Adds the local that a mention in these bodies may bind.
fn add_mention(
    alloc: Global,
    seen: &Seen<'_, '_, '_>,
    bodies: &[BodyPlace<'_>],
    mention: Mention<'_, '_>,
    bound: &mut Lists<u32>,
) -> Result<(), AllocError>
    ensures { OnOk result (AddsBoundThere (seen_view seen.now) (map body_view bodies.now)
        (mentions (mention_view mention.entry)) bound.old bound.new) }
{
    if !may_set(mention.role) {
        return Ok(());
    }
    match variable_of(seen.known, mention) {
        Some(number) => add_around(alloc, bodies, number, bound),
        None => Ok(()),
    }
}

/// The same of a mark.
fn add_there(
    alloc: Global,
    seen: &Seen<'_, '_, '_>,
    bodies: &[BodyPlace<'_>],
    mark: &Mark<'_, '_>,
    bound: &mut Lists<u32>,
) -> Result<(), AllocError>
    ensures { OnOk result (AddsBoundThere (seen_view seen.now) (map body_view bodies.now) (mark_view mark.now)
        bound.old bound.new) }
{
    match *mark {
        Mark::Mentions(mention) => add_mention(alloc, seen, bodies, mention, bound),
        _ => Ok(()),
    }
}

/// Adds, in the second edition, the local that a mark in these bodies may bind.
///
/// # Errors
///
/// Memory was refused.
pub fn add_bound(
    alloc: Global,
    seen: &Seen<'_, '_, '_>,
    bodies: &[BodyPlace<'_>],
    mark: &Mark<'_, '_>,
    bound: &mut Lists<u32>,
) -> Result<(), AllocError>
    ensures { OnOk result (AddsBound (seen_view seen.now) (map body_view bodies.now) (mark_view mark.now)
        bound.old bound.new) }
{
    match seen.known.edition {
        Edition::First => Ok(()),
        Edition::Second => add_there(alloc, seen, bodies, mark, bound),
    }
}
