//! One sighting of a local for each body, of many.

ghost use Rattle.std.specs.Prelude.{◌≡◌, IfOk, Some, nat_eq};
ghost use Rattle.indexmap.specs.IndexMap.{get};
ghost use Rattle.meaning.specs.BodyEvents.{lesser};
ghost use Rattle.events.specs.VariableViews.{Merges, both, joined};

use crate::sightings::Sighting;
use indexmap::IndexMap;
use std::alloc::{AllocError, Global};

/// The lesser of two offsets.
fn lesser(left: u32, right: u32) -> u32
    ensures { result ≡ lesser left right }
{
    if left <= right { left } else { right }
}

/// Two sightings in one body.
fn joined(left: Sighting, right: Sighting) -> Sighting
    ensures { result ≡ joined left right }
{
    Sighting {
        body: left.body,
        first: lesser(left.first, right.first),
        is_captured: left.is_captured || right.is_captured,
    }
}

/// A sighting, and the ones of its body before it.
fn after(earlier: Option<Sighting>, sighting: Sighting) -> Sighting
    ensures { Some result ≡ both earlier (Some sighting) }
{
    match earlier {
        Some(earlier) => joined(earlier, sighting),
        None => sighting,
    }
}

/// The sighting in the body at that offset.
pub fn sighting_in(bodies: &IndexMap<u32, Sighting>, body: u32) -> Option<Sighting>
    ensures { result ≡ get nat_eq bodies.now body }
{
    match bodies.get(&body) {
        Some(sighting) => Some(*sighting),
        None => None,
    }
}

/// One sighting for each body, by its offset.
///
/// # Errors
///
/// Memory was refused.
pub fn merged(alloc: Global, sightings: &[Sighting]) -> Result<IndexMap<u32, Sighting>, AllocError>
    ensures { IfOk result (λ bodies. Merges bodies sightings.now) }
{
    let mut bodies: IndexMap<u32, Sighting> = IndexMap::new(alloc);
    for sighting in sightings {
        let all = after(sighting_in(&bodies, sighting.body), *sighting);
        bodies.insert(sighting.body, all)?;
    }
    Ok(bodies)
}
