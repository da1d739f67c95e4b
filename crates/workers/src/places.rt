//! What came of items, each put in its place.

ghost use Rattle.std.specs.Prelude.{◌≡◌, IfOk, None, replicate};
ghost use Rattle.workers.specs.Outcomes.{placed, placed_all};

use std::alloc::{AllocError, Global};

/// What came of an item, with the item's number.
#[derive(Drop)]
pub struct Outcome<X> {
    pub number: usize,
    pub outcome: X,
}

/// So many places with nothing in them.
fn empty_places<X: Drop>(alloc: Global, count: usize) -> Result<Vec<Option<X>>, AllocError>
    ensures { IfOk result (λ places. places.items ≡ replicate count None) }
{
    let mut places = Vec::new(alloc);
    for _ in 0..count {
        places.push(None)?;
    }
    Ok(places)
}

/// Puts each of these in the place of its number.
fn place_all<X: Drop>(share: Vec<Outcome<X>>, places: &mut [Option<X>])
    ensures { places.new ≡ placed share.items places.old }
{
    for Outcome { number, outcome } in share {
        if number < places.len() {
            places[number] = Some(outcome);
        }
    }
}

/// What came of so many items, each in its place.
///
/// # Errors
///
/// Memory was refused.
pub fn gather<X: Drop>(
    alloc: Global,
    count: usize,
    shares: Vec<Vec<Outcome<X>>>,
) -> Result<Vec<Option<X>>, AllocError>
    ensures { IfOk result (λ places. places.items ≡ placed_all shares.items (replicate count None)) }
{
    let mut places = empty_places(alloc, count)?;
    for share in shares {
        place_all(share, &mut places);
    }
    Ok(places)
}
