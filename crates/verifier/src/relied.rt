//! For which of the variables that its certificate settles a body is relied on.

ghost use Rattle.std.specs.Prelude.{◌≡◌, ◌↔◌, ℕ, true, IfOk, IsTrue, Some, option_map};
ghost use Rattle.bodies.specs.Bodies.{TellsBody};
ghost use Rattle.credits.specs.CreditViews.{is_among};
ghost use Rattle.meaning.specs.Mentions.{BodyPlace};
ghost use Rattle.meaning.specs.Uses.{Seen, goes_off};
ghost use Rattle.meaning_packages.specs.Credits.{MayComeBack};
ghost use Rattle.meaning_packages.specs.PathFaults.{paths_of};
ghost use Rattle.verifier.specs.ReliedOn.{AreLeft, AreLeftIf};
ghost use Rattle.verifier.specs.Verified.{nothing_known};

use bodies::{Body, BodyGraph};
use credits::{Credits, NoCalls, asks_return, may_come_back, search_body, unbound};
use std::alloc::{AllocError, Global};

/// Whether some return of the body is reached, if it must be. A certificate may say more than can happen, so this is
/// looked for.
fn comes_back<'a>(
    alloc: Global,
    body: &Body<'_, 'a>,
    kept: &BodyGraph<'_, 'a>,
    credits: &Credits,
) -> Result<bool, AllocError>
    ensures { IfOk result (λ comes. (file : ℕ) (seen : Seen) (b : BodyPlace) → TellsBody file seen b body.now
        → body.now.graph ≡ Some kept.now
        → IsTrue comes ↔ MayComeBack seen.known.edition (goes_off b.literal) (paths_of seen nothing_known b)) }
{
    let literal = body.place.literal;
    if !asks_return(body.edition, literal) {
        return Ok(true);
    }
    let solution = search_body(alloc, body, kept, &NoCalls, credits)?;
    Ok(may_come_back(
        body.edition,
        literal,
        &kept.graph,
        &body.variables,
        &solution,
    ))
}

/// Those of the numbers of captured variables for which the body is relied on: neither it nor a literal in it binds
/// them, and it comes back, if it must.
fn left_of<'a>(
    alloc: Global,
    body: &Body<'_, 'a>,
    kept: &BodyGraph<'_, 'a>,
    credits: &Credits,
    numbers: &[u32],
) -> Result<Vec<u32>, AllocError>
    ensures { IfOk result (λ left. (file : ℕ) (seen : Seen) (b : BodyPlace) → TellsBody file seen b body.now
        → body.now.graph ≡ Some kept.now → AreLeft seen b numbers.now left.items) }
{
    let comes = comes_back(alloc, body, kept, credits)?;
    if !comes {
        return Ok(Vec::new(alloc));
    }
    unbound(alloc, body.bound, numbers)
}

/// The same of those that a certificate settles, if it holds.
///
/// # Errors
///
/// Memory was refused.
pub fn relied_on<'a>(
    alloc: Global,
    body: &Body<'_, 'a>,
    kept: &BodyGraph<'_, 'a>,
    credits: &Credits,
    settled: Option<Vec<u32>>,
) -> Result<Option<Vec<u32>>, AllocError>
    ensures { IfOk result (λ left. (file : ℕ) (seen : Seen) (b : BodyPlace) → TellsBody file seen b body.now
        → body.now.graph ≡ Some kept.now → AreLeftIf seen b (option_map (λ numbers. numbers.items) settled)
        (option_map (λ numbers. numbers.items) left)) }
{
    let Some(numbers) = settled else {
        return Ok(None);
    };
    if numbers.is_empty() {
        return Ok(Some(numbers));
    }
    let left = left_of(alloc, body, kept, credits, &numbers)?;
    Ok(Some(left))
}
