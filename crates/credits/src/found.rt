//! The credits of a file.

ghost use Rattle.std.specs.Prelude.{◌≡◌, ◌↔◌, ℕ, true, IfOk, OnOk, Some};
ghost use Rattle.bodies.specs.Bodies.{TellsBody, TellBodies};
ghost use Rattle.credits.specs.FoundCredits.{IsReliedOn, IsSettledBy, SettlesBody};
ghost use Rattle.credits.specs.CreditViews.{has, is_among};
ghost use Rattle.meaning.specs.Mentions.{BodyPlace};
ghost use Rattle.meaning.specs.Uses.{Seen};
ghost use Rattle.meaning_packages.specs.Credits.{AreFullCredits};

use crate::reliance::NoCalls;
use crate::relied::{may_come_back, unbound};
use crate::search::search_body;
use crate::settled::{captures_any, settled_captured};
use crate::table::Credits;
use bodies::{Body, BodyGraph};
use std::alloc::{AllocError, Global};

/// The numbers of the variables for which a body of that graph is relied on, where it relies on the credits of the
/// literals after it: it captures and settles them, it doesn't bind them, and it comes back, if it must.
fn settled_with<'a>(
    alloc: Global,
    body: &Body<'_, 'a>,
    kept: &BodyGraph<'_, 'a>,
    credits: &Credits,
) -> Result<Vec<u32>, AllocError>
    ensures { IfOk result (λ numbers. (file : ℕ) (seen : Seen) (b : BodyPlace) → TellsBody file seen b body.now
        → body.now.graph ≡ Some kept.now → (number : ℕ)
        → (is_among numbers.items number ≡ true) ↔ IsReliedOn seen (has credits.now) b number) }
{
    let solution = search_body(alloc, body, kept, &NoCalls, credits)?;
    let literal = body.place.literal;
    if !may_come_back(
        body.edition,
        literal,
        &kept.graph,
        &body.variables,
        &solution,
    ) {
        return Ok(Vec::new(alloc));
    }
    let numbers = settled_captured(alloc, &kept.graph, &body.variables, &solution)?;
    unbound(alloc, body.bound, &numbers)
}

/// The numbers of the variables for which a body is relied on, where it relies on the credits of the literals after
/// it; none, where it has too many variables.
fn settled_by<'a>(
    alloc: Global,
    body: &Body<'_, 'a>,
    credits: &Credits,
) -> Result<Vec<u32>, AllocError>
    ensures { IfOk result (λ numbers. (file : ℕ) (seen : Seen) (b : BodyPlace) → TellsBody file seen b body.now
        → (number : ℕ)
        → (is_among numbers.items number ≡ true) ↔ IsSettledBy seen (has credits.now) b number) }
{
    if !captures_any(&body.variables) {
        return Ok(Vec::new(alloc));
    }
    match &body.graph {
        Some(kept) => settled_with(alloc, body, kept, credits),
        None => Ok(Vec::new(alloc)),
    }
}

/// Tells the credits of a body by those of the literals after it.
fn tell_body(alloc: Global, body: &Body<'_, '_>, credits: &mut Credits) -> Result<(), AllocError>
    ensures { OnOk result ((file : ℕ) (seen : Seen) (b : BodyPlace) → TellsBody file seen b body.now
        → SettlesBody seen b (has credits.old) (has credits.new)) }
{
    let numbers = settled_by(alloc, body, credits)?;
    credits.tell(body.place.at, numbers)
}

/// Finds which literals of a file with these bodies settle which of the variables that they capture. The bodies stand
/// in the order of their places, and the last is told first, since a body relies on those after it. Of several at
/// one place the first counts, so that it is told last; no tree of a text has such.
///
/// # Errors
///
/// Memory was refused.
pub fn find_credits(alloc: Global, bodies: &[Body<'_, '_>]) -> Result<Credits, AllocError>
    ensures { IfOk result (λ credits. (file : ℕ) (seen : Seen) → TellBodies file seen bodies.now
        → AreFullCredits seen (has credits)) }
{
    let mut credits = Credits::new(alloc);
    let mut left = bodies.len();
    while left > 0 {
        left -= 1;
        tell_body(alloc, &bodies[left], &mut credits)?;
    }
    Ok(credits)
}
