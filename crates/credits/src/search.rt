//! Which classes arrive in a body, by what it relies on.

ghost use Rattle.std.specs.Prelude.{◌≡◌, ℕ, IfOk, Some, map};
ghost use Rattle.bodies.specs.Bodies.{TellsBody};
ghost use Rattle.credits.specs.PathNodes.{TellsNodes};
ghost use Rattle.credits.specs.BodyPaths.{TellsPaths};
ghost use Rattle.credits.specs.CreditViews.{has};
ghost use Rattle.events.specs.VariableViews.{variable_view};
ghost use Rattle.bodies.specs.Solutions.{cancel_arrives, group_arrives};
ghost use Rattle.meaning.specs.Mentions.{BodyPlace};
ghost use Rattle.meaning.specs.Uses.{Seen};
ghost use Rattle.meaning_packages.specs.Credits.{promises_in};
ghost use Rattle.meaning_packages.specs.PathFaults.{paths_of};

use crate::reliance::{Calls, Reliance};
use crate::table::Credits;
use bodies::{Body, BodyGraph, Solution, solve};
use std::alloc::{AllocError, Global};

/// Looks which classes of a body's variables arrive at each node of its graph, where the body relies on what is known
/// of functions, and on the credits of the literals that begin after it.
///
/// # Errors
///
/// Memory was refused.
pub fn search_body<'a, C: Calls>(
    alloc: Global,
    body: &Body<'_, 'a>,
    kept: &BodyGraph<'_, 'a>,
    calls: &C,
    credits: &Credits,
) -> Result<Solution, AllocError>
    ensures paths { IfOk result (λ solution. (file : ℕ) (seen : Seen) (b : BodyPlace) → TellsBody file seen b body.now
        → body.now.graph ≡ Some kept.now
        → TellsPaths (paths_of seen (promises_in (C.are_called calls.now) (has credits.now) b.at) b) kept.now.graph
        (map variable_view body.now.variables.items) (cancel_arrives solution) (group_arrives solution)) }
    ensures nodes { IfOk result (λ solution. (file : ℕ) (seen : Seen) (b : BodyPlace) → TellsBody file seen b body.now
        → body.now.graph ≡ Some kept.now
        → TellsNodes (paths_of seen (promises_in (C.are_called calls.now) (has credits.now) b.at) b)
        (cancel_arrives solution) (group_arrives solution)) }
{
    let reliance = Reliance {
        calls: &*calls,
        credits: &*credits,
        at: body.place.at,
    };
    solve(alloc, &kept.graph, &body.variables, &reliance)
}
