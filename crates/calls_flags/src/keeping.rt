//! Whether the paths of a function keep a claim.

ghost use Rattle.std.specs.Prelude.{◌≡◌, ◌↔◌, ℕ, [], List, IfOk, IsTrue, Some, map, slice_get};
ghost use Rattle.bodies.specs.Bodies.{TellsBody};
ghost use Rattle.bodies.specs.Solutions.{cancel_arrives, group_arrives};
ghost use Rattle.calls_flags.specs.Claims.{claim_view, ComesBackThere, KeepsThere, IsClaimOf, KeepsClaim};
ghost use Rattle.calls_flags.specs.FilesBodies.{TellAll, TellsWithCredits};
ghost use Rattle.calls_flags.specs.KnownCalls.{known_calls};
ghost use Rattle.credits.specs.BodyPaths.{TellsPaths};
ghost use Rattle.credits.specs.CreditViews.{has};
ghost use Rattle.events.specs.VariableViews.{variable_view};
ghost use Rattle.meaning.specs.BodyEvents.{Variable as MeantVariable, bodies_of, variables_of, unfollowed_faults};
ghost use Rattle.meaning.specs.FunctionFacts.{cancel};
ghost use Rattle.meaning.specs.Mentions.{BodyPlace as MeantBody};
ghost use Rattle.meaning.specs.Uses.{Seen};
ghost use Rattle.meaning_packages.specs.CallsFlags.{ComesBackBy, FileWithCredits};
ghost use Rattle.meaning_packages.specs.PathFaults.{Paths};

use crate::claims::Claim;
use crate::file_bodies::FileBodies;
use crate::known_calls::KnownCalls;
use bodies::{Body, NodeEvent, Solution};
use credits::{Credits, NoCalls, search_body};
use events::Variable;
use flow::Graph;
use path_faults::{comes_back, keeps_call};
use std::alloc::{AllocError, Global};
use tree::Edition;

/// Whether some return of a body is reached, if the edition asks for that. It has a variable at that place in the list.
fn may_come_back<'a>(
    edition: Edition,
    graph: &Graph<NodeEvent<'_, 'a>>,
    variables: &[Variable<'a>],
    solution: &Solution,
    place: usize,
) -> bool
    ensures { (b : Paths) → TellsPaths b graph.now (map variable_view variables.now) (cancel_arrives solution.now)
        (group_arrives solution.now) → (v : MeantVariable) → slice_get b.variables place ≡ Some v
        → IsTrue result ↔ ComesBackBy edition b }
{
    match edition {
        Edition::First => true,
        Edition::Second => comes_back(graph, variables, solution, place),
    }
}

/// Whether the body's paths keep the cancel variable at that place in the list of its variables, if they are followed.
fn body_keeps<'a>(
    alloc: Global,
    body: &Body<'_, 'a>,
    credits: &Credits,
    calls: KnownCalls<'_, 'a>,
    place: usize,
) -> Result<bool, AllocError>
    ensures { IfOk result (λ keeps. (file : ℕ) (seen : Seen) (b : MeantBody) → TellsBody file seen b body.now
        → unfollowed_faults seen b ≡ []
        → (v : MeantVariable) → slice_get (variables_of seen b.at) place ≡ Some v → v.kind ≡ cancel
        → IsTrue keeps ↔ KeepsThere (known_calls calls.entry) seen (has credits.now) b v) }
{
    let Some(kept) = &body.graph else {
        return Ok(false);
    };
    let solution = search_body(alloc, body, kept, &calls, credits)?;
    if !may_come_back(body.edition, &kept.graph, &body.variables, &solution, place) {
        return Ok(false);
    }
    keeps_call(alloc, &kept.graph, &body.variables, &solution, place)
}

/// Whether the paths of the claim's function, which stands in that file, keep it.
fn file_keeps<'a>(
    alloc: Global,
    file: &FileBodies<'_, 'a>,
    calls: KnownCalls<'_, 'a>,
    claim: Claim<'a>,
) -> Result<bool, AllocError>
    ensures { IfOk result (λ keeps. (number : ℕ) (f : FileWithCredits) → TellsWithCredits number f file.now
        → (b : MeantBody) → slice_get (bodies_of f.seen) claim.entry.body ≡ Some b
        → unfollowed_faults f.seen b ≡ []
        → (v : MeantVariable) → slice_get (variables_of f.seen b.at) claim.entry.place ≡ Some v → v.kind ≡ cancel
        → IsTrue keeps ↔ KeepsThere (known_calls calls.entry) f.seen f.credits b v) }
{
    match file.bodies.get(claim.body) {
        Some(body) => body_keeps(alloc, body, &file.credits, calls, claim.place),
        None => Ok(false),
    }
}

/// Whether the paths of the claim's function keep it.
///
/// # Errors
///
/// Memory was refused.
pub fn keeps_claim<'a>(
    alloc: Global,
    files: &[FileBodies<'_, 'a>],
    calls: KnownCalls<'_, 'a>,
    claim: Claim<'a>,
) -> Result<bool, AllocError>
    ensures { IfOk result (λ keeps. (fs : List FileWithCredits) → TellAll fs files.now
        → (f : FileWithCredits) (b : MeantBody) (v : MeantVariable) → IsClaimOf fs (claim_view claim.entry) f b v
        → IsTrue keeps ↔ KeepsClaim fs (known_calls calls.entry) (claim_view claim.entry)) }
{
    match files.get(claim.file) {
        Some(file) => file_keeps(alloc, file, calls, claim),
        None => Ok(false),
    }
}

/// Whether some return of the body is reached, if the edition asks for that. It has a cancel variable at that place in
/// the list, and its paths are followed.
fn body_comes_back<'a>(
    alloc: Global,
    body: &Body<'_, 'a>,
    credits: &Credits,
    place: usize,
) -> Result<bool, AllocError>
    ensures { IfOk result (λ comes. (file : ℕ) (seen : Seen) (b : MeantBody) → TellsBody file seen b body.now
        → unfollowed_faults seen b ≡ []
        → (v : MeantVariable) → slice_get (variables_of seen b.at) place ≡ Some v → v.kind ≡ cancel
        → IsTrue comes ↔ ComesBackThere seen (has credits.now) b v) }
{
    let Some(kept) = &body.graph else {
        return Ok(false);
    };
    let solution = search_body(alloc, body, kept, &NoCalls, credits)?;
    Ok(may_come_back(body.edition, &kept.graph, &body.variables, &solution, place))
}

/// Whether some return of the claim's function is reached, which stands in that file.
fn file_comes_back<'a>(
    alloc: Global,
    file: &FileBodies<'_, 'a>,
    claim: Claim<'a>,
) -> Result<bool, AllocError>
    ensures { IfOk result (λ comes. (number : ℕ) (f : FileWithCredits) → TellsWithCredits number f file.now
        → (b : MeantBody) → slice_get (bodies_of f.seen) claim.entry.body ≡ Some b
        → unfollowed_faults f.seen b ≡ []
        → (v : MeantVariable) → slice_get (variables_of f.seen b.at) claim.entry.place ≡ Some v → v.kind ≡ cancel
        → IsTrue comes ↔ ComesBackThere f.seen f.credits b v) }
{
    match file.bodies.get(claim.body) {
        Some(body) => body_comes_back(alloc, body, &file.credits, claim.place),
        None => Ok(false),
    }
}

/// Whether some return of the claim's function is reached, if the edition asks for that.
///
/// # Errors
///
/// Memory was refused.
pub fn claim_comes_back<'a>(
    alloc: Global,
    files: &[FileBodies<'_, 'a>],
    claim: Claim<'a>,
) -> Result<bool, AllocError>
    ensures { IfOk result (λ comes. (fs : List FileWithCredits) → TellAll fs files.now
        → (f : FileWithCredits) (b : MeantBody) (v : MeantVariable) → IsClaimOf fs (claim_view claim.entry) f b v
        → IsTrue comes ↔ ComesBackThere f.seen f.credits b v) }
{
    match files.get(claim.file) {
        Some(file) => file_comes_back(alloc, file, claim),
        None => Ok(false),
    }
}
