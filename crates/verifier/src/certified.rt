//! Whether the certificate of a body is given and holds, and what it settles.

ghost use Rattle.std.specs.Prelude.{◌≡◌, ℕ, [], IfOk, Some, option_map};
ghost use Rattle.bodies.specs.Bodies.{TellsBody, IsOrderedGraph, code_in};
ghost use Rattle.called_parameters.specs.Called.{is_called};
ghost use Rattle.calls_flags.specs.KnownCalls.{known_calls};
ghost use Rattle.certificate_json.specs.Certificates.{rows_of};
ghost use Rattle.credits.specs.CreditViews.{has};
ghost use Rattle.events.specs.ToldViews.{TellsFile};
ghost use Rattle.meaning.specs.BodyEvents.{unfollowed_faults};
ghost use Rattle.meaning.specs.Mentions.{BodyPlace};
ghost use Rattle.meaning.specs.Uses.{Seen};
ghost use Rattle.verifier.specs.FoundBodies.{with_table, IsFound, IsFoundReliedOn};
ghost use Rattle.verifier.specs.GivenViews.{TellsGiven};
ghost use Rattle.verifier.specs.Verified.{Given as MeantGiven};

use crate::body_claims::BodyClaims;
use crate::given::GivenPackage;
use crate::relied::relied_on;
use crate::settled::settled_captured;
use bodies::{Body, BodyGraph, ordered_graph};
use calls_flags::{KnownCalls, function_name};
use certificate_json::Rows;
use checker::{holds, lay_out};
use credits::{Credits, Reliance};
use events::Told;
use std::alloc::{AllocError, Global};

/// By what the certificates of a file's bodies are looked at.
#[derive(Clone, Copy)]
pub struct Grounds<'g, 'a> {
    /// What is given for the file's package.
    pub given: &'g GivenPackage<'g>,
    /// What is known of functions.
    pub calls: KnownCalls<'g, 'a>,
    /// What was told of the file.
    pub told: &'g Told<'a>,
}

/// A body and the rows that are given for it.
#[derive(Clone, Copy)]
struct GivenBody<'g, 'e, 'a> {
    body: &'g Body<'e, 'a>,
    rows: &'g Rows,
}

/// What is found of the certificate of a body with that graph: where it holds, the numbers of the captured variables
/// that it settles. The rows are put into lists of their own only where there are as many as the body has nodes: so it
/// is the source that says how much memory they take.
fn found_in(
    alloc: Global,
    grounds: Grounds<'_, '_>,
    given: GivenBody<'_, '_, '_>,
    kept: &BodyGraph<'_, '_>,
    credits: &Credits,
) -> Result<Option<Vec<u32>>, AllocError>
    ensures { IfOk result (λ found. (number : ℕ) (seen : Seen) (b : BodyPlace)
        → TellsFile seen grounds.entry.told.now → TellsBody number seen b given.entry.body.now
        → IsOrderedGraph (code_in seen b) kept.now
        → unfollowed_faults seen b ≡ []
        → (g : MeantGiven) → g.rows number b.at ≡ Some (rows_of given.entry.rows.now)
        → IsFound g (is_called grounds.entry.calls.own.now) (known_calls grounds.entry.calls) number
        (with_table seen (has credits.now)) b (option_map (λ numbers. numbers.items) found)) }
{
    let laid_out = lay_out(alloc, grounds.told.edition, &given.body.variables, kept)?;
    let reliance = Reliance {
        calls: &grounds.calls,
        credits: &*credits,
        at: given.body.place.at,
    };
    let claims = BodyClaims {
        called: grounds.calls.own,
        name: function_name(given.body.place),
    };
    if given.rows.count() != kept.order.len() {
        return Ok(None);
    }
    let lists = given.rows.to_lists(alloc)?;
    let rows = lists.as_slice();
    if !holds(&laid_out, &reliance, &claims, rows) {
        return Ok(None);
    }
    Ok(Some(settled_captured(alloc, &laid_out, rows)?))
}

/// What is found of the certificate of a body: where its paths are followed, and one is given and holds, the
/// numbers of the captured variables for which the body is relied on.
///
/// # Errors
///
/// Memory was refused.
pub fn find_certificate<'a>(
    alloc: Global,
    grounds: Grounds<'_, 'a>,
    body: &Body<'_, 'a>,
    credits: &Credits,
) -> Result<Option<Vec<u32>>, AllocError>
    ensures { IfOk result (λ found. (number : ℕ) (seen : Seen) (b : BodyPlace)
        → TellsFile seen grounds.entry.told.now
        → TellsBody number seen b body.now
        → (g : MeantGiven) → TellsGiven g grounds.entry.given.now
        → IsFoundReliedOn g (is_called grounds.entry.calls.own.now) (known_calls grounds.entry.calls) number
        (with_table seen (has credits.now)) b (option_map (λ numbers. numbers.items) found)) }
{
    if body.is_unfollowed {
        return Ok(None);
    }
    let Some(rows) = grounds.given.rows.at(body.file, body.place.at) else {
        return Ok(None);
    };
    let given = GivenBody { body, rows };
    match &body.graph {
        Some(kept) => {
            let found = found_in(alloc, grounds, given, kept, credits)?;
            relied_on(alloc, body, kept, credits, found)
        }
        None => {
            let kept = ordered_graph(alloc, grounds.told, body.place)?;
            found_in(alloc, grounds, given, &kept, credits)
        }
    }
}
