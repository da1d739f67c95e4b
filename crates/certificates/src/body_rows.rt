//! The rows of a body of a file.

ghost use Rattle.std.specs.Prelude.{◌≡◌, ℕ, [], IfOk, Some, false, None};
ghost use Rattle.bodies.specs.Bodies.{TellsBody};
ghost use Rattle.certificates.specs.BodyRows.{AreLeastRows, AreLeastIf, none_pending};
ghost use Rattle.credits.specs.CreditViews.{has};
ghost use Rattle.events.specs.ToldViews.{TellsFile};
ghost use Rattle.meaning.specs.Classes.{Promises};
ghost use Rattle.meaning.specs.Mentions.{BodyPlace};
ghost use Rattle.meaning.specs.Uses.{Seen};
ghost use Rattle.meaning_packages.specs.Credits.{promises_in};

use crate::rows::rows_of;
use bodies::{Arrivals, Body, BodyGraph, CancelClass, GroupClass, ordered_graph};
use credits::{Calls, Credits, search_body};
use events::Told;
use std::alloc::{AllocError, Global};

/// No class arrives anywhere, as in a body without variables.
struct NoArrivals;

impl Arrivals for NoArrivals {
    ghost cancels = { λ none i n k. false };

    ghost groups = { λ none i n k. false };

    ghost pending_groups = { λ none. [] };

    fn has_cancel(&self, _variable: usize, _node: usize, _class: CancelClass) -> bool {
        false
    }

    fn has_group(&self, _variable: usize, _node: usize, _class: GroupClass) -> bool {
        false
    }

    fn pending_groups(&self) -> &[u32] {
        &[]
    }

    ghost no_others = { none_pending };
}

/// The rows of a body with variables, whose paths are followed, of which this is the graph.
fn searched_rows<'a, C: Calls>(
    alloc: Global,
    body: &Body<'_, 'a>,
    kept: &BodyGraph<'_, 'a>,
    calls: &C,
    credits: &Credits,
) -> Result<Vec<Vec<u16>>, AllocError>
    ensures { IfOk result (λ rows. (file : ℕ) (seen : Seen) (b : BodyPlace) → TellsBody file seen b body.now
        → body.now.graph ≡ Some kept.now
        → AreLeastRows seen b (promises_in (C.are_called calls.now) (has credits.now) b.at) rows.items) }
{
    let solution = search_body(alloc, body, kept, calls, credits)?;
    rows_of(alloc, &body.variables, kept, &solution)
}

/// The rows of a body without variables: an empty one for each node.
fn empty_rows<'a>(
    alloc: Global,
    told: &Told<'a>,
    body: &Body<'_, 'a>,
) -> Result<Vec<Vec<u16>>, AllocError>
    ensures { IfOk result (λ rows. (file : ℕ) (seen : Seen) (b : BodyPlace) → TellsFile seen told.now
        → TellsBody file seen b body.now → body.now.graph ≡ None → body.now.is_unfollowed ≡ false
        → (promises : Promises) → AreLeastRows seen b promises rows.items) }
{
    let kept = ordered_graph(alloc, told, body.place)?;
    rows_of(alloc, &body.variables, &kept, &NoArrivals)
}

/// The rows of the least certificate of a body of a file that was told of, where the body relies on what is known of
/// functions, and on these credits of the file's literals; none where its paths are not followed.
///
/// # Errors
///
/// Memory was refused.
pub fn least_rows<'a, C: Calls>(
    alloc: Global,
    told: &Told<'a>,
    body: &Body<'_, 'a>,
    calls: &C,
    credits: &Credits,
) -> Result<Option<Vec<Vec<u16>>>, AllocError>
    ensures { IfOk result (λ rows. (file : ℕ) (seen : Seen) (b : BodyPlace) → TellsFile seen told.now
        → TellsBody file seen b body.now
        → AreLeastIf seen b (promises_in (C.are_called calls.now) (has credits.now) b.at) rows) }
{
    if body.is_unfollowed {
        return Ok(None);
    }
    match &body.graph {
        Some(kept) => Ok(Some(searched_rows(alloc, body, kept, calls, credits)?)),
        None => Ok(Some(empty_rows(alloc, told, body)?)),
    }
}
