//! Why a package can't be closed.

ghost use Rattle.std.specs.Prelude.{◌≡◌, slice_get};
ghost use Rattle.std.specs.Option.{option_copied};
ghost use Rattle.imports.specs.Views.{rank_of};
ghost use Rattle.board.specs.Answers.{refusal_by, refusal_at};

use crate::entries::{DeliverFault, Phase};
use imports::Order;

/// Why the worker can't close a package that is so far.
fn refusal_by(phase: Option<&Phase>, worker: usize) -> Option<DeliverFault>
    ensures { result ≡ refusal_by worker (option_copied phase.entry) }
{
    match phase {
        None => Some(DeliverFault::Stranger),
        Some(Phase::Untaken) => Some(DeliverFault::NotTaken),
        Some(Phase::Taken(taker)) => {
            if *taker == worker {
                None
            } else {
                Some(DeliverFault::TakenByAnother)
            }
        }
        Some(Phase::Delivered(taker) | Phase::GivenBack(taker)) => {
            if *taker == worker {
                Some(DeliverFault::AlreadyClosed)
            } else {
                Some(DeliverFault::TakenByAnother)
            }
        }
    }
}

/// Why the worker can't close the package at that place, if it can't.
pub fn refusal(order: &Order, phases: &[Phase], worker: usize, place: usize) -> Option<DeliverFault>
    ensures { result ≡ refusal_at (rank_of order.now place) worker (slice_get phases.now place) }
{
    match order.rank(place) {
        None => Some(DeliverFault::Stranger),
        Some(_) => refusal_by(phases.get(place), worker),
    }
}
