//! Trees that several threads make, or what stands in their place. That a tree may go from thread to thread is proved
//! here, where little else is in sight.
#![tactic(auto)]

ghost use Rattle.std.specs.Prelude.{IfOk};
ghost use Rattle.workers.specs.Outcomes.{AreOutcomes};

use std::alloc::{AllocError, Global};
use std::thread::Threads;
use tree::File;
use workers::{Work, Workers, outcomes};

/// The trees that come of items, each in its place, by at most so many threads; or what an item has in place of a tree.
/// It is none where nothing came of the item.
///
/// # Errors
///
/// Memory was refused.
pub fn trees_of<R: Threads + Sync, T: Sync, E: Send + Drop, W: Work<T, Result<File, E>> + Sync>(
    rt: &R,
    alloc: Global,
    items: &[T],
    workers: Workers,
    work: &W,
) -> Result<Vec<Option<Result<File, E>>>, AllocError>
    ensures { IfOk result (λ trees. AreOutcomes (W.is_outcome work.now) items.now trees.items) }
{
    outcomes(rt, alloc, items, workers, work)
}
