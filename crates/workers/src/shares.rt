//! The outcomes of items, each worked on by one of several threads.

ghost use Rattle.std.specs.Prelude.{IfOk, IfSome};
ghost use Rattle.std.specs.List.{All, AllByRecursion};
ghost use Rattle.workers.specs.Outcomes.{AreOutcomes, IsOutcomeIn};

use crate::count::Workers;
use crate::places::{Outcome, gather};
use crate::queue::{Queue, Taken};
use std::alloc::{AllocError, Global};
use std::thread;
use std::thread::Threads;

/// What is done with an item.
pub trait Work<T, X> {
    /// That this comes of an item.
    ghost is_outcome: { Self → T → X → Type 0 };

    /// What comes of the item, if something does.
    fn outcome(&self, item: &T) -> Option<X>
        ensures { IfSome result (is_outcome self.now item.now) };
}

/// What this thread makes of the items: it takes one after the other until none is left, or memory for its share is
/// refused.
fn share_of<T, X: Drop, W: Work<T, X>>(
    alloc: Global,
    queue: &Queue<'_, T>,
    work: &W,
) -> Vec<Outcome<X>>
    ensures { AllByRecursion (IsOutcomeIn (W.is_outcome work.now) queue.now.items.now) result.items }
{
    let mut share = Vec::new(alloc);
    for _ in queue.items {
        let Some(Taken { number, item }) = queue.take() else {
            return share;
        };
        if let Some(outcome) = work.outcome(item) {
            if share.push(Outcome { number, outcome }).is_err() {
                return share;
            }
        }
    }
    share
}

/// Gives the thread its share of the items.
fn fill<T, X: Drop, W: Work<T, X>>(
    alloc: Global,
    queue: &Queue<'_, T>,
    work: &W,
    share: &mut Vec<Outcome<X>>,
)
    ensures { AllByRecursion (IsOutcomeIn (W.is_outcome work.now) queue.now.items.now) share.new.items }
{
    *share = share_of(alloc, queue, work);
}

/// Has the items worked on by at most so many threads, of which each fills a place with its share.
fn fill_all<R: Threads + Sync, T: Sync, X: Send + Drop, W: Work<T, X> + Sync>(
    rt: &R,
    alloc: Global,
    queue: &Queue<'_, T>,
    work: &W,
    shares: &mut [Vec<Outcome<X>>],
    workers: Workers,
)
    ensures { All (λ share. AllByRecursion (IsOutcomeIn (W.is_outcome work.now) queue.now.items.now) share.items)
        shares.new }
{
    thread::for_each_mut(
        rt,
        shares,
        workers.count(),
        &|_, share| { fill(alloc, queue, work, share) },
    );
}

/// So many empty shares.
fn empty_shares<X: Drop>(alloc: Global, count: usize) -> Result<Vec<Vec<Outcome<X>>>, AllocError> {
    let mut shares = Vec::new(alloc);
    for _ in 0..count {
        shares.push(Vec::new(alloc))?;
    }
    Ok(shares)
}

/// What came of each item, in its place, worked on by at most so many threads, this one among them. Each item is given
/// to one of them, the next one to whoever is done first. It is nothing where nothing came of the item, or memory was
/// refused meanwhile. Where a thread can't be started, the others do its work.
///
/// # Errors
///
/// Memory was refused.
pub fn outcomes<R: Threads + Sync, T: Sync, X: Send + Drop, W: Work<T, X> + Sync>(
    rt: &R,
    alloc: Global,
    items: &[T],
    workers: Workers,
    work: &W,
) -> Result<Vec<Option<X>>, AllocError>
    ensures { IfOk result (λ found. AreOutcomes (W.is_outcome work.now) items.now found.items) }
{
    let queue = Queue::new(items);
    let mut shares = empty_shares(alloc, workers.count().min(items.len()))?;
    fill_all(rt, alloc, &queue, work, &mut shares, workers);
    gather(alloc, items.len(), shares)
}
