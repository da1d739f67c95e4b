//! Items that several threads take, one after the other.

ghost use Rattle.std.specs.Prelude.{◌≡◌, IfSome, Some, slice_get};

use std::sync::atomic::{AtomicUsize, Ordering};

/// Items, and how many of them were taken.
#[derive(Drop)]
pub struct Queue<'q, T> {
    pub items: &'q [T],
    taken: AtomicUsize,
}

/// An item, with its number in the queue.
#[derive(Clone, Copy)]
pub struct Taken<'q, T> {
    pub number: usize,
    pub item: &'q T,
}

impl<'q, T> Queue<'q, T> {
    /// A queue of which nothing was taken.
    pub fn new(items: &'q [T]) -> Queue<'q, T>
        ensures { result.items.now ≡ items.now }
    {
        Queue {
            items,
            taken: AtomicUsize::new(0),
        }
    }

    /// The next item, unless all were taken. Each call, in whatever thread, takes another one.
    pub fn take(&self) -> Option<Taken<'q, T>>
        ensures { IfSome result (λ taken. slice_get self.now.items.now taken.number ≡ Some taken.item.now) }
    {
        let number = self.taken.fetch_add(1, Ordering::SeqCst);
        match self.items.get(number) {
            Some(item) => Some(Taken { number, item }),
            None => None,
        }
    }
}
