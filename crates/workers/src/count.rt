//! How many threads share some work.

ghost use Rattle.std.specs.Prelude.{◌≡◌, ◌<◌, ◌≤◌, ◌⊎◌, IfNone, IfSome};
ghost use Rattle.workers.specs.declared.count.TheConstants.{MOST_WORKERS};

/// The most threads that share some work.
pub const MOST_WORKERS: usize = 64;

/// How many threads share some work, the one that asks for it among them: from 1 to 64.
#[derive(Clone, Copy, Debug)]
pub struct Workers {
    count: usize,
    ghost some: { 1 ≤ count },
    ghost few: { count ≤ MOST_WORKERS },
}

impl Workers {
    ghost use Rattle.workers.specs.Counts.{count_of};

    /// The thread that asks for the work does all of it.
    pub fn one() -> Workers
        ensures { count_of result ≡ 1 }
    {
        Workers { count: 1 }
    }

    /// So many, where there may be so many.
    pub fn new(count: usize) -> Option<Workers>
        ensures some { IfSome result (λ workers. count_of workers ≡ count) }
        ensures none { IfNone result ((count < 1) ⊎ (MOST_WORKERS < count)) }
    {
        if 1 <= count && count <= MOST_WORKERS {
            Some(Workers { count })
        } else {
            None
        }
    }

    /// How many there are.
    pub fn count(self) -> usize
        ensures count { result ≡ count_of self }
        ensures some { 1 ≤ result }
        ensures few { result ≤ MOST_WORKERS }
    {
        self.count
    }
}
