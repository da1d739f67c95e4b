//! Work that the threads of a scope share.

use std::sync::Wait;
use std::thread;
use std::thread::Threads;

/// What each of several threads does, by its number. What they share may be large: a thread is started here over what
/// its type promises alone.
pub trait ThreadWork {
    /// What is asked before a thread begins.
    ghost ready: { Self → Type 0 };

    /// Does what is to be done by the thread of that number.
    fn work<T: Threads + Wait>(&self, rt: &T, number: usize)
        requires { ready self.now };
}

/// Lets so many threads work, this one among them, and says whether each of them could be started. It returns when they
/// have ended.
pub fn work_all<S: ThreadWork + Sync, T: Threads + Wait + Sync>(
    rt: &T,
    shared: &S,
    count: usize,
) -> bool
    requires { S.ready shared.now }
{
    thread::scope(
        thread::scope_env(),
        rt,
        |scope| -> bool
            requires { S.ready shared.now }
        {
            let mut all_started = true;
            for number in 1..count {
                let work = move ||
                    requires { S.ready shared.now }
                { shared.work(rt, number) };
                if scope.spawn(work).is_err() {
                    all_started = false;
                    break;
                }
            }
            shared.work(rt, 0);
            all_started
        },
    )
}
