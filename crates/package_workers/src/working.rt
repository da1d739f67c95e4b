//! One worker.

ghost use Rattle.std.specs.Prelude.{◌≡◌, IfErr, IfOk, IfSome};
ghost use Rattle.std.specs.Sync.Mutex.{mutex_guard_value};
ghost use Rattle.board.specs.Answers.{state_in, IsOver};
ghost use Rattle.board.specs.Legal.{AreImportsIn};
ghost use Rattle.imports.specs.Views.{packages_view};
ghost use Rattle.package_workers.specs.Idle.{OnOver};
ghost use Rattle.package_workers.specs.Jobs.{IsJob};
ghost use Rattle.package_workers.specs.Naming.{Names};

use crate::gates::Gate;
use crate::jobs::Job;
use crate::judging::{Judging, judge};
use crate::naming::Naming;
use crate::results::PackageResult;
use crate::shared_board::Board;
use board::{Core, Task};
use given_packages::Given;
use one_package::FileRules;
use std::alloc::{AllocError, Global};
use std::sync::{MutexGuard, Wait};
use std::thread::Threads;
use workers::{Free, Helpers, PieceFault};

/// Why a worker has nothing to judge.
#[derive(Clone, Copy)]
pub enum Idle {
    /// Something is to come.
    Waits,
    /// It gave its package back, for want of memory.
    GaveBack,
    /// There is nothing more to do.
    Ends,
}

/// A worker: its number, those that help it with a package, itself among them, what it passes before it judges, and the
/// board that it shares with others.
#[derive(Drop)]
pub struct Worker<'w, 'k, 'a, B: Naming, T, G> {
    pub number: usize,
    pub helpers: &'w Helpers<'w, T, Free>,
    pub gate: &'w G,
    pub board: &'w Board<'k, 'a, B>,
}

/// What is to be known to judge the package at that place. Nothing, for want of memory.
fn job_of<'g, 'a, B: Naming>(
    alloc: Global,
    core: &Core<'_, PackageResult<'a, B>>,
    given: &'g Given<'a>,
    place: usize,
) -> Option<Job<'g, 'a, B>>
    requires packages { packages_view given.now.lists.items ≡ B.packages }
    requires imports { AreImportsIn B.packages (state_in B.packages core.now).phases place }
    ensures job { IfSome result (IsJob B.packages given.now.packages.now given.now.lists.items) }
    ensures at { IfSome result (λ job. job.place ≡ place) }
{
    let loaded = given.packages.get(place)?;
    let list = given.lists.get(place)?;
    let imported = core.imported(alloc, place).ok()?;
    Some(Job {
        place,
        loaded,
        list,
        imported,
    })
}

/// What the worker does next, while it has the board. It takes the package that it is to judge.
fn step<'g, 'a, B: Naming>(
    alloc: Global,
    core: &mut Core<'_, PackageResult<'a, B>>,
    given: &'g Given<'a>,
    worker: usize,
) -> Result<Job<'g, 'a, B>, Idle>
    requires { packages_view given.now.lists.items ≡ B.packages }
    ensures job { IfOk result (IsJob B.packages given.now.packages.now given.now.lists.items) }
    ensures over { IfErr result (OnOver (IsOver B.rank (state_in B.packages core.new))) }
{
    match core.take(worker) {
        Task::Work(place) => match job_of(alloc, core, given, place) {
            Some(job) => Ok(job),
            None => {
                // The worker took it just now, so this is not refused.
                let _ = core.back(worker, place);
                Err(Idle::GaveBack)
            }
        },
        Task::Wait => Err(Idle::Waits),
        Task::Over => Err(Idle::Ends),
    }
}

/// Judges a package, and delivers what is said of it, or gives it back for want of memory or of a thread. The worker
/// has the board only once it has judged.
fn finish<'a, B: Naming, R: FileRules, T: Threads + Wait, G: Gate>(
    alloc: Global,
    worker: &Worker<'_, '_, 'a, B, T, G>,
    judging: &Judging<'_, 'a, R>,
    job: Job<'_, 'a, B>,
)
    requires named { Names R.rules R.certificates judging.now B.packages B.rank B.told }
    requires job { IsJob B.packages judging.now.given.now.packages.now judging.now.given.now.lists.items job }
{
    worker.gate.enter(job.place);
    // The worker took the package, and nobody else may close it: so neither call is refused.
    let (board, rt) = (worker.board, worker.helpers.rt);
    match judge(alloc, worker.helpers, judging, &job) {
        Ok(found) => {
            let _ = board.core.lock(rt).deliver(worker.number, found);
        }
        Err(fault) => {
            board.note(fault);
            let _ = board.core.lock(rt).back(worker.number, job.place);
        }
    }
    board.ready.notify_all();
}

/// Judges packages until there is nothing more to do, and has the board then.
pub fn until_over<'w, 'k, 'a, B: Naming, R: FileRules, T: Threads + Wait, G: Gate>(
    alloc: Global,
    worker: &Worker<'w, 'k, 'a, B, T, G>,
    judging: &Judging<'_, 'a, R>,
) -> MutexGuard<'w, Core<'k, PackageResult<'a, B>>>
    requires named { Names R.rules R.certificates judging.now B.packages B.rank B.told }
    ensures { IsOver B.rank (state_in B.packages (mutex_guard_value result)) }
{
    let (board, rt) = (worker.board, worker.helpers.rt);
    for _ in rt.forever() {
        let mut core = board.core.lock(rt);
        match step(alloc, &mut core, judging.given, worker.number) {
            Ok(job) => {
                drop(core);
                finish(alloc, worker, judging, job);
            }
            Err(Idle::Waits) => drop(board.ready.wait(rt, core)),
            Err(Idle::GaveBack) => {
                board.note(PieceFault::Memory);
                board.ready.notify_all()
            }
            Err(Idle::Ends) => return core,
        }
    }
    unreachable!()
}
