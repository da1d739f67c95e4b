//! All packages, by several workers.

ghost use Rattle.std.specs.Prelude.{◌≡◌, ◌/◌, ◌≤◌, IfErr, IfOk, List, length, max};
ghost use Rattle.all_packages.specs.Progress.{slots_in};
ghost use Rattle.all_packages.specs.Reports.{AreAllCertified, AreReportsBy};
ghost use Rattle.board.specs.Answers.{state_in};
ghost use Rattle.declared_tables.specs.DeclaredTables.{declared_tables};
ghost use Rattle.imports.specs.Ranks.{IsOrder};
ghost use Rattle.imports.specs.Settling.{given_imports};
ghost use Rattle.imports.specs.Views.{packages_view, rank_of, ranked_of, rows_view};
ghost use Rattle.meaning_reports.specs.Loaded.{LoadedPackage as MeantPackage};
ghost use Rattle.declared_json.specs.DeclaredPackages.{packages_of};
ghost use Rattle.package_workers.specs.Faults.{IsFaultOf, TellsFault, fault_by};
ghost use Rattle.package_workers.specs.Naming.{Names};
ghost use Rattle.package_workers.specs.Slots.{MayBeKept};
ghost use Rattle.whole_packages.specs.LoadedViews.{HaveDistinctPaths, TellPackages};
ghost use Rattle.workers.specs.Counts.{count_of};

use crate::faults::{CheckFault, Ended, ended_by, fault_of};
use crate::gates::Gate;
use crate::judging::Judging;
use crate::naming::Naming;
use crate::results::PackageResult;
use crate::shared_board::Board;
use crate::sharing::packages_are_shared;
use crate::threads::{ThreadWork, work_all};
use crate::working::{Worker, until_over};
use all_packages::{Progress, judge_left};
use board::{Core, Outcome};
use declared_json::DeclaredPackages;
use given_packages::given_packages;
use one_package::{Alone, FileRules, Judged, Judges};
use std::alloc::{AllocError, Global};
use std::marker::Brand;
use std::sync::atomic::{AtomicBool, Ordering};
use std::sync::{Condvar, Mutex, Wait};
use std::thread::Threads;
use whole_packages::LoadedPackage;
use workers::{Free, Helpers, Workers};

/// Who judges: so many workers of this system, and what each passes before it judges a package.
#[derive(Drop)]
pub struct Crew<'c, T, G> {
    pub rt: &'c T,
    pub workers: Workers,
    pub gate: &'c G,
}

/// Keeps what is said of a package in its place, unless it is held elsewhere too.
fn keep<'a, B: Naming>(progress: &mut Progress<'a>, found: PackageResult<'a, B>)
    ensures as_many { length (slots_in progress.new) ≡ length (slots_in progress.old) }
    ensures kept { MayBeKept B.told (slots_in progress.old) → MayBeKept B.told (slots_in progress.new) }
{
    let place = found.place();
    match found.into_judged() {
        Some(judged) => progress.keep(place, judged),
        None => {}
    }
}

/// Keeps what was delivered, each in its place.
///
/// # Errors
///
/// Memory was refused.
fn keep_all<'a, B: Naming>(
    alloc: Global,
    outcomes: Vec<Option<PackageResult<'a, B>>>,
) -> Result<Progress<'a>, AllocError>
    ensures as_many { IfOk result (λ progress. length (slots_in progress) ≡ length outcomes.entry.items) }
    ensures kept { IfOk result (λ progress. MayBeKept B.told (slots_in progress)) }
{
    let mut progress = Progress::new(alloc, outcomes.len())?;
    for outcome in outcomes {
        match outcome {
            Some(found) => keep(&mut progress, found),
            None => {}
        }
    }
    Ok(progress)
}

/// Passes the gate once for each package that is not kept, since it is judged after this: one without a rank, which no
/// worker takes, and one that has to be judged anew.
fn pass_left<G: Gate>(gate: &G, progress: &Progress<'_>) {
    for place in 0..progress.results.len() {
        if progress.at(place).is_none() {
            gate.enter(place);
        }
    }
}

/// What is said of the packages, by a board on which nothing more is to be done. The gate is passed for those that are
/// judged only then.
///
/// # Errors
///
/// Memory was refused; or else not all threads could be started.
fn gathered<'a, B: Naming, R: FileRules, G: Gate>(
    alloc: Global,
    core: Core<'_, PackageResult<'a, B>>,
    ended: Ended,
    judging: &Judging<'_, 'a, R>,
    gate: &G,
) -> Result<Vec<Judged<'a>>, CheckFault>
    requires named { Names R.rules R.certificates judging.now B.packages B.rank B.told }
    ensures reports { IfOk result (λ found. (ps : List MeantPackage)
        → TellPackages ps judging.now.given.now.packages.now → HaveDistinctPaths ps
        → AreReportsBy (R.rules judging.now.rules.now (declared_tables (packages_of judging.now.outside.now))) ps
        judging.now.given.now.packages.now found.items) }
    ensures certified { IfOk result (λ found. (ps : List MeantPackage)
        → TellPackages ps judging.now.given.now.packages.now → HaveDistinctPaths ps
        → AreAllCertified (R.rules judging.now.rules.now (declared_tables (packages_of judging.now.outside.now)))
        (R.certificates judging.now.rules.now) ps found.items) }
    ensures fault { TellsFault (fault_by (state_in B.packages core.entry).stopped ended.lacks_memory ended.all_started)
        result }
{
    fault_of(core.is_stopped(), ended)?;
    let progress = keep_all(alloc, core.into_outcomes())?;
    pass_left(gate, &progress);
    let by = Judges {
        rules: &*judging.rules,
        hands: &Alone,
    };
    let found = judge_left(alloc, judging.given, progress, &by)?;
    Ok(found)
}

/// What workers share: the board, what each passes before it judges a package, what they judge by, and how many help
/// each of them, itself among them.
#[derive(Drop)]
struct Shared<'w, 'k, 'a, B: Naming, R, G> {
    alloc: Global,
    gate: &'w G,
    board: &'w Board<'k, 'a, B>,
    judging: &'w Judging<'w, 'a, R>,
    helpers: Workers,
}

impl<'w, 'k, 'a, B: Naming, R: FileRules, G: Gate> ThreadWork for Shared<'w, 'k, 'a, B, R, G> {
    ghost ready = { λ shared. Names R.rules R.certificates shared.judging.now B.packages B.rank B.told };

    fn work<T: Threads + Wait>(&self, rt: &T, number: usize) {
        let helpers = Helpers {
            rt,
            count: self.helpers,
            gate: &Free,
        };
        let worker = Worker {
            number,
            helpers: &helpers,
            gate: self.gate,
            board: self.board,
        };
        drop(until_over(self.alloc, &worker, self.judging))
    }
}

/// How many help each of so many workers that judge so many packages, itself among them: they share the threads.
fn helpers_of(workers: Workers, packages: usize) -> Workers
    ensures { 1 ≤ packages → count_of result ≡ max 1 (count_of workers / packages) }
{
    if packages == 0 {
        return Workers::one();
    }
    let share = (workers.count() / packages).max(1);
    match Workers::new(share) {
        Some(helpers) => helpers,
        None => Workers::one(),
    }
}

/// Lets so many workers judge what the board has, and says whether each of them could be started. When it returns
/// nothing more is to be done, and nobody else has the board.
fn all_work<
    'a,
    B: Naming + Send + Sync,
    R: FileRules + Send + Sync,
    T: Threads + Wait + Sync,
    G: Gate + Sync,
>(
    alloc: Global,
    crew: &Crew<'_, T, G>,
    board: &Board<'_, 'a, B>,
    judging: &Judging<'_, 'a, R>,
) -> bool
    requires named { Names R.rules R.certificates judging.now B.packages B.rank B.told }
{
    let packages = judging.given.packages.len();
    let helpers = Helpers {
        rt: crew.rt,
        count: helpers_of(crew.workers, packages),
        gate: &Free,
    };
    let shared = Shared {
        alloc,
        gate: crew.gate,
        board,
        judging,
        helpers: helpers.count,
    };
    let count = crew.workers.count().min(packages);
    // That threads may share all this is proved by it.
    packages_are_shared();
    let all_started = work_all(crew.rt, &shared, count);
    // The thread that asked waits once more, as a worker that gets nothing.
    let last = Worker {
        number: 0,
        helpers: &helpers,
        gate: crew.gate,
        board,
    };
    drop(until_over(alloc, &last, judging));
    all_started
}

/// Judges the packages that `B` names, by so many workers.
///
/// # Errors
///
/// Memory was refused, or else a thread could not be started.
fn check_named<
    'a,
    B: Naming + Send + Sync,
    R: FileRules + Send + Sync,
    T: Threads + Wait + Sync,
    G: Gate + Sync,
>(
    alloc: Global,
    crew: &Crew<'_, T, G>,
    judging: &Judging<'_, 'a, R>,
) -> Result<Vec<Judged<'a>>, CheckFault>
    requires named { Names R.rules R.certificates judging.now B.packages B.rank B.told }
    requires rows { rows_view judging.now.given.now.imports.items
        ≡ given_imports (packages_view judging.now.given.now.lists.items) }
    requires order { IsOrder (packages_view judging.now.given.now.lists.items) (rank_of judging.now.given.now.order)
        (ranked_of judging.now.given.now.order) }
    ensures reports { IfOk result (λ found. (ps : List MeantPackage)
        → TellPackages ps judging.now.given.now.packages.now → HaveDistinctPaths ps
        → AreReportsBy (R.rules judging.now.rules.now (declared_tables (packages_of judging.now.outside.now))) ps
        judging.now.given.now.packages.now found.items) }
    ensures certified { IfOk result (λ found. (ps : List MeantPackage)
        → TellPackages ps judging.now.given.now.packages.now → HaveDistinctPaths ps
        → AreAllCertified (R.rules judging.now.rules.now (declared_tables (packages_of judging.now.outside.now)))
        (R.certificates judging.now.rules.now) ps found.items) }
    ensures fault { IfErr result
        (IsFaultOf (count_of crew.now.workers) (length judging.now.given.now.packages.now)) }
{
    let core = Core::new(alloc, &judging.given.imports, &judging.given.order)?;
    let board: Board<'_, '_, B> = Board {
        core: Mutex::new(core),
        ready: Condvar::new(),
        lacks_memory: AtomicBool::new(false),
    };
    let all_started = all_work(alloc, crew, &board, judging);
    let lacks_memory = board.lacks_memory.load(Ordering::SeqCst);
    let noted = Ended {
        all_started,
        lacks_memory,
    };
    let ended = ended_by(crew.workers, judging.given.packages.len(), noted);
    let Board { core, .. } = board;
    gathered(alloc, core.into_inner(), ended, judging, crew.gate)
}

/// Judges packages of different paths, and their files by these rules, where this is declared of packages that are not
/// given, by so many workers: what is to be said of each, in their order, what is known of its functions, and the
/// certificates of its bodies, if the rules make some. It promises what `check_by_rules` does. A package is judged once
/// all that it imports was judged. Where there are more workers than packages, those that are over help with the bodies
/// of each package. One worker starts no thread. The gate is passed once before each package, and again where one has
/// to be judged anew.
///
/// # Errors
///
/// Memory was refused; or else a thread could not be started, which one worker does not need. Then the packages were
/// judged by the other threads, or given back, and what was found is let go.
pub fn check_by_workers<'a, R: FileRules + Send + Sync, T: Threads + Wait + Sync, G: Gate + Sync>(
    alloc: Global,
    crew: Crew<'_, T, G>,
    packages: &'a [LoadedPackage],
    outside: &'a DeclaredPackages,
    rules: &R,
) -> Result<Vec<Judged<'a>>, CheckFault>
    ensures reports { IfOk result (λ found. (ps : List MeantPackage) → TellPackages ps packages.now
        → HaveDistinctPaths ps
        → AreReportsBy (R.rules rules.now (declared_tables (packages_of outside.now))) ps packages.now found.items) }
    ensures certified { IfOk result (λ found. (ps : List MeantPackage) → TellPackages ps packages.now
        → HaveDistinctPaths ps
        → AreAllCertified (R.rules rules.now (declared_tables (packages_of outside.now))) (R.certificates rules.now) ps
        found.items) }
    ensures fault { IfErr result (IsFaultOf (count_of crew.entry.workers) (length packages.now)) }
{
    let given = given_packages(alloc, packages, outside)?;
    let judging = Judging {
        given: &given,
        outside,
        rules,
    };
    check_named::<Brand, R, T, G>(alloc, &crew, &judging)
}
