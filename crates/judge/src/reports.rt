//! The report of given packages.

ghost use Rattle.std.specs.Prelude.{IfErr, IfOk, length};
ghost use Rattle.told_reports.specs.Reports.{TellsReport};
ghost use Rattle.declared_tables.specs.DeclaredTables.{declared_tables};
ghost use Rattle.judge.specs.CheckFaults.{IsCheckFault};
ghost use Rattle.judge.specs.NotGiven.{AreNotGiven, TellNotGiven};
ghost use Rattle.judge.specs.Reports.{IsReport};
ghost use Rattle.load.specs.LoadedBeside.{IsLoadFaultBeside};
ghost use Rattle.declared_json.specs.DeclaredPackages.{packages_of};
ghost use Rattle.package_workers.specs.Faults.{IsFaultOf};
ghost use Rattle.workers.specs.Counts.{count_of};

use crate::check_fault::{CheckFault, of_workers};
use crate::not_given::{NotedReport, not_given};
use accepting::Telling;
use all_certificates::Settings;
use all_packages::check_by_rules;
use declared_json::DeclaredPackages;
use load::{GivenPackage, Leave, LoadFault, Loaded, load_beside, load_beside_by_workers};
use one_package::ByPaths;
use package_workers::{CheckFault as WorkersFault, Crew, Open, check_by_workers};
use std::alloc::{AllocError, Global};
use std::sync::Wait;
use std::thread::Threads;
use told_reports::{Report, told};
use whole_packages::LoadedPackage;

/// The report of packages of different paths, where that is declared of others.
fn whole_report(
    alloc: Global,
    packages: &[LoadedPackage],
    outside: &DeclaredPackages,
    telling: Telling<'_>,
) -> Result<Report, AllocError>
    ensures { IfOk result (TellsReport telling.entry (declared_tables (packages_of outside.now)) packages.now) }
{
    let judged = check_by_rules(alloc, packages, outside, &ByPaths)?;
    told(alloc, telling, judged)
}

/// The report of packages of different paths, which are let go.
fn report_loaded(alloc: Global, loaded: Loaded, telling: Telling<'_>) -> Result<Report, AllocError>
    ensures { IfOk result
        (TellsReport telling.entry (declared_tables (packages_of loaded.outside)) loaded.packages.items) }
{
    let told = whole_report(alloc, &loaded.packages, &loaded.outside, telling);
    loaded.release();
    told
}

/// The report of packages of different paths by so many workers, where that is declared of others, and which of them
/// count as not given.
fn whole_report_by_workers<R: Threads + Wait + Sync>(
    rt: &R,
    alloc: Global,
    packages: &[LoadedPackage],
    outside: &DeclaredPackages,
    settings: Settings<'_>,
) -> Result<NotedReport, WorkersFault>
    ensures report { IfOk result (λ noted.
        TellsReport settings.entry.telling (declared_tables (packages_of outside.now)) packages.now noted.report) }
    ensures not_given { IfOk result (λ noted. TellNotGiven packages.now noted.not_given.items) }
    ensures fault { IfErr result (IsFaultOf (count_of settings.entry.workers) (length packages.now)) }
{
    let crew = Crew {
        rt,
        workers: settings.workers,
        gate: &Open,
    };
    let judged = check_by_workers(alloc, crew, packages, outside, &ByPaths)?;
    let not_given = not_given(alloc, packages)?;
    let report = told(alloc, settings.telling, judged)?;
    Ok(NotedReport { report, not_given })
}

/// The same, where `L` says what becomes of the packages then.
fn report_loaded_by_workers<R: Threads + Wait + Sync, L: Leave>(
    rt: &R,
    alloc: Global,
    loaded: Loaded,
    settings: Settings<'_>,
) -> Result<NotedReport, WorkersFault>
    ensures report { IfOk result (λ noted. TellsReport settings.entry.telling
        (declared_tables (packages_of loaded.outside)) loaded.packages.items noted.report) }
    ensures not_given { IfOk result (λ noted. TellNotGiven loaded.packages.items noted.not_given.items) }
    ensures fault { IfErr result (IsFaultOf (count_of settings.entry.workers) (length loaded.packages.items)) }
{
    let report = whole_report_by_workers(rt, alloc, &loaded.packages, &loaded.outside, settings);
    L::leave(loaded);
    report
}

/// The report of these packages in this format, in the order of their paths, where that is declared of others. No
/// thread is started.
///
/// A yes speaks of runs in which what is declared is true, and in which a function without a body starts work in a
/// group that it was lent only before it returns (`YesAreQuiet` in `specs/QuietYes.antt`).
///
/// # Errors
///
/// There are more than 10,000 packages, or more than 4,294,967,295 files of one; two packages have one path; something
/// is declared of one of them; or memory was refused. This is the order in which it is looked for them.
pub fn report_of(
    alloc: Global,
    given: Vec<GivenPackage>,
    outside: DeclaredPackages,
    telling: Telling<'_>,
) -> Result<Report, LoadFault>
    ensures report { IfOk result (IsReport telling.entry (packages_of outside) given.items) }
    ensures fault { IfErr result (IsLoadFaultBeside given.items (packages_of outside)) }
{
    let loaded = load_beside(alloc, given, outside)?;
    Ok(report_loaded(alloc, loaded, telling)?)
}

/// The same report, in the format of the settings, for any number of workers, and a yes says the same; and for notes
/// which packages count as not given. So many threads read the files, and then judge the packages; with one worker no
/// thread is started. Where a thread can't be started that should read files, the others do its work. What becomes of
/// the packages, once they were judged, `L` says.
///
/// # Errors
///
/// As `report_of`; once the packages are loaded, a thread that should judge them, or help to, can't be started. One
/// worker needs none.
pub fn report_by_workers<R: Threads + Wait + Sync, L: Leave>(
    rt: &R,
    alloc: Global,
    given: Vec<GivenPackage>,
    outside: DeclaredPackages,
    settings: Settings<'_>,
) -> Result<NotedReport, CheckFault>
    ensures report { IfOk result (λ noted.
        IsReport settings.entry.telling (packages_of outside) given.items noted.report) }
    ensures not_given { IfOk result (λ noted. AreNotGiven (packages_of outside) given.items noted.not_given.items) }
    ensures fault { IfErr result (IsCheckFault (packages_of outside) given.items (count_of settings.entry.workers)) }
{
    let loaded = match load_beside_by_workers(rt, alloc, given, outside, settings.workers) {
        Ok(loaded) => loaded,
        Err(fault) => return Err(CheckFault::NotLoaded(fault)),
    };
    match report_loaded_by_workers::<R, L>(rt, alloc, loaded, settings) {
        Ok(report) => Ok(report),
        Err(fault) => Err(of_workers(fault)),
    }
}
