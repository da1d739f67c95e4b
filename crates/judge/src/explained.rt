//! The report of given packages, and its text with the notes that say why each finding stands there.

ghost use Rattle.std.specs.Prelude.{IfErr, IfOk, length};
ghost use Rattle.declared_tables.specs.DeclaredTables.{declared_tables};
ghost use Rattle.judge.specs.CheckFaults.{IsCheckFault};
ghost use Rattle.judge.specs.Explained.{IsExplainedReport, TellsExplained};
ghost use Rattle.judge.specs.NotGiven.{AreNotGiven, TellNotGiven};
ghost use Rattle.declared_json.specs.DeclaredPackages.{packages_of};
ghost use Rattle.package_workers.specs.Faults.{IsFaultOf};
ghost use Rattle.workers.specs.Counts.{count_of};

use crate::check_fault::{CheckFault, of_workers};
use crate::not_given::not_given;
use all_certificates::Settings;
use declared_json::DeclaredPackages;
use explanations::explain;
use load::{GivenPackage, Leave, Loaded, load_beside_by_workers};
use one_package::ByPaths;
use package_workers::{CheckFault as WorkersFault, Crew, Open, check_by_workers};
use std::alloc::Global;
use std::sync::Wait;
use std::thread::Threads;
use told_reports::{Report, explained_text, told};
use whole_packages::LoadedPackage;

/// The report of packages, and its text with the notes of each finding; and for notes of the run the paths of those
/// that count as not given and that one of the packages imports.
#[derive(Debug, Drop)]
pub struct ExplainedReport {
    pub report: Report,
    pub text: Vec<u8>,
    pub not_given: Vec<String>,
}

/// The report of packages of different paths, and its text with the notes, by so many workers, where that is declared
/// of others.
fn explained_text_of<R: Threads + Wait + Sync>(
    rt: &R,
    alloc: Global,
    packages: &[LoadedPackage],
    outside: &DeclaredPackages,
    settings: Settings<'_>,
) -> Result<ExplainedReport, WorkersFault>
    ensures explained { IfOk result
        (TellsExplained settings.entry.telling (declared_tables (packages_of outside.now)) packages.now) }
    ensures not_given { IfOk result (λ told. TellNotGiven packages.now told.not_given.items) }
    ensures fault { IfErr result (IsFaultOf (count_of settings.entry.workers) (length packages.now)) }
{
    let crew = Crew {
        rt,
        workers: settings.workers,
        gate: &Open,
    };
    let judged = check_by_workers(alloc, crew, packages, outside, &ByPaths)?;
    let explained = explain(alloc, packages, outside, &judged)?;
    let text = explained_text(alloc, settings.telling, explained)?;
    let not_given = not_given(alloc, packages)?;
    let report = told(alloc, settings.telling, judged)?;
    Ok(ExplainedReport {
        report,
        text,
        not_given,
    })
}

/// The same, where `L` says what becomes of the packages then.
fn explained_loaded<R: Threads + Wait + Sync, L: Leave>(
    rt: &R,
    alloc: Global,
    loaded: Loaded,
    settings: Settings<'_>,
) -> Result<ExplainedReport, WorkersFault>
    ensures explained { IfOk result
        (TellsExplained settings.entry.telling (declared_tables (packages_of loaded.outside)) loaded.packages.items) }
    ensures not_given { IfOk result (λ told. TellNotGiven loaded.packages.items told.not_given.items) }
    ensures fault { IfErr result (IsFaultOf (count_of settings.entry.workers) (length loaded.packages.items)) }
{
    let explained = explained_text_of(rt, alloc, &loaded.packages, &loaded.outside, settings);
    L::leave(loaded);
    explained
}

/// The report of these packages, in the format of the settings and the order of their paths, where that is declared of
/// others, and its text with the notes of each finding: the text says all that the report says, and below each finding
/// why it stands there. Both are the same for any number of workers. A yes says the same as one of `report_of`. So many
/// threads read the files, and then judge the packages. What becomes of these, once they were judged, `L` says.
///
/// # Errors
///
/// As `report_by_workers`.
pub fn explained_report_by_workers<R: Threads + Wait + Sync, L: Leave>(
    rt: &R,
    alloc: Global,
    given: Vec<GivenPackage>,
    outside: DeclaredPackages,
    settings: Settings<'_>,
) -> Result<ExplainedReport, CheckFault>
    ensures report { IfOk result (IsExplainedReport settings.entry.telling (packages_of outside) given.items) }
    ensures not_given { IfOk result (λ told. AreNotGiven (packages_of outside) given.items told.not_given.items) }
    ensures fault { IfErr result (IsCheckFault (packages_of outside) given.items (count_of settings.entry.workers)) }
{
    let loaded = match load_beside_by_workers(rt, alloc, given, outside, settings.workers) {
        Ok(loaded) => loaded,
        Err(fault) => return Err(CheckFault::NotLoaded(fault)),
    };
    match explained_loaded::<R, L>(rt, alloc, loaded, settings) {
        Ok(told) => Ok(told),
        Err(fault) => Err(of_workers(fault)),
    }
}
