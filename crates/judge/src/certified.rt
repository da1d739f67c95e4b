//! The report of given packages with their certificates as a text.

ghost use Rattle.std.specs.Prelude.{IfErr, IfOk, length, string_bytes};
ghost use Rattle.declared_tables.specs.DeclaredTables.{declared_tables};
ghost use Rattle.judge.specs.CheckFaults.{IsCheckFault};
ghost use Rattle.judge.specs.Certified.{IsCertifiedReport, TellsCertifiedText};
ghost use Rattle.judge.specs.NotGiven.{AreNotGiven, TellNotGiven};
ghost use Rattle.declared_json.specs.DeclaredPackages.{packages_of};
ghost use Rattle.package_workers.specs.Faults.{IsFaultOf};
ghost use Rattle.workers.specs.Counts.{count_of};

use crate::check_fault::{CheckFault, of_workers};
use crate::not_given::not_given;
use all_certificates::{Certified, Settings};
use certificate_json::to_json;
use declared_json::DeclaredPackages;
use load::{GivenPackage, Leave, Loaded, load_beside_by_workers};
use package_workers::CheckFault as WorkersFault;
use std::alloc::Global;
use std::sync::Wait;
use std::thread::Threads;
use told_reports::Report;
use whole_packages::LoadedPackage;

/// The report of packages, and the text of their certificates; and for notes the paths of those that count as not given
/// and that one of the packages imports.
#[derive(Debug, Drop)]
pub struct CertifiedReport {
    pub report: Report,
    pub certificates: String,
    pub not_given: Vec<String>,
}

/// The report and the certificates of packages of different paths, where that is declared of others, by so many
/// workers.
fn certified_text_of<R: Threads + Wait + Sync>(
    rt: &R,
    alloc: Global,
    packages: &[LoadedPackage],
    outside: &DeclaredPackages,
    settings: Settings<'_>,
) -> Result<CertifiedReport, WorkersFault>
    ensures certified { IfOk result
        (TellsCertifiedText settings.entry.telling (declared_tables (packages_of outside.now)) packages.now) }
    ensures not_given { IfOk result (λ told. TellNotGiven packages.now told.not_given.items) }
    ensures fault { IfErr result (IsFaultOf (count_of settings.entry.workers) (length packages.now)) }
{
    let Certified {
        report,
        certificates,
    } = all_certificates::certified_report_by_workers(rt, alloc, packages, outside, settings)?;
    let certificates = to_json(alloc, &certificates)?;
    let not_given = not_given(alloc, packages)?;
    Ok(CertifiedReport {
        report,
        certificates,
        not_given,
    })
}

/// The same, where `L` says what becomes of the packages then.
fn certified_loaded<R: Threads + Wait + Sync, L: Leave>(
    rt: &R,
    alloc: Global,
    loaded: Loaded,
    settings: Settings<'_>,
) -> Result<CertifiedReport, WorkersFault>
    ensures certified { IfOk result
        (TellsCertifiedText settings.entry.telling
        (declared_tables (packages_of loaded.outside)) loaded.packages.items) }
    ensures not_given { IfOk result (λ told. TellNotGiven loaded.packages.items told.not_given.items) }
    ensures fault { IfErr result (IsFaultOf (count_of settings.entry.workers) (length loaded.packages.items)) }
{
    let told = certified_text_of(rt, alloc, &loaded.packages, &loaded.outside, settings);
    L::leave(loaded);
    told
}

/// The report of these packages, in the format of the settings and the order of their paths, where that is declared of
/// others, and the text of their certificates: both are the same for any number of workers. A yes says the same as one
/// of `report_of`. So many threads read the files, and then judge the packages. What becomes of these, once they were
/// judged, `L` says.
///
/// # Errors
///
/// As `report_by_workers`.
pub fn certified_report_by_workers<R: Threads + Wait + Sync, L: Leave>(
    rt: &R,
    alloc: Global,
    given: Vec<GivenPackage>,
    outside: DeclaredPackages,
    settings: Settings<'_>,
) -> Result<CertifiedReport, CheckFault>
    ensures report { IfOk result (λ told. IsCertifiedReport settings.entry.telling (packages_of outside) given.items
        told.report (string_bytes told.certificates)) }
    ensures not_given { IfOk result (λ told. AreNotGiven (packages_of outside) given.items told.not_given.items) }
    ensures fault { IfErr result (IsCheckFault (packages_of outside) given.items (count_of settings.entry.workers)) }
{
    let loaded = match load_beside_by_workers(rt, alloc, given, outside, settings.workers) {
        Ok(loaded) => loaded,
        Err(fault) => return Err(CheckFault::NotLoaded(fault)),
    };
    match certified_loaded::<R, L>(rt, alloc, loaded, settings) {
        Ok(told) => Ok(told),
        Err(fault) => Err(of_workers(fault)),
    }
}
