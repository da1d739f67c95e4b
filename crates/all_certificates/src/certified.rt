//! A report with certificates.

ghost use Rattle.std.specs.Prelude.{IfErr, IfOk, length};
ghost use Rattle.all_certificates.specs.CertifiedReports.{TellsCertified};
ghost use Rattle.declared_tables.specs.DeclaredTables.{declared_tables};
ghost use Rattle.declared_json.specs.DeclaredPackages.{packages_of};
ghost use Rattle.package_workers.specs.Faults.{IsFaultOf};
ghost use Rattle.workers.specs.Counts.{count_of};

use crate::certifying::Certifying;
use crate::packages::{CertifiedPackages, certified_packages};
use crate::settings::Settings;
use certificate_json::Certificates;
use declared_json::DeclaredPackages;
use package_workers::{CheckFault, Crew, Open, check_by_workers};
use std::alloc::Global;
use std::sync::Wait;
use std::thread::Threads;
use told_reports::{Report, report_from};
use whole_packages::LoadedPackage;

/// The report of packages, and their certificates.
#[derive(Drop)]
pub struct Certified {
    pub report: Report,
    pub certificates: Certificates,
}

/// Lets so many workers judge packages of different paths by the paths of bodies, where this is declared of packages
/// that are not given, and tells what is to be said of them, in the format of the settings, with their certificates:
/// the same for any number of workers. Certificates are made while a package is judged, so that nothing is told of it a
/// second time.
///
/// # Errors
///
/// As of `check_by_workers`.
pub fn certified_report_by_workers<R: Threads + Wait + Sync>(
    rt: &R,
    alloc: Global,
    packages: &[LoadedPackage],
    outside: &DeclaredPackages,
    settings: Settings<'_>,
) -> Result<Certified, CheckFault>
    ensures certified { IfOk result
        (TellsCertified settings.entry.telling (declared_tables (packages_of outside.now)) packages.now) }
    ensures fault { IfErr result (IsFaultOf (count_of settings.entry.workers) (length packages.now)) }
{
    let crew = Crew {
        rt,
        workers: settings.workers,
        gate: &Open,
    };
    let judged = check_by_workers(alloc, crew, packages, outside, &Certifying)?;
    let CertifiedPackages {
        reports,
        certificates,
    } = certified_packages(alloc, packages, judged)?;
    let report = report_from(alloc, settings.telling, &reports)?;
    Ok(Certified {
        report,
        certificates,
    })
}
