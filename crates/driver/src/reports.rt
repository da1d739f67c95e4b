//! The reports of given packages, with the faults that the program tells.

ghost use Rattle.std.specs.Prelude.{◌≡◌, [], IfErr, IfOk, string_bytes};
ghost use Rattle.driver.specs.Faults.{fault_of_check, fault_of_verify, IsReportFault, IsSharedReportFault, IsVerdictFault};
ghost use Rattle.judge.specs.Certified.{IsCertifiedReport};
ghost use Rattle.judge.specs.Explained.{IsExplainedReport};
ghost use Rattle.judge.specs.Reports.{IsReport};
ghost use Rattle.judge.specs.Verified.{IsVerifiedReport};
ghost use Rattle.declared_json.specs.DeclaredPackages.{packages_of};
ghost use Rattle.workers.specs.Counts.{count_of};

use certificate_json::Certificates;
use declared_json::DeclaredPackages;
use folders::Fault;
use inputs::{fault_of_load, nothing_declared};
use judge::{
    CertifiedReport, CheckFault, ExplainedReport, NotedReport, Report, Settings, Telling,
    VerifyFault,
};
use load::{GivenPackage, Leave};
use std::alloc::Global;
use std::sync::Wait;
use std::thread::Threads;

/// The report of these packages, in the order of their paths, where nothing is declared of others. No thread is
/// started.
///
/// # Errors
///
/// There are more than 10,000 packages, or more than 4,294,967,295 files of one; two packages have one path; or memory
/// was refused.
pub fn report_of(
    alloc: Global,
    given: Vec<GivenPackage>,
    telling: Telling<'_>,
) -> Result<Report, Fault>
    ensures report { IfOk result (IsReport telling.entry [] given.items) }
    ensures fault { IfErr result (IsReportFault [] given.items) }
{
    match judge::report_of(alloc, given, nothing_declared(alloc), telling) {
        Ok(report) => Ok(report),
        Err(fault) => Err(fault_of_load(fault)),
    }
}

/// Why packages are not judged by several threads, as the program tells it.
fn fault_of_check(fault: CheckFault) -> Fault
    ensures { result ≡ fault_of_check fault }
{
    match fault {
        CheckFault::NotLoaded(fault) => fault_of_load(fault),
        CheckFault::NoThread => Fault::NoThread,
    }
}

/// The report of these packages with what is declared of others, the same for any number of workers. So many threads
/// read the files, and then judge the packages.
///
/// # Errors
///
/// As `report_of`; after these faults, something is declared of a package that is given; after that, a thread that
/// should judge packages can't be started. One worker needs none.
pub fn report_by_workers<R: AllocGlobal + Threads + Wait + Sync, L: Leave>(
    rt: &R,
    given: Vec<GivenPackage>,
    outside: DeclaredPackages,
    settings: Settings<'_>,
) -> Result<NotedReport, Fault>
    ensures report { IfOk result (λ told.
        IsReport settings.entry.telling (packages_of outside) given.items told.report) }
    ensures fault { IfErr result
        (IsSharedReportFault (packages_of outside) given.items (count_of settings.entry.workers)) }
{
    match judge::report_by_workers::<R, L>(rt, rt.alloc(), given, outside, settings) {
        Ok(told) => Ok(told),
        Err(fault) => Err(fault_of_check(fault)),
    }
}

/// The same report, and its text with the notes of each finding: both are the same for any number of workers. So many
/// threads read the files, and then judge the packages.
///
/// # Errors
///
/// As `report_by_workers`.
pub fn explained_report_by_workers<R: AllocGlobal + Threads + Wait + Sync, L: Leave>(
    rt: &R,
    given: Vec<GivenPackage>,
    outside: DeclaredPackages,
    settings: Settings<'_>,
) -> Result<ExplainedReport, Fault>
    ensures report { IfOk result (IsExplainedReport settings.entry.telling (packages_of outside) given.items) }
    ensures fault { IfErr result
        (IsSharedReportFault (packages_of outside) given.items (count_of settings.entry.workers)) }
{
    match judge::explained_report_by_workers::<R, L>(rt, rt.alloc(), given, outside, settings) {
        Ok(told) => Ok(told),
        Err(fault) => Err(fault_of_check(fault)),
    }
}

/// The same report, and the certificates of the packages' bodies: both are the same for any number of workers. So many
/// threads read the files, and then judge the packages.
///
/// # Errors
///
/// As `report_by_workers`.
pub fn certified_report_by_workers<R: AllocGlobal + Threads + Wait + Sync, L: Leave>(
    rt: &R,
    given: Vec<GivenPackage>,
    outside: DeclaredPackages,
    settings: Settings<'_>,
) -> Result<CertifiedReport, Fault>
    ensures report { IfOk result (λ told. IsCertifiedReport settings.entry.telling (packages_of outside) given.items
        told.report (string_bytes told.certificates)) }
    ensures fault { IfErr result
        (IsSharedReportFault (packages_of outside) given.items (count_of settings.entry.workers)) }
{
    match judge::certified_report_by_workers::<R, L>(rt, rt.alloc(), given, outside, settings) {
        Ok(told) => Ok(told),
        Err(fault) => Err(fault_of_check(fault)),
    }
}

/// Why packages are not judged by certificates, as the program tells it.
fn fault_of_verify(fault: VerifyFault) -> Fault
    ensures { result ≡ fault_of_verify fault }
{
    match fault {
        VerifyFault::NotLoaded(fault) => fault_of_load(fault),
        VerifyFault::TooOld(path) => Fault::CertificateTooOld(path),
    }
}

/// The report of these packages by these certificates, in the order of their paths, with what is declared of others.
///
/// # Errors
///
/// As `report_by_workers`; after these faults, the certificates are too old.
pub fn verified_report_of<L: Leave>(
    alloc: Global,
    given: Vec<GivenPackage>,
    outside: DeclaredPackages,
    certificates: &Certificates,
    telling: Telling<'_>,
) -> Result<NotedReport, Fault>
    ensures report { IfOk result (λ told.
        IsVerifiedReport telling.entry (packages_of outside) given.items certificates.now told.report) }
    ensures fault { IfErr result (IsVerdictFault (packages_of outside) given.items certificates.now) }
{
    match judge::verified_report_of::<L>(alloc, given, outside, certificates, telling) {
        Ok(told) => Ok(told),
        Err(fault) => Err(fault_of_verify(fault)),
    }
}
