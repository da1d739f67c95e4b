//! The report of given packages by certificates.

ghost use Rattle.std.specs.Prelude.{IfErr, IfOk, option_map};
ghost use Rattle.told_reports.specs.Reports.{TellsReportBy};
ghost use Rattle.declared_tables.specs.DeclaredTables.{declared_tables};
ghost use Rattle.judge.specs.NotGiven.{AreNotGiven, TellNotGiven};
ghost use Rattle.judge.specs.Verified.{given_in, IsTooOldFor, IsVerifiedReport, IsVerifyFault, TellsVerified};
ghost use Rattle.declared_json.specs.DeclaredPackages.{packages_of};
ghost use Rattle.verifier.specs.Rules.{by_certificates};

use crate::first::first_with_causes;
use crate::not_given::{NotedReport, not_given};
use accepting::Telling;
use all_packages::check_by_rules;
use certificate_json::Certificates;
use declared_json::DeclaredPackages;
use load::{GivenPackage, Leave, LoadFault, Loaded, load_beside};
use std::alloc::{AllocError, Global};
use table_json::Version;
use told_reports::told;
use verifier::ByCertificates;
use whole_packages::LoadedPackage;

/// Why packages are not judged by certificates.
#[derive(Debug, Drop)]
pub enum VerifyFault {
    /// They are not loaded.
    NotLoaded(LoadFault),
    /// The certificates have version 1, and the package of this path mentions a cancel function with a cause, of which
    /// that version knows nothing. It is the first such package.
    TooOld(String),
}

/// What comes of loaded packages.
#[derive(Drop)]
enum Verified {
    Told(NotedReport),
    IsTooOld(String),
}

/// The path of the first package for which the certificates are too old.
fn too_old<'a>(
    alloc: Global,
    packages: &'a [LoadedPackage],
    certificates: &Certificates,
) -> Result<Option<&'a str>, AllocError>
    ensures { IfOk result (λ found. IsTooOldFor packages.now certificates.now (option_map (λ path. path.now) found)) }
{
    match certificates.version {
        Version::Older => first_with_causes(alloc, packages),
        Version::Newer => Ok(None),
    }
}

/// The report of packages of different paths by certificates, whatever version these have, where that is declared of
/// others, and which of them count as not given.
fn told_by(
    alloc: Global,
    packages: &[LoadedPackage],
    outside: &DeclaredPackages,
    certificates: &Certificates,
    telling: Telling<'_>,
) -> Result<NotedReport, AllocError>
    ensures report { IfOk result (λ noted. TellsReportBy telling.entry
        (by_certificates (given_in certificates.now) (declared_tables (packages_of outside.now))) packages.now
        noted.report) }
    ensures not_given { IfOk result (λ noted. TellNotGiven packages.now noted.not_given.items) }
{
    let rules = ByCertificates::new(alloc, certificates)?;
    let judged = check_by_rules(alloc, packages, outside, &rules)?;
    let not_given = not_given(alloc, packages)?;
    let report = told(alloc, telling, judged)?;
    Ok(NotedReport { report, not_given })
}

/// The report of packages of different paths by certificates, unless these are too old for one of them.
fn told_unless_old(
    alloc: Global,
    packages: &[LoadedPackage],
    outside: &DeclaredPackages,
    certificates: &Certificates,
    telling: Telling<'_>,
) -> Result<Verified, AllocError>
    ensures { IfOk result
        (TellsVerified telling.entry (declared_tables (packages_of outside.now)) packages.now certificates.now) }
{
    match too_old(alloc, packages, certificates)? {
        Some(path) => Ok(Verified::IsTooOld(String::from_str(alloc, path)?)),
        None => Ok(Verified::Told(told_by(alloc, packages, outside, certificates, telling)?)),
    }
}

/// The same, where `L` says what becomes of the packages then.
fn verified_loaded<L: Leave>(
    alloc: Global,
    loaded: Loaded,
    certificates: &Certificates,
    telling: Telling<'_>,
) -> Result<Verified, AllocError>
    ensures { IfOk result
        (TellsVerified telling.entry
        (declared_tables (packages_of loaded.outside)) loaded.packages.items certificates.now) }
{
    let told = told_unless_old(
        alloc,
        &loaded.packages,
        &loaded.outside,
        certificates,
        telling,
    );
    L::leave(loaded);
    told
}

/// The report of these packages in this format, in the order of their paths, by these certificates, where that is
/// declared of others. A yes says the same as one of `report_of`. What becomes of the packages, once they were judged,
/// `L` says.
///
/// # Errors
///
/// The packages are not loaded, as for `report_of`; after these faults, the certificates are too old for one of them;
/// or memory was refused.
pub fn verified_report_of<L: Leave>(
    alloc: Global,
    given: Vec<GivenPackage>,
    outside: DeclaredPackages,
    certificates: &Certificates,
    telling: Telling<'_>,
) -> Result<NotedReport, VerifyFault>
    ensures report { IfOk result (λ noted.
        IsVerifiedReport telling.entry (packages_of outside) given.items certificates.now noted.report) }
    ensures not_given { IfOk result (λ noted. AreNotGiven (packages_of outside) given.items noted.not_given.items) }
    ensures fault { IfErr result (IsVerifyFault (packages_of outside) given.items certificates.now) }
{
    let loaded = match load_beside(alloc, given, outside) {
        Ok(loaded) => loaded,
        Err(fault) => return Err(VerifyFault::NotLoaded(fault)),
    };
    match verified_loaded::<L>(alloc, loaded, certificates, telling) {
        Ok(Verified::Told(report)) => Ok(report),
        Ok(Verified::IsTooOld(path)) => Err(VerifyFault::TooOld(path)),
        Err(_) => Err(VerifyFault::NotLoaded(LoadFault::OutOfMemory)),
    }
}
