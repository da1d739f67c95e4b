//! What a report tells of packages.

ghost use Rattle.std.specs.Prelude.{◌≡◌, IfOk, map, string_bytes};
ghost use Rattle.accepting.specs.ByLines.{by_lines};
ghost use Rattle.accepting.specs.Findings.{explained_finding, explained_package, finding_view, found_view, plain_finding, plain_package};
ghost use Rattle.accepting.specs.Found.{asked_among, found_in, is_asked, told_in};

use crate::baseline::by_baseline;
use crate::findings::{Finding, FoundPackage};
use crate::lines::by_lines;
use crate::telling::Telling;
use report::{Diagnostic, ExplainedDiagnostic, ExplainedPackage, PackageReport, Wording};
use std::alloc::{AllocError, Global};

/// Diagnostics of which nothing is accepted yet, without notes.
fn plain_findings<'a>(
    alloc: Global,
    diagnostics: &[Diagnostic<'a>],
) -> Result<Vec<Finding<'a>>, AllocError>
    ensures { IfOk result (λ findings. map finding_view findings.items ≡ map plain_finding diagnostics.now) }
{
    let mut findings = Vec::new(alloc);
    for diagnostic in diagnostics {
        findings.push(Finding {
            diagnostic: *diagnostic,
            notes: Vec::new(alloc),
            way: Vec::new(alloc),
            acceptance: None,
        })?;
    }
    Ok(findings)
}

/// A package of which nothing is accepted yet, without notes.
///
/// # Errors
///
/// Memory was refused.
pub fn plain_package<'a>(
    alloc: Global,
    report: &PackageReport<'a>,
) -> Result<FoundPackage<'a>, AllocError>
    ensures { IfOk result (λ found. found_view found ≡ plain_package report.now) }
{
    let mut keeping = Vec::new(alloc);
    keeping.extend_from_slice(&report.keeping)?;
    let findings = plain_findings(alloc, &report.diagnostics)?;
    Ok(FoundPackage {
        path: report.path,
        sources: report.sources,
        keeping,
        findings,
    })
}

/// Packages of a report, of which nothing is accepted yet, without notes.
///
/// # Errors
///
/// Memory was refused.
pub fn plain_packages<'a>(
    alloc: Global,
    reports: &[PackageReport<'a>],
) -> Result<Vec<FoundPackage<'a>>, AllocError>
    ensures { IfOk result (λ found. map found_view found.items ≡ map plain_package reports.now) }
{
    let mut found = Vec::new(alloc);
    for report in reports {
        found.push(plain_package(alloc, report)?)?;
    }
    Ok(found)
}

/// Diagnostics of which nothing is accepted yet, with their notes.
fn explained_findings<'a>(
    alloc: Global,
    diagnostics: Vec<ExplainedDiagnostic<'a>>,
) -> Result<Vec<Finding<'a>>, AllocError>
    ensures { IfOk result (λ findings. map finding_view findings.items
        ≡ map explained_finding diagnostics.entry.items) }
{
    let mut findings = Vec::new(alloc);
    for ExplainedDiagnostic {
        diagnostic,
        notes,
        way,
    } in diagnostics {
        findings.push(Finding {
            diagnostic,
            notes,
            way,
            acceptance: None,
        })?;
    }
    Ok(findings)
}

/// A package of which nothing is accepted yet, with notes.
///
/// # Errors
///
/// Memory was refused.
pub fn explained_package<'a>(
    alloc: Global,
    one: ExplainedPackage<'a>,
) -> Result<FoundPackage<'a>, AllocError>
    ensures { IfOk result (λ found. found_view found ≡ explained_package one.entry) }
{
    let ExplainedPackage {
        path,
        sources,
        keeping,
        diagnostics,
    } = one;
    let findings = explained_findings(alloc, diagnostics)?;
    Ok(FoundPackage {
        path,
        sources,
        keeping,
        findings,
    })
}

/// Packages of a report, of which nothing is accepted yet, with notes.
///
/// # Errors
///
/// Memory was refused.
pub fn explained_packages<'a>(
    alloc: Global,
    packages: Vec<ExplainedPackage<'a>>,
) -> Result<Vec<FoundPackage<'a>>, AllocError>
    ensures { IfOk result (λ found. map found_view found.items ≡ map explained_package packages.entry.items) }
{
    let mut found = Vec::new(alloc);
    for one in packages {
        found.push(explained_package(alloc, one)?)?;
    }
    Ok(found)
}

/// The packages, where findings are accepted by lines of their sources.
fn each_by_lines<'a>(
    alloc: Global,
    packages: Vec<FoundPackage<'a>>,
    tells_stale: bool,
) -> Result<Vec<FoundPackage<'a>>, AllocError>
    ensures { IfOk result (λ found. map found_view found.items
        ≡ map (by_lines tells_stale) (map found_view packages.entry.items)) }
{
    let mut found = Vec::new(alloc);
    for one in packages {
        found.push(by_lines(alloc, one, tells_stale)?)?;
    }
    Ok(found)
}

/// What a report tells of packages, by this telling.
///
/// # Errors
///
/// Memory was refused.
pub fn found<'a>(
    alloc: Global,
    packages: Vec<FoundPackage<'a>>,
    telling: Telling<'_>,
) -> Result<Vec<FoundPackage<'a>>, AllocError>
    ensures { IfOk result (λ found. map found_view found.items
        ≡ found_in telling.entry (map found_view packages.entry.items)) }
{
    match telling.wording {
        Wording::First => Ok(packages),
        Wording::Second => {
            let packages = each_by_lines(alloc, packages, telling.tells_stale)?;
            by_baseline(alloc, packages, telling.baseline)
        }
    }
}

/// Whether the package of this path was asked for, where those of these paths were not.
fn is_asked(unasked: &[String], path: &str) -> bool
    ensures { result ≡ is_asked (map string_bytes unasked.now) path.now }
{
    for one in unasked {
        if one.as_str() == path {
            return false;
        }
    }
    true
}

/// Those of the packages that were asked for.
fn asked_among<'a>(
    alloc: Global,
    packages: Vec<FoundPackage<'a>>,
    unasked: &[String],
) -> Result<Vec<FoundPackage<'a>>, AllocError>
    ensures { IfOk result (λ asked. map found_view asked.items
        ≡ asked_among (map string_bytes unasked.now) (map found_view packages.entry.items)) }
{
    let mut asked = Vec::new(alloc);
    for one in packages {
        if is_asked(unasked, one.path) {
            asked.push(one)?;
        }
    }
    Ok(asked)
}

/// What is told of packages that were judged: by this telling, and nothing of those that were not asked for.
///
/// # Errors
///
/// Memory was refused.
pub fn told<'a>(
    alloc: Global,
    packages: Vec<FoundPackage<'a>>,
    telling: Telling<'_>,
) -> Result<Vec<FoundPackage<'a>>, AllocError>
    ensures { IfOk result (λ told. map found_view told.items
        ≡ told_in telling.entry (map found_view packages.entry.items)) }
{
    let asked = asked_among(alloc, packages, telling.unasked)?;
    found(alloc, asked, telling)
}
