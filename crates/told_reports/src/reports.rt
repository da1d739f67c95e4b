//! What is told of packages that were judged, and its text.

ghost use Rattle.std.specs.Prelude.{◌≡◌, IfOk, count_by, map, min, sum_by, true};
ghost use Rattle.std.specs.List.{list_all};
ghost use Rattle.accepting.specs.Findings.{explained_package, finding_view, found_view};
ghost use Rattle.all_packages.specs.Reports.{report_in};
ghost use Rattle.one_package.specs.Judgments.{is_yes};
ghost use Rattle.report_formats.specs.Formats.{text_in, text_of};
ghost use Rattle.told_reports.specs.Reports.{accepted_findings, gone_in, is_told_accepted, is_told_yes, most_findings, open_findings, package_passes, AreCounted, AreTold, IsTold};

use crate::text::Text;
use accepting::{
    Finding, FoundPackage, Telling, Verdict, explained_packages, gone, plain_packages, verdict_of,
};
use one_package::{Judged, is_yes};
use report::{ExplainedPackage, PackageReport, Wording};
use report_formats::write_report;
use std::alloc::{AllocError, Global};

/// What is said of packages, without what is known of their functions.
fn reports_of<'a>(
    alloc: Global,
    judged: Vec<Judged<'a>>,
) -> Result<Vec<PackageReport<'a>>, AllocError>
    ensures { IfOk result (λ reports. reports.items ≡ map report_in judged.entry.items) }
{
    let mut reports = Vec::new(alloc);
    for Judged { report, .. } in judged {
        reports.push(report)?;
    }
    Ok(reports)
}

/// The text of what is told of packages. It is made as a whole before any of it is printed, so that a fault leaves
/// nothing printed.
fn text_of(
    alloc: Global,
    telling: Telling<'_>,
    with_reasons: bool,
    found: &[FoundPackage],
) -> Result<Vec<u8>, AllocError>
    ensures { IfOk result (λ text. text.items ≡ text_of telling.entry with_reasons (map found_view found.now)) }
{
    let mut text = Text {
        bytes: Vec::new(alloc),
        refusals: 0,
    };
    match write_report(telling, with_reasons, found, &mut text) {
        Ok(()) => Ok(text.bytes),
        Err(_) => Err(AllocError),
    }
}

/// Whether each package is yes.
fn are_yes(reports: &[PackageReport]) -> bool
    ensures { result ≡ list_all is_yes reports.now }
{
    for report in reports {
        if !is_yes(report) {
            return false;
        }
    }
    true
}

/// Whether each package is told as yes or as accepted.
fn pass(found: &[FoundPackage]) -> bool
    ensures { result ≡ list_all (λ p. package_passes (found_view p)) found.now }
{
    for package in found {
        if !verdict_of(&package.findings).passes() {
            return false;
        }
    }
    true
}

/// How much a report tells. Of findings that are more than a `usize` holds it is the largest one.
#[derive(Clone, Copy, Debug, PartialEq, Eq)]
pub struct Counts {
    /// How many packages there are.
    pub packages: usize,
    /// How many of them are told as yes.
    pub yes: usize,
    /// How many have findings, each of which is accepted.
    pub accepted: usize,
    /// How many findings there are on all of them that are not accepted.
    pub findings: usize,
    /// How many are accepted.
    pub accepted_findings: usize,
    /// How many findings of the baseline are gone.
    pub gone: usize,
}

/// How many of these findings are accepted.
fn accepted_in(findings: &[Finding]) -> usize
    ensures { result ≡ accepted_findings (map finding_view findings.now) }
{
    let mut count: usize = 0;
    for finding in findings {
        if finding.acceptance.is_some() {
            count += 1;
        }
    }
    count
}

/// How many of them are not.
fn open_in(findings: &[Finding]) -> usize
    ensures { result ≡ open_findings (map finding_view findings.now) }
{
    let mut count: usize = 0;
    for finding in findings {
        if finding.acceptance.is_none() {
            count += 1;
        }
    }
    count
}

/// How many findings there are on these packages that are accepted, and how many that are not.
fn findings_of(found: &[FoundPackage]) -> (usize, usize)
    ensures accepted { result.0
        ≡ min (sum_by (λ p. accepted_findings (found_view p).findings) found.now) most_findings }
    ensures open { result.1 ≡ min (sum_by (λ p. open_findings (found_view p).findings) found.now) most_findings }
{
    let mut accepted: usize = 0;
    let mut open: usize = 0;
    for package in found {
        accepted = accepted.saturating_add(accepted_in(&package.findings));
        open = open.saturating_add(open_in(&package.findings));
    }
    (accepted, open)
}

/// How many of these packages are told as yes, and how many as accepted.
fn verdicts_of(found: &[FoundPackage]) -> (usize, usize)
    ensures yes { result.0 ≡ count_by (λ p. is_told_yes (found_view p)) found.now }
    ensures accepted { result.1 ≡ count_by (λ p. is_told_accepted (found_view p)) found.now }
{
    let mut yes: usize = 0;
    let mut accepted: usize = 0;
    for package in found {
        match verdict_of(&package.findings) {
            Verdict::Yes => yes += 1,
            Verdict::Accepted => accepted += 1,
            Verdict::No => {}
        }
    }
    (yes, accepted)
}

/// How many findings of the baseline are gone, where it accepts any.
fn gone_of(alloc: Global, telling: Telling<'_>, found: &[FoundPackage]) -> Result<usize, AllocError>
    ensures { IfOk result (λ count. count ≡ gone_in telling.entry (map found_view found.now)) }
{
    match telling.wording {
        Wording::First => Ok(0),
        Wording::Second => gone(alloc, telling.baseline, found),
    }
}

/// The counts of what is told, with so many findings of the baseline that are gone.
fn counts_of(found: &[FoundPackage], gone: usize) -> Counts
    ensures { AreCounted gone (map found_view found.now) result }
{
    let (yes, accepted) = verdicts_of(found);
    let (accepted_findings, findings) = findings_of(found);
    Counts {
        packages: found.len(),
        yes,
        accepted,
        findings,
        accepted_findings,
        gone,
    }
}

/// The report of packages: its text, whether each of them is yes, whether each is yes or accepted, and its counts.
#[derive(Debug, Drop)]
pub struct Report {
    pub text: Vec<u8>,
    /// Nothing was found in any package. What lines and the baseline accept plays no part.
    pub yes: bool,
    /// Each package is told as yes or as accepted.
    pub passes: bool,
    pub counts: Counts,
}

/// The report, told so, of packages of which this is said.
///
/// # Errors
///
/// Memory was refused.
pub fn report_from(
    alloc: Global,
    telling: Telling<'_>,
    reports: &[PackageReport<'_>],
) -> Result<Report, AllocError>
    ensures { IfOk result (AreTold telling.entry reports.now) }
{
    let plain = plain_packages(alloc, reports)?;
    let told = accepting::told(alloc, plain, telling)?;
    let text = text_of(alloc, telling, false, &told)?;
    let gone = gone_of(alloc, telling, &told)?;
    Ok(Report {
        text,
        yes: are_yes(reports),
        passes: pass(&told),
        counts: counts_of(&told, gone),
    })
}

/// The report, told so, of packages that were judged so.
///
/// # Errors
///
/// Memory was refused.
pub fn told(
    alloc: Global,
    telling: Telling<'_>,
    judged: Vec<Judged<'_>>,
) -> Result<Report, AllocError>
    ensures { IfOk result (IsTold telling.entry judged.entry.items) }
{
    let reports = reports_of(alloc, judged)?;
    report_from(alloc, telling, &reports)
}

/// The text of the same, told so, with the notes of findings.
///
/// # Errors
///
/// Memory was refused.
pub fn explained_text(
    alloc: Global,
    telling: Telling<'_>,
    packages: Vec<ExplainedPackage<'_>>,
) -> Result<Vec<u8>, AllocError>
    ensures { IfOk result (λ text.
        text.items ≡ text_in telling.entry true (map explained_package packages.entry.items)) }
{
    let explained = explained_packages(alloc, packages)?;
    let told = accepting::told(alloc, explained, telling)?;
    text_of(alloc, telling, true, &told)
}
