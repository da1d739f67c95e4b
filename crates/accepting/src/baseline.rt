//! Findings that stand in the report of an earlier run.

ghost use Rattle.std.specs.Prelude.{◌≡◌, ◌≤◌, [], List, IfOk, length, map};
ghost use Rattle.accepting.specs.ByBaseline.{Key, accepted_if, baseline_keys, by_baseline, is_open};
ghost use Rattle.accepting.specs.Findings.{finding_view, found_view};
ghost use Rattle.accepting.specs.KeptKeys.{AreLeft, AreTold, IsPackageTold, IsTold, most};

use crate::acceptable::is_acceptable;
use crate::findings::{Acceptance, Finding, FoundPackage};
use crate::keys::{KeyCounts, key_in, key_of};
use baseline_json::BaselineFinding;
use lexer::Source;
use std::alloc::{AllocError, Global};

/// How many findings of an earlier run have each key.
fn baseline_counts<'k>(
    alloc: Global,
    baseline: &'k [BaselineFinding],
) -> Result<KeyCounts<'k>, AllocError>
    ensures { IfOk result (AreLeft (baseline_keys baseline.now) []) }
{
    let mut counts = KeyCounts::new(alloc);
    for finding in baseline {
        counts.add(key_in(finding))?;
    }
    Ok(counts)
}

/// Whether it may be accepted, and nothing accepts it yet.
fn is_open(finding: &Finding<'_>) -> bool
    ensures { result ≡ is_open (finding_view finding.now) }
{
    is_acceptable(finding.diagnostic.code) && finding.acceptance.is_none()
}

/// The finding, accepted if it stands in the report of the earlier run.
fn accepted_if(stands: bool, finding: Finding<'_>) -> Finding<'_>
    ensures { finding_view result ≡ accepted_if stands (finding_view finding.entry) }
{
    let mut finding = finding;
    if stands {
        finding.acceptance = Some(Acceptance::ByBaseline);
    }
    finding
}

/// The finding of a package with these sources, accepted where one of its key is left, which is taken.
fn tell_finding<'k, 'a: 'k>(
    counts: &mut KeyCounts<'k>,
    sources: &'a [Source],
    finding: Finding<'a>,
) -> Result<Finding<'a>, AllocError>
    ensures { IfOk result (λ told. (known before : List Key) → length known ≤ most → AreLeft known before counts.old
        → IsTold known before sources.now (finding_view finding.entry) (finding_view told) counts.new) }
{
    if !is_open(&finding) {
        return Ok(finding);
    }
    let stands = counts.take(key_of(sources, &finding))?;
    Ok(accepted_if(stands, finding))
}

/// The same of findings, one after the other.
fn tell_findings<'k, 'a: 'k>(
    alloc: Global,
    counts: &mut KeyCounts<'k>,
    sources: &'a [Source],
    findings: Vec<Finding<'a>>,
) -> Result<Vec<Finding<'a>>, AllocError>
    ensures { IfOk result (λ told. (known before : List Key) → length known ≤ most → AreLeft known before counts.old
        → AreTold known before sources.now (map finding_view findings.entry.items) (map finding_view told.items)
        counts.new) }
{
    let mut told = Vec::new(alloc);
    for finding in findings {
        told.push(tell_finding(counts, sources, finding)?)?;
    }
    Ok(told)
}

/// The same of a package.
fn tell_package<'k, 'a: 'k>(
    alloc: Global,
    counts: &mut KeyCounts<'k>,
    one: FoundPackage<'a>,
) -> Result<FoundPackage<'a>, AllocError>
    ensures { IfOk result (λ told. (known before : List Key) → length known ≤ most → AreLeft known before counts.old
        → IsPackageTold known before (found_view one.entry) (found_view told) counts.new) }
{
    let FoundPackage {
        path,
        sources,
        keeping,
        findings,
    } = one;
    let findings = tell_findings(alloc, counts, sources, findings)?;
    Ok(FoundPackage {
        path,
        sources,
        keeping,
        findings,
    })
}

/// The packages, where findings are accepted that stand in the report of an earlier run.
///
/// # Errors
///
/// Memory was refused.
pub fn by_baseline<'a>(
    alloc: Global,
    packages: Vec<FoundPackage<'a>>,
    baseline: &[BaselineFinding],
) -> Result<Vec<FoundPackage<'a>>, AllocError>
    ensures { IfOk result (λ found. map found_view found.items
        ≡ by_baseline (baseline_keys baseline.now) [] (map found_view packages.entry.items)) }
{
    if baseline.is_empty() {
        return Ok(packages);
    }
    let mut counts = baseline_counts(alloc, baseline)?;
    let mut told = Vec::new(alloc);
    for one in packages {
        told.push(tell_package(alloc, &mut counts, one)?)?;
    }
    Ok(told)
}
