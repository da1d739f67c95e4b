//! Findings of an earlier run that are gone.

ghost use Rattle.std.specs.Prelude.{◌≡◌, ◌<◌, ◌++◌, [], ◌∷◌, List, IfOk, OnOk, length, map};
ghost use Rattle.baseline_json.specs.BaselineValues.{entry_of};
ghost use Rattle.accepting.specs.ByBaseline.{Key};
ghost use Rattle.accepting.specs.Findings.{finding_view, found_view};
ghost use Rattle.accepting.specs.Gone.{gone, is_acceptable_text, is_of_run, keys_of_findings, keys_of_run, was_open};
ghost use Rattle.accepting.specs.KeptKeys.{AreLeft, IsGoneBy, most};

use crate::acceptable::is_acceptable;
use crate::findings::{Acceptance, Finding, FoundPackage};
use crate::keys::{KeyCounts, key_in, key_of};
use baseline_json::BaselineFinding;
use lexer::Source;
use std::alloc::{AllocError, Global};

/// Whether it may be accepted, and no line accepts it.
fn is_of_run(finding: &Finding<'_>) -> bool
    ensures { result ≡ is_of_run (finding_view finding.now) }
{
    is_acceptable(finding.diagnostic.code)
        && !matches!(finding.acceptance, Some(Acceptance::ByLine(_)))
}

/// Adds the key of such a finding of a package with these sources.
fn add_finding<'k, 'a: 'k>(
    counts: &mut KeyCounts<'k>,
    sources: &'a [Source],
    finding: &Finding<'a>,
) -> Result<(), AllocError>
    ensures { OnOk result ((run : List Key) → AreLeft run [] counts.old
        → AreLeft (run ++ keys_of_findings sources.now (finding_view finding.now ∷ [])) [] counts.new) }
{
    if !is_of_run(finding) {
        return Ok(());
    }
    counts.add(key_of(sources, finding))?;
    Ok(())
}

/// Adds the keys of such findings.
fn add_findings<'k, 'a: 'k>(
    counts: &mut KeyCounts<'k>,
    sources: &'a [Source],
    findings: &[Finding<'a>],
) -> Result<(), AllocError>
    ensures { OnOk result ((run : List Key) → AreLeft run [] counts.old
        → AreLeft (run ++ keys_of_findings sources.now (map finding_view findings.now)) [] counts.new) }
{
    for finding in findings {
        add_finding(counts, sources, finding)?;
    }
    Ok(())
}

/// How many such findings of packages have each key.
fn run_counts<'a>(alloc: Global, found: &[FoundPackage<'a>]) -> Result<KeyCounts<'a>, AllocError>
    ensures { IfOk result (AreLeft (keys_of_run (map found_view found.now)) []) }
{
    let mut counts = KeyCounts::new(alloc);
    for one in found {
        add_findings(&mut counts, one.sources, one.findings.as_slice())?;
    }
    Ok(counts)
}

/// Whether this is the number of a code that can be accepted.
fn is_acceptable_text(text: &str) -> bool
    ensures { result ≡ is_acceptable_text text.now }
{
    matches!(
        text,
        "LC03"
            | "LC04"
            | "LC05"
            | "LC06"
            | "LC07"
            | "LC08"
            | "LC09"
            | "LC10"
            | "LC11"
            | "LC12"
            | "LC13"
    )
}

/// Whether nothing accepted it in the earlier run, though something could have.
fn was_open(finding: &BaselineFinding) -> bool
    ensures { result ≡ was_open (entry_of finding.now) }
{
    !finding.was_accepted && is_acceptable_text(finding.code.as_str())
}

/// Whether a finding of the earlier run is gone; if it is not, one of its key is taken from those of this run.
fn is_gone<'k, 'b: 'k>(
    counts: &mut KeyCounts<'k>,
    finding: &'b BaselineFinding,
) -> Result<bool, AllocError>
    ensures { IfOk result (λ gone. (run before : List Key) → length before < most → AreLeft run before counts.old
        → IsGoneBy run before (entry_of finding.now) gone counts.new) }
{
    let is_met = counts.take(key_in(finding))?;
    if is_met {
        return Ok(false);
    }
    Ok(was_open(finding))
}

/// How many findings of the earlier run are gone: those with a code that can be accepted, not accepted then, for which
/// this run has none left.
///
/// # Errors
///
/// Memory was refused.
pub fn gone(
    alloc: Global,
    baseline: &[BaselineFinding],
    found: &[FoundPackage<'_>],
) -> Result<usize, AllocError>
    ensures { IfOk result (λ count. count ≡ gone (map entry_of baseline.now) (map found_view found.now)) }
{
    let mut counts = run_counts(alloc, found)?;
    let mut count = 0;
    for finding in baseline {
        count += usize::from(is_gone(&mut counts, finding)?);
    }
    Ok(count)
}
