//! What is said of a package as a whole.

ghost use Rattle.std.specs.Prelude.{◌≡◌, map};
ghost use Rattle.std.specs.List.{list_all};
ghost use Rattle.accepting.specs.Findings.{finding_view, is_accepted, passes, verdict_of};

use crate::findings::{Finding, Verdict};

impl Verdict {
    /// Whether a run passes with such a package: it has no finding that is not accepted.
    pub fn passes(self) -> bool
        ensures { result ≡ passes self }
    {
        match self {
            Verdict::Yes | Verdict::Accepted => true,
            Verdict::No => false,
        }
    }
}

fn are_accepted(findings: &[Finding<'_>]) -> bool
    ensures { result ≡ list_all is_accepted (map finding_view findings.now) }
{
    for finding in findings {
        if finding.acceptance.is_none() {
            return false;
        }
    }
    true
}

/// What is said of a package with these findings.
pub fn verdict_of(findings: &[Finding<'_>]) -> Verdict
    ensures { result ≡ verdict_of (map finding_view findings.now) }
{
    if findings.is_empty() {
        Verdict::Yes
    } else if are_accepted(findings) {
        Verdict::Accepted
    } else {
        Verdict::No
    }
}
