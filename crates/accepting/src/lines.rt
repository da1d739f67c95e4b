//! Which findings of a package lines of its sources accept.

ghost use Rattle.std.specs.Prelude.{◌≡◌, IfOk, map};
ghost use Rattle.accepting.specs.ByLines.{by_lines, has_whole_fault, is_of_whole};
ghost use Rattle.accepting.specs.Findings.{finding_view, found_view, plain_finding};
ghost use Rattle.accepting.specs.LinesKept.{lines_of, stale_by};

use crate::directive_lines::{DirectiveLines, directive_lines};
use crate::findings::{Finding, FoundPackage};
use crate::merged::merged;
use crate::stale::stale_diagnostics;
use lexer::Source;
use report::{Diagnostic, DiagnosticCode, TreeFault};
use std::alloc::{AllocError, Global};

/// Whether a finding with this code is a fault of a package as a whole.
fn is_of_whole(code: DiagnosticCode) -> bool
    ensures { result ≡ is_of_whole code }
{
    match code {
        DiagnosticCode::Unreadable(_)
        | DiagnosticCode::LeftOut(TreeFault::UnexpectedToken | TreeFault::TooDeep)
        | DiagnosticCode::ImportHasNoRank
        | DiagnosticCode::TwoFunctions => true,
        _ => false,
    }
}

/// Whether one of the findings is a fault of a package as a whole.
fn has_whole_fault(findings: &[Finding<'_>]) -> bool
    ensures { result ≡ has_whole_fault (map finding_view findings.now) }
{
    for finding in findings {
        if is_of_whole(finding.diagnostic.code) {
            return true;
        }
    }
    false
}

/// What is said of lines that accept nothing, if it is asked for.
fn stale_if<'a>(
    alloc: Global,
    tells_stale: bool,
    sources: &[Source],
    lines: &DirectiveLines<'_>,
    findings: &[Finding<'_>],
) -> Result<Vec<Diagnostic<'a>>, AllocError>
    ensures { IfOk result (λ stale. map plain_finding stale.items
        ≡ stale_by tells_stale (lines_of lines.now) sources.now (map finding_view findings.now)) }
{
    if tells_stale {
        stale_diagnostics(alloc, sources, lines, findings)
    } else {
        Ok(Vec::new(alloc))
    }
}

/// The findings of a package, of which lines of its sources accept some; and those of lines that accept nothing, if
/// they are to be told.
///
/// # Errors
///
/// Memory was refused.
pub fn by_lines<'a>(
    alloc: Global,
    package: FoundPackage<'a>,
    tells_stale: bool,
) -> Result<FoundPackage<'a>, AllocError>
    ensures { IfOk result (λ found. found_view found ≡ by_lines tells_stale (found_view «package».entry)) }
{
    if has_whole_fault(&package.findings) {
        return Ok(package);
    }
    let lines = directive_lines(alloc, package.sources)?;
    if lines.is_empty() {
        return Ok(package);
    }
    let FoundPackage {
        path,
        sources,
        keeping,
        findings,
    } = package;
    let stale = stale_if(alloc, tells_stale, sources, &lines, &findings)?;
    let findings = merged(alloc, sources, &lines, findings, &stale)?;
    Ok(FoundPackage {
        path,
        sources,
        keeping,
        findings,
    })
}
