//! Findings with those of lines that accept nothing among them.

ghost use Rattle.std.specs.Prelude.{◌≡◌, ◌≤◌, ◌++◌, IfOk, OnOk, List, drop, length, map};
ghost use Rattle.report.specs.Entries.{entry_of};
ghost use Rattle.accepting.specs.ByLines.{accepted_by_line};
ghost use Rattle.accepting.specs.Findings.{FindingEntry, finding_view, plain_finding};
ghost use Rattle.accepting.specs.LinesKept.{lines_of};
ghost use Rattle.accepting.specs.Merged.{merged, stands_before, told_before};

use crate::directive_lines::DirectiveLines;
use crate::findings::Finding;
use crate::last_lines::last_line;
use crate::line_reasons::accepted_on;
use lexer::Source;
use report::{Diagnostic, first_byte, moved};
use std::alloc::{AllocError, Global};

/// Whether one place stands before another, by file and offset.
fn stands_before(said: Diagnostic<'_>, other: Diagnostic<'_>) -> bool
    ensures { result ≡ stands_before (entry_of said.entry) (entry_of other.entry) }
{
    said.file < other.file || said.file == other.file && said.offset < other.offset
}

/// A finding without notes that nothing accepts.
fn plain_finding<'a>(alloc: Global, diagnostic: Diagnostic<'a>) -> Finding<'a>
    ensures { finding_view result ≡ plain_finding diagnostic.entry }
{
    Finding {
        diagnostic,
        notes: Vec::new(alloc),
        way: Vec::new(alloc),
        acceptance: None,
    }
}

/// Adds those from this place on that stand before the next finding, and gives the place of the first that does not.
fn add_before<'a>(
    alloc: Global,
    told: &mut Vec<Finding<'a>>,
    stale: &[Diagnostic<'a>],
    passed: usize,
    next: Diagnostic<'a>,
) -> Result<usize, AllocError>
    requires { passed ≤ length stale.now }
    ensures within { IfOk result (λ place. place ≤ length stale.now) }
    ensures told { IfOk result (λ place. (follow : List FindingEntry → List FindingEntry) →
        map finding_view told.new.items ++ follow (map plain_finding (drop place stale.now))
        ≡ map finding_view told.old.items
        ++ told_before (entry_of next.entry) follow (map plain_finding (drop passed stale.now))) }
{
    let mut place = passed;
    'rest: while place < stale.len() {
        let first = stale[place];
        if !stands_before(first, next) {
            return Ok(place);
        }
        told.push(plain_finding(alloc, first))?;
        place += 1;
    }
    Ok(place)
}

/// Adds them all.
fn add_all<'a>(
    alloc: Global,
    told: &mut Vec<Finding<'a>>,
    stale: &[Diagnostic<'a>],
) -> Result<(), AllocError>
    ensures { OnOk result (map finding_view told.new.items
        ≡ map finding_view told.old.items ++ map plain_finding stale.now) }
{
    for diagnostic in stale {
        told.push(plain_finding(alloc, *diagnostic))?;
    }
    Ok(())
}

/// The findings, accepted where lines accept them, with those of lines that accept nothing among them.
///
/// # Errors
///
/// Memory was refused.
pub(crate) fn merged<'a>(
    alloc: Global,
    sources: &[Source],
    lines: &DirectiveLines<'a>,
    findings: Vec<Finding<'a>>,
    stale: &[Diagnostic<'a>],
) -> Result<Vec<Finding<'a>>, AllocError>
    ensures { IfOk result (λ told. map finding_view told.items
        ≡ merged (map (accepted_by_line (lines_of lines.now) sources.now) (map finding_view findings.entry.items))
        (map plain_finding stale.now)) }
{
    let mut told = Vec::new(alloc);
    let mut cursor = first_byte(0);
    let mut passed = 0;
    for finding in findings {
        let said = finding.diagnostic;
        cursor = moved(cursor, sources, said.file, said.offset as usize);
        passed = add_before(alloc, &mut told, stale, passed, said)?;
        let last = last_line(sources, cursor, said);
        told.push(accepted_on(lines, cursor.place.line, last, finding))?;
    }
    let (_, left) = stale.split_at(passed);
    add_all(alloc, &mut told, left)?;
    Ok(told)
}
