//! Lines that accept nothing.

ghost use Rattle.std.specs.Prelude.{◌≡◌, ◌||◌, ◌++◌, ◌∷◌, [], ℕ, IfOk, OnOk, map, filter};
ghost use Rattle.std.specs.List.{list_any};
ghost use Rattle.directives.specs.Directives.{directive_view};
ghost use Rattle.accepting.specs.ByLines.{accepts, accepts_on, all_directives, in_source, is_stale, stale_finding};
ghost use Rattle.accepting.specs.Findings.{finding_view, plain_finding};
ghost use Rattle.accepting.specs.LinesKept.{is_line_used, is_used, lines_of, unused};

use crate::directive_lines::{DirectiveLines, SourceLine};
use crate::findings::Finding;
use crate::line_reasons::{own_reason, reason_above};
use directives::{Directive, directives_in};
use indexmap::IndexSet;
use lexer::Source;
use report::{Diagnostic, DiagnosticCode, first_byte, moved};
use std::alloc::{AllocError, Global};

/// The lines of sources that accept something.
#[derive(Drop)]
pub(crate) struct UsedLines {
    lines: IndexSet<SourceLine>,
}

impl UsedLines {
    /// Whether the line accepts something.
    fn has(&self, file: usize, line: usize) -> bool
        ensures { result ≡ is_used self.now file line }
    {
        self.lines.contains(&SourceLine { file, line })
    }

    /// Adds a line, if it accepts something.
    fn add_if(&mut self, accepts: bool, file: usize, line: usize) -> Result<(), AllocError>
        ensures { OnOk result ((other other_line : ℕ) → is_used self.new other other_line
            ≡ (is_used self.old other other_line || is_line_used accepts file line other other_line)) }
    {
        if accepts {
            self.lines.insert(SourceLine { file, line })?;
        }
        Ok(())
    }

    /// Adds the lines that accept a finding with this code on this line.
    fn add_accepting(
        &mut self,
        lines: &DirectiveLines<'_>,
        file: usize,
        line: usize,
        code: DiagnosticCode,
    ) -> Result<(), AllocError>
        ensures { OnOk result ((other other_line : ℕ) → is_used self.new other other_line
            ≡ (is_used self.old other other_line
            || accepts_on (lines_of lines.now) file line code other other_line)) }
    {
        self.add_if(own_reason(lines, file, line, code).is_some(), file, line)?;
        self.add_if(
            reason_above(lines, file, line, code).is_some(),
            file,
            line.saturating_sub(1),
        )
    }
}

/// The lines that accept some of these findings.
fn used_lines(
    alloc: Global,
    sources: &[Source],
    lines: &DirectiveLines<'_>,
    findings: &[Finding<'_>],
) -> Result<UsedLines, AllocError>
    ensures { IfOk result (λ used. (file line : ℕ) → is_used used file line
        ≡ list_any (accepts (lines_of lines.now) sources.now file line) (map finding_view findings.now)) }
{
    let mut used = UsedLines {
        lines: IndexSet::new(alloc),
    };
    let mut cursor = first_byte(0);
    for finding in findings {
        let said = &finding.diagnostic;
        cursor = moved(cursor, sources, said.file, said.offset as usize);
        used.add_accepting(lines, said.file, cursor.place.line, said.code)?;
    }
    Ok(used)
}

/// What is said of a directive that accepts nothing.
fn stale_diagnostic<'a>(file: usize, directive: Directive<'_>) -> Diagnostic<'a>
    ensures { plain_finding result ≡ stale_finding (in_source file (directive_view directive.entry)) }
{
    Diagnostic {
        file,
        offset: directive.offset.min(u32::MAX as usize) as u32,
        code: DiagnosticCode::AcceptsNothing,
        name: "-",
    }
}

/// Adds what is said of a directive, if its line is not used.
fn add_if_unused<'a>(
    stale: &mut Vec<Diagnostic<'a>>,
    used: &UsedLines,
    file: usize,
    directive: Directive<'_>,
) -> Result<(), AllocError>
    ensures { OnOk result (map plain_finding stale.new.items ≡ map plain_finding stale.old.items
        ++ unused (is_used used.now) (in_source file (directive_view directive.entry) ∷ [])) }
{
    if !used.has(file, directive.line) {
        stale.push(stale_diagnostic(file, directive))?;
    }
    Ok(())
}

/// Adds what is said of the directives of a source whose lines are not used.
fn add_unused<'a>(
    stale: &mut Vec<Diagnostic<'a>>,
    used: &UsedLines,
    file: usize,
    directives: &[Directive<'_>],
) -> Result<(), AllocError>
    ensures { OnOk result (map plain_finding stale.new.items ≡ map plain_finding stale.old.items
        ++ unused (is_used used.now) (map (in_source file) (map directive_view directives.now))) }
{
    for directive in directives {
        add_if_unused(stale, used, file, *directive)?;
    }
    Ok(())
}

/// What is said of the directives whose lines are not used.
fn unused<'a>(
    alloc: Global,
    sources: &[Source],
    used: &UsedLines,
) -> Result<Vec<Diagnostic<'a>>, AllocError>
    ensures { IfOk result (λ stale. map plain_finding stale.items
        ≡ unused (is_used used.now) (all_directives sources.now)) }
{
    let mut stale = Vec::new(alloc);
    for (file, source) in sources.iter().enumerate() {
        let found = directives_in(alloc, &source.bytes)?;
        add_unused(&mut stale, used, file, &found)?;
    }
    Ok(stale)
}

/// What is said of the directives that accept none of these findings, in the order of files and offsets.
///
/// # Errors
///
/// Memory was refused.
pub(crate) fn stale_diagnostics<'a>(
    alloc: Global,
    sources: &[Source],
    lines: &DirectiveLines<'_>,
    findings: &[Finding<'_>],
) -> Result<Vec<Diagnostic<'a>>, AllocError>
    ensures { IfOk result (λ stale. map plain_finding stale.items ≡ map stale_finding
        (filter (is_stale (lines_of lines.now) sources.now (map finding_view findings.now))
        (all_directives sources.now))) }
{
    let used = used_lines(alloc, sources, lines, findings)?;
    unused(alloc, sources, &used)
}
