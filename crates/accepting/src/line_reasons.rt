//! For which reason a line accepts a finding.

ghost use Rattle.std.specs.Prelude.{◌≡◌, option_map};
ghost use Rattle.directives.specs.Directives.{directive_view};
ghost use Rattle.accepting.specs.ByLines.{accepted_on, accepts_code, first_reason, if_alone, lines_between, names_certified, own_reason, reason_above, reason_for, reason_of};
ghost use Rattle.accepting.specs.Findings.{finding_view};
ghost use Rattle.accepting.specs.LinesKept.{lines_of, text_of};

use crate::acceptable::is_acceptable;
use crate::directive_lines::DirectiveLines;
use crate::findings::{Acceptance, Finding};
use directives::{Directive, names_code};
use report::DiagnosticCode;

/// Whether one of these codes is one of what certificates show.
fn names_certified(named: &[u8]) -> bool
    ensures { result ≡ names_certified named.now }
{
    names_code(named, "LC04")
        || (names_code(named, "LC05")
            || (names_code(named, "LC07")
                || (names_code(named, "LC08") || names_code(named, "LC10"))))
}

/// Whether these codes accept a finding with this one.
fn accepts_code(named: &[u8], code: DiagnosticCode) -> bool
    ensures { result ≡ accepts_code named.now code }
{
    match code {
        DiagnosticCode::NoCertificate => names_certified(named),
        _ => is_acceptable(code) && names_code(named, code.number()),
    }
}

/// The reason of a directive, if it accepts this code.
fn reason_of<'a>(directive: Option<Directive<'a>>, code: DiagnosticCode) -> Option<&'a [u8]>
    ensures { option_map text_of result ≡ reason_of (option_map directive_view directive.entry) code }
{
    let accepts = directive?.accepts?;
    if accepts_code(accepts.codes, code) {
        Some(accepts.reason)
    } else {
        None
    }
}

/// The directive, if it stands alone on its line.
fn if_alone<'a>(directive: Option<Directive<'a>>) -> Option<Directive<'a>>
    ensures { option_map directive_view result ≡ if_alone (option_map directive_view directive.entry) }
{
    let found = directive?;
    if found.is_alone { Some(found) } else { None }
}

/// The reason that the directive on a line gives for a finding with this code on that line.
pub(crate) fn own_reason<'a>(
    lines: &DirectiveLines<'a>,
    file: usize,
    line: usize,
    code: DiagnosticCode,
) -> Option<&'a [u8]>
    ensures { option_map text_of result ≡ own_reason (lines_of lines.now) file line code }
{
    reason_of(lines.on_line(file, line), code)
}

/// The reason that the directive alone on the line above gives for it.
pub(crate) fn reason_above<'a>(
    lines: &DirectiveLines<'a>,
    file: usize,
    line: usize,
    code: DiagnosticCode,
) -> Option<&'a [u8]>
    ensures { option_map text_of result ≡ reason_above (lines_of lines.now) file line code }
{
    reason_of(if_alone(lines.on_line(file, line.saturating_sub(1))), code)
}

/// The reason for which it is accepted, if it is.
fn reason_for<'a>(
    lines: &DirectiveLines<'a>,
    file: usize,
    line: usize,
    code: DiagnosticCode,
) -> Option<&'a [u8]>
    ensures { option_map text_of result ≡ reason_for (lines_of lines.now) file line code }
{
    match own_reason(lines, file, line, code) {
        Some(reason) => Some(reason),
        None => reason_above(lines, file, line, code),
    }
}

/// The first reason that one of the lines from the first to the last gives.
fn first_reason<'a>(
    lines: &DirectiveLines<'a>,
    file: usize,
    first: usize,
    last: usize,
    code: DiagnosticCode,
) -> Option<&'a [u8]>
    ensures { option_map text_of result
        ≡ first_reason (lines_of lines.now) file code (lines_between first last) }
{
    let mut line = first;
    'each: while line < last {
        match reason_for(lines, file, line, code) {
            Some(reason) => return Some(reason),
            None => line += 1,
        }
    }
    reason_for(lines, file, line, code)
}

/// The finding, which stands on the lines from the first to the last, accepted where a line accepts it.
pub(crate) fn accepted_on<'a>(
    lines: &DirectiveLines<'a>,
    first: usize,
    last: usize,
    finding: Finding<'a>,
) -> Finding<'a>
    ensures { finding_view result
        ≡ accepted_on (lines_of lines.now) (lines_between first last) (finding_view finding.entry) }
{
    let Finding {
        diagnostic,
        notes,
        way,
        acceptance,
    } = finding;
    match first_reason(lines, diagnostic.file, first, last, diagnostic.code) {
        Some(reason) => Finding {
            diagnostic,
            notes,
            way,
            acceptance: Some(Acceptance::ByLine(reason)),
        },
        None => Finding {
            diagnostic,
            notes,
            way,
            acceptance,
        },
    }
}
