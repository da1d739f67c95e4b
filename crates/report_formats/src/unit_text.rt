//! The text of a unit's report.

ghost use Rattle.std.specs.Prelude.{◌≡◌, flat_map, slice_get};
ghost use Rattle.accepting.specs.Findings.{finding_view, found_view};
ghost use Rattle.lexer.specs.Place.{line_of, column_of};
ghost use Rattle.report.specs.ReportText.{bytes_of};
ghost use Rattle.report.specs.Writing.{refusals_after, IsWritten};
ghost use Rattle.report_formats.specs.UnitText.{is_near, lines_around, lines_of, shown_from, shown_if, shown_line, unit_lines, unit_text, unit_told};

use crate::report_lines::{write_line, write_notes};
use accepting::{Finding, FoundPackage};
use format_parts::{Style, is_told};
use lexer::{Place, Source};
use memchr::memchr;
use report::TextPiece::{Number, Text};
use report::{Sink, WriteFault, first_byte, moved, put_all, put_pieces};

/// Writes a line for each finding of the unit that is told, `FILE:LINE:COLUMN: CODE NAME TEXT`, and below it lines of
/// its notes, and nothing of a verdict. Where lines are asked for, so many lines of the file above and below its place
/// stand before the notes, and the line of that place, each behind its number and a tab; for each finding its file is
/// read anew then.
///
/// # Errors
///
/// A put failed or took nothing. A beginning of the text is taken then, and not all of it.
pub fn write_unit_text<S: Sink>(
    style: Style,
    unit: &FoundPackage,
    around: Option<usize>,
    sink: &mut S,
) -> Result<(), WriteFault>
    ensures taken { IsWritten (unit_text style around (found_view unit.now))
        (S.taken sink.old) (S.taken sink.new) result }
    ensures refusals { S.refusals sink.new ≡ refusals_after (S.refusals sink.old) result }
{
    write_all(style, unit.sources, &unit.findings, around, sink)
}

/// Writes the lines of these findings.
fn write_all<S: Sink>(
    style: Style,
    sources: &[Source],
    findings: &[Finding],
    around: Option<usize>,
    sink: &mut S,
) -> Result<(), WriteFault>
    ensures taken { IsWritten (flat_map (λ f. unit_told style around sources.now (finding_view f)) findings.now)
        (S.taken sink.old) (S.taken sink.new) result }
    ensures refusals { S.refusals sink.new ≡ refusals_after (S.refusals sink.old) result }
{
    let mut cursor = first_byte(0);
    for finding in findings {
        let diagnostic = &finding.diagnostic;
        cursor = moved(cursor, sources, diagnostic.file, diagnostic.offset as usize);
        write_told(style, sources, finding, cursor.place, around, sink)?;
    }
    Ok(())
}

/// Writes the lines of a finding, which stands at this place, if it is told.
fn write_told<'a, S: Sink>(
    style: Style,
    sources: &'a [Source],
    finding: &'a Finding<'a>,
    place: Place,
    around: Option<usize>,
    sink: &mut S,
) -> Result<(), WriteFault>
    requires line { place.line
        ≡ line_of (bytes_of (slice_get sources.now finding.now.diagnostic.file)) finding.now.diagnostic.offset }
    requires column { place.column
        ≡ column_of (bytes_of (slice_get sources.now finding.now.diagnostic.file)) finding.now.diagnostic.offset }
    ensures taken { IsWritten (unit_told style around sources.now (finding_view finding.now))
        (S.taken sink.old) (S.taken sink.new) result }
    ensures refusals { S.refusals sink.new ≡ refusals_after (S.refusals sink.old) result }
{
    if is_told(style, finding) {
        write_lines(style, sources, finding, place, around, sink)
    } else {
        Ok(())
    }
}

/// Writes the line of a finding, which stands at this place, the lines around it, and its notes.
fn write_lines<'a, S: Sink>(
    style: Style,
    sources: &'a [Source],
    finding: &'a Finding<'a>,
    place: Place,
    around: Option<usize>,
    sink: &mut S,
) -> Result<(), WriteFault>
    requires line { place.line
        ≡ line_of (bytes_of (slice_get sources.now finding.now.diagnostic.file)) finding.now.diagnostic.offset }
    requires column { place.column
        ≡ column_of (bytes_of (slice_get sources.now finding.now.diagnostic.file)) finding.now.diagnostic.offset }
    ensures taken { IsWritten (unit_lines style around sources.now (finding_view finding.now))
        (S.taken sink.old) (S.taken sink.new) result }
    ensures refusals { S.refusals sink.new ≡ refusals_after (S.refusals sink.old) result }
{
    write_line(style.wording, sources, finding, place, sink)?;
    write_around(
        bytes_of(sources, finding.diagnostic.file),
        place.line,
        around,
        sink,
    )?;
    write_notes(style.wording, &finding.notes, sink)
}

/// The bytes of a source; none where it is not there.
fn bytes_of(sources: &[Source], file: usize) -> &[u8]
    ensures { result.now ≡ bytes_of (slice_get sources.now file) }
{
    match sources.get(file) {
        Some(source) => &source.bytes,
        None => &[],
    }
}

/// Writes the lines of a text around one of them, if lines are asked for.
fn write_around<S: Sink>(
    text: &[u8],
    line: usize,
    around: Option<usize>,
    sink: &mut S,
) -> Result<(), WriteFault>
    ensures taken { IsWritten (lines_around around text.now line) (S.taken sink.old) (S.taken sink.new) result }
    ensures refusals { S.refusals sink.new ≡ refusals_after (S.refusals sink.old) result }
{
    match around {
        Some(around) => write_near(text, line, around, sink),
        None => Ok(()),
    }
}

/// Writes the lines of a text that stand at most so many lines above or below one of them.
fn write_near<S: Sink>(
    text: &[u8],
    line: usize,
    around: usize,
    sink: &mut S,
) -> Result<(), WriteFault>
    ensures taken { IsWritten (shown_from (is_near around line) 1 (lines_of text.now))
        (S.taken sink.old) (S.taken sink.new) result }
    ensures refusals { S.refusals sink.new ≡ refusals_after (S.refusals sink.old) result }
{
    let mut rest = text;
    let mut number = 1;
    'lines: while let Some(end) = memchr(b'\n', rest) {
        let (before, _) = rest.split_at(end);
        write_if(is_near(around, line, number), number, before, sink)?;
        let (_, after) = rest.split_at(end + 1);
        rest = after;
        number += 1;
    }
    write_if(is_near(around, line, number), number, rest, sink)
}

/// Whether the line stands at most so many lines above or below another one.
fn is_near(around: usize, other: usize, number: usize) -> bool
    ensures { result ≡ is_near around other number }
{
    other.saturating_sub(number) <= around && number.saturating_sub(other) <= around
}

/// Writes the line behind its number, if it is to be shown.
fn write_if<S: Sink>(
    is_shown: bool,
    number: usize,
    line: &[u8],
    sink: &mut S,
) -> Result<(), WriteFault>
    ensures taken { IsWritten (shown_if is_shown number line.now) (S.taken sink.old) (S.taken sink.new) result }
    ensures refusals { S.refusals sink.new ≡ refusals_after (S.refusals sink.old) result }
{
    if is_shown {
        write_shown(number, line, sink)
    } else {
        Ok(())
    }
}

/// Writes a line of a source behind its number.
fn write_shown<S: Sink>(number: usize, line: &[u8], sink: &mut S) -> Result<(), WriteFault>
    ensures taken { IsWritten (shown_line number line.now) (S.taken sink.old) (S.taken sink.new) result }
    ensures refusals { S.refusals sink.new ≡ refusals_after (S.refusals sink.old) result }
{
    put_pieces(&[Number(number), Text("\t")], sink)?;
    put_all(line, sink)?;
    put_all(b"\n", sink)
}
