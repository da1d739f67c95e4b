//! The lines through which ways go.

ghost use Rattle.std.specs.Prelude.{◌≡◌, ◌||◌, [], map, not, nat_eq, slice_get, true, false};
ghost use Rattle.accepting.specs.Findings.{finding_view};
ghost use Rattle.report.specs.ReportText.{bytes_of};
ghost use Rattle.report.specs.Writing.{refusals_after, IsWritten};
ghost use Rattle.format_parts.specs.Objects.{whole};
ghost use Rattle.format_parts.specs.Pieces.{listed, members_listed};
ghost use Rattle.report_json.specs.JsonText.{way_members};
ghost use Rattle.report_json.specs.WayLines.{lines_from, lines_members, new_line, told_way, LinesAreInOrder};

use accepting::Finding;
use format_parts::FormatPiece::{Number, Plain};
use format_parts::{Style, comma, is_told, put_each};
use lexer::Source;
use report::{Sink, Wording, WriteFault, first_byte, moved, put_all};

/// The offsets of the way of which the notes of a finding tell, by the second edition of the rules, with notes.
fn told_way<'f, 'a>(style: Style, finding: &'f Finding<'a>) -> &'f [u32]
    ensures { result.now ≡ told_way style (finding_view finding.now) }
{
    match style.wording {
        Wording::Second if style.with_reasons && is_told(style, finding) => &finding.way,
        _ => &[],
    }
}

/// Writes the line, unless it is the last one that was written.
fn write_line<S: Sink>(
    last: usize,
    line: usize,
    is_later: bool,
    sink: &mut S,
) -> Result<(), WriteFault>
    ensures taken { IsWritten (listed is_later (map whole (new_line last line)))
        (S.taken sink.old) (S.taken sink.new) result }
    ensures refusals { S.refusals sink.new ≡ refusals_after (S.refusals sink.old) result }
{
    if line == last {
        Ok(())
    } else {
        put_each(&[Plain(comma(is_later)), Number(line)], sink)
    }
}

/// Whether lines stand before what follows this one.
fn comes_later(last: usize, line: usize, is_later: bool) -> bool
    ensures { result ≡ (is_later || not (nat_eq line last)) }
{
    is_later || line != last
}

/// Writes the lines of these offsets.
fn write_each<S: Sink>(
    sources: &[Source],
    file: usize,
    offsets: &[u32],
    sink: &mut S,
) -> Result<(), WriteFault>
    ensures taken { IsWritten
        (listed false (map whole (lines_from (bytes_of (slice_get sources.now file)) 0 offsets.now)))
        (S.taken sink.old) (S.taken sink.new) result }
    ensures refusals { S.refusals sink.new ≡ refusals_after (S.refusals sink.old) result }
{
    let mut cursor = first_byte(file);
    let mut last = 0;
    let mut is_later = false;
    for offset in offsets {
        cursor = moved(cursor, sources, file, *offset as usize);
        let line = cursor.place.line;
        write_line(last, line, is_later, sink)?;
        is_later = comes_later(last, line, is_later);
        last = line;
    }
    Ok(())
}

/// Writes the lines of offsets in a file, if there are any.
fn write_told<S: Sink>(
    sources: &[Source],
    file: usize,
    offsets: &[u32],
    sink: &mut S,
) -> Result<(), WriteFault>
    ensures taken { IsWritten
        (members_listed true (lines_members (bytes_of (slice_get sources.now file)) offsets.now))
        (S.taken sink.old) (S.taken sink.new) result }
    ensures refusals { S.refusals sink.new ≡ refusals_after (S.refusals sink.old) result }
{
    if offsets.is_empty() {
        return Ok(());
    }
    put_all(b",\"lines\":[", sink)?;
    write_each(sources, file, offsets, sink)?;
    put_all(b"]", sink)
}

/// Writes the lines of the way of which the notes of a finding tell, if they are told.
pub fn write_lines<'a, S: Sink>(
    style: Style,
    sources: &'a [Source],
    finding: &'a Finding<'a>,
    sink: &mut S,
) -> Result<(), WriteFault>
    ensures taken { IsWritten
        (members_listed true
        (way_members style (slice_get sources.now finding.now.diagnostic.file) (finding_view finding.now)))
        (S.taken sink.old) (S.taken sink.new) result }
    ensures refusals { S.refusals sink.new ≡ refusals_after (S.refusals sink.old) result }
{
    let offsets = told_way(style, finding);
    write_told(sources, finding.diagnostic.file, offsets, sink)
}

/// Offsets in order have lines in order, each once.
pub fn lines_are_in_order()
    ensures { LinesAreInOrder }
{}
