//! The text of a report.

ghost use Rattle.std.specs.Prelude.{◌≡◌, ◌++◌, flat_map, map, option_map, slice_get};
ghost use Rattle.accepting.specs.Findings.{accepted_view, finding_view, found_view};
ghost use Rattle.accepting.specs.declared.findings.Verdict.TheVariants.{Yes};
ghost use Rattle.lexer.specs.Place.{line_of, column_of};
ghost use Rattle.report.specs.Entries.{entry_of, texts_of};
ghost use Rattle.report.specs.ReportText.{bytes_of};
ghost use Rattle.report.specs.Writing.{refusals_after, IsWritten};
ghost use Rattle.report_formats.specs.ReportLines.{front_in, finding_line, keeping_line, last_lines, more_names, note_line, package_text, reason_shown, report_text, told_lines, verdict_line};

use accepting::{Acceptance, Finding, FoundPackage, Verdict, verdict_of};
use format_parts::{Style, is_told, name_of, note_place, reason_text, text_parts};
use lexer::{Place, Source};
use report::TextPiece::{Number, Text};
use report::{Diagnostic, Note, Sink, Wording, WriteFault, first_byte, moved, put_all, put_pieces};

/// Writes the report's text: of each package a line for each finding that is told, `FILE:LINE:COLUMN: CODE NAME TEXT`,
/// below it a tab and `FILE:LINE:COLUMN: TEXT` for each note, and then its verdict, before which stands a line of the
/// fields in which it keeps cancel functions, if it is yes and there are some. Lines and columns count from 1, columns
/// in bytes. A finding in a file that is not among the package's sources stands at `-:1:1`, and one past the end of its
/// file at that end.
pub fn write_text<S: Sink>(
    style: Style,
    packages: &[FoundPackage],
    sink: &mut S,
) -> Result<(), WriteFault>
    ensures taken { IsWritten (report_text style (map found_view packages.now))
        (S.taken sink.old) (S.taken sink.new) result }
    ensures refusals { S.refusals sink.new ≡ refusals_after (S.refusals sink.old) result }
{
    for found in packages {
        write_package(style, found, sink)?;
    }
    Ok(())
}

fn write_package<S: Sink>(
    style: Style,
    found: &FoundPackage,
    sink: &mut S,
) -> Result<(), WriteFault>
    ensures taken { IsWritten (package_text style (found_view found.now)) (S.taken sink.old) (S.taken sink.new) result }
    ensures refusals { S.refusals sink.new ≡ refusals_after (S.refusals sink.old) result }
{
    write_findings(style, found.sources, &found.findings, sink)?;
    let verdict = verdict_of(&found.findings);
    write_last_lines(style.is_quiet, verdict, found.path, &found.keeping, sink)
}

fn write_findings<S: Sink>(
    style: Style,
    sources: &[Source],
    findings: &[Finding],
    sink: &mut S,
) -> Result<(), WriteFault>
    ensures taken { IsWritten (flat_map (λ f. told_lines style sources.now (finding_view f)) findings.now)
        (S.taken sink.old) (S.taken sink.new) result }
    ensures refusals { S.refusals sink.new ≡ refusals_after (S.refusals sink.old) result }
{
    let mut cursor = first_byte(0);
    for finding in findings {
        let diagnostic = &finding.diagnostic;
        cursor = moved(cursor, sources, diagnostic.file, diagnostic.offset as usize);
        write_told(style, sources, finding, cursor.place, sink)?;
    }
    Ok(())
}

/// Writes the lines of a finding, which stands at this place, if it is told.
fn write_told<'a, S: Sink>(
    style: Style,
    sources: &'a [Source],
    finding: &'a Finding<'a>,
    place: Place,
    sink: &mut S,
) -> Result<(), WriteFault>
    requires line { place.line
        ≡ line_of (bytes_of (slice_get sources.now finding.now.diagnostic.file)) finding.now.diagnostic.offset }
    requires column { place.column
        ≡ column_of (bytes_of (slice_get sources.now finding.now.diagnostic.file)) finding.now.diagnostic.offset }
    ensures taken { IsWritten (told_lines style sources.now (finding_view finding.now))
        (S.taken sink.old) (S.taken sink.new) result }
    ensures refusals { S.refusals sink.new ≡ refusals_after (S.refusals sink.old) result }
{
    if !is_told(style, finding) {
        return Ok(());
    }
    write_line(style.wording, sources, finding, place, sink)?;
    write_notes(style.wording, &finding.notes, sink)
}

/// Writes the line of a finding, which stands at this place.
pub(crate) fn write_line<'a, S: Sink>(
    wording: Wording,
    sources: &'a [Source],
    finding: &'a Finding<'a>,
    place: Place,
    sink: &mut S,
) -> Result<(), WriteFault>
    requires line { place.line
        ≡ line_of (bytes_of (slice_get sources.now finding.now.diagnostic.file)) finding.now.diagnostic.offset }
    requires column { place.column
        ≡ column_of (bytes_of (slice_get sources.now finding.now.diagnostic.file)) finding.now.diagnostic.offset }
    ensures taken { IsWritten (finding_line wording sources.now (finding_view finding.now))
        (S.taken sink.old) (S.taken sink.new) result }
    ensures refusals { S.refusals sink.new ≡ refusals_after (S.refusals sink.old) result }
{
    write_front(wording, sources, &finding.diagnostic, place, sink)?;
    write_reason(finding.acceptance, sink)?;
    put_all(b"\n", sink)
}

/// Writes what is said in the line of a diagnostic, which stands at this place.
fn write_front<'a, S: Sink>(
    wording: Wording,
    sources: &'a [Source],
    diagnostic: &'a Diagnostic<'a>,
    place: Place,
    sink: &mut S,
) -> Result<(), WriteFault>
    requires line { place.line
        ≡ line_of (bytes_of (slice_get sources.now diagnostic.now.file)) diagnostic.now.offset }
    requires column { place.column
        ≡ column_of (bytes_of (slice_get sources.now diagnostic.now.file)) diagnostic.now.offset }
    ensures taken { IsWritten (front_in wording (slice_get sources.now diagnostic.now.file) (entry_of diagnostic.now))
        (S.taken sink.old) (S.taken sink.new) result }
    ensures refusals { S.refusals sink.new ≡ refusals_after (S.refusals sink.old) result }
{
    put_pieces(
        &[
            Text(name_of(sources, diagnostic.file)),
            Text(":"),
            Number(place.line),
            Text(":"),
            Number(place.column),
            Text(": "),
            Text(diagnostic.code.number()),
            Text(" "),
            Text(diagnostic.name),
            Text(" "),
            Text(diagnostic.code.words(wording)),
        ],
        sink,
    )
}

/// Writes ` (accepted: REASON)` of a finding that is accepted.
fn write_reason<'a, S: Sink>(
    acceptance: Option<Acceptance<'a>>,
    sink: &mut S,
) -> Result<(), WriteFault>
    ensures taken { IsWritten (reason_shown (option_map accepted_view acceptance.entry))
        (S.taken sink.old) (S.taken sink.new) result }
    ensures refusals { S.refusals sink.new ≡ refusals_after (S.refusals sink.old) result }
{
    let Some(by) = acceptance else {
        return Ok(());
    };
    put_all(b" (accepted: ", sink)?;
    put_all(reason_text(by), sink)?;
    put_all(b")", sink)
}

pub(crate) fn write_notes<S: Sink>(
    wording: Wording,
    notes: &[Note],
    sink: &mut S,
) -> Result<(), WriteFault>
    ensures taken { IsWritten (flat_map (note_line wording) notes.now) (S.taken sink.old) (S.taken sink.new) result }
    ensures refusals { S.refusals sink.new ≡ refusals_after (S.refusals sink.old) result }
{
    for note in notes {
        write_note(wording, note, sink)?;
    }
    Ok(())
}

fn write_note<'a, S: Sink>(
    wording: Wording,
    note: &'a Note<'a>,
    sink: &mut S,
) -> Result<(), WriteFault>
    ensures taken { IsWritten (note_line wording note.now) (S.taken sink.old) (S.taken sink.new) result }
    ensures refusals { S.refusals sink.new ≡ refusals_after (S.refusals sink.old) result }
{
    let place = note_place(note);
    let (first, second, third, fourth, fifth) = text_parts(wording, note.text);
    put_pieces(
        &[
            Text("\t"),
            Text(name_of(note.sources, note.file)),
            Text(":"),
            Number(place.line),
            Text(":"),
            Number(place.column),
            Text(": "),
            Text(first),
            Text(second),
            Text(third),
            Text(fourth),
            Text(fifth),
            Text("\n"),
        ],
        sink,
    )
}

/// Writes the last lines of the package of that path.
fn write_last_lines<'a, S: Sink>(
    is_quiet: bool,
    verdict: Verdict,
    path: &'a str,
    keeping: &'a [&'a str],
    sink: &mut S,
) -> Result<(), WriteFault>
    ensures taken { IsWritten (last_lines is_quiet verdict path.now (texts_of keeping.now))
        (S.taken sink.old) (S.taken sink.new) result }
    ensures refusals { S.refusals sink.new ≡ refusals_after (S.refusals sink.old) result }
{
    match verdict {
        Verdict::Yes => write_yes(is_quiet, path, keeping, sink),
        Verdict::Accepted => write_verdict("accepted", path, sink),
        Verdict::No => write_verdict("no", path, sink),
    }
}

/// Writes the last lines of a package that is yes, unless the report is quiet.
fn write_yes<'a, S: Sink>(
    is_quiet: bool,
    path: &'a str,
    keeping: &'a [&'a str],
    sink: &mut S,
) -> Result<(), WriteFault>
    ensures taken { IsWritten (last_lines is_quiet Yes path.now (texts_of keeping.now))
        (S.taken sink.old) (S.taken sink.new) result }
    ensures refusals { S.refusals sink.new ≡ refusals_after (S.refusals sink.old) result }
{
    if is_quiet {
        return Ok(());
    }
    write_keeping(path, keeping, sink)?;
    write_verdict("yes", path, sink)
}

/// Writes the line of the fields in which the package of that path keeps cancel functions, if there are some.
fn write_keeping<'a, S: Sink>(
    path: &'a str,
    fields: &'a [&'a str],
    sink: &mut S,
) -> Result<(), WriteFault>
    ensures taken { IsWritten (keeping_line path.now (texts_of fields.now))
        (S.taken sink.old) (S.taken sink.new) result }
    ensures refusals { S.refusals sink.new ≡ refusals_after (S.refusals sink.old) result }
{
    let Some((first, more)) = fields.split_first() else {
        return Ok(());
    };
    put_pieces(&[Text("keeping "), Text(*first)], sink)?;
    write_more(more, sink)?;
    put_pieces(&[Text(": "), Text(path), Text("\n")], sink)
}

/// Writes names behind another one.
fn write_more<'a, S: Sink>(names: &'a [&'a str], sink: &mut S) -> Result<(), WriteFault>
    ensures taken { IsWritten (more_names (texts_of names.now)) (S.taken sink.old) (S.taken sink.new) result }
    ensures refusals { S.refusals sink.new ≡ refusals_after (S.refusals sink.old) result }
{
    for name in names {
        put_pieces(&[Text(", "), Text(*name)], sink)?;
    }
    Ok(())
}

fn write_verdict<'a, S: Sink>(
    verdict: &'a str,
    path: &'a str,
    sink: &mut S,
) -> Result<(), WriteFault>
    ensures taken { IsWritten (verdict_line verdict.now path.now) (S.taken sink.old) (S.taken sink.new) result }
    ensures refusals { S.refusals sink.new ≡ refusals_after (S.refusals sink.old) result }
{
    put_pieces(&[Text(verdict), Text(" "), Text(path), Text("\n")], sink)
}
