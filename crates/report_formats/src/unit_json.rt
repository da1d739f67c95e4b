//! A unit's report as JSON.

ghost use Rattle.std.specs.Prelude.{◌≡◌, ◌++◌, ◌||◌, [], ◌∷◌, codes, false, true, map, option_map, slice_get};
ghost use Rattle.accepting.specs.Findings.{accepted_view, finding_view, found_view};
ghost use Rattle.json.specs.Print.{escape};
ghost use Rattle.report.specs.Entries.{entry_of};
ghost use Rattle.report.specs.Writing.{refusals_after, IsWritten};
ghost use Rattle.format_parts.specs.Pieces.{IsBytePlace, listed, members_listed, opened};
ghost use Rattle.report_formats.specs.ReportLines.{reason_shown};
ghost use Rattle.format_parts.specs.Told.{is_told};
ghost use Rattle.report_formats.specs.UnitJson.{found_members, name_in, related_members, related_value, said_in, unit_finding, unit_findings, unit_json};
ghost use Rattle.serde_json.specs.Written.{comma_if, compact_text};

use accepting::{Acceptance, Finding, FoundPackage};
use format_parts::FormatPiece::{Number, Plain, Spelled};
use format_parts::Spelling::InString;
use format_parts::{
    Style, comma, is_told, name_of, name_parts, note_place, put_each, put_spelled, reason_text,
    text_parts, write_fix,
};
use lexer::{Place, Source};
use report::{Diagnostic, Note, Sink, Wording, WriteFault, first_byte, moved, put_all};
use suggested_fixes::Fix;

/// Writes the findings of the unit of this name that are told as JSON, one object on one line, each by its code, its
/// place and its text, with its notes where they are asked for, and with the first of the fixes that is for it.
///
/// # Errors
///
/// A put failed or took nothing. A beginning of the text is taken then, and not all of it.
pub fn write_unit_json<S: Sink>(
    style: Style,
    fixes: &[Fix],
    name: &str,
    found: &FoundPackage,
    sink: &mut S,
) -> Result<(), WriteFault>
    ensures taken { IsWritten (unit_json style fixes.now name.now (found_view found.now))
        (S.taken sink.old) (S.taken sink.new) result }
    ensures refusals { S.refusals sink.new ≡ refusals_after (S.refusals sink.old) result }
{
    put_each(
        &[
            Plain("{\""),
            Spelled(InString, name),
            Plain("\":{\"ctxvet\":["),
        ],
        sink,
    )?;
    write_findings(style, fixes, found.sources, &found.findings, sink)?;
    put_all(b"]}}\n", sink)
}

fn write_findings<S: Sink>(
    style: Style,
    fixes: &[Fix],
    sources: &[Source],
    findings: &[Finding],
    sink: &mut S,
) -> Result<(), WriteFault>
    ensures taken { IsWritten (listed false (unit_findings style fixes.now sources.now (map finding_view findings.now)))
        (S.taken sink.old) (S.taken sink.new) result }
    ensures refusals { S.refusals sink.new ≡ refusals_after (S.refusals sink.old) result }
{
    let mut cursor = first_byte(0);
    let mut is_later = false;
    for finding in findings {
        let diagnostic = &finding.diagnostic;
        cursor = moved(cursor, sources, diagnostic.file, diagnostic.offset as usize);
        write_told(style, fixes, sources, finding, cursor.place, is_later, sink)?;
        is_later = comes_later(style, finding, is_later);
    }
    Ok(())
}

/// Whether findings stand before what follows this one.
fn comes_later(style: Style, finding: &Finding, is_later: bool) -> bool
    ensures { result ≡ (is_later || is_told style (finding_view finding.now)) }
{
    is_later || is_told(style, finding)
}

/// Writes a finding, which stands at this place, if it is told.
fn write_told<'a, S: Sink>(
    style: Style,
    fixes: &[Fix],
    sources: &'a [Source],
    finding: &'a Finding<'a>,
    place: Place,
    is_later: bool,
    sink: &mut S,
) -> Result<(), WriteFault>
    requires { IsBytePlace (slice_get sources.now finding.now.diagnostic.file) finding.now.diagnostic.offset place }
    ensures taken { IsWritten
        (listed is_later (unit_findings style fixes.now sources.now (finding_view finding.now ∷ [])))
        (S.taken sink.old) (S.taken sink.new) result }
    ensures refusals { S.refusals sink.new ≡ refusals_after (S.refusals sink.old) result }
{
    if is_told(style, finding) {
        write_finding(style, fixes, sources, finding, place, is_later, sink)
    } else {
        Ok(())
    }
}

/// Writes a finding, which stands at this place.
fn write_finding<'a, S: Sink>(
    style: Style,
    fixes: &[Fix],
    sources: &'a [Source],
    finding: &'a Finding<'a>,
    place: Place,
    is_later: bool,
    sink: &mut S,
) -> Result<(), WriteFault>
    requires { IsBytePlace (slice_get sources.now finding.now.diagnostic.file) finding.now.diagnostic.offset place }
    ensures taken { IsWritten
        (comma_if is_later ++ compact_text (unit_finding style fixes.now sources.now (finding_view finding.now)))
        (S.taken sink.old) (S.taken sink.new) result }
    ensures refusals { S.refusals sink.new ≡ refusals_after (S.refusals sink.old) result }
{
    open_finding(
        style.wording,
        sources,
        &finding.diagnostic,
        place,
        is_later,
        sink,
    )?;
    write_reason(finding.acceptance, sink)?;
    put_all(b"\"", sink)?;
    write_related(style, &finding.notes, sink)?;
    write_fix(style.wording, fixes, sources, &finding.diagnostic, sink)?;
    put_all(b"}", sink)
}

/// Writes what is said of a diagnostic, which stands at this place, up to the end of its text.
fn open_finding<'a, S: Sink>(
    wording: Wording,
    sources: &'a [Source],
    diagnostic: &'a Diagnostic<'a>,
    place: Place,
    is_later: bool,
    sink: &mut S,
) -> Result<(), WriteFault>
    requires { IsBytePlace (slice_get sources.now diagnostic.now.file) diagnostic.now.offset place }
    ensures taken { IsWritten
        (opened is_later (found_members (slice_get sources.now diagnostic.now.file) (entry_of diagnostic.now))
        ++ (codes ",\"message\":\"" ++ escape (said_in wording (entry_of diagnostic.now))))
        (S.taken sink.old) (S.taken sink.new) result }
    ensures refusals { S.refusals sink.new ≡ refusals_after (S.refusals sink.old) result }
{
    let Place { line, column } = place;
    let (name, space) = name_said(wording, diagnostic.name);
    put_each(
        &[
            Plain(comma(is_later)),
            Plain("{\"category\":\""),
            Spelled(InString, diagnostic.code.number()),
            Plain("\",\"posn\":\""),
            Spelled(InString, name_of(sources, diagnostic.file)),
            Plain(":"),
            Number(line),
            Plain(":"),
            Number(column),
            Plain("\",\"message\":\""),
            Spelled(InString, name),
            Spelled(InString, space),
            Spelled(InString, diagnostic.code.words(wording)),
        ],
        sink,
    )
}

/// The name in a message and the space behind it; by the first edition of the rules neither is there.
fn name_said(wording: Wording, name: &str) -> (&str, &'static str)
    ensures { result.0.now ++ result.1.now ≡ name_in wording name.now }
{
    match wording {
        Wording::First => ("", ""),
        Wording::Second => name_parts(name),
    }
}

/// Writes ` (accepted: REASON)` of a finding that is accepted, as it stands in a string.
fn write_reason<'a, S: Sink>(
    acceptance: Option<Acceptance<'a>>,
    sink: &mut S,
) -> Result<(), WriteFault>
    ensures taken { IsWritten (escape (reason_shown (option_map accepted_view acceptance.entry)))
        (S.taken sink.old) (S.taken sink.new) result }
    ensures refusals { S.refusals sink.new ≡ refusals_after (S.refusals sink.old) result }
{
    let Some(by) = acceptance else {
        return Ok(());
    };
    put_all(b" (accepted: ", sink)?;
    put_spelled(InString, reason_text(by), sink)?;
    put_all(b")", sink)
}

/// Writes the notes of a finding, where they are asked for.
fn write_related<S: Sink>(style: Style, notes: &[Note], sink: &mut S) -> Result<(), WriteFault>
    ensures taken { IsWritten (members_listed true (related_members style notes.now))
        (S.taken sink.old) (S.taken sink.new) result }
    ensures refusals { S.refusals sink.new ≡ refusals_after (S.refusals sink.old) result }
{
    if !style.with_reasons {
        return Ok(());
    }
    put_all(b",\"related\":[", sink)?;
    write_notes(style.wording, notes, sink)?;
    put_all(b"]", sink)
}

fn write_notes<S: Sink>(wording: Wording, notes: &[Note], sink: &mut S) -> Result<(), WriteFault>
    ensures taken { IsWritten (listed false (map (related_value wording) notes.now))
        (S.taken sink.old) (S.taken sink.new) result }
    ensures refusals { S.refusals sink.new ≡ refusals_after (S.refusals sink.old) result }
{
    let mut is_later = false;
    for note in notes {
        write_note(wording, note, is_later, sink)?;
        is_later = true;
    }
    Ok(())
}

fn write_note<'a, S: Sink>(
    wording: Wording,
    note: &'a Note<'a>,
    is_later: bool,
    sink: &mut S,
) -> Result<(), WriteFault>
    ensures taken { IsWritten (comma_if is_later ++ compact_text (related_value wording note.now))
        (S.taken sink.old) (S.taken sink.new) result }
    ensures refusals { S.refusals sink.new ≡ refusals_after (S.refusals sink.old) result }
{
    let (first, second, third, fourth, fifth) = text_parts(wording, note.text);
    let Place { line, column } = note_place(note);
    put_each(
        &[
            Plain(comma(is_later)),
            Plain("{\"posn\":\""),
            Spelled(InString, name_of(note.sources, note.file)),
            Plain(":"),
            Number(line),
            Plain(":"),
            Number(column),
            Plain("\",\"message\":\""),
            Spelled(InString, first),
            Spelled(InString, second),
            Spelled(InString, third),
            Spelled(InString, fourth),
            Spelled(InString, fifth),
            Plain("\"}"),
        ],
        sink,
    )
}
