//! A report as JSON.

ghost use Rattle.std.specs.Prelude.{◌≡◌, ◌++◌, [], codes, false, true, map, option_map, slice_get};
ghost use Rattle.accepting.specs.Findings.{accepted_view, finding_view, found_view};
ghost use Rattle.accepting.specs.declared.findings.Verdict.TheVariants.{Yes};
ghost use Rattle.report.specs.Cursors.{IsAt};
ghost use Rattle.report.specs.Entries.{entry_of, texts_of};
ghost use Rattle.report.specs.Writing.{refusals_after, IsWritten};
ghost use Rattle.report_json.specs.JsonText.{byte_end, finding_value, first_members, json_text, kind_members, last_members, note_value, note_values, package_value, package_values, reason_members, said_members, verdict_members, why_members};
ghost use Rattle.format_parts.specs.Pieces.{IsBytePlace, listed, members_listed, opened};
ghost use Rattle.report_json.specs.Pieces.{IsByteRegion, json_end};
ghost use Rattle.format_parts.specs.Told.{notes_told};
ghost use Rattle.serde_json.specs.Data.{string};
ghost use Rattle.serde_json.specs.Written.{comma_if, compact_text};

use crate::causes::{count_from, write_cause};
use crate::in_functions::write_function;
use crate::note_kinds::{kind_text, taken_text};
use crate::places::{open_place, write_end};
use crate::step_ends::step_end_place;
use crate::turns::{told_turn, write_turn};
use crate::way_lines::write_lines;
use accepting::{Acceptance, Finding, FoundPackage, Verdict, verdict_of};
use format_parts::FormatPiece::{Number, Plain, Spelled};
use format_parts::Spelling::InString;
use format_parts::{
    Region, Style, comma, name_of, note_place, notes_told, put_each, put_spelled, reason_text,
    text_parts, told_end, write_fix,
};
use lexer::{Place, Source};
use report::{
    Cursor, Diagnostic, Note, NoteText, Sink, Wording, WriteFault, first_byte, moved, put_all,
};
use suggested_fixes::Fix;

/// Writes the report as one JSON object and a newline, each finding with the first of the fixes that is for it. Where
/// the findings are in their order, their places are found in one go through each source; functions are looked for
/// anew for each finding.
pub fn write_json<S: Sink>(
    style: Style,
    fixes: &[Fix],
    packages: &[FoundPackage],
    sink: &mut S,
) -> Result<(), WriteFault>
    ensures taken { IsWritten (json_text style fixes.now (map found_view packages.now))
        (S.taken sink.old) (S.taken sink.new) result }
    ensures refusals { S.refusals sink.new ≡ refusals_after (S.refusals sink.old) result }
{
    put_all(b"{\"packages\":[", sink)?;
    write_packages(style, fixes, packages, sink)?;
    close_report(style.wording, sink)
}

/// Writes of which version a report is, and by which edition of the rules, and its end.
fn close_report<S: Sink>(wording: Wording, sink: &mut S) -> Result<(), WriteFault>
    ensures taken { IsWritten (json_end wording) (S.taken sink.old) (S.taken sink.new) result }
    ensures refusals { S.refusals sink.new ≡ refusals_after (S.refusals sink.old) result }
{
    match wording {
        Wording::First => put_each(&[Plain("],\"version\":"), Number(1), Plain("}\n")], sink),
        Wording::Second => put_each(
            &[
                Plain("],\"version\":"),
                Number(2),
                Plain(",\"edition\":"),
                Number(2),
                Plain("}\n"),
            ],
            sink,
        ),
    }
}

fn write_packages<S: Sink>(
    style: Style,
    fixes: &[Fix],
    packages: &[FoundPackage],
    sink: &mut S,
) -> Result<(), WriteFault>
    ensures taken { IsWritten (listed false (package_values style fixes.now 0 (map found_view packages.now)))
        (S.taken sink.old) (S.taken sink.new) result }
    ensures refusals { S.refusals sink.new ≡ refusals_after (S.refusals sink.old) result }
{
    let mut is_later = false;
    let mut count = 0;
    for package in packages {
        write_package(style, fixes, count, package, is_later, sink)?;
        is_later = true;
        count = count_from(style, count, &package.findings);
    }
    Ok(())
}

/// Writes a package, before which so many bindings are told of.
fn write_package<S: Sink>(
    style: Style,
    fixes: &[Fix],
    count: usize,
    found: &FoundPackage,
    is_later: bool,
    sink: &mut S,
) -> Result<(), WriteFault>
    ensures taken { IsWritten
        (comma_if is_later ++ compact_text (package_value style fixes.now count (found_view found.now)))
        (S.taken sink.old) (S.taken sink.new) result }
    ensures refusals { S.refusals sink.new ≡ refusals_after (S.refusals sink.old) result }
{
    put_each(
        &[
            Plain(comma(is_later)),
            Plain("{\"path\":\""),
            Spelled(InString, found.path),
            Plain("\""),
        ],
        sink,
    )?;
    write_verdict(verdict_of(&found.findings), &found.keeping, sink)?;
    put_all(b",\"diagnostics\":[", sink)?;
    write_findings(style, fixes, count, found.sources, &found.findings, sink)?;
    put_all(b"]}", sink)
}

/// Writes the members of a package that tell of its verdict.
fn write_verdict<S: Sink>(
    verdict: Verdict,
    keeping: &[&str],
    sink: &mut S,
) -> Result<(), WriteFault>
    ensures taken { IsWritten (members_listed true (verdict_members verdict (texts_of keeping.now)))
        (S.taken sink.old) (S.taken sink.new) result }
    ensures refusals { S.refusals sink.new ≡ refusals_after (S.refusals sink.old) result }
{
    match verdict {
        Verdict::Yes => write_yes(keeping, sink),
        Verdict::Accepted => put_all(b",\"yes\":false,\"accepted\":true,\"keeping\":[]", sink),
        Verdict::No => put_all(b",\"yes\":false,\"keeping\":[]", sink),
    }
}

/// Writes those of a package that is yes, with the fields in which it keeps cancel functions.
fn write_yes<S: Sink>(keeping: &[&str], sink: &mut S) -> Result<(), WriteFault>
    ensures taken { IsWritten (members_listed true (verdict_members Yes (texts_of keeping.now)))
        (S.taken sink.old) (S.taken sink.new) result }
    ensures refusals { S.refusals sink.new ≡ refusals_after (S.refusals sink.old) result }
{
    put_all(b",\"yes\":true,\"keeping\":[", sink)?;
    write_names(keeping, sink)?;
    put_all(b"]", sink)
}

fn write_names<S: Sink>(names: &[&str], sink: &mut S) -> Result<(), WriteFault>
    ensures taken { IsWritten (listed false (map string (texts_of names.now)))
        (S.taken sink.old) (S.taken sink.new) result }
    ensures refusals { S.refusals sink.new ≡ refusals_after (S.refusals sink.old) result }
{
    let mut is_later = false;
    for name in names {
        write_name(name, is_later, sink)?;
        is_later = true;
    }
    Ok(())
}

fn write_name<S: Sink>(name: &str, is_later: bool, sink: &mut S) -> Result<(), WriteFault>
    ensures taken { IsWritten (comma_if is_later ++ compact_text (string name.now))
        (S.taken sink.old) (S.taken sink.new) result }
    ensures refusals { S.refusals sink.new ≡ refusals_after (S.refusals sink.old) result }
{
    put_each(
        &[
            Plain(comma(is_later)),
            Plain("\""),
            Spelled(InString, name),
            Plain("\""),
        ],
        sink,
    )
}

/// Writes the findings of a package, before which so many bindings are told of.
fn write_findings<S: Sink>(
    style: Style,
    fixes: &[Fix],
    count: usize,
    sources: &[Source],
    findings: &[Finding],
    sink: &mut S,
) -> Result<(), WriteFault>
    ensures taken { IsWritten
        (listed false
        (map (finding_value style fixes.now count (map finding_view findings.now) sources.now)
        (map finding_view findings.now)))
        (S.taken sink.old) (S.taken sink.new) result }
    ensures refusals { S.refusals sink.new ≡ refusals_after (S.refusals sink.old) result }
{
    let mut cursor = first_byte(0);
    let mut is_later = false;
    for finding in findings {
        let diagnostic = &finding.diagnostic;
        cursor = moved(cursor, sources, diagnostic.file, diagnostic.offset as usize);
        let region = region_from(style.wording, sources, diagnostic, cursor);
        open_finding(style, sources, finding, region, is_later, sink)?;
        write_cause(style, count, findings, finding, sink)?;
        close_finding(style, fixes, sources, finding, sink)?;
        is_later = true;
    }
    Ok(())
}

/// Where a diagnostic stands, from a cursor at its place. Columns count bytes.
fn region_from<'a>(
    wording: Wording,
    sources: &'a [Source],
    diagnostic: &'a Diagnostic<'a>,
    cursor: Cursor,
) -> Region
    requires at { IsAt sources.now cursor }
    requires start { IsBytePlace (slice_get sources.now diagnostic.now.file) diagnostic.now.offset cursor.place }
    ensures { IsByteRegion wording (slice_get sources.now diagnostic.now.file) (entry_of diagnostic.now) result }
{
    Region {
        start: cursor.place,
        end: end_from(wording, sources, diagnostic, cursor),
    }
}

/// Where the name of a diagnostic ends, from a cursor at its place, if that is told. The column counts bytes.
fn end_from<'a>(
    wording: Wording,
    sources: &'a [Source],
    diagnostic: &'a Diagnostic<'a>,
    cursor: Cursor,
) -> Option<Place>
    requires { IsAt sources.now cursor }
    ensures { result ≡ byte_end wording (slice_get sources.now diagnostic.now.file) (entry_of diagnostic.now) }
{
    match told_end(wording, sources, diagnostic) {
        Some(offset) => Some(moved(cursor, sources, diagnostic.file, offset).place),
        None => None,
    }
}

/// Writes what is told of a finding, which stands there, before its binding.
fn open_finding<'a, S: Sink>(
    style: Style,
    sources: &'a [Source],
    finding: &'a Finding<'a>,
    region: Region,
    is_later: bool,
    sink: &mut S,
) -> Result<(), WriteFault>
    requires { IsByteRegion style.wording (slice_get sources.now finding.now.diagnostic.file)
        (entry_of finding.now.diagnostic) region }
    ensures taken { IsWritten (opened is_later (first_members style sources.now (finding_view finding.now)))
        (S.taken sink.old) (S.taken sink.new) result }
    ensures refusals { S.refusals sink.new ≡ refusals_after (S.refusals sink.old) result }
{
    open_diagnostic(
        style.wording,
        sources,
        &finding.diagnostic,
        region,
        is_later,
        sink,
    )?;
    write_reason(finding.acceptance, sink)?;
    write_function(style.wording, sources, &finding.diagnostic, sink)
}

/// Writes what is told of a finding behind its binding.
fn close_finding<'a, S: Sink>(
    style: Style,
    fixes: &[Fix],
    sources: &'a [Source],
    finding: &'a Finding<'a>,
    sink: &mut S,
) -> Result<(), WriteFault>
    ensures taken { IsWritten
        (members_listed true (last_members style fixes.now sources.now (finding_view finding.now)) ++ codes "}")
        (S.taken sink.old) (S.taken sink.new) result }
    ensures refusals { S.refusals sink.new ≡ refusals_after (S.refusals sink.old) result }
{
    write_why(style, finding, sink)?;
    write_lines(style, sources, finding, sink)?;
    write_fix(style.wording, fixes, sources, &finding.diagnostic, sink)?;
    put_all(b"}", sink)
}

/// Writes what is said of a diagnostic, which stands there.
fn open_diagnostic<'a, S: Sink>(
    wording: Wording,
    sources: &'a [Source],
    diagnostic: &'a Diagnostic<'a>,
    region: Region,
    is_later: bool,
    sink: &mut S,
) -> Result<(), WriteFault>
    requires { IsByteRegion wording (slice_get sources.now diagnostic.now.file) (entry_of diagnostic.now) region }
    ensures taken { IsWritten
        (opened is_later (said_members wording (slice_get sources.now diagnostic.now.file) (entry_of diagnostic.now)))
        (S.taken sink.old) (S.taken sink.new) result }
    ensures refusals { S.refusals sink.new ≡ refusals_after (S.refusals sink.old) result }
{
    open_place(
        name_of(sources, diagnostic.file),
        region.start,
        is_later,
        sink,
    )?;
    write_end(region.end, sink)?;
    put_each(
        &[
            Plain(",\"code\":\""),
            Spelled(InString, diagnostic.code.number()),
            Plain("\",\"name\":\""),
            Spelled(InString, diagnostic.name),
            Plain("\",\"text\":\""),
            Spelled(InString, diagnostic.code.words(wording)),
            Plain("\""),
        ],
        sink,
    )
}

/// Writes the reason for which a finding is accepted, if it is.
fn write_reason<'a, S: Sink>(
    acceptance: Option<Acceptance<'a>>,
    sink: &mut S,
) -> Result<(), WriteFault>
    ensures taken { IsWritten (members_listed true (reason_members (option_map accepted_view acceptance.entry)))
        (S.taken sink.old) (S.taken sink.new) result }
    ensures refusals { S.refusals sink.new ≡ refusals_after (S.refusals sink.old) result }
{
    let Some(by) = acceptance else {
        return Ok(());
    };
    put_all(b",\"accepted\":\"", sink)?;
    put_spelled(InString, reason_text(by), sink)?;
    put_all(b"\"", sink)
}

/// Writes the notes of a finding, where they are asked for.
fn write_why<'a, S: Sink>(
    style: Style,
    finding: &'a Finding<'a>,
    sink: &mut S,
) -> Result<(), WriteFault>
    ensures taken { IsWritten
        (members_listed true
        (why_members style.with_reasons style.wording (notes_told style (finding_view finding.now))))
        (S.taken sink.old) (S.taken sink.new) result }
    ensures refusals { S.refusals sink.new ≡ refusals_after (S.refusals sink.old) result }
{
    if !style.with_reasons {
        return Ok(());
    }
    put_all(b",\"why\":[", sink)?;
    write_notes(style.wording, notes_told(style, finding), sink)?;
    put_all(b"]", sink)
}

fn write_notes<S: Sink>(wording: Wording, notes: &[Note], sink: &mut S) -> Result<(), WriteFault>
    ensures taken { IsWritten (listed false (note_values wording [] notes.now))
        (S.taken sink.old) (S.taken sink.new) result }
    ensures refusals { S.refusals sink.new ≡ refusals_after (S.refusals sink.old) result }
{
    let mut is_later = false;
    let mut index = 0;
    'notes: while index < notes.len() {
        let (before, _) = notes.split_at(index);
        write_note(wording, before, &notes[index], is_later, sink)?;
        is_later = true;
        index += 1;
    }
    Ok(())
}

/// Writes a note behind others.
fn write_note<'a, S: Sink>(
    wording: Wording,
    before: &'a [Note<'a>],
    note: &'a Note<'a>,
    is_later: bool,
    sink: &mut S,
) -> Result<(), WriteFault>
    ensures taken { IsWritten (comma_if is_later ++ compact_text (note_value wording before.now note.now))
        (S.taken sink.old) (S.taken sink.new) result }
    ensures refusals { S.refusals sink.new ≡ refusals_after (S.refusals sink.old) result }
{
    let (first, second, third, fourth, fifth) = text_parts(wording, note.text);
    open_place(
        name_of(note.sources, note.file),
        note_place(note),
        is_later,
        sink,
    )?;
    write_end(step_end_place(wording, note), sink)?;
    write_kind(wording, note.text, sink)?;
    write_turn(told_turn(wording, before, note), sink)?;
    put_each(
        &[
            Plain(",\"text\":\""),
            Spelled(InString, first),
            Spelled(InString, second),
            Spelled(InString, third),
            Spelled(InString, fourth),
            Spelled(InString, fifth),
            Plain("\"}"),
        ],
        sink,
    )
}

/// Writes of which kind a note is.
fn write_kind<S: Sink>(wording: Wording, text: NoteText<'_>, sink: &mut S) -> Result<(), WriteFault>
    ensures taken { IsWritten (members_listed true (kind_members wording text.entry))
        (S.taken sink.old) (S.taken sink.new) result }
    ensures refusals { S.refusals sink.new ≡ refusals_after (S.refusals sink.old) result }
{
    match wording {
        Wording::First => Ok(()),
        Wording::Second => put_each(
            &[
                Plain(",\"kind\":\""),
                Spelled(InString, kind_text(text)),
                Plain("\""),
                Plain(taken_text(text)),
            ],
            sink,
        ),
    }
}
