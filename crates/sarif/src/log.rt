//! A report in SARIF 2.1.0.

ghost use Rattle.std.specs.Prelude.{◌≡◌, ◌++◌, codes, false, true, flat_map, map, option_map, slice_get};
ghost use Rattle.accepting.specs.Findings.{accepted_view, finding_view, found_view};
ghost use Rattle.report.specs.Entries.{entry_of};
ghost use Rattle.report.specs.Writing.{refusals_after, IsWritten};
ghost use Rattle.format_parts.specs.FileUris.{is_absolute, uri_scheme};
ghost use Rattle.format_parts.specs.Objects.{members_of};
ghost use Rattle.format_parts.specs.Pieces.{after_results, listed, members_listed, opened};
ghost use Rattle.sarif.specs.Pieces.{base_text, IsAtPlace, IsPlaceOf, IsRegionOf, log_front, note_end, note_front, notes_end, notes_front};
ghost use Rattle.format_parts.specs.NameEnds.{name_before};
ghost use Rattle.sarif.specs.SarifText.{end_members, end_place, fingerprint_members, kind_text, location_members, note_members, package_results, result_members, result_value, sarif_text, suppression_members, told_note};
ghost use Rattle.serde_json.specs.Written.{comma_if, compact_text, members_text};

use crate::columns::moved_in_code_points;
use crate::fingerprints::sum_at;
use crate::fixes::write_fixes;
use crate::rules::{level, rule_codes, rule_index, tells_way};
use crate::sarif_rules::{run_kind, write_rules, write_tool};
use accepting::{Acceptance, Finding, FoundPackage};
use format_parts::FormatPiece::{Number, Plain, Spelled};
use format_parts::Spelling::{InString, InUri};
use format_parts::{
    Region, Style, bytes_of, comma, name_of, name_parts, notes_told, put_each, put_spelled,
    reason_text, text_parts, told_end,
};
use lexer::{Place, Source};
use report::{
    Cursor, Diagnostic, DiagnosticCode, Note, Sink, Wording, WriteFault, first_byte, put_all,
};
use suggested_fixes::Fix;

/// Writes the report as a SARIF log of one run and a newline, each finding with the first of the fixes that is for it.
/// Where the findings are in their order, this reads each
/// source but once.
pub fn write_sarif<S: Sink>(
    style: Style,
    fixes: &[Fix],
    packages: &[FoundPackage],
    sink: &mut S,
) -> Result<(), WriteFault>
    ensures taken { IsWritten (sarif_text style fixes.now (map found_view packages.now))
        (S.taken sink.old) (S.taken sink.new) result }
    ensures refusals { S.refusals sink.new ≡ refusals_after (S.refusals sink.old) result }
{
    open_log(style.wording, sink)?;
    write_results(style, fixes, packages, sink)?;
    put_all(b"]}]}\n", sink)
}

/// Writes what a log says before its results.
fn open_log<S: Sink>(wording: Wording, sink: &mut S) -> Result<(), WriteFault>
    ensures taken { IsWritten (log_front wording) (S.taken sink.old) (S.taken sink.new) result }
    ensures refusals { S.refusals sink.new ≡ refusals_after (S.refusals sink.old) result }
{
    put_all(
        b"{\"$schema\":\"https://json.schemastore.org/sarif-2.1.0.json\",\"version\":\"2.1.0\",\
        \"runs\":[{\"tool\":{\"driver\":{\"name\":\"ctxvet\"",
        sink,
    )?;
    write_tool(wording, sink)?;
    put_all(b",\"rules\":[", sink)?;
    write_rules(wording, rule_codes(wording), sink)?;
    put_each(
        &[
            Plain("]}}"),
            Plain(run_kind(wording)),
            Plain(",\"columnKind\":\"unicodeCodePoints\",\"results\":["),
        ],
        sink,
    )
}

fn write_results<S: Sink>(
    style: Style,
    fixes: &[Fix],
    packages: &[FoundPackage],
    sink: &mut S,
) -> Result<(), WriteFault>
    ensures taken { IsWritten
        (listed false (flat_map (λ p. package_results style fixes.now (found_view p)) packages.now))
        (S.taken sink.old) (S.taken sink.new) result }
    ensures refusals { S.refusals sink.new ≡ refusals_after (S.refusals sink.old) result }
{
    let mut is_later = false;
    for package in packages {
        write_package_results(
            style,
            fixes,
            package.sources,
            &package.findings,
            is_later,
            sink,
        )?;
        is_later = comes_later(is_later, package);
    }
    Ok(())
}

/// Whether results stand before what follows a package.
fn comes_later(is_later: bool, found: &FoundPackage) -> bool
    ensures { result ≡ after_results is_later found.now.findings.items }
{
    if found.findings.is_empty() {
        is_later
    } else {
        true
    }
}

/// Writes the results of a package; whether others stand before them is told.
fn write_package_results<S: Sink>(
    style: Style,
    fixes: &[Fix],
    sources: &[Source],
    findings: &[Finding],
    others_before: bool,
    sink: &mut S,
) -> Result<(), WriteFault>
    ensures taken { IsWritten
        (listed others_before (map (λ f. result_value style fixes.now sources.now (finding_view f)) findings.now))
        (S.taken sink.old) (S.taken sink.new) result }
    ensures refusals { S.refusals sink.new ≡ refusals_after (S.refusals sink.old) result }
{
    let mut cursor = first_byte(0);
    let mut is_later = others_before;
    for finding in findings {
        let diagnostic = &finding.diagnostic;
        cursor = moved_in_code_points(cursor, sources, diagnostic.file, diagnostic.offset as usize);
        let region = region_from(style.wording, sources, diagnostic, cursor);
        write_result(style, fixes, sources, finding, region, is_later, sink)?;
        is_later = true;
    }
    Ok(())
}

/// Where a diagnostic stands, from a cursor at its place. Columns count code points.
fn region_from<'a>(
    wording: Wording,
    sources: &'a [Source],
    diagnostic: &'a Diagnostic<'a>,
    cursor: Cursor,
) -> Region
    requires at { IsAtPlace sources.now cursor }
    requires start { IsPlaceOf (slice_get sources.now diagnostic.now.file) diagnostic.now.offset cursor.place }
    ensures { IsRegionOf wording (slice_get sources.now diagnostic.now.file) (entry_of diagnostic.now) result }
{
    Region {
        start: cursor.place,
        end: end_from(wording, sources, diagnostic, cursor),
    }
}

/// Where the name of a diagnostic ends, from a cursor at its place, if that is told. The column counts code points.
fn end_from<'a>(
    wording: Wording,
    sources: &'a [Source],
    diagnostic: &'a Diagnostic<'a>,
    cursor: Cursor,
) -> Option<Place>
    requires { IsAtPlace sources.now cursor }
    ensures { result ≡ end_place wording (slice_get sources.now diagnostic.now.file) (entry_of diagnostic.now) }
{
    match told_end(wording, sources, diagnostic) {
        Some(offset) => Some(moved_in_code_points(cursor, sources, diagnostic.file, offset).place),
        None => None,
    }
}

/// Writes a result, which stands there. Columns count code points.
fn write_result<'a, S: Sink>(
    style: Style,
    fixes: &[Fix],
    sources: &'a [Source],
    finding: &'a Finding<'a>,
    region: Region,
    is_later: bool,
    sink: &mut S,
) -> Result<(), WriteFault>
    requires { IsRegionOf style.wording (slice_get sources.now finding.now.diagnostic.file)
        (entry_of finding.now.diagnostic) region }
    ensures taken { IsWritten
        (comma_if is_later ++ compact_text (result_value style fixes.now sources.now (finding_view finding.now)))
        (S.taken sink.old) (S.taken sink.new) result }
    ensures refusals { S.refusals sink.new ≡ refusals_after (S.refusals sink.old) result }
{
    let diagnostic = &finding.diagnostic;
    open_result(style.wording, sources, diagnostic, region, is_later, sink)?;
    write_fingerprint(style.wording, sources, diagnostic, sink)?;
    write_suppression(finding.acceptance, sink)?;
    write_fixes(style.wording, fixes, sources, diagnostic, sink)?;
    close_result(
        style.wording,
        diagnostic.code,
        notes_told(style, finding),
        sink,
    )
}

/// Writes what is said of a result, which stands there. Columns count code points.
fn open_result<'a, S: Sink>(
    wording: Wording,
    sources: &'a [Source],
    diagnostic: &'a Diagnostic<'a>,
    region: Region,
    is_later: bool,
    sink: &mut S,
) -> Result<(), WriteFault>
    requires { IsRegionOf wording (slice_get sources.now diagnostic.now.file) (entry_of diagnostic.now) region }
    ensures taken { IsWritten
        (opened is_later (result_members wording (slice_get sources.now diagnostic.now.file) (entry_of diagnostic.now)))
        (S.taken sink.old) (S.taken sink.new) result }
    ensures refusals { S.refusals sink.new ≡ refusals_after (S.refusals sink.old) result }
{
    let code = diagnostic.code;
    let (name, space) = name_parts(diagnostic.name);
    put_each(
        &[
            Plain(comma(is_later)),
            Plain("{\"ruleId\":\""),
            Spelled(InString, code.number()),
            Plain("\",\"ruleIndex\":"),
            Number(rule_index(code)),
            Plain(",\"level\":\""),
            Spelled(InString, level(code)),
            Plain("\",\"message\":{\"text\":\""),
            Spelled(InString, name),
            Spelled(InString, space),
            Spelled(InString, code.words(wording)),
            Plain("\"},\"locations\":["),
        ],
        sink,
    )?;
    open_location(name_of(sources, diagnostic.file), region, sink)?;
    put_all(b"}]", sink)
}

/// Writes by what a result is known again.
fn write_fingerprint<'a, S: Sink>(
    wording: Wording,
    sources: &'a [Source],
    diagnostic: &'a Diagnostic<'a>,
    sink: &mut S,
) -> Result<(), WriteFault>
    ensures taken { IsWritten (members_listed true
        (fingerprint_members wording (slice_get sources.now diagnostic.now.file) (entry_of diagnostic.now)))
        (S.taken sink.old) (S.taken sink.new) result }
    ensures refusals { S.refusals sink.new ≡ refusals_after (S.refusals sink.old) result }
{
    match wording {
        Wording::First => Ok(()),
        Wording::Second => put_each(
            &[
                Plain(",\"partialFingerprints\":{\"ctxvet/v1\":\""),
                Spelled(InString, diagnostic.code.number()),
                Plain("/"),
                Spelled(InString, diagnostic.name),
                Plain("/"),
                Number(sum_at(bytes_of(sources, diagnostic.file), diagnostic.offset)),
                Plain("\"}"),
            ],
            sink,
        ),
    }
}

/// Writes where something stands: a file, by its name, and a place in it, whose columns count code points.
fn open_location<S: Sink>(file: &str, region: Region, sink: &mut S) -> Result<(), WriteFault>
    ensures taken { IsWritten (opened false
        (location_members file.now region.start.line region.start.column region.end))
        (S.taken sink.old) (S.taken sink.new) result }
    ensures refusals { S.refusals sink.new ≡ refusals_after (S.refusals sink.old) result }
{
    put_each(
        &[
            Plain("{\"physicalLocation\":{\"artifactLocation\":{\"uri\":\""),
            Plain(scheme_of(file)),
            Spelled(InUri, file),
            Plain(base_of(file)),
            Plain("},\"region\":{\"startLine\":"),
            Number(region.start.line),
            Plain(",\"startColumn\":"),
            Number(region.start.column),
        ],
        sink,
    )?;
    close_region(region.end, sink)
}

/// Writes where a region ends, if that is told, and its end.
fn close_region<S: Sink>(end: Option<Place>, sink: &mut S) -> Result<(), WriteFault>
    ensures taken { IsWritten (members_listed true (end_members end) ++ codes "}}")
        (S.taken sink.old) (S.taken sink.new) result }
    ensures refusals { S.refusals sink.new ≡ refusals_after (S.refusals sink.old) result }
{
    let Some(end) = end else {
        return put_all(b"}}", sink);
    };
    put_each(
        &[
            Plain(",\"endLine\":"),
            Number(end.line),
            Plain(",\"endColumn\":"),
            Number(end.column),
            Plain("}}"),
        ],
        sink,
    )
}

/// What stands before the path in the URI of a file.
pub fn scheme_of(name: &str) -> &'static str
    ensures { result.now ≡ uri_scheme name.now }
{
    if is_absolute(name) { "file://" } else { "" }
}

/// What stands behind the path in the object for a file.
pub fn base_of(name: &str) -> &'static str
    ensures { result.now ≡ base_text (is_absolute name.now) }
{
    if is_absolute(name) {
        "\""
    } else {
        "\",\"uriBaseId\":\"%SRCROOT%\""
    }
}

fn is_absolute(name: &str) -> bool
    ensures { result ≡ is_absolute name.now }
{
    matches!(name.as_bytes(), [b'/', ..])
}

/// Writes by what a finding is accepted, if it is.
fn write_suppression<'a, S: Sink>(
    acceptance: Option<Acceptance<'a>>,
    sink: &mut S,
) -> Result<(), WriteFault>
    ensures taken { IsWritten (members_listed true (suppression_members (option_map accepted_view acceptance.entry)))
        (S.taken sink.old) (S.taken sink.new) result }
    ensures refusals { S.refusals sink.new ≡ refusals_after (S.refusals sink.old) result }
{
    let Some(by) = acceptance else {
        return Ok(());
    };
    put_each(
        &[
            Plain(",\"suppressions\":[{\"kind\":\""),
            Plain(kind_of(by)),
            Plain("\",\"justification\":\""),
        ],
        sink,
    )?;
    put_spelled(InString, reason_text(by), sink)?;
    put_all(b"\"}]", sink)
}

/// Where a finding is accepted: in its source, or elsewhere.
fn kind_of(acceptance: Acceptance<'_>) -> &'static str
    ensures { result.now ≡ kind_text (accepted_view acceptance.entry) }
{
    match acceptance {
        Acceptance::ByLine(_) => "inSource",
        Acceptance::ByBaseline => "external",
    }
}

/// Writes the notes of a result with this code, and its end.
fn close_result<S: Sink>(
    wording: Wording,
    code: DiagnosticCode,
    notes: &[Note],
    sink: &mut S,
) -> Result<(), WriteFault>
    ensures taken { IsWritten (members_text true (members_of (note_members wording code notes.now)))
        (S.taken sink.old) (S.taken sink.new) result }
    ensures refusals { S.refusals sink.new ≡ refusals_after (S.refusals sink.old) result }
{
    if notes.is_empty() {
        return put_all(b"}", sink);
    }
    let are_steps = tells_way(code);
    let (front, end) = around_notes(are_steps);
    put_each(&[Plain(front)], sink)?;
    write_notes(wording, notes, are_steps, sink)?;
    put_each(&[Plain(end)], sink)
}

fn write_notes<S: Sink>(
    wording: Wording,
    notes: &[Note],
    are_steps: bool,
    sink: &mut S,
) -> Result<(), WriteFault>
    ensures taken { IsWritten (listed false (map (told_note wording are_steps) notes.now))
        (S.taken sink.old) (S.taken sink.new) result }
    ensures refusals { S.refusals sink.new ≡ refusals_after (S.refusals sink.old) result }
{
    let mut is_later = false;
    for note in notes {
        write_note(wording, note, are_steps, is_later, sink)?;
        is_later = true;
    }
    Ok(())
}

/// Writes a note, which may be a step of a way. Its column counts code points.
fn write_note<'a, S: Sink>(
    wording: Wording,
    note: &'a Note<'a>,
    is_step: bool,
    is_later: bool,
    sink: &mut S,
) -> Result<(), WriteFault>
    ensures taken { IsWritten (comma_if is_later ++ compact_text (told_note wording is_step note.now))
        (S.taken sink.old) (S.taken sink.new) result }
    ensures refusals { S.refusals sink.new ≡ refusals_after (S.refusals sink.old) result }
{
    let (first, second, third, fourth, fifth) = text_parts(wording, note.text);
    let (front, end) = around_note(is_step);
    let offset = note.offset as usize;
    let cursor = moved_in_code_points(first_byte(note.file), note.sources, note.file, offset);
    let region = Region {
        start: cursor.place,
        end: None,
    };
    put_each(&[Plain(comma(is_later)), Plain(front)], sink)?;
    open_location(name_of(note.sources, note.file), region, sink)?;
    put_each(
        &[
            Plain(",\"message\":{\"text\":\""),
            Spelled(InString, first),
            Spelled(InString, second),
            Spelled(InString, third),
            Spelled(InString, fourth),
            Spelled(InString, fifth),
            Plain("\"}}"),
            Plain(end),
        ],
        sink,
    )
}

/// What stands before the notes of a result, and behind them up to the end of the result.
fn around_notes(are_steps: bool) -> (&'static str, &'static str)
    ensures { (result.0.now ≡ notes_front are_steps) × (result.1.now ≡ notes_end are_steps) }
{
    if are_steps {
        (
            ",\"codeFlows\":[{\"threadFlows\":[{\"locations\":[",
            "]}]}]}",
        )
    } else {
        (",\"relatedLocations\":[", "]}")
    }
}

/// What stands before the place of a note, and behind what it says.
fn around_note(is_step: bool) -> (&'static str, &'static str)
    ensures { (result.0.now ≡ note_front is_step) × (result.1.now ≡ note_end is_step) }
{
    if is_step {
        ("{\"location\":", "}")
    } else {
        ("", "")
    }
}
