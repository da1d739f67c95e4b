//! Where the values of which findings tell were obtained or made, and the numbers of these bindings.

ghost use Rattle.std.specs.Prelude.{◌≡◌, [], Some, map, option_map, true};
ghost use Rattle.std.specs.List.{list_any};
ghost use Rattle.accepting.specs.Findings.{finding_view};
ghost use Rattle.function_spans.specs.Calls.{bound_by};
ghost use Rattle.report.specs.Notes.{source_of};
ghost use Rattle.report.specs.ReportText.{bytes_of};
ghost use Rattle.report.specs.Writing.{refusals_after, IsWritten};
ghost use Rattle.format_parts.specs.Pieces.{members_listed};
ghost use Rattle.report_json.specs.Causes.{binding_in, binds, count_after, count_from, is_at_both, is_new, is_same_binding, number_from, told_cause};
ghost use Rattle.report_json.specs.JsonText.{by_members, cause_members, told_members};

use crate::note_kinds::is_either;
use crate::places::open_place;
use crate::turns::is_at;
use accepting::Finding;
use format_parts::FormatPiece::{Number, Plain};
use format_parts::Spelling::InString;
use format_parts::{Style, bytes_of, name_of, note_place, notes_told, put_each, put_spelled};
use function_spans::bound_by;
use report::{Note, NoteText, Sink, Wording, WriteFault, put_all};

/// Whether the note tells where a value is obtained or made.
pub fn binds(text: NoteText<'_>) -> bool
    ensures { result ≡ binds text.entry }
{
    match text {
        NoteText::Words(words) => is_either(words, "cancel is obtained", "group is made"),
        NoteText::Named(_, _, _) | NoteText::Finding(_, _) => false,
    }
}

/// The first note that does.
fn binding_in<'f, 'a>(notes: &'f [Note<'a>]) -> Option<&'f Note<'a>>
    ensures { option_map (λ n. n.now) result ≡ binding_in notes.now }
{
    for note in notes {
        if binds(note.text) {
            return Some(note);
        }
    }
    None
}

/// The note of the binding that is told with a finding: by the second edition of the rules, with notes.
fn told_cause<'f, 'a>(style: Style, finding: &'f Finding<'a>) -> Option<&'f Note<'a>>
    ensures { option_map (λ n. n.now) result ≡ told_cause style (finding_view finding.now) }
{
    match style.wording {
        Wording::Second if style.with_reasons => binding_in(notes_told(style, finding)),
        _ => None,
    }
}

/// Whether there are two notes, at one place.
fn is_at_both(one: Option<&Note>, other: Option<&Note>) -> bool
    ensures { result ≡ is_at_both (option_map (λ n. n.now) one.entry) (option_map (λ n. n.now) other.entry) }
{
    match one {
        Some(note) => is_at_other(note, other),
        None => false,
    }
}

/// Whether there is another note, at the place of one.
fn is_at_other(note: &Note, other: Option<&Note>) -> bool
    ensures { result ≡ is_at_both (Some note.now) (option_map (λ n. n.now) other.entry) }
{
    match other {
        Some(other) => is_at(note, other),
        None => false,
    }
}

/// Whether two findings tell of one binding.
fn is_same_binding(style: Style, finding: &Finding, other: &Finding) -> bool
    ensures { result ≡ is_same_binding style (finding_view finding.now) (finding_view other.now) }
{
    is_at_both(told_cause(style, finding), told_cause(style, other))
        && finding.diagnostic.name == other.diagnostic.name
}

/// Whether one of those before a finding tells of its binding.
fn is_met(style: Style, before: &[Finding], finding: &Finding) -> bool
    ensures { result ≡ list_any (is_same_binding style (finding_view finding.now)) (map finding_view before.now) }
{
    for other in before {
        if is_same_binding(style, finding, other) {
            return true;
        }
    }
    false
}

/// Whether a finding tells of a binding of which none of those before it tells.
fn is_new(style: Style, before: &[Finding], finding: &Finding) -> bool
    ensures { result ≡ is_new style (map finding_view before.now) (finding_view finding.now) }
{
    told_cause(style, finding).is_some() && !is_met(style, before, finding)
}

/// How many bindings are told of, with a finding behind those before it.
fn count_after(style: Style, count: usize, before: &[Finding], finding: &Finding) -> usize
    ensures { result ≡ count_after style count (map finding_view before.now) (finding_view finding.now) }
{
    if is_new(style, before, finding) {
        count.saturating_add(1)
    } else {
        count
    }
}

/// How many bindings are told of, with the findings of one more package.
pub fn count_from(style: Style, count: usize, findings: &[Finding]) -> usize
    ensures { result ≡ count_from style count [] (map finding_view findings.now) }
{
    let mut count = count;
    let mut index = 0;
    'findings: while index < findings.len() {
        let (before, _) = findings.split_at(index);
        count = count_after(style, count, before, &findings[index]);
        index += 1;
    }
    count
}

/// The number of the binding of which one of these findings tells, where so many are told of before them.
fn number_from(style: Style, count: usize, findings: &[Finding], finding: &Finding) -> usize
    ensures { result ≡ number_from style count [] (map finding_view findings.now) (finding_view finding.now) }
{
    let mut count = count;
    let mut index = 0;
    'findings: while index < findings.len() {
        let (before, _) = findings.split_at(index);
        let next = &findings[index];
        if is_same_binding(style, finding, next) {
            return count.saturating_add(1);
        }
        count = count_after(style, count, before, next);
        index += 1;
    }
    count.saturating_add(1)
}

/// Writes the binding of which one of these findings tells, if that is told.
pub fn write_cause<S: Sink>(
    style: Style,
    count: usize,
    findings: &[Finding],
    finding: &Finding,
    sink: &mut S,
) -> Result<(), WriteFault>
    ensures taken { IsWritten
        (members_listed true (told_members style count (map finding_view findings.now) (finding_view finding.now)))
        (S.taken sink.old) (S.taken sink.new) result }
    ensures refusals { S.refusals sink.new ≡ refusals_after (S.refusals sink.old) result }
{
    match told_cause(style, finding) {
        Some(note) => write_binding(number_from(style, count, findings, finding), note, sink),
        None => Ok(()),
    }
}

/// Writes the binding that a note tells, with this number.
fn write_binding<S: Sink>(number: usize, note: &Note, sink: &mut S) -> Result<(), WriteFault>
    ensures taken { IsWritten (members_listed true (cause_members number (Some note.now)))
        (S.taken sink.old) (S.taken sink.new) result }
    ensures refusals { S.refusals sink.new ≡ refusals_after (S.refusals sink.old) result }
{
    put_all(b",\"cause\":", sink)?;
    open_place(
        name_of(note.sources, note.file),
        note_place(note),
        false,
        sink,
    )?;
    put_each(&[Plain(",\"number\":"), Number(number)], sink)?;
    write_by(call_of(note), sink)?;
    put_all(b"}", sink)
}

/// The name of the call by which the value was obtained or made, as it stands in the file.
fn call_of<'a>(note: &'a Note<'a>) -> Option<&'a [u8]>
    ensures { option_map (λ name. name.now) result ≡ bound_by (bytes_of (source_of note.now)) note.now.offset }
{
    bound_by(bytes_of(note.sources, note.file), note.offset as usize)
}

/// Writes the name of that call, if there is one.
fn write_by<S: Sink>(call: Option<&[u8]>, sink: &mut S) -> Result<(), WriteFault>
    ensures taken { IsWritten (members_listed true (by_members (option_map (λ name. name.now) call.entry)))
        (S.taken sink.old) (S.taken sink.new) result }
    ensures refusals { S.refusals sink.new ≡ refusals_after (S.refusals sink.old) result }
{
    let Some(name) = call else {
        return Ok(());
    };
    put_all(b",\"by\":\"", sink)?;
    put_spelled(InString, name, sink)?;
    put_all(b"\"", sink)
}
