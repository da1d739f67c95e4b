//! The fix of a result.

ghost use Rattle.std.specs.Prelude.{◌≡◌, ◌++◌, false, true, Some, map, slice_get};
ghost use Rattle.report.specs.Entries.{entry_of};
ghost use Rattle.report.specs.Writing.{refusals_after, IsWritten};
ghost use Rattle.serde_json.specs.Written.{comma_if, compact_text};
ghost use Rattle.format_parts.specs.Fixes.{told_fix};
ghost use Rattle.format_parts.specs.Pieces.{listed, members_listed};
ghost use Rattle.sarif.specs.SarifText.{fixes_members, replacement};

use crate::columns::moved_in_code_points;
use crate::log::{base_of, scheme_of};
use format_parts::FormatPiece::{Number, Plain, Spelled};
use format_parts::Spelling::{InString, InUri};
use format_parts::{comma, fix_words, name_of, put_each, told_fix};
use lexer::Source;
use report::{Diagnostic, Sink, Wording, WriteFault, first_byte, put_all};
use suggested_fixes::{Edit, Fix};

/// Writes the fix that is told with a diagnostic, as a member of a result behind others.
pub fn write_fixes<'a, S: Sink>(
    wording: Wording,
    fixes: &[Fix],
    sources: &'a [Source],
    diagnostic: &'a Diagnostic<'a>,
    sink: &mut S,
) -> Result<(), WriteFault>
    ensures taken { IsWritten (members_listed true (fixes_members (slice_get sources.now diagnostic.now.file)
        (told_fix wording fixes.now (slice_get sources.now diagnostic.now.file) (entry_of diagnostic.now))))
        (S.taken sink.old) (S.taken sink.new) result }
    ensures refusals { S.refusals sink.new ≡ refusals_after (S.refusals sink.old) result }
{
    match told_fix(wording, fixes, sources, diagnostic) {
        None => Ok(()),
        Some(fix) => write_told(sources, diagnostic.file, fix, sink),
    }
}

/// Writes a fix of a file.
fn write_told<S: Sink>(
    sources: &[Source],
    file: usize,
    fix: &Fix,
    sink: &mut S,
) -> Result<(), WriteFault>
    ensures taken { IsWritten (members_listed true (fixes_members (slice_get sources.now file) (Some fix.now)))
        (S.taken sink.old) (S.taken sink.new) result }
    ensures refusals { S.refusals sink.new ≡ refusals_after (S.refusals sink.old) result }
{
    let name = name_of(sources, file);
    put_each(
        &[
            Plain(",\"fixes\":[{\"description\":{\"text\":\""),
            Spelled(InString, fix_words(fix.kind)),
            Plain("\"},\"artifactChanges\":[{\"artifactLocation\":{\"uri\":\""),
            Plain(scheme_of(name)),
            Spelled(InUri, name),
            Plain(base_of(name)),
            Plain("},\"replacements\":["),
        ],
        sink,
    )?;
    write_replacements(sources, file, &fix.edits, sink)?;
    put_all(b"]}]}]", sink)
}

fn write_replacements<S: Sink>(
    sources: &[Source],
    file: usize,
    edits: &[Edit],
    sink: &mut S,
) -> Result<(), WriteFault>
    ensures taken { IsWritten (listed false (map (replacement (slice_get sources.now file)) edits.now))
        (S.taken sink.old) (S.taken sink.new) result }
    ensures refusals { S.refusals sink.new ≡ refusals_after (S.refusals sink.old) result }
{
    let mut is_later = false;
    for edit in edits {
        write_replacement(sources, file, edit, is_later, sink)?;
        is_later = true;
    }
    Ok(())
}

/// Writes an edit of a file. Its columns count code points.
fn write_replacement<S: Sink>(
    sources: &[Source],
    file: usize,
    edit: &Edit,
    is_later: bool,
    sink: &mut S,
) -> Result<(), WriteFault>
    ensures taken { IsWritten (comma_if is_later ++ compact_text (replacement (slice_get sources.now file) edit.now))
        (S.taken sink.old) (S.taken sink.new) result }
    ensures refusals { S.refusals sink.new ≡ refusals_after (S.refusals sink.old) result }
{
    let start = moved_in_code_points(first_byte(file), sources, file, edit.start as usize);
    let end = moved_in_code_points(start, sources, file, edit.end as usize);
    put_each(
        &[
            Plain(comma(is_later)),
            Plain("{\"deletedRegion\":{\"startLine\":"),
            Number(start.place.line),
            Plain(",\"startColumn\":"),
            Number(start.place.column),
            Plain(",\"endLine\":"),
            Number(end.place.line),
            Plain(",\"endColumn\":"),
            Number(end.place.column),
            Plain("},\"insertedContent\":{\"text\":\""),
            Spelled(InString, edit.new.as_str()),
            Plain("\"}}"),
        ],
        sink,
    )
}
