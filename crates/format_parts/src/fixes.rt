//! The fix that is told with a finding.

ghost use Rattle.std.specs.Prelude.{◌≡◌, ◌++◌, false, true, Some, map, option_map, slice_get, string_bytes};
ghost use Rattle.report.specs.Entries.{entry_of};
ghost use Rattle.report.specs.Writing.{refusals_after, IsWritten};
ghost use Rattle.serde_json.specs.Written.{comma_if, compact_text};
ghost use Rattle.format_parts.specs.Fixes.{edit_value, fits, fix_in, fix_members, fix_words, is_discarded, is_for, is_not_called, told_fix};
ghost use Rattle.format_parts.specs.Pieces.{listed, members_listed};

use crate::pieces::FormatPiece::{Number, Plain, Spelled};
use crate::pieces::{comma, name_of, put_each};
use crate::strings::Spelling::InString;
use lexer::Source;
use report::{Diagnostic, DiagnosticCode, Sink, Wording, WriteFault, put_all};
use suggested_fixes::{Edit, Fix, FixKind};

fn is_not_called(code: DiagnosticCode) -> bool
    ensures { result ≡ is_not_called code }
{
    matches!(code, DiagnosticCode::NotCalled)
}

fn is_discarded(code: DiagnosticCode) -> bool
    ensures { result ≡ is_discarded code }
{
    matches!(code, DiagnosticCode::Discarded)
}

/// Whether a fix of this kind is for findings with this code.
fn is_for(kind: FixKind, code: DiagnosticCode) -> bool
    ensures { result ≡ is_for kind code }
{
    match kind {
        FixKind::Named => is_not_called(code),
        FixKind::Blank => is_discarded(code),
    }
}

/// Whether the fix is for what is said of the file with this name.
fn fits<'a>(file: &str, diagnostic: &'a Diagnostic<'a>, fix: &Fix) -> bool
    ensures { result ≡ fits file.now (entry_of diagnostic.now) fix.now }
{
    (is_for(fix.kind, diagnostic.code)
        && (fix.from <= diagnostic.offset && diagnostic.offset <= fix.to))
        && (fix.name.as_str() == diagnostic.name && fix.file.as_str() == file)
}

/// The first of these fixes that is for it.
fn fix_in<'f, 'a>(file: &str, diagnostic: &'a Diagnostic<'a>, fixes: &'f [Fix]) -> Option<&'f Fix>
    ensures { option_map (λ fix. fix.now) result ≡ fix_in file.now (entry_of diagnostic.now) fixes.now }
{
    for fix in fixes {
        if fits(file, diagnostic, fix) {
            return Some(fix);
        }
    }
    None
}

/// The fix that is told with a diagnostic, if one is for it. By the first edition of the rules none is told.
pub fn told_fix<'f, 'a>(
    wording: Wording,
    fixes: &'f [Fix],
    sources: &'a [Source],
    diagnostic: &'a Diagnostic<'a>,
) -> Option<&'f Fix>
    ensures { option_map (λ fix. fix.now) result
        ≡ told_fix wording fixes.now (slice_get sources.now diagnostic.now.file) (entry_of diagnostic.now) }
{
    match wording {
        Wording::First => None,
        Wording::Second => fix_in(name_of(sources, diagnostic.file), diagnostic, fixes),
    }
}

/// What a fix of this kind does, in words.
pub fn fix_words(kind: FixKind) -> &'static str
    ensures { result.now ≡ fix_words kind }
{
    match kind {
        FixKind::Named => "defer the call of the cancel function",
        FixKind::Blank => "name the cancel function, and defer its call",
    }
}

/// Writes the fix that is told with a diagnostic, as a member of an object behind others.
///
/// # Errors
///
/// A put failed or took nothing. A beginning of the text is taken then, and not all of it.
pub fn write_fix<'a, S: Sink>(
    wording: Wording,
    fixes: &[Fix],
    sources: &'a [Source],
    diagnostic: &'a Diagnostic<'a>,
    sink: &mut S,
) -> Result<(), WriteFault>
    ensures taken { IsWritten (members_listed true (fix_members
        (told_fix wording fixes.now (slice_get sources.now diagnostic.now.file) (entry_of diagnostic.now))))
        (S.taken sink.old) (S.taken sink.new) result }
    ensures refusals { S.refusals sink.new ≡ refusals_after (S.refusals sink.old) result }
{
    match told_fix(wording, fixes, sources, diagnostic) {
        None => Ok(()),
        Some(fix) => write_told(fix, sink),
    }
}

fn write_told<S: Sink>(fix: &Fix, sink: &mut S) -> Result<(), WriteFault>
    ensures taken { IsWritten (members_listed true (fix_members (Some fix.now)))
        (S.taken sink.old) (S.taken sink.new) result }
    ensures refusals { S.refusals sink.new ≡ refusals_after (S.refusals sink.old) result }
{
    put_each(
        &[
            Plain(",\"suggested_fixes\":[{\"message\":\""),
            Spelled(InString, fix_words(fix.kind)),
            Plain("\",\"edits\":["),
        ],
        sink,
    )?;
    write_edits(fix.file.as_str(), &fix.edits, sink)?;
    put_all(b"]}]", sink)
}

fn write_edits<S: Sink>(file: &str, edits: &[Edit], sink: &mut S) -> Result<(), WriteFault>
    ensures taken { IsWritten (listed false (map (edit_value file.now) edits.now))
        (S.taken sink.old) (S.taken sink.new) result }
    ensures refusals { S.refusals sink.new ≡ refusals_after (S.refusals sink.old) result }
{
    let mut is_later = false;
    for edit in edits {
        write_edit(file, edit, is_later, sink)?;
        is_later = true;
    }
    Ok(())
}

fn write_edit<'a, S: Sink>(
    file: &'a str,
    edit: &'a Edit,
    is_later: bool,
    sink: &mut S,
) -> Result<(), WriteFault>
    ensures taken { IsWritten (comma_if is_later ++ compact_text (edit_value file.now edit.now))
        (S.taken sink.old) (S.taken sink.new) result }
    ensures refusals { S.refusals sink.new ≡ refusals_after (S.refusals sink.old) result }
{
    put_each(
        &[
            Plain(comma(is_later)),
            Plain("{\"filename\":\""),
            Spelled(InString, file),
            Plain("\",\"start\":"),
            Number(edit.start as usize),
            Plain(",\"end\":"),
            Number(edit.end as usize),
            Plain(",\"new\":\""),
            Spelled(InString, edit.new.as_str()),
            Plain("\"}"),
        ],
        sink,
    )
}
