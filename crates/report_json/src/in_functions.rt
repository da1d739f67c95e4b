//! The function in which a finding stands, as JSON tells it.

ghost use Rattle.std.specs.Prelude.{◌≡◌, ◌++◌, Some, slice_get, true};
ghost use Rattle.json.specs.Print.{escape};
ghost use Rattle.lexer.specs.Place.{line_of};
ghost use Rattle.function_spans.specs.Functions.{full_name, type_before};
ghost use Rattle.report.specs.Entries.{entry_of};
ghost use Rattle.report.specs.ReportText.{bytes_of};
ghost use Rattle.report.specs.Writing.{refusals_after, IsWritten};
ghost use Rattle.format_parts.specs.Pieces.{members_listed};
ghost use Rattle.report_json.specs.InFunctions.{around_members, function_members, is_readable, told_function};
ghost use Rattle.serde_json.specs.Data.{boolean};
ghost use Rattle.serde_json.specs.Written.{compact_text};

use format_parts::FormatPiece::{Number, Plain};
use format_parts::Spelling::InString;
use format_parts::{bytes_of, put_each, put_spelled};
use function_spans::{body_end, function_at, function_name, is_in_literal, receiver_type};
use lexer::Source;
use report::{Diagnostic, DiagnosticCode, Sink, Wording, WriteFault, first_byte, moved, put_all};

/// Whether the code is said of a file that can be read.
fn is_readable(code: DiagnosticCode) -> bool
    ensures { result ≡ is_readable code }
{
    match code {
        DiagnosticCode::Unreadable(_) => false,
        _ => true,
    }
}

/// Where the `func` stands of the function that is told with a diagnostic.
fn told_function<'a>(
    wording: Wording,
    sources: &'a [Source],
    diagnostic: &'a Diagnostic<'a>,
) -> Option<usize>
    ensures { result ≡ told_function wording (slice_get sources.now diagnostic.now.file) (entry_of diagnostic.now) }
{
    match wording {
        Wording::Second if is_readable(diagnostic.code) => {
            let text = bytes_of(sources, diagnostic.file);
            function_at(text, diagnostic.offset as usize)
        }
        _ => None,
    }
}

/// Writes the function in which a diagnostic stands, if that is told.
pub fn write_function<'a, S: Sink>(
    wording: Wording,
    sources: &'a [Source],
    diagnostic: &'a Diagnostic<'a>,
    sink: &mut S,
) -> Result<(), WriteFault>
    ensures taken { IsWritten
        (members_listed true
        (around_members wording (slice_get sources.now diagnostic.now.file) (entry_of diagnostic.now)))
        (S.taken sink.old) (S.taken sink.new) result }
    ensures refusals { S.refusals sink.new ≡ refusals_after (S.refusals sink.old) result }
{
    let Some(function) = told_function(wording, sources, diagnostic) else {
        return Ok(());
    };
    let offset = diagnostic.offset as usize;
    write_told(sources, diagnostic.file, offset, function, sink)
}

/// Writes the function of a file whose `func` stands there, of an offset in it.
fn write_told<S: Sink>(
    sources: &[Source],
    file: usize,
    offset: usize,
    function: usize,
    sink: &mut S,
) -> Result<(), WriteFault>
    ensures taken { IsWritten
        (members_listed true (function_members (bytes_of (slice_get sources.now file)) offset (Some function)))
        (S.taken sink.old) (S.taken sink.new) result }
    ensures refusals { S.refusals sink.new ≡ refusals_after (S.refusals sink.old) result }
{
    let text = bytes_of(sources, file);
    put_all(b",\"function\":{\"name\":\"", sink)?;
    write_name(text, function, sink)?;
    let end = body_end(text, function);
    put_each(
        &[
            Plain("\",\"line\":"),
            Number(line_at(sources, file, function)),
            Plain(",\"end_line\":"),
            Number(line_at(sources, file, end)),
            Plain(",\"literal\":"),
            Plain(truth(is_in_literal(text, function, offset))),
            Plain("}"),
        ],
        sink,
    )
}

/// Writes the name of a function, as it stands in a string; before that of a method stands its receiver's type.
fn write_name<S: Sink>(text: &[u8], function: usize, sink: &mut S) -> Result<(), WriteFault>
    ensures taken { IsWritten (escape (full_name text.now function)) (S.taken sink.old) (S.taken sink.new) result }
    ensures refusals { S.refusals sink.new ≡ refusals_after (S.refusals sink.old) result }
{
    let receiver = receiver_type(text, function);
    put_spelled(InString, receiver, sink)?;
    put_spelled(InString, dot_behind(receiver).as_bytes(), sink)?;
    put_spelled(InString, function_name(text, function), sink)
}

/// What stands behind the type of a receiver; nothing where there is none.
fn dot_behind(receiver: &[u8]) -> &'static str
    ensures { receiver.now ++ result.now ≡ type_before receiver.now }
{
    if receiver.is_empty() { "" } else { "." }
}

/// The line of an offset in a source.
fn line_at(sources: &[Source], file: usize, offset: usize) -> usize
    ensures { result ≡ line_of (bytes_of (slice_get sources.now file)) offset }
{
    moved(first_byte(file), sources, file, offset).place.line
}

fn truth(is_so: bool) -> &'static str
    ensures { result.now ≡ compact_text (boolean is_so) }
{
    if is_so { "true" } else { "false" }
}
