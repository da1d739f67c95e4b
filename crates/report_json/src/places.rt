//! Places in files, as JSON tells them.

ghost use Rattle.std.specs.Prelude.{◌≡◌, true};
ghost use Rattle.report.specs.Writing.{refusals_after, IsWritten};
ghost use Rattle.report_json.specs.JsonText.{end_members, place_members_at};
ghost use Rattle.format_parts.specs.Pieces.{members_listed, opened};

use format_parts::FormatPiece::{Number, Plain, Spelled};
use format_parts::Spelling::InString;
use format_parts::{comma, put_each};
use lexer::Place;
use report::{Sink, WriteFault};

/// Writes a file, by its name, and a place in it.
pub fn open_place<S: Sink>(
    file: &str,
    place: Place,
    is_later: bool,
    sink: &mut S,
) -> Result<(), WriteFault>
    ensures taken { IsWritten (opened is_later (place_members_at file.now place.line place.column))
        (S.taken sink.old) (S.taken sink.new) result }
    ensures refusals { S.refusals sink.new ≡ refusals_after (S.refusals sink.old) result }
{
    put_each(
        &[
            Plain(comma(is_later)),
            Plain("{\"file\":\""),
            Spelled(InString, file),
            Plain("\",\"line\":"),
            Number(place.line),
            Plain(",\"column\":"),
            Number(place.column),
        ],
        sink,
    )
}

/// Writes where a name or a step ends, if that is told.
pub fn write_end<S: Sink>(end: Option<Place>, sink: &mut S) -> Result<(), WriteFault>
    ensures taken { IsWritten (members_listed true (end_members end)) (S.taken sink.old) (S.taken sink.new) result }
    ensures refusals { S.refusals sink.new ≡ refusals_after (S.refusals sink.old) result }
{
    let Some(end) = end else {
        return Ok(());
    };
    put_each(
        &[
            Plain(",\"end_line\":"),
            Number(end.line),
            Plain(",\"end_column\":"),
            Number(end.column),
        ],
        sink,
    )
}
