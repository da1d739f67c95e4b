//! Lines of JSON that are written piece by piece, so that no memory is taken for them.

ghost use Rattle.std.specs.Prelude.{◌≡◌, flat_map, slice_get};
ghost use Rattle.serde_json.specs.Written.{comma_if};
ghost use Rattle.report.specs.ReportText.{name_of};
ghost use Rattle.report.specs.Writing.{refusals_after, IsWritten};
ghost use Rattle.format_parts.specs.Pieces.{piece_text};

use crate::strings::{Spelling, put_spelled};
use lexer::Source;
use report::{Sink, TextPiece, WriteFault, put_all, put_pieces};

/// A piece of a line: a text as it is, a number in decimal digits, or a text whose bytes are spelled.
#[derive(Clone, Copy)]
pub enum FormatPiece<'a> {
    Plain(&'a str),
    Number(usize),
    Spelled(Spelling, &'a str),
}

/// Puts these pieces, one behind another.
///
/// # Errors
///
/// A put failed or took nothing. A beginning of the text is taken then, and not all of it.
pub fn put_each<S: Sink>(pieces: &[FormatPiece], sink: &mut S) -> Result<(), WriteFault>
    ensures taken { IsWritten (flat_map piece_text pieces.now) (S.taken sink.old) (S.taken sink.new) result }
    ensures refusals { S.refusals sink.new ≡ refusals_after (S.refusals sink.old) result }
{
    for piece in pieces {
        put_one(piece, sink)?;
    }
    Ok(())
}

fn put_one<S: Sink>(piece: &FormatPiece, sink: &mut S) -> Result<(), WriteFault>
    ensures taken { IsWritten (piece_text piece.now) (S.taken sink.old) (S.taken sink.new) result }
    ensures refusals { S.refusals sink.new ≡ refusals_after (S.refusals sink.old) result }
{
    match *piece {
        FormatPiece::Plain(text) => put_all(text.as_bytes(), sink),
        FormatPiece::Number(number) => put_pieces(&[TextPiece::Number(number)], sink),
        FormatPiece::Spelled(spelling, text) => put_spelled(spelling, text.as_bytes(), sink),
    }
}

/// A comma before a value of a list, where others stand before it.
pub fn comma(is_later: bool) -> &'static str
    ensures { result.now ≡ comma_if is_later }
{
    if is_later { "," } else { "" }
}

/// The name of a source; `-` where it is not there.
pub fn name_of(sources: &[Source], file: usize) -> &str
    ensures { result.now ≡ name_of (slice_get sources.now file) }
{
    match sources.get(file) {
        Some(source) => source.name.as_str(),
        None => "-",
    }
}
