//! Lines that are written piece by piece, so that no memory is taken for them.

ghost use Rattle.std.specs.Prelude.{◌≡◌, flat_map};
ghost use Rattle.report.specs.Pieces.{piece_text};
ghost use Rattle.report.specs.Writing.{refusals_after, IsWritten};

use crate::sinks::{Sink, WriteFault, put_all};
use itoa::Buffer;

/// A piece of a line: a text, or a number, which is written in decimal digits.
#[derive(Clone, Copy)]
pub enum TextPiece<'a> {
    Text(&'a str),
    Number(usize),
}

/// Puts these pieces, one behind another.
///
/// # Errors
///
/// A put failed or took nothing. A beginning of the text is taken then, and not all of it.
pub fn put_pieces<S: Sink>(pieces: &[TextPiece], sink: &mut S) -> Result<(), WriteFault>
    ensures taken { IsWritten (flat_map piece_text pieces.now) (S.taken sink.old) (S.taken sink.new) result }
    ensures refusals { S.refusals sink.new ≡ refusals_after (S.refusals sink.old) result }
{
    for piece in pieces {
        put_piece(piece, sink)?;
    }
    Ok(())
}

fn put_piece<S: Sink>(piece: &TextPiece, sink: &mut S) -> Result<(), WriteFault>
    ensures taken { IsWritten (piece_text piece.now) (S.taken sink.old) (S.taken sink.new) result }
    ensures refusals { S.refusals sink.new ≡ refusals_after (S.refusals sink.old) result }
{
    match *piece {
        TextPiece::Text(text) => put_all(text.as_bytes(), sink),
        TextPiece::Number(number) => put_all(Buffer::new().format(number).as_bytes(), sink),
    }
}
