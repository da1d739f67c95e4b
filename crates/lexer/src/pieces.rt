//! The pieces that a Go text is cut into: white space, comments and tokens.

ghost use Rattle.std.specs.Prelude.{◌≡◌, slice_index};
ghost use Rattle.lexer.specs.Pieces.{is_white_space};
ghost use Rattle.lexer.specs.Dispatch.{token_piece};

use crate::token::TokenKind;

/// What a piece is.
#[derive(Clone, Copy, Debug)]
pub enum PieceKind {
    /// A space, a tab or a carriage return: white space that ends no line.
    WhiteSpace,
    Newline,
    LineComment,
    /// A general comment without a newline in it.
    GeneralComment,
    /// A general comment with a newline in it.
    GeneralCommentWithNewline,
    TokenOf(TokenKind),
}

/// A piece at the start of a text: what it is, and how many bytes it has.
#[derive(Clone, Copy, Debug)]
pub struct Piece {
    pub kind: PieceKind,
    pub size: usize,
}

/// The byte at `at`, or 0 where the text has ended.
pub fn byte_at(text: &[u8], at: usize) -> u8
    ensures { result ≡ slice_index text.now at }
{
    if at < text.len() { text[at] } else { 0 }
}

/// Whether `byte` is a space, a tab or a carriage return.
pub fn is_white_space(byte: u8) -> bool
    ensures { result ≡ is_white_space byte }
{
    byte == b' ' || byte == b'\t' || byte == b'\r'
}

/// A token of that kind and size.
pub fn token_piece(kind: TokenKind, size: usize) -> Piece
    ensures { result ≡ token_piece kind size }
{
    Piece {
        kind: PieceKind::TokenOf(kind),
        size,
    }
}
