//! Literals in quotes: interpreted and raw string literals and rune literals
//! (the Go specification, "Rune literals" and "String literals").

ghost use Rattle.std.specs.Prelude.{◌≡◌, ◌<◌, false, length, slice_index, drop, IfSome, IfNone, IsTrue, IsFalse};
ghost use Rattle.lexer.specs.Pieces.{breaks, escapes};
ghost use Rattle.lexer.specs.Cut.{CanBegin, IsLongest, is_comment};
ghost use Rattle.lexer.specs.Dispatch.{is_quote, quote_kind, closing};
ghost use Rattle.lexer.specs.declared.pieces.Piece.{Piece};

use crate::pieces::{Piece, token_piece};
use crate::token::TokenKind;

/// Whether `byte` begins a string, a rune or a raw string.
pub fn is_quote(byte: u8) -> bool
    ensures { result ≡ is_quote byte }
{
    byte == b'"' || byte == b'\'' || byte == b'`'
}

/// What a literal in these quotes is.
fn quote_kind(quote: u8) -> TokenKind
    ensures { result ≡ quote_kind quote }
{
    match quote {
        b'"' => TokenKind::InterpretedString,
        b'\'' => TokenKind::Rune,
        _ => TokenKind::RawString,
    }
}

/// Whether `byte` ends a literal in these quotes before its end: a newline does, but in a raw string.
fn breaks(quote: u8, byte: u8) -> bool
    ensures { result ≡ breaks quote byte }
{
    byte == b'\n' && quote != b'`'
}

/// Whether `byte` is a backslash that takes the next character of a literal in these quotes.
fn escapes(quote: u8, byte: u8) -> bool
    ensures { result ≡ escapes quote byte }
{
    byte == b'\\' && quote != b'`'
}

/// The size of the string, raw string or rune at the start of a text, which begins with its quote;
/// or `None` where the text ends before it, or its line does and it is no raw string.
fn quoted_size(text: &[u8]) -> Option<usize>
    requires { 0 < length text.now }
    ensures { result ≡ closing (slice_index text.now 0) false 1 (drop 1 text.now) }
{
    let quote = text[0];
    let mut escaped = false;
    let mut size = 1;
    while size < text.len() {
        let byte = text[size];
        size += 1;
        if breaks(quote, byte) {
            return None;
        }
        if escaped {
            escaped = false;
        } else if byte == quote {
            return Some(size);
        } else {
            escaped = escapes(quote, byte);
        }
    }
    None
}

/// The string, raw string or rune at the start of a text, or `None` where it is not ended.
pub fn quoted(text: &[u8]) -> Option<Piece>
    requires nonempty { 0 < length text.now }
    requires quote { IsTrue (is_quote (slice_index text.now 0)) }
    ensures some { IfSome result (λ p. IsLongest p text.now × IsFalse (is_comment p.kind)) }
    ensures none { IfNone result ((p : Piece) → CanBegin p text.now → IsTrue (is_comment p.kind)) }
{
    let size = quoted_size(text)?;
    Some(token_piece(quote_kind(text[0]), size))
}
