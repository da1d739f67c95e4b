//! Comments (the Go specification, "Comments").

ghost use Rattle.std.specs.Prelude.{◌≡◌, ◌≢◌, ◌≤◌, ◌<◌, ◌&&◌, ◌==◌, ◌+◌, ℕ, length, drop, slice_index, IfSome, IfNone, IsTrue};
ghost use Rattle.std.specs.Str.{IsCharBoundary};
ghost use Rattle.lexer.specs.Bytes.{line_feed, asterisk, slash};
ghost use Rattle.lexer.specs.Pieces.{has_newline};
ghost use Rattle.lexer.specs.Dispatch.{comment_end};
ghost use Rattle.lexer.specs.Cut.{CanBegin, IsLongest, opens_comment};
ghost use Rattle.lexer.specs.declared.pieces.Piece.{Piece};
ghost use Rattle.lexer.specs.declared.pieces.PieceKind.TheVariants.{LineComment};

use crate::pieces::{Piece, PieceKind, byte_at};
use memchr::memchr;

/// Whether a comment opens at the start of the text.
pub fn opens_comment(text: &[u8]) -> bool
    ensures { result ≡ opens_comment text.now }
{
    let second = byte_at(text, 1);
    byte_at(text, 0) == b'/' && (second == b'/' || second == b'*')
}

/// The size of the line comment at the start of a text.
fn line_comment_size(text: &[u8]) -> usize
    requires { 2 ≤ length text.now }
    ensures in_range { (2 ≤ result) × (result ≤ length text.now) }
    ensures one_line { (i : ℕ) → 2 ≤ i → i < result → slice_index text.now i ≢ line_feed }
    ensures stops { result < length text.now → slice_index text.now result ≡ line_feed }
{
    match memchr(b'\n', &text[2..]) {
        Some(inner) => inner + 2,
        None => text.len(),
    }
}

/// Whether `*/` stands at `at`.
fn ends_comment(text: &[u8], at: usize) -> bool
    requires { at < length text.now }
    ensures { result ≡ (slice_index text.now at == asterisk && slice_index text.now (at + 1) == slash) }
{
    text[at] == b'*' && byte_at(text, at + 1) == b'/'
}

/// The size of the general comment at the start of a text, or `None` where it is not ended.
fn general_comment_size(text: &[u8]) -> Option<usize>
    requires { 2 ≤ length text.now }
    ensures { result ≡ comment_end 2 (drop 2 text.now) }
{
    let mut size = 2;
    while size < text.len() {
        if ends_comment(text, size) {
            return Some(size + 2);
        }
        size += 1;
    }
    None
}

/// Whether a text has a newline.
fn has_newline(text: &[u8]) -> bool
    ensures { result ≡ has_newline text.now }
{
    text.iter().any(|byte| *byte == b'\n')
}

/// The comment at the start of a text, or `None` where it is not ended.
pub fn comment(text: &[u8]) -> Option<Piece>
    requires size { 2 ≤ length text.now }
    requires opens { IsTrue (opens_comment text.now) }
    ensures some { IfSome result (λ p. IsLongest p text.now) }
    ensures none { IfNone result ((p : Piece) → CanBegin p text.now → ⊥) }
    ensures boundary { IfSome result (λ p. p.kind ≡ LineComment → IsCharBoundary text.now p.size) }
{
    if text[1] == b'/' {
        return Some(Piece {
            kind: PieceKind::LineComment,
            size: line_comment_size(text),
        });
    }
    let size = general_comment_size(text)?;
    if has_newline(&text[..size]) {
        Some(Piece {
            kind: PieceKind::GeneralCommentWithNewline,
            size,
        })
    } else {
        Some(Piece {
            kind: PieceKind::GeneralComment,
            size,
        })
    }
}
