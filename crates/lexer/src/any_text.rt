//! The tokens of any source, or its first fault (the Go specification, "Source code representation" and
//! "Lexical elements").

ghost use Rattle.std.specs.Prelude.{List, ◌≡◌, ◌≢◌, ◌≤◌, ◌<◌, ℕ, false, length, take, slice_index, IfOk, IfErr, IsErr, IfSome, IfNone};
ghost use Rattle.std.specs.Str.{IsUtf8, IsCharBoundary};
ghost use Rattle.lexer.specs.Bytes.{nul};
ghost use Rattle.lexer.specs.Pieces.{IsWord, is_white_space};
ghost use Rattle.lexer.specs.Cut.{CanBegin, IsLongest};
ghost use Rattle.lexer.specs.Tokens.{IsTokens, mark_size};
ghost use Rattle.lexer.specs.Faults.{IsFault, stop_of};
ghost use Rattle.lexer.specs.declared.fault.LexFault.{LexFault};
ghost use Rattle.lexer.specs.declared.fault.LexFault.TheVariants.{OutOfMemory};
ghost use Rattle.lexer.specs.declared.pieces.Piece.{Piece};
ghost use Rattle.lexer.specs.declared.token.Token.{Token};

use crate::comments::{comment, opens_comment};
use crate::fault::LexFault;
use crate::keywords::word_kind;
use crate::numbers::{number_size, starts_number};
use crate::operators::operator;
use crate::pieces::{Piece, PieceKind, byte_at, is_white_space, token_piece};
use crate::quotes::{is_quote, quoted};
use crate::semicolons::{add_tokens_of, end_line};
use crate::source::{MOST_BYTES, Source};
use crate::token::{Token, TokenKind};
use crate::words::word_size;
use memchr::memchr;
use std::alloc::Global;

/// The byte order mark: U+FEFF in UTF-8.
const BYTE_ORDER_MARK: [u8; 3] = [0xEF, 0xBB, 0xBF];

/// The longest piece that a text begins with where it begins with no white space and no word, or `None` where none can.
fn other_piece(text: &[u8]) -> Option<Piece>
    requires nonempty { 0 < length text.now }
    requires utf8 { IsUtf8 text.now }
    requires no_space { is_white_space (slice_index text.now 0) ≡ false }
    requires no_word { (n : ℕ) → n ≤ length text.now → IsWord (take n text.now) → ⊥ }
    ensures some { IfSome result (λ p. IsLongest p text.now × IsCharBoundary text.now p.size) }
    ensures none { IfNone result ((p : Piece) → CanBegin p text.now → ⊥) }
{
    let first = text[0];
    let second = byte_at(text, 1);
    if starts_number(first, second) {
        return Some(token_piece(TokenKind::Number, number_size(text)));
    }
    if first == b'\n' {
        return Some(Piece {
            kind: PieceKind::Newline,
            size: 1,
        });
    }
    if is_quote(first) {
        return quoted(text);
    }
    if opens_comment(text) {
        return comment(text);
    }
    operator(first, second, byte_at(text, 2))
}

/// The longest piece that a text begins with, or `None` where none can.
fn first_piece(text: &str) -> Option<Piece>
    requires nonempty { 0 < length text.now }
    requires small { length text.now ≤ MOST_BYTES }
    ensures some { IfSome result (λ p. IsLongest p text.now × IsCharBoundary text.now p.size) }
    ensures none { IfNone result ((p : Piece) → CanBegin p text.now → ⊥) }
{
    let bytes = text.as_bytes();
    // A third of all pieces is white space.
    if is_white_space(bytes[0]) {
        return Some(Piece {
            kind: PieceKind::WhiteSpace,
            size: 1,
        });
    }
    let size = word_size(text);
    if size > 0 {
        return Some(token_piece(word_kind(&bytes[..size]), size));
    }
    other_piece(bytes)
}

/// The fault where the cut stops at `at`, with `rest` after it.
fn stop(rest: &[u8], at: u32) -> LexFault
    ensures { result ≡ stop_of rest.now at }
{
    let first = byte_at(rest, 0);
    if first == b'"' || first == b'`' {
        LexFault::UnclosedString(at)
    } else if first == b'\'' {
        LexFault::UnclosedRune(at)
    } else if opens_comment(rest) {
        LexFault::UnclosedComment(at)
    } else {
        LexFault::UnknownCharacter(at)
    }
}

/// How many bytes the byte order mark at the start of a text takes.
fn mark_size(text: &[u8]) -> usize
    ensures { result ≡ mark_size text.now }
{
    let [first, second, third] = BYTE_ORDER_MARK;
    if byte_at(text, 0) == first && byte_at(text, 1) == second && byte_at(text, 2) == third {
        BYTE_ORDER_MARK.len()
    } else {
        0
    }
}

/// The tokens of a text of at most 1 MiB without NUL.
fn lex_text(alloc: Global, text: &str) -> Result<Vec<Token>, LexFault>
    requires small { length text.now ≤ MOST_BYTES }
    requires no_nul { (i : ℕ) → i < length text.now → slice_index text.now i ≢ nul }
    ensures ok { IfOk result (λ v. IsTokens text.now v.items) }
    ensures err { IfErr result (λ f. f ≢ OutOfMemory → IsFault text.now f) }
{
    let mut tokens = Vec::new(alloc);
    let mark = mark_size(text.as_bytes());
    let (_, mut rest) = text.split_at(mark);
    let mut at = mark as u32;
    let mut due = None;
    while !rest.is_empty() {
        let Some(found) = first_piece(rest) else {
            return Err(stop(rest.as_bytes(), at));
        };
        let end = at + found.size as u32;
        let Ok(next) = add_tokens_of(&mut tokens, found.kind, at, end, due) else {
            return Err(LexFault::OutOfMemory);
        };
        let (_, after) = rest.split_at(found.size);
        due = next;
        at = end;
        rest = after;
    }
    if end_line(&mut tokens, due).is_err() {
        return Err(LexFault::OutOfMemory);
    }
    Ok(tokens)
}

/// The tokens of a source's bytes, or its first fault.
fn lex_bytes(alloc: Global, bytes: &[u8]) -> Result<Vec<Token>, LexFault>
    ensures ok { IfOk result (λ v. IsTokens bytes.now v.items) }
    ensures err { IfErr result (λ f. f ≢ OutOfMemory → IsFault bytes.now f) }
{
    if bytes.len() > MOST_BYTES {
        return Err(LexFault::TooLong);
    }
    match str::from_utf8(bytes) {
        Err(fault) => Err(LexFault::NotUtf8(fault.valid_up_to() as u32)),
        Ok(text) => {
            if let Some(at) = memchr(0, bytes) {
                return Err(LexFault::Nul(at as u32));
            }
            lex_text(alloc, text)
        }
    }
}

/// The tokens of a source, in order, with inserted semicolons.
///
/// # Errors
/// The first fault of a source that has no tokens: it is too long; else it is not UTF-8; else it has a NUL;
/// else the first place where the cut stops. `OutOfMemory` where the tokens find no memory.
pub fn lex(alloc: Global, source: &Source) -> Result<Vec<Token>, LexFault>
    ensures ok { IfOk result (λ v. IsTokens source.now.bytes.items v.items) }
    ensures err { IfErr result (λ f. f ≢ OutOfMemory → IsFault source.now.bytes.items f) }

    // So a source that has tokens gives just these, and one that has a fault gives just that, out of memory aside.
    ensures tokens { (ts : List Token) → IsTokens source.now.bytes.items ts →
        IfOk result (λ v. v.items ≡ ts) × IfErr result (λ f. f ≡ OutOfMemory) }
    ensures fault { (g : LexFault) → IsFault source.now.bytes.items g →
        IsErr result × IfErr result (λ f. f ≢ OutOfMemory → f ≡ g) }
{
    lex_bytes(alloc, &source.bytes)
}
