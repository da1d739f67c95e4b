//! Statements that obtain a cancel function, and where the deferred call would stand.

use crate::functions::Function;
use crate::gifts::{Gift, gift_at};
use crate::lines::{indentation, next_line};
use crate::names::{Names, are_names, is_among};
use crate::tokens::{
    Text, before, behind, closing, depth_after, end_of, is_line_end, is_word, kind_at, start_of,
    word_at,
};
use lexer::TokenKind;

/// How many tokens may stand on the left of a `:=`.
const MOST_TOKENS: usize = 8;

/// A statement of its own line that obtains what a call gives: `NAMES := CALL`.
#[derive(Clone, Copy)]
pub struct Obtaining {
    pub names: Names,
    pub gift: Gift,
}

/// A place for a line of its own.
#[derive(Clone, Copy)]
pub struct Line<'a> {
    pub indentation: &'a [u8],
    /// The offset at which it would begin.
    pub offset: u32,
    /// The token that names the error which is tested before it; the `:=` where none is.
    pub error: usize,
}

/// Whether a statement may begin at the token.
fn begins_statement(text: Text<'_>, at: usize) -> bool {
    matches!(
        kind_at(text, before(at)),
        TokenKind::Semicolon | TokenKind::LeftBrace
    )
}

/// The statement with this `:=`, whose first token is told.
pub fn obtaining_at(
    text: Text<'_>,
    functions: &[Function],
    first: usize,
    define: usize,
) -> Option<Obtaining> {
    let names = Names { first, define };
    let is_short = define.saturating_sub(first) <= MOST_TOKENS;
    if !is_short || !begins_statement(text, first) || !are_names(text, names) {
        return None;
    }
    let gift = gift_at(text, functions, behind(define, 1))?;
    if is_line_end(text, behind(gift.close, 1)) {
        Some(Obtaining { names, gift })
    } else {
        None
    }
}

/// The first token of the last statement of a block that holds no token past its end.
fn last_statement(text: Text<'_>, open: usize, close: usize) -> usize {
    let mut first = behind(open, 1);
    let mut depth: usize = 0;
    for at in behind(open, 1)..before(close) {
        let kind = kind_at(text, at);
        if depth == 0 && kind == TokenKind::Semicolon {
            first = behind(at, 1);
        }
        depth = depth_after(depth, kind);
    }
    first
}

/// The brace that closes `if NAME != nil { .. return .. }`, which begins at the token and has no `else`.
fn checked_until(text: Text<'_>, at: usize) -> Option<usize> {
    let open = behind(at, 4);
    let is_check = kind_at(text, at) == TokenKind::IfKeyword
        && kind_at(text, behind(at, 2)) == TokenKind::NotEqual
        && is_word(text, behind(at, 3), b"nil")
        && kind_at(text, open) == TokenKind::LeftBrace;
    if !is_check {
        return None;
    }
    let close = closing(text, open)?;
    let returns = kind_at(text, last_statement(text, open, close)) == TokenKind::ReturnKeyword;
    if returns && is_line_end(text, behind(close, 1)) {
        Some(close)
    } else {
        None
    }
}

/// The token behind which the line may stand, and the one that names the error which is tested before it.
fn last_token(text: Text<'_>, obtaining: Obtaining) -> Option<(usize, usize)> {
    let next = behind(obtaining.gift.close, 2);
    let error = behind(next, 1);
    match checked_until(text, next) {
        Some(close) if is_among(text, obtaining.names, word_at(text, error)) => {
            Some((close, error))
        }
        _ if obtaining.gift.has_error => None,
        _ => Some((obtaining.gift.close, obtaining.names.define)),
    }
}

/// The place of the deferred call, if it may stand in a line of its own.
pub fn line_behind<'a>(text: Text<'a>, obtaining: Obtaining) -> Option<Line<'a>> {
    let (last, error) = last_token(text, obtaining)?;
    Some(Line {
        indentation: indentation(text.bytes, start_of(text, obtaining.names.first))?,
        offset: next_line(text.bytes, end_of(text, last))?,
        error,
    })
}
