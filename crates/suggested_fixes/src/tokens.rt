//! A file's tokens, and their words.

use lexer::{Token, TokenKind};

/// A file's bytes with its tokens.
#[derive(Clone, Copy)]
pub struct Text<'a> {
    pub bytes: &'a [u8],
    pub tokens: &'a [Token],
}

/// The kind of a token; a semicolon where there is none.
pub fn kind_at(text: Text<'_>, at: usize) -> TokenKind {
    match text.tokens.get(at) {
        Some(token) => token.kind,
        None => TokenKind::Semicolon,
    }
}

/// Where a token begins; 0 where there is none.
pub fn start_of(text: Text<'_>, at: usize) -> u32 {
    match text.tokens.get(at) {
        Some(token) => token.start,
        None => 0,
    }
}

/// The offset behind a token; 0 where there is none.
pub fn end_of(text: Text<'_>, at: usize) -> u32 {
    match text.tokens.get(at) {
        Some(token) => token.end,
        None => 0,
    }
}

/// The bytes from one offset to another; none where they don't lie in this order within the text.
pub fn bytes_between(bytes: &[u8], start: usize, end: usize) -> &[u8] {
    if start > end || end > bytes.len() {
        return &[];
    }
    &bytes[start..end]
}

/// The bytes of a token.
pub fn word_at<'a>(text: Text<'a>, at: usize) -> &'a [u8] {
    bytes_between(
        text.bytes,
        start_of(text, at) as usize,
        end_of(text, at) as usize,
    )
}

pub fn is_identifier(text: Text<'_>, at: usize) -> bool {
    kind_at(text, at) == TokenKind::Identifier
}

/// Whether the token is this identifier.
pub fn is_word(text: Text<'_>, at: usize, word: &[u8]) -> bool {
    is_identifier(text, at) && word_at(text, at) == word
}

/// Whether the token is a semicolon that the end of a line inserted.
pub fn is_line_end(text: Text<'_>, at: usize) -> bool {
    kind_at(text, at) == TokenKind::Semicolon && start_of(text, at) == end_of(text, at)
}

/// The token before one.
pub fn before(at: usize) -> usize {
    at.saturating_sub(1)
}

/// The token so many places behind one.
pub fn behind(at: usize, count: usize) -> usize {
    at.saturating_add(count)
}

/// How many brackets are open behind a token of this kind.
pub fn depth_after(depth: usize, kind: TokenKind) -> usize {
    match kind {
        TokenKind::LeftParenthesis | TokenKind::LeftBracket | TokenKind::LeftBrace => {
            depth.saturating_add(1)
        }
        TokenKind::RightParenthesis | TokenKind::RightBracket | TokenKind::RightBrace => {
            depth.saturating_sub(1)
        }
        _ => depth,
    }
}

/// The token that closes the bracket at this one.
pub fn closing(text: Text<'_>, open: usize) -> Option<usize> {
    let mut depth = 0;
    for at in open..text.tokens.len() {
        depth = depth_after(depth, kind_at(text, at));
        if depth == 0 {
            return Some(at);
        }
    }
    None
}

/// How far a bracket may stand before what is asked about.
const FARTHEST: usize = 64;

/// The token that opens the innermost bracket around this one, if it is near.
pub fn opener(text: Text<'_>, inner: usize) -> Option<usize> {
    let mut depth: usize = 0;
    for back in 1..FARTHEST {
        if back > inner {
            return None;
        }
        let at = inner.saturating_sub(back);
        match kind_at(text, at) {
            TokenKind::LeftParenthesis | TokenKind::LeftBracket | TokenKind::LeftBrace => {
                if depth == 0 {
                    return Some(at);
                }
                depth = depth.saturating_sub(1);
            }
            TokenKind::RightParenthesis | TokenKind::RightBracket | TokenKind::RightBrace => {
                depth = depth.saturating_add(1);
            }
            _ => {}
        }
    }
    None
}
