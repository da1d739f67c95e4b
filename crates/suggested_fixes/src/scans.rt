//! What is known of a place in a body, where its tokens are gone through in their order.

use crate::tokens::{Text, before, behind, depth_after, is_line_end, kind_at};
use lexer::TokenKind;

/// What is known of a token in a body.
#[derive(Clone, Copy)]
pub struct Scan {
    /// How many brackets are open before it.
    depth: usize,
    /// The first token of its statement.
    pub first: usize,
    /// How many brackets were open at the `for` of the outermost loop that it may stand in.
    looped: Option<usize>,
    /// How many were open at the `func` of the outermost literal that it may stand in.
    literal: Option<usize>,
}

impl Scan {
    /// What is known of the first token of a body.
    pub fn at(open: usize) -> Scan {
        Scan {
            depth: 0,
            first: open,
            looped: None,
            literal: None,
        }
    }

    pub fn is_in_loop(self) -> bool {
        self.looped.is_some()
    }

    pub fn is_in_literal(self) -> bool {
        self.literal.is_some()
    }

    /// What is known of the next token.
    pub fn behind(self, text: Text<'_>, at: usize) -> Scan {
        let kind = kind_at(text, at);
        Scan {
            depth: depth_after(self.depth, kind),
            first: first_after(self.first, kind, at),
            looped: looped_after(self, text, at),
            literal: literal_after(self, kind),
        }
    }
}

fn first_after(first: usize, kind: TokenKind, at: usize) -> usize {
    match kind {
        TokenKind::Semicolon | TokenKind::LeftBrace | TokenKind::RightBrace | TokenKind::Colon =>
            behind(at, 1),
        _ => first,
    }
}

/// A loop ends where a line ends behind its last brace. Until then, what stands there is taken to be in the loop.
fn looped_after(scan: Scan, text: Text<'_>, at: usize) -> Option<usize> {
    match scan.looped {
        None if kind_at(text, at) == TokenKind::ForKeyword => Some(scan.depth),
        Some(depth) if ends_block(scan.depth, depth, text, at) => None,
        looped => looped,
    }
}

fn ends_block(now: usize, depth: usize, text: Text<'_>, at: usize) -> bool {
    now <= depth && is_line_end(text, at) && kind_at(text, before(at)) == TokenKind::RightBrace
}

/// A literal ends with its statement at the latest. Until then, what stands there is taken to be in the literal.
fn literal_after(scan: Scan, kind: TokenKind) -> Option<usize> {
    match scan.literal {
        None if kind == TokenKind::FuncKeyword => Some(scan.depth),
        Some(depth) if kind == TokenKind::Semicolon && scan.depth <= depth => None,
        literal => literal,
    }
}
