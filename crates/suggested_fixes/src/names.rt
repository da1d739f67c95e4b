//! The names on the left of `:=`.

use crate::tokens::{Text, is_identifier, is_word, kind_at};
use lexer::TokenKind;

/// The tokens on the left of a `:=`: from the first one up to it.
#[derive(Clone, Copy)]
pub struct Names {
    pub first: usize,
    pub define: usize,
}

/// Whether they are names with commas between them.
pub fn are_names(text: Text<'_>, names: Names) -> bool {
    let mut wants_name = true;
    for at in names.first..names.define {
        let fits = if wants_name {
            is_identifier(text, at)
        } else {
            kind_at(text, at) == TokenKind::Comma
        };
        if !fits {
            return false;
        }
        wants_name = !wants_name;
    }
    !wants_name
}

/// The only `_` among them, if there is one.
pub fn only_blank(text: Text<'_>, names: Names) -> Option<usize> {
    let mut found = None;
    for at in names.first..names.define {
        if is_word(text, at, b"_") {
            if found.is_some() {
                return None;
            }
            found = Some(at);
        }
    }
    found
}

/// Whether this word is one of them.
pub fn is_among(text: Text<'_>, names: Names, word: &[u8]) -> bool {
    for at in names.first..names.define {
        if is_word(text, at, word) {
            return true;
        }
    }
    false
}
