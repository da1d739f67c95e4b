//! What calls give, as far as their own file tells.

use crate::functions::{Function, has_word, is_called};
use crate::tokens::{Text, behind, closing, is_identifier, is_word, kind_at, word_at};
use lexer::TokenKind;

/// A call that gives a cancel function, by the places of its tokens.
#[derive(Clone, Copy)]
pub struct Gift {
    /// The name of the function that is called.
    pub name: usize,
    /// The bracket that closes its arguments.
    pub close: usize,
    /// The cancel function takes a cause.
    pub takes_cause: bool,
    /// Its results have an error.
    pub has_error: bool,
}

/// Of a file with more functions none is looked for by its name.
const MOST_FUNCTIONS: usize = 2_000;

/// Whether a function of the package `context` with this name gives a cancel function, and whether that takes a cause.
fn maker(word: &[u8]) -> Option<bool> {
    match word {
        b"WithCancel"
        | b"WithTimeout"
        | b"WithDeadline"
        | b"WithTimeoutCause"
        | b"WithDeadlineCause" => Some(false),
        b"WithCancelCause" => Some(true),
        _ => None,
    }
}

/// The same of a function of another package by its name there.
fn of_package(text: Text<'_>, at: usize) -> Option<bool> {
    let name = behind(at, 2);
    if is_word(text, at, b"context") {
        maker(word_at(text, name))
    } else if is_word(text, at, b"signal") && is_word(text, name, b"NotifyContext") {
        Some(false)
    } else {
        None
    }
}

/// A call `PACKAGE.NAME(..)`.
fn selected(text: Text<'_>, at: usize) -> Option<Gift> {
    let takes_cause = of_package(text, at)?;
    Some(Gift {
        name: behind(at, 2),
        close: closing(text, behind(at, 3))?,
        takes_cause,
        has_error: false,
    })
}

/// The function of this name, if the file declares it.
fn function_called(text: Text<'_>, functions: &[Function], name: &[u8]) -> Option<Function> {
    if functions.len() > MOST_FUNCTIONS {
        return None;
    }
    for function in functions {
        if is_called(text, *function, name) {
            return Some(*function);
        }
    }
    None
}

/// A call `NAME(..)` of a function of the same file, by its results.
fn called(text: Text<'_>, functions: &[Function], at: usize) -> Option<Gift> {
    let function = function_called(text, functions, word_at(text, at))?;
    let from = function.parameters_end;
    let takes_cause = has_word(text, from, function.open, b"CancelCauseFunc");
    if takes_cause == has_word(text, from, function.open, b"CancelFunc") {
        return None;
    }
    Some(Gift {
        name: at,
        close: closing(text, behind(at, 1))?,
        takes_cause,
        has_error: has_word(text, from, function.open, b"error"),
    })
}

/// The call that begins at the token, if it gives a cancel function.
pub fn gift_at(text: Text<'_>, functions: &[Function], at: usize) -> Option<Gift> {
    if !is_identifier(text, at) {
        return None;
    }
    match kind_at(text, behind(at, 1)) {
        TokenKind::Dot if kind_at(text, behind(at, 3)) == TokenKind::LeftParenthesis => {
            selected(text, at)
        }
        TokenKind::LeftParenthesis => called(text, functions, at),
        _ => None,
    }
}
