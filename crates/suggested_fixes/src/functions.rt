//! The functions and methods that a file declares.

use crate::tokens::{Text, before, behind, closing, depth_after, is_identifier, is_word, kind_at};
use lexer::TokenKind;
use std::alloc::{AllocError, Global};

/// A function or method that a file declares, by the places of its tokens.
#[derive(Clone, Copy)]
pub struct Function {
    /// The keyword `func`.
    pub keyword: usize,
    /// Its name; the bracket of the receiver, of a method.
    pub name: usize,
    /// The bracket that closes what stands behind the name: its parameters.
    pub parameters_end: usize,
    /// The braces of its body.
    pub open: usize,
    pub close: usize,
}

/// In what of a file a token stands.
#[derive(Clone, Copy)]
enum Within {
    Nothing,
    /// In the head of a function with this `func`.
    Head(usize),
    /// In the body that this brace opens, of the function with this `func`.
    Body(usize, usize),
}

/// Whether a declaration begins at the token.
fn begins_function(text: Text<'_>, at: usize) -> bool {
    let is_first = at == 0 || kind_at(text, before(at)) == TokenKind::Semicolon;
    is_first && kind_at(text, at) == TokenKind::FuncKeyword
}

/// Whether the token is the brace of a body, where no bracket is open.
fn opens_body(text: Text<'_>, at: usize) -> bool {
    let is_of_type = matches!(
        kind_at(text, before(at)),
        TokenKind::StructKeyword | TokenKind::InterfaceKeyword
    );
    kind_at(text, at) == TokenKind::LeftBrace && !is_of_type
}

/// In what the next token stands, where so many brackets are open before this one.
fn within_after(within: Within, text: Text<'_>, at: usize, depth: usize) -> Within {
    match within {
        Within::Nothing if depth == 0 && begins_function(text, at) => Within::Head(at),
        Within::Head(keyword) if depth == 0 && opens_body(text, at) => Within::Body(keyword, at),
        Within::Head(_) if depth == 0 && kind_at(text, at) == TokenKind::Semicolon => {
            Within::Nothing
        }
        Within::Body(_, _) if depth == 1 && kind_at(text, at) == TokenKind::RightBrace => {
            Within::Nothing
        }
        _ => within,
    }
}

/// The bracket that closes the parameters behind a name. Between them may stand parameters of types.
fn end_of_parameters(text: Text<'_>, name: usize) -> Option<usize> {
    let next = behind(name, 1);
    if kind_at(text, next) == TokenKind::LeftBracket {
        closing(text, behind(closing(text, next)?, 1))
    } else {
        closing(text, next)
    }
}

/// The name of a function, or of a method: the identifier behind its receiver.
fn name_place(text: Text<'_>, keyword: usize) -> Option<usize> {
    let next = behind(keyword, 1);
    if is_identifier(text, next) {
        return Some(next);
    }
    Some(behind(closing(text, next)?, 1))
}

/// The function with this keyword and this body.
fn function_at(text: Text<'_>, keyword: usize, open: usize, close: usize) -> Option<Function> {
    let name = name_place(text, keyword)?;
    let parameters_end = end_of_parameters(text, name)?;
    Some(Function {
        keyword,
        name,
        parameters_end,
        open,
        close,
    })
}

/// The function whose body ends at the token.
fn ended(within: Within, text: Text<'_>, at: usize, depth: usize) -> Option<Function> {
    match within {
        Within::Body(keyword, open) if depth == 1 && kind_at(text, at) == TokenKind::RightBrace => {
            function_at(text, keyword, open, at)
        }
        _ => None,
    }
}

/// The functions and methods of a file that have a body, in the order of the text.
pub fn functions_of(alloc: Global, text: Text<'_>) -> Result<Vec<Function>, AllocError> {
    let mut functions = Vec::new(alloc);
    let mut within = Within::Nothing;
    let mut depth = 0;
    for at in 0..text.tokens.len() {
        if let Some(function) = ended(within, text, at, depth) {
            functions.push(function)?;
        }
        within = within_after(within, text, at, depth);
        depth = depth_after(depth, kind_at(text, at));
    }
    Ok(functions)
}

/// Whether a word stands among the tokens from one to another.
pub fn has_word(text: Text<'_>, from: usize, to: usize, word: &[u8]) -> bool {
    for at in from..to {
        if is_word(text, at, word) {
            return true;
        }
    }
    false
}

/// Whether a word stands in a function, as an identifier.
pub fn is_taken(text: Text<'_>, function: Function, word: &[u8]) -> bool {
    has_word(text, function.keyword, function.close, word)
}

/// Whether the function has but one result, the predeclared `error`.
pub fn gives_error_alone(text: Text<'_>, function: Function) -> bool {
    let result = behind(function.parameters_end, 1);
    behind(result, 1) == function.open && is_word(text, result, b"error")
}

/// Whether the function is no method and has this name.
pub fn is_called(text: Text<'_>, function: Function, name: &[u8]) -> bool {
    behind(function.keyword, 1) == function.name && word_at_name(text, function, name)
}

fn word_at_name(text: Text<'_>, function: Function, name: &[u8]) -> bool {
    is_word(text, function.name, name)
}
