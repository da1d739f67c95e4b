//! What a function does to the names that a statement binds.

use crate::functions::{Function, gives_error_alone, has_word};
use crate::names::Names;
use crate::scans::Scan;
use crate::statements::Obtaining;
use crate::tokens::{Text, before, behind, is_identifier, is_word, kind_at, opener, word_at};
use lexer::TokenKind;

/// Whether the token is the name of a variable, and not that of a field or method.
fn is_variable(text: Text<'_>, at: usize, word: &[u8]) -> bool {
    is_word(text, at, word) && kind_at(text, before(at)) != TokenKind::Dot
}

/// Whether the token stands in the statement `_ = NAME`, which begins there.
fn is_blanked(text: Text<'_>, first: usize, at: usize) -> bool {
    is_word(text, first, b"_")
        && kind_at(text, behind(first, 1)) == TokenKind::Assign
        && behind(first, 2) == at
        && kind_at(text, behind(at, 1)) == TokenKind::Semicolon
}

/// Whether nothing but its binding touches the variable that is bound at the token: the function has no other variable
/// of that name, and reads it at most to give it to nothing.
pub fn is_untouched(text: Text<'_>, function: Function, bound: usize) -> bool {
    let word = word_at(text, bound);
    let mut scan = Scan::at(function.keyword);
    for at in function.keyword..function.close {
        let is_other = at != bound && is_variable(text, at, word);
        if is_other && !is_blanked(text, scan.first, at) {
            return false;
        }
        scan = scan.behind(text, at);
    }
    true
}

/// Whether a function jumps, so that its text does not tell what is in a loop.
pub fn jumps(text: Text<'_>, function: Function) -> bool {
    for at in function.open..function.close {
        if kind_at(text, at) == TokenKind::GotoKeyword {
            return true;
        }
    }
    false
}

/// Whether the names before an assignment are those of an error, or none.
fn takes_error_alone(text: Text<'_>, first: usize, assign: usize) -> bool {
    for at in first..assign {
        let is_harmless = !is_identifier(text, at)
            || is_word(text, at, b"_")
            || word_at(text, at).starts_with(b"err");
        if !is_harmless {
            return false;
        }
    }
    true
}

/// The first token of these that assigns or declares, or else the last one.
fn assignment(text: Text<'_>, first: usize, last: usize) -> usize {
    for at in first..last {
        if matches!(kind_at(text, at), TokenKind::Assign | TokenKind::Define) {
            return at;
        }
    }
    last
}

/// Whether what is given to the call with this bracket is gone when it is done, as far as the statement tells: nothing
/// takes what the call gives, but for an error.
fn gives_nothing(text: Text<'_>, function: Function, first: usize, open: usize) -> bool {
    let assigns = assignment(text, first, open);
    match kind_at(text, first) {
        TokenKind::Identifier => assigns == open || takes_error_alone(text, first, assigns),
        TokenKind::IfKeyword => {
            assigns == open || takes_error_alone(text, behind(first, 1), assigns)
        }
        TokenKind::ReturnKeyword => gives_error_alone(text, function),
        _ => false,
    }
}

/// Whether the token is an argument by itself.
fn is_whole(text: Text<'_>, at: usize) -> bool {
    let begins = matches!(
        kind_at(text, before(at)),
        TokenKind::LeftParenthesis | TokenKind::Comma
    );
    let ends = matches!(
        kind_at(text, behind(at, 1)),
        TokenKind::RightParenthesis | TokenKind::Comma
    );
    begins && ends
}

/// Whether the token is but given to a call that gives nothing.
fn is_lent(text: Text<'_>, function: Function, first: usize, at: usize) -> bool {
    if !is_whole(text, at) {
        return false;
    }
    match opener(text, at) {
        Some(open) => {
            kind_at(text, open) == TokenKind::LeftParenthesis
                && is_identifier(text, before(open))
                && gives_nothing(text, function, first, open)
        }
        None => false,
    }
}

/// Whether the token is but asked whether its context has ended.
fn is_asked(text: Text<'_>, first: usize, at: usize) -> bool {
    let method = behind(at, 2);
    let asks = is_word(text, method, b"Done") || is_word(text, method, b"Err");
    let stays = !matches!(
        kind_at(text, first),
        TokenKind::ReturnKeyword | TokenKind::GoKeyword | TokenKind::DeferKeyword
    );
    kind_at(text, behind(at, 1)) == TokenKind::Dot && asks && stays
}

/// Whether what stands at the token neither returns nor keeps nor captures the variable.
fn is_harmless(text: Text<'_>, function: Function, scan: Scan, at: usize) -> bool {
    is_blanked(text, scan.first, at)
        || is_asked(text, scan.first, at)
        || is_lent(text, function, scan.first, at)
}

/// Whether nothing returns, keeps or captures what the statement binds to this name.
fn stays(text: Text<'_>, function: Function, obtaining: Obtaining, word: &[u8]) -> bool {
    if has_word(text, function.parameters_end, function.open, word) {
        return false;
    }
    let mut scan = Scan::at(function.open);
    for at in function.open..function.close {
        let is_behind = at > obtaining.gift.close;
        let is_used = is_variable(text, at, word);
        if is_used && scan.is_in_literal() {
            return false;
        }
        if is_used && is_behind && !is_harmless(text, function, scan, at) {
            return false;
        }
        scan = scan.behind(text, at);
    }
    true
}

/// Whether the name at the token needs no look: it has none, is the cancel function's own, or the error's.
fn is_passed_over(text: Text<'_>, at: usize, bound: usize, error: usize) -> bool {
    at == bound || is_word(text, at, b"_") || word_at(text, at) == word_at(text, error)
}

/// Whether nothing returns, keeps or captures what the statement binds beside the cancel function and the error.
pub fn all_stay(
    text: Text<'_>,
    function: Function,
    obtaining: Obtaining,
    bound: usize,
    error: usize,
) -> bool {
    let Names { first, define } = obtaining.names;
    for at in first..define {
        let is_looked_at = is_identifier(text, at) && !is_passed_over(text, at, bound, error);
        if is_looked_at && !stays(text, function, obtaining, word_at(text, at)) {
            return false;
        }
    }
    true
}
