//! Where type parameters of a new type have their fault (the Go specification, "Type parameter declarations"). What
//! stands in the brackets could be the length of an array too, and the fault stands where the later reading stops.
//!
//! A declaration that stands in braces there may have brackets of its own, and so on. Braces are read alike by both
//! readings. So where one has stopped in braces, it is not read again what they have, and each token is read twice at
//! most.

ghost use Rattle.std.specs.Prelude.{Option};
ghost use Rattle.tree.specs.Syntax.{Parameters};
ghost use Rattle.tree.specs.View.{parameters_syntax};
ghost use Rattle.meaning.specs.Cursor.{Cursor};
ghost use Rattle.parser_base.specs.Gives.{Gives, Stops};
ghost use Rattle.parser_base.specs.Parts.{ReadsExpressions};
ghost use Rattle.parser_base.specs.Places.{cursor, seen, parts_of, go_text};
ghost use Rattle.tree_reader.specs.Reader.{read_type_parameters};

use lexer::TokenKind;
use parser_base::cursor::{Read, SourceTokens, TokenPlace};
use parser_base::fault::Stop;
use parser_base::parts::{Wanted, expression};
use parser_base::type_faults::fault_of_constraint;
use parser_parts::constraints::{Faults, type_parameters};
use tree::{Expr, Param};
use tree_hold::release;

/// Type parameters at this bracket, or the later fault of two readings: as these, and as a length, which was read
/// already where its end is given.
///
/// # Errors
///
/// Where another token stands, where one is too deep, and out of memory.
pub fn parameters_or_fault<F: Fn(Wanted, TokenPlace) -> Read<Expr>>(
    source: SourceTokens<'_>,
    parts: &F,
    length_end: Option<TokenPlace>,
    place: TokenPlace,
) -> Read<Vec<Param>>
    requires { ReadsExpressions source (F.pre parts.now) (F.post parts.now) }
    ensures { Gives (seen source.entry (λ ps. parameters_syntax ps.items)) result (read_type_parameters (go_text
        source.entry) (parts_of source.entry) (cursor source.entry place)) }
{
    match type_parameters(source, parts, Faults::OfExpressions, place) {
        Ok(read) => Ok(read),
        Err(stop) => {
            let inner = source.behind(place);
            let other = match length_end {
                Some(end) => fault_at_end(source, inner, end, stop),
                None => later_fault(source, parts, inner, stop),
            };
            Err(instead(stop, other))
        }
    }
}

/// The other fault, where the first one is of a token.
fn instead(stop: Stop, other: Stop) -> Stop
    ensures { (read : Option (Parameters × Cursor)) → Stops stop read → Stops result read }
{
    match stop {
        Stop::Unexpected(_) => other,
        _ => stop,
    }
}

/// The fault of type parameters that were read with this one, or that no bracket closes where the length ends.
fn fault_at_end(source: SourceTokens<'_>, inner: TokenPlace, end: TokenPlace, stop: Stop) -> Stop {
    let of_types = fault_of_types(source, inner, stop);
    if source.stands(end, TokenKind::RightBracket) {
        of_types
    } else {
        later(of_types, source.unexpected(end))
    }
}

/// The fault of type parameters that were read with this one, or the fault of the length where that stands later.
fn later_fault<F: Fn(Wanted, TokenPlace) -> Read<Expr>>(
    source: SourceTokens<'_>,
    parts: &F,
    inner: TokenPlace,
    stop: Stop,
) -> Stop
    requires { ReadsExpressions source (F.pre parts.now) (F.post parts.now) }
{
    match stop {
        Stop::Unexpected(at) => {
            if is_in_braces(source, inner, at) {
                let of_types = fault_of_types(source, inner, stop);
                return later(of_types, fault_of_read(source, inner, stop));
            }
            match expression(source, parts, false, 1, inner) {
                Ok((length, end)) => {
                    release::expression(length);
                    fault_at_end(source, inner, end, stop)
                }
                Err(other) => later(fault_of_types(source, inner, stop), other),
            }
        }
        _ => stop,
    }
}

/// Where type parameters stop that were read, with their constraints as expressions, up to this fault.
fn fault_of_types(source: SourceTokens<'_>, inner: TokenPlace, stop: Stop) -> Stop {
    match stop {
        Stop::Unexpected(at) => {
            let name = last_start(source, inner, at);
            fault_of_constraint(source, source.behind(name), stop)
        }
        _ => stop,
    }
}

/// Where a length stops, when type parameters were read, with their constraints as expressions, up to this fault in
/// braces. It comes there too, unless a token stands before with which no expression goes on.
fn fault_of_read(source: SourceTokens<'_>, inner: TokenPlace, stop: Stop) -> Stop {
    let rest = source.behind(inner);
    if !source.stands(rest, TokenKind::LeftParenthesis)
        && source.next_binary_operator(rest).is_none()
    {
        return source.unexpected(rest);
    }
    match stop {
        Stop::Unexpected(at) => match separator_before(source, rest, at) {
            Some(separator) => source.unexpected(separator),
            None => stop,
        },
        _ => stop,
    }
}

/// In how many brackets and braces the token behind one of this kind stands, which itself stands in so many.
fn nesting_past(kind: TokenKind, nesting: usize) -> usize {
    match kind {
        TokenKind::LeftParenthesis | TokenKind::LeftBracket | TokenKind::LeftBrace => {
            nesting.saturating_add(1)
        }
        TokenKind::RightParenthesis | TokenKind::RightBracket | TokenKind::RightBrace => {
            nesting.saturating_sub(1)
        }
        _ => nesting,
    }
}

/// The place behind the last comma before this offset that stands outside all brackets, from this place on; the place
/// itself where there is none.
fn last_start(source: SourceTokens<'_>, place: TokenPlace, offset: u32) -> TokenPlace {
    let mut nesting = 0usize;
    let mut last = place;
    let mut rest = place;
    for _ in 0..source.steps(place) {
        if source.start(rest) >= offset {
            return last;
        }
        if nesting == 0 && source.stands(rest, TokenKind::Comma) {
            last = source.behind(rest);
        }
        if let Some(kind) = source.peek(rest) {
            nesting = nesting_past(kind, nesting);
        }
        rest = source.behind(rest);
    }
    last
}

/// The first comma or `~` before this offset that stands outside all brackets, from this place on.
fn separator_before(
    source: SourceTokens<'_>,
    place: TokenPlace,
    offset: u32,
) -> Option<TokenPlace> {
    let mut nesting = 0usize;
    let mut rest = place;
    for _ in 0..source.steps(place) {
        if source.start(rest) >= offset {
            return None;
        }
        if nesting == 0
            && (source.stands(rest, TokenKind::Comma) || source.stands(rest, TokenKind::Tilde))
        {
            return Some(rest);
        }
        if let Some(kind) = source.peek(rest) {
            nesting = nesting_past(kind, nesting);
        }
        rest = source.behind(rest);
    }
    None
}

/// Whether at this offset braces are open that opened from this place on.
fn is_in_braces(source: SourceTokens<'_>, place: TokenPlace, offset: u32) -> bool {
    let mut open = 0usize;
    let mut rest = place;
    for _ in 0..source.steps(place) {
        if source.start(rest) >= offset {
            return open > 0;
        }
        if source.stands(rest, TokenKind::LeftBrace) {
            open = open.saturating_add(1);
        }
        if source.stands(rest, TokenKind::RightBrace) {
            open = open.saturating_sub(1);
        }
        rest = source.behind(rest);
    }
    open > 0
}

/// The fault that stands last, of one at a token and another one. What is too deep is so behind that token: up to there
/// both readings are as deep.
fn later(stop: Stop, other: Stop) -> Stop {
    match stop {
        Stop::Unexpected(at) => if is_before(other, at) { stop } else { other },
        _ => stop,
    }
}

/// Whether a fault is of a token before this offset.
fn is_before(stop: Stop, offset: u32) -> bool {
    match stop {
        Stop::Unexpected(at) => at < offset,
        _ => false,
    }
}
