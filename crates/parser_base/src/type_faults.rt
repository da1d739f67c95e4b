//! Where tokens that were read as expressions stop being types. Where only types stand, the fault is at the first token
//! at which no type goes on, though an expression may.

ghost use Rattle.std.specs.Prelude.{Option};
ghost use Rattle.tree.specs.Syntax.{Expression};
ghost use Rattle.meaning.specs.Cursor.{Cursor};
ghost use Rattle.parser_base.specs.Gives.{Stops};

use crate::ahead::nesting_past;
use crate::cursor::{SourceTokens, TokenPlace};
use crate::fault::Stop;
use crate::kinds::closes;
use lexer::TokenKind;

/// The fault of what was to be types up to a closing bracket, and was read as expressions with this fault.
pub fn fault_of_types(source: SourceTokens<'_>, place: TokenPlace, stop: Stop) -> Stop
    ensures { (read : Option (Expression × Cursor)) → Stops stop read → Stops result read }
{
    match past_types(source, place, source.below) {
        Ok(_) => stop,
        Err(other) => earlier(stop, other),
    }
}

/// The same where the brackets can also hold the length of an array.
pub fn fault_of_types_or_length(source: SourceTokens<'_>, place: TokenPlace, stop: Stop) -> Stop
    ensures { (read : Option (Expression × Cursor)) → Stops stop read → Stops result read }
{
    match past_types(source, place, source.below) {
        Ok(_) => stop,
        Err(other) => {
            let end = end_of_part(source, place, true);
            if is_behind(other, source.start(end)) {
                return earlier(stop, other);
            }
            if source.stands(end, TokenKind::RightBracket) {
                return stop;
            }
            earlier(stop, source.unexpected(end))
        }
    }
}

/// The fault of what was to be a constraint, and was read as expressions with this fault. With no token behind a
/// constraint an expression goes on.
pub fn fault_of_constraint(source: SourceTokens<'_>, place: TokenPlace, stop: Stop) -> Stop
    ensures { (read : Option (Expression × Cursor)) → Stops stop read → Stops result read }
{
    match past_terms(source, place) {
        Ok(end) => earlier(stop, source.unexpected(end)),
        Err(other) => earlier(stop, other),
    }
}

/// The fault that stands first, of one that was found and another one.
fn earlier(stop: Stop, other: Stop) -> Stop
    ensures { (read : Option (Expression × Cursor)) → Stops stop read → Stops result read }
{
    match stop {
        Stop::Unexpected(at) => if is_behind(other, at) { stop } else { other },
        _ => stop,
    }
}

/// Whether a fault is of no token, or of one behind this offset.
fn is_behind(stop: Stop, offset: u32) -> bool {
    match stop {
        Stop::Unexpected(at) => at > offset,
        _ => true,
    }
}

/// The place behind types up to a closing bracket, which are no deeper than this.
#[cycle(past)]
fn past_types(source: SourceTokens<'_>, place: TokenPlace, most: u32) -> Result<TokenPlace, Stop> {
    let mut rest = place;
    for _ in 0..source.steps(place) {
        let end = past_type(source, rest, most)?;
        if !source.stands(end, TokenKind::Comma) {
            return source.take(end, TokenKind::RightBracket);
        }
        rest = source.behind(end);
        if source.stands(rest, TokenKind::RightBracket) {
            return Ok(source.behind(rest));
        }
    }
    Err(source.unexpected(rest))
}

/// The place behind a type, which is no deeper than this. What stands in its braces, and in brackets other than those
/// of an instance, is passed over: it is read there as it is here.
#[cycle(past)]
fn past_type(source: SourceTokens<'_>, place: TokenPlace, most: u32) -> Result<TokenPlace, Stop> {
    if most == 0 {
        return Err(Stop::TooDeep);
    }
    let inner = source.behind(place);
    if source.stands(place, TokenKind::Identifier) {
        let end = past_name(source, inner)?;
        if source.stands(end, TokenKind::LeftBracket) {
            return past_types(source, source.behind(end), most - 1);
        }
        return Ok(end);
    }
    if source.stands(place, TokenKind::LeftParenthesis) {
        let end = past_type(source, inner, most - 1)?;
        return source.take(end, TokenKind::RightParenthesis);
    }
    match past_front(source, place)? {
        Some(next) => past_type(source, next, most - 1),
        None => past_body(source, place),
    }
}

/// The place behind what stands before another type, and makes a type with it.
fn past_front(source: SourceTokens<'_>, place: TokenPlace) -> Result<Option<TokenPlace>, Stop> {
    let inner = source.behind(place);
    match source.peek(place) {
        Some(kind) => match kind {
            TokenKind::Star => Ok(Some(inner)),
            TokenKind::Arrow => Ok(Some(source.take(inner, TokenKind::ChanKeyword)?)),
            TokenKind::ChanKeyword => Ok(Some(source.past(inner, TokenKind::Arrow))),
            TokenKind::LeftBracket => Ok(Some(past_group(source, place))),
            TokenKind::MapKeyword => {
                source.take(inner, TokenKind::LeftBracket)?;
                Ok(Some(past_group(source, inner)))
            }
            TokenKind::FuncKeyword => {
                source.take(inner, TokenKind::LeftParenthesis)?;
                let end = past_group(source, inner);
                let has_type = source.begins_type(end)
                    && !source.stands(end, TokenKind::LeftParenthesis);
                Ok(if has_type { Some(end) } else { None })
            }
            _ => Ok(None),
        },
        None => Ok(None),
    }
}

/// The place behind a function's type with no result but in brackets, or behind the type of a struct or an interface.
fn past_body(source: SourceTokens<'_>, place: TokenPlace) -> Result<TokenPlace, Stop> {
    let inner = source.behind(place);
    if source.stands(place, TokenKind::FuncKeyword) {
        let end = past_group(source, inner);
        return Ok(if source.stands(end, TokenKind::LeftParenthesis) {
            past_group(source, end)
        } else {
            end
        });
    }
    if source.stands(place, TokenKind::StructKeyword)
        || source.stands(place, TokenKind::InterfaceKeyword)
    {
        source.take(inner, TokenKind::LeftBrace)?;
        return Ok(past_group(source, inner));
    }
    Err(source.unexpected(place))
}

/// The place behind the name of a type, behind its first word.
fn past_name(source: SourceTokens<'_>, place: TokenPlace) -> Result<TokenPlace, Stop> {
    if source.stands(place, TokenKind::Dot) {
        source.take(source.behind(place), TokenKind::Identifier)
    } else {
        Ok(place)
    }
}

/// The place behind the terms of a constraint.
fn past_terms(source: SourceTokens<'_>, place: TokenPlace) -> Result<TokenPlace, Stop> {
    let mut rest = place;
    for _ in 0..source.steps(place) {
        let end = past_type(source, source.past(rest, TokenKind::Tilde), source.below)?;
        if !source.stands(end, TokenKind::Pipe) {
            return Ok(end);
        }
        rest = source.behind(end);
    }
    Err(source.unexpected(rest))
}

/// The place behind the brackets or braces that open here.
fn past_group(source: SourceTokens<'_>, place: TokenPlace) -> TokenPlace {
    source.behind(end_of_part(source, source.behind(place), false))
}

/// The place of the token that closes the brackets or braces around here, or of a comma or colon before it where one
/// ends what stands here.
fn end_of_part(source: SourceTokens<'_>, place: TokenPlace, ends_with_comma: bool) -> TokenPlace {
    let mut nesting = 0usize;
    let mut rest = place;
    for _ in 0..source.steps(place) {
        match source.peek(rest) {
            Some(kind) => {
                if nesting == 0 && (closes(kind) || (ends_with_comma && ends_part(kind))) {
                    return rest;
                }
                nesting = nesting_past(kind, nesting);
                rest = source.behind(rest);
            }
            None => return rest,
        }
    }
    rest
}

/// Whether it ends an expression in brackets, and others may follow.
fn ends_part(kind: TokenKind) -> bool {
    matches!(kind, TokenKind::Comma | TokenKind::Colon)
}
