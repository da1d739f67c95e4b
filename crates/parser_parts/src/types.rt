//! Types that begin with a bracket or a keyword (the Go specification, "Types").

ghost use Rattle.std.specs.Prelude.{◌≡◌};
ghost use Rattle.tree.specs.View.{expression_syntax};
ghost use Rattle.parser_base.specs.Gives.{Gives};
ghost use Rattle.parser_base.specs.Parts.{ReadsExpressions};
ghost use Rattle.parser_base.specs.Places.{cursor, seen, parts_of, go_text};
ghost use Rattle.tree_reader.specs.Reader.{read_bracket_type, read_map_type, read_channel_type, read_literal_type};

use crate::fields::{interface_fields, struct_fields};
use lexer::TokenKind;
use parser_base::cursor::{Read, SourceTokens, TokenPlace};
use parser_base::holding;
use parser_base::parts::{Wanted, expression, type_expression};
use tree::{ChanDirection, Expr};
use tree_hold::boxed;
use tree_make as make;

/// `[]T`, `[...]T` or `[n]T`, and the place after it.
///
/// # Errors
///
/// Where another token stands, and out of memory.
#[tactic(auto, unfolding(tree_reader::specs::Reader::read_bracket_type))]
pub fn bracket_type<F: Fn(Wanted, TokenPlace) -> Read<Expr>>(
    source: SourceTokens<'_>,
    parts: &F,
    place: TokenPlace,
) -> Read<Expr>
    requires { ReadsExpressions source (F.pre parts.now) (F.post parts.now) }
    ensures { Gives (seen source.entry expression_syntax) result (read_bracket_type (go_text source.entry) (parts_of
        source.entry) (cursor source.entry place)) }
{
    let inner = source.behind(place);
    if source.stands(inner, TokenKind::RightBracket) {
        let (element, end) = type_expression(source, parts, source.behind(inner))?;
        let kept = boxed::expression(source.alloc, element)?;
        return Ok((
            make::types::slice_type(kept, source.span_to(place, end)),
            end,
        ));
    }
    if source.stands(inner, TokenKind::Ellipsis) {
        let after = source.take(source.behind(inner), TokenKind::RightBracket)?;
        let (element, end) = type_expression(source, parts, after)?;
        let kept = boxed::expression(source.alloc, element)?;
        return Ok((
            make::types::ellipsis_array_type(kept, source.span_to(place, end)),
            end,
        ));
    }
    let (length, rest) = expression(source, parts, false, 1, inner)?;
    let after = holding!(expression: length; source.take(rest, TokenKind::RightBracket));
    let (element, end) = holding!(expression: length; type_expression(source, parts, after));
    let kept = holding!(expression: length; memory boxed::expression(source.alloc, element));
    let count = holding!(boxed_expression: kept; memory boxed::expression(source.alloc, length));
    Ok((
        make::types::array_type(count, kept, source.span_to(place, end)),
        end,
    ))
}

/// `map[K]T`, and the place after it.
///
/// # Errors
///
/// Where another token stands, and out of memory.
#[tactic(auto, unfolding(tree_reader::specs::Reader::read_map_type))]
fn map_type<F: Fn(Wanted, TokenPlace) -> Read<Expr>>(
    source: SourceTokens<'_>,
    parts: &F,
    place: TokenPlace,
) -> Read<Expr>
    requires { ReadsExpressions source (F.pre parts.now) (F.post parts.now) }
    ensures { Gives (seen source.entry expression_syntax) result (read_map_type (go_text source.entry) (parts_of
        source.entry) (cursor source.entry place)) }
{
    let inner = source.take(source.behind(place), TokenKind::LeftBracket)?;
    let (key, rest) = type_expression(source, parts, inner)?;
    let after = holding!(expression: key; source.take(rest, TokenKind::RightBracket));
    let (element, end) = holding!(expression: key; type_expression(source, parts, after));
    let kept = holding!(expression: key; memory boxed::expression(source.alloc, element));
    let first = holding!(boxed_expression: kept; memory boxed::expression(source.alloc, key));
    Ok((
        make::types::map_type(first, kept, source.span_to(place, end)),
        end,
    ))
}

/// `chan T` or `chan<- T`, and the place after it.
///
/// # Errors
///
/// Where another token stands, and out of memory.
#[tactic(auto, unfolding(tree_reader::specs::Reader::read_channel_type))]
fn channel_type<F: Fn(Wanted, TokenPlace) -> Read<Expr>>(
    source: SourceTokens<'_>,
    parts: &F,
    place: TokenPlace,
) -> Read<Expr>
    requires { ReadsExpressions source (F.pre parts.now) (F.post parts.now) }
    ensures { Gives (seen source.entry expression_syntax) result (read_channel_type (go_text source.entry) (parts_of
        source.entry) (cursor source.entry place)) }
{
    let inner = source.behind(place);
    if source.stands(inner, TokenKind::Arrow) {
        let (element, end) = type_expression(source, parts, source.behind(inner))?;
        let kept = boxed::expression(source.alloc, element)?;
        let span = source.span_to(place, end);
        return Ok((
            make::types::channel_type(ChanDirection::Send, kept, span),
            end,
        ));
    }
    let (element, end) = type_expression(source, parts, inner)?;
    let kept = boxed::expression(source.alloc, element)?;
    let span = source.span_to(place, end);
    Ok((
        make::types::channel_type(ChanDirection::Both, kept, span),
        end,
    ))
}

/// A type that begins with a bracket or a keyword, but for `func`.
///
/// # Errors
///
/// Where another token stands, and out of memory.
#[tactic(auto, unfolding(tree_reader::specs::Reader::read_literal_type))]
pub fn literal_type<F: Fn(Wanted, TokenPlace) -> Read<Expr>>(
    source: SourceTokens<'_>,
    parts: &F,
    place: TokenPlace,
) -> Read<Expr>
    requires { ReadsExpressions source (F.pre parts.now) (F.post parts.now) }
    ensures { Gives (seen source.entry expression_syntax) result (read_literal_type (go_text source.entry) (parts_of
        source.entry) (cursor source.entry place)) }
{
    if source.stands(place, TokenKind::LeftBracket) {
        return bracket_type(source, parts, place);
    }
    if source.stands(place, TokenKind::MapKeyword) {
        return map_type(source, parts, place);
    }
    if source.stands(place, TokenKind::ChanKeyword) {
        return channel_type(source, parts, place);
    }
    if source.stands(place, TokenKind::StructKeyword) {
        let (lines, end) = struct_fields(source, parts, source.behind(place))?;
        return Ok((
            make::types::struct_type(lines, source.span_to(place, end)),
            end,
        ));
    }
    let word = source.take(place, TokenKind::InterfaceKeyword)?;
    let (lines, end) = interface_fields(source, parts, word)?;
    Ok((
        make::types::interface_type(lines, source.span_to(place, end)),
        end,
    ))
}
