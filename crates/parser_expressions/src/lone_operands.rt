//! Names and literals that stand alone, as most operands do. What comes behind them tells it, and then nothing else is
//! to be read.

ghost use Rattle.std.specs.Prelude.{◌≡◌};
ghost use Rattle.meaning.specs.Cursor.{is_next};
ghost use Rattle.tree.specs.Syntax.{basic_literal};
ghost use Rattle.tree.specs.View.{expression_syntax};
ghost use Rattle.tree_reader.specs.Reading.{behind, spanned};
ghost use Rattle.parser_base.specs.Places.{cursor, seen};
ghost use Rattle.parser_expressions.specs.Alone.{ends_primary, ends_expression, is_lone_primary, is_lone_expression, lone_primary_literal, lone_literal};

use lexer::TokenKind;
use parser_base::cursor::{SourceTokens, TokenPlace};
use tree::{BasicLitKind, Expr};
use tree_make as make;

/// Whether no primary expression goes on with such a token, in a header or elsewhere.
fn ends_primary(header: bool, kind: TokenKind) -> bool
    ensures { result ≡ ends_primary header kind }
{
    match kind {
        TokenKind::Dot | TokenKind::LeftBracket | TokenKind::LeftParenthesis => false,
        TokenKind::LeftBrace => header,
        _ => true,
    }
}

/// Whether no expression goes on with such a token, in a header or elsewhere.
fn ends_expression(header: bool, kind: TokenKind) -> bool
    ensures { result ≡ ends_expression header kind }
{
    match kind {
        TokenKind::RightParenthesis
        | TokenKind::RightBracket
        | TokenKind::RightBrace
        | TokenKind::Comma
        | TokenKind::Semicolon
        | TokenKind::Colon
        | TokenKind::Assign
        | TokenKind::Define => true,
        TokenKind::LeftBrace => header,
        _ => false,
    }
}

/// Whether no primary expression goes on with the next token.
fn primary_ends(source: SourceTokens<'_>, header: bool, place: TokenPlace) -> bool
    ensures { result ≡ is_next (ends_primary header) (cursor source.entry place) }
{
    match source.tokens.get(place.at) {
        Some(next) => ends_primary(header, next.kind),
        None => false,
    }
}

/// Whether no expression goes on with the next token.
fn expression_ends(source: SourceTokens<'_>, header: bool, place: TokenPlace) -> bool
    ensures { result ≡ is_next (ends_expression header) (cursor source.entry place) }
{
    match source.tokens.get(place.at) {
        Some(next) => ends_expression(header, next.kind),
        None => false,
    }
}

/// Whether the next token, a name, is a whole primary expression.
pub fn is_lone_primary(source: SourceTokens<'_>, header: bool, place: TokenPlace) -> bool
    ensures { result ≡ is_lone_primary header (cursor source.entry place) }
{
    source.stands(place, TokenKind::Identifier)
        && primary_ends(source, header, source.behind(place))
}

/// Whether the next token, a name, is a whole expression.
pub fn is_lone_expression(source: SourceTokens<'_>, header: bool, place: TokenPlace) -> bool
    ensures { result ≡ is_lone_expression header (cursor source.entry place) }
{
    source.stands(place, TokenKind::Identifier)
        && expression_ends(source, header, source.behind(place))
}

/// The literal that the next token is, where it is a whole primary expression.
pub fn lone_primary_literal(
    source: SourceTokens<'_>,
    header: bool,
    place: TokenPlace,
) -> Option<BasicLitKind>
    ensures { result ≡ lone_primary_literal header (cursor source.entry place) }
{
    if primary_ends(source, header, source.behind(place)) {
        source.next_literal_kind(place)
    } else {
        None
    }
}

/// The literal that the next token is, where it is a whole expression.
pub fn lone_literal(
    source: SourceTokens<'_>,
    header: bool,
    place: TokenPlace,
) -> Option<BasicLitKind>
    ensures { result ≡ lone_literal header (cursor source.entry place) }
{
    if expression_ends(source, header, source.behind(place)) {
        source.next_literal_kind(place)
    } else {
        None
    }
}

/// The literal that the next token is, and the place after it.
pub fn literal(
    source: SourceTokens<'_>,
    kind: BasicLitKind,
    place: TokenPlace,
) -> (Expr, TokenPlace)
    ensures { seen source.entry expression_syntax result ≡ spanned (cursor source.entry place) (basic_literal kind)
        (behind (cursor source.entry place)) }
{
    let end = source.behind(place);
    (
        make::expression::basic_literal(kind, source.span_to(place, end)),
        end,
    )
}
