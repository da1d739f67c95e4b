//! Operands (the Go specification, "Operands").

ghost use Rattle.std.specs.Prelude.{◌≡◌};
ghost use Rattle.tree.specs.View.{expression_syntax};
ghost use Rattle.parser_base.specs.Gives.{Gives};
ghost use Rattle.parser_base.specs.Parts.{ReadsExpressions, ReadsStatements};
ghost use Rattle.parser_base.specs.Places.{cursor, seen, parts_of, go_text};
ghost use Rattle.tree_reader.specs.Reader.{read_function, read_typed, read_operand};

use lexer::TokenKind;
use parser_base::cursor::{Read, SourceTokens, TokenPlace};
use parser_base::expressions::name;
use parser_base::fault::Stop;
use parser_base::holding;
use parser_base::parts::{Wanted, expression, fits};
use parser_parts::blocks::block;
use parser_parts::lists::braced_elements;
use parser_parts::signatures::signature;
use parser_parts::types::literal_type;
use tree::{Expr, Stmt};
use tree_hold::{boxed, release};
use tree_make as make;

/// A function literal, or a function's type, and the place after it.
///
/// # Errors
///
/// Where another token stands, and out of memory.
#[tactic(auto, unfolding(tree_reader::specs::Reader::read_function))]
fn function<F: Fn(Wanted, TokenPlace) -> Read<Expr>, S: Fn(TokenPlace) -> Read<Stmt>>(
    source: SourceTokens<'_>,
    parts: &F,
    statements: &S,
    place: TokenPlace,
) -> Read<Expr>
    requires expressions { ReadsExpressions source (F.pre parts.now) (F.post parts.now) }
    requires statements { ReadsStatements source (S.pre statements.now) (S.post statements.now) }
    ensures { Gives (seen source.entry expression_syntax) result (read_function (go_text source.entry) (parts_of
        source.entry) source.entry.below (cursor source.entry place)) }
{
    let (header, rest) = signature(source, parts, source.behind(place))?;
    if source.stands(rest, TokenKind::LeftBrace) {
        let (body, end) = holding!(signature: header; block(source, statements, rest));
        let literal = boxed::literal(source.alloc, make::expression::literal(header, body))?;
        let span = source.span_to(place, end);
        return Ok((make::expression::function_literal(literal, span), end));
    }
    let kept = boxed::signature(source.alloc, header)?;
    Ok((
        make::types::function_type(kept, source.span_to(place, rest)),
        rest,
    ))
}

/// A literal's type, and its elements where they follow.
///
/// # Errors
///
/// Where another token stands, where the type is too deep, and out of memory.
#[tactic(auto, unfolding(tree_reader::specs::Reader::read_typed))]
fn typed<F: Fn(Wanted, TokenPlace) -> Read<Expr>>(
    source: SourceTokens<'_>,
    parts: &F,
    place: TokenPlace,
) -> Read<Expr>
    requires { ReadsExpressions source (F.pre parts.now) (F.post parts.now) }
    ensures { Gives (seen source.entry expression_syntax) result (read_typed (go_text source.entry) (parts_of
        source.entry) source.entry.below (cursor source.entry place)) }
{
    let (kind, rest) = literal_type(source, parts, place)?;
    if !source.stands(rest, TokenKind::LeftBrace) {
        return Ok((kind, rest));
    }
    if !fits(source, &kind) {
        release::expression(kind);
        return Err(Stop::TooDeep);
    }
    let (elements, end) = holding!(expression: kind; braced_elements(source, parts, rest));
    let kept = holding!(expressions: elements; memory boxed::expression(source.alloc, kind));
    let span = source.span_to(place, end);
    Ok((
        make::expression::composite_literal(kept, elements, span),
        end,
    ))
}

/// What a primary expression begins with.
///
/// # Errors
///
/// Where another token stands, where it is too deep, and out of memory.
#[tactic(auto, unfolding(tree_reader::specs::Reader::read_operand))]
pub fn operand<F: Fn(Wanted, TokenPlace) -> Read<Expr>, S: Fn(TokenPlace) -> Read<Stmt>>(
    source: SourceTokens<'_>,
    parts: &F,
    statements: &S,
    place: TokenPlace,
) -> Read<Expr>
    requires expressions { ReadsExpressions source (F.pre parts.now) (F.post parts.now) }
    requires statements { ReadsStatements source (S.pre statements.now) (S.post statements.now) }
    ensures { Gives (seen source.entry expression_syntax) result (read_operand (go_text source.entry) (parts_of
        source.entry) source.entry.below (cursor source.entry place)) }
{
    if source.stands(place, TokenKind::Identifier) {
        return name(source, place);
    }
    if source.stands(place, TokenKind::LeftParenthesis) {
        let (inner, rest) = expression(source, parts, false, 1, source.behind(place))?;
        let end = holding!(expression: inner; source.take(rest, TokenKind::RightParenthesis));
        let kept = boxed::expression(source.alloc, inner)?;
        return Ok((
            make::expression::parenthesized(kept, source.span_to(place, end)),
            end,
        ));
    }
    if source.stands(place, TokenKind::FuncKeyword) {
        return function(source, parts, statements, place);
    }
    match source.next_literal_kind(place) {
        Some(kind) => {
            let end = source.behind(place);
            Ok((
                make::expression::basic_literal(kind, source.span_to(place, end)),
                end,
            ))
        }
        None => typed(source, parts, place),
    }
}
