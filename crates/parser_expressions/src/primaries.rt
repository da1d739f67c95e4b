//! Primary expressions (the Go specification, "Primary expressions").

ghost use Rattle.std.specs.Prelude.{◌≡◌, false, true, option_and_then};
ghost use Rattle.tree.specs.Syntax.{Expression};
ghost use Rattle.tree.specs.View.{expression_syntax};
ghost use Rattle.parser_base.specs.Gives.{Gives};
ghost use Rattle.parser_base.specs.Parts.{ReadsExpressions, ReadsStatements, goes_on};
ghost use Rattle.parser_base.specs.Places.{cursor, seen, parts_of, go_text};
ghost use Rattle.tree_reader.specs.Reader.{read_call, read_assertion, read_composite, read_suffix, read_suffixes, read_primary};
ghost use Rattle.tree_reader.specs.Reading.{Read as read_of, steps};

use crate::lone_operands::{is_lone_primary, literal, lone_primary_literal};
use crate::operands::operand;
use lexer::TokenKind;
use parser_base::cursor::{Begun, Read, SourceTokens, TokenPlace};
use parser_base::expressions::{goes_on, name, selector};
use parser_base::fault::Stop;
use parser_base::holding;
use parser_base::parts::{Wanted, fits, type_expression};
use parser_parts::indexes::index;
use parser_parts::lists::{arguments, braced_elements};
use tree::{Expr, Stmt};
use tree_hold::{boxed, release};
use tree_make as make;

/// A primary expression.
///
/// # Errors
///
/// Where another token stands, where it is too deep, and out of memory.
pub fn primary<F: Fn(Wanted, TokenPlace) -> Read<Expr>, S: Fn(TokenPlace) -> Read<Stmt>>(
    source: SourceTokens<'_>,
    parts: &F,
    statements: &S,
    header: bool,
    place: TokenPlace,
) -> Read<Expr>
    requires expressions { ReadsExpressions source (F.pre parts.now) (F.post parts.now) }
    requires statements { ReadsStatements source (S.pre statements.now) (S.post statements.now) }
    ensures { Gives (seen source.entry expression_syntax) result (read_primary (go_text source.entry) (parts_of
        source.entry) source.entry.below header (cursor source.entry place)) }
{
    if is_lone_primary(source, header, place) {
        return name(source, place);
    }
    match lone_primary_literal(source, header, place) {
        Some(kind) => Ok(literal(source, kind, place)),
        None => operand_and_suffixes(source, parts, statements, header, place),
    }
}

/// An operand and all that follows it.
///
/// # Errors
///
/// Where another token stands, where it is too deep, and out of memory.
// Kept out of what reads an operand that stands alone, which needs no memory of this one's.
#[inline(never)]
#[tactic(auto, unfolding(tree_reader::specs::Reader::read_primary))]
fn operand_and_suffixes<F: Fn(Wanted, TokenPlace) -> Read<Expr>, S: Fn(TokenPlace) -> Read<Stmt>>(
    source: SourceTokens<'_>,
    parts: &F,
    statements: &S,
    header: bool,
    place: TokenPlace,
) -> Read<Expr>
    requires expressions { ReadsExpressions source (F.pre parts.now) (F.post parts.now) }
    requires statements { ReadsStatements source (S.pre statements.now) (S.post statements.now) }
    ensures { Gives (seen source.entry expression_syntax) result (read_primary (go_text source.entry) (parts_of
        source.entry) source.entry.below header (cursor source.entry place)) }
{
    let (first, rest) = operand(source, parts, statements, place)?;
    let begun = Begun {
        from: place,
        first,
        place: rest,
    };
    suffixes(source, parts, header, begun)
}

/// All that follows an operand, up to where the primary expression ends.
///
/// # Errors
///
/// Where another token stands, where it is too deep, and out of memory.
fn suffixes<F: Fn(Wanted, TokenPlace) -> Read<Expr>>(
    source: SourceTokens<'_>,
    parts: &F,
    header: bool,
    begun: Begun<Expr>,
) -> Read<Expr>
    requires { ReadsExpressions source (F.pre parts.now) (F.post parts.now) }
    ensures { Gives (seen source.entry expression_syntax) result (read_suffixes (go_text source.entry) (parts_of
        source.entry) source.entry.below header (cursor source.entry begun.from) (steps (cursor source.entry
        begun.place)) (expression_syntax begun.first) (cursor source.entry begun.place)) }
{
    let Begun { from, first, place } = begun;
    let mut grown = first;
    let mut rest = place;
    for _ in 0..source.steps(place) {
        if !goes_on(source, header, &grown, rest) {
            return Ok((grown, rest));
        }
        if !fits(source, &grown) {
            release::expression(grown);
            return Err(Stop::TooDeep);
        }
        let (longer, after) = suffix(source, parts, from, grown, rest)?;
        grown = longer;
        rest = after;
    }
    release::expression(grown);
    Err(source.unexpected(rest))
}

/// The next part of a primary expression that began at `from`, where it goes on.
///
/// # Errors
///
/// Where another token stands, and out of memory.
fn suffix<F: Fn(Wanted, TokenPlace) -> Read<Expr>>(
    source: SourceTokens<'_>,
    parts: &F,
    from: TokenPlace,
    operand: Expr,
    place: TokenPlace,
) -> Read<Expr>
    requires parts { ReadsExpressions source (F.pre parts.now) (F.post parts.now) }
    requires goes_on { goes_on source.edition false (expression_syntax operand) (cursor source place) ≡ true }
    ensures { Gives (seen source.entry expression_syntax) result (option_and_then (λ (read : read_of Expression).
        read) (read_suffix (go_text source.entry) (parts_of source.entry) source.entry.below false (cursor source.entry
        from) (expression_syntax operand) (cursor source.entry place))) }
{
    if source.stands(place, TokenKind::Dot) {
        if source.stands(source.behind(place), TokenKind::LeftParenthesis) {
            return assertion(source, parts, from, operand, place);
        }
        return selector(source, from, operand, place);
    }
    if source.stands(place, TokenKind::LeftBracket) {
        return index(source, parts, from, operand, place);
    }
    if source.stands(place, TokenKind::LeftParenthesis) {
        return call(source, parts, from, operand, place);
    }
    composite(source, parts, from, operand, place)
}

/// `.(Type)` after an operand that began at `from`.
///
/// # Errors
///
/// Where another token stands, and out of memory.
#[tactic(auto, unfolding(tree_reader::specs::Reader::read_assertion))]
fn assertion<F: Fn(Wanted, TokenPlace) -> Read<Expr>>(
    source: SourceTokens<'_>,
    parts: &F,
    from: TokenPlace,
    operand: Expr,
    place: TokenPlace,
) -> Read<Expr>
    requires { ReadsExpressions source (F.pre parts.now) (F.post parts.now) }
    ensures { Gives (seen source.entry expression_syntax) result (read_assertion (go_text source.entry) (parts_of
        source.entry) source.entry.below (cursor source.entry from) (expression_syntax operand) (cursor source.entry
        place)) }
{
    let inner = source.behind(source.behind(place));
    let (kind, rest) = holding!(expression: operand; type_expression(source, parts, inner));
    let end =
        holding!(expression: operand, expression: kind; source.take(rest, TokenKind::RightParenthesis));
    let kept = holding!(expression: operand; memory boxed::expression(source.alloc, kind));
    let asked = holding!(boxed_expression: kept; memory boxed::expression(source.alloc, operand));
    Ok((
        make::expression::type_assertion(asked, kept, source.span_to(from, end)),
        end,
    ))
}

/// `(arguments)` after an operand that began at `from`.
///
/// # Errors
///
/// Where another token stands, and out of memory.
#[tactic(auto, unfolding(tree_reader::specs::Reader::read_call))]
fn call<F: Fn(Wanted, TokenPlace) -> Read<Expr>>(
    source: SourceTokens<'_>,
    parts: &F,
    from: TokenPlace,
    operand: Expr,
    place: TokenPlace,
) -> Read<Expr>
    requires { ReadsExpressions source (F.pre parts.now) (F.post parts.now) }
    ensures { Gives (seen source.entry expression_syntax) result (read_call (go_text source.entry) (parts_of
        source.entry) source.entry.below (cursor source.entry from) (expression_syntax operand) (cursor source.entry
        place)) }
{
    let inner = source.behind(place);
    let ((list, has_ellipsis), rest) =
        holding!(expression: operand; arguments(source, parts, inner));
    let end =
        holding!(expression: operand, expressions: list; source.take(rest, TokenKind::RightParenthesis));
    let callee = holding!(expressions: list; memory boxed::expression(source.alloc, operand));
    let span = source.span_to(from, end);
    Ok((
        make::expression::call_expression(callee, list, has_ellipsis, span),
        end,
    ))
}

/// `{elements}` after a type that began at `from`.
///
/// # Errors
///
/// Where another token stands, and out of memory.
#[tactic(auto, unfolding(tree_reader::specs::Reader::read_composite))]
fn composite<F: Fn(Wanted, TokenPlace) -> Read<Expr>>(
    source: SourceTokens<'_>,
    parts: &F,
    from: TokenPlace,
    operand: Expr,
    place: TokenPlace,
) -> Read<Expr>
    requires { ReadsExpressions source (F.pre parts.now) (F.post parts.now) }
    ensures { Gives (seen source.entry expression_syntax) result (read_composite (go_text source.entry) (parts_of
        source.entry) source.entry.below (cursor source.entry from) (expression_syntax operand) (cursor source.entry
        place)) }
{
    let (elements, end) = holding!(expression: operand; braced_elements(source, parts, place));
    let kind = holding!(expressions: elements; memory boxed::expression(source.alloc, operand));
    Ok((
        make::expression::composite_literal(kind, elements, source.span_to(from, end)),
        end,
    ))
}
