//! Expressions and types (the Go specification, "Expressions", "Types").

ghost use Rattle.std.specs.Prelude.{◌≡◌, suc, Some, option_and_then};
ghost use Rattle.meaning.specs.Cursor.{Cursor};
ghost use Rattle.meaning.specs.WellFormed.{operator_level as level_of};
ghost use Rattle.lexer.specs.declared.token.TokenKind.TheVariants.{ChanKeyword};
ghost use Rattle.tree.specs.declared.operator.ChanDirection.TheVariants.{Receive as receive_only};
ghost use Rattle.tree.specs.Syntax.{Expression, Signature, binary_expression, channel_type, function_type};
ghost use Rattle.tree.specs.View.{expression_syntax};
ghost use Rattle.parser_base.specs.Gives.{Gives};
ghost use Rattle.parser_base.specs.Parts.{ReadsExpressions, ReadsStatements};
ghost use Rattle.parser_base.specs.Places.{cursor, seen, parts_of, go_text};
ghost use Rattle.tree_reader.specs.Reader.{read_unary, read_operators, read_expression_of, read_value_of, read_type_of, read_signature};
ghost use Rattle.tree_reader.specs.Reading.{behind, spanned, steps, take};

use crate::lone_operands::{is_lone_expression, literal, lone_literal};
use crate::primaries::primary;
use crate::type_names::named_type;
use lexer::TokenKind;
use parser_base::cursor::{Begun, Read, SourceTokens, TokenPlace};
use parser_base::expressions::{name, next_operator};
use parser_base::fault::Stop;
use parser_base::holding;
use parser_base::kinds::{PRIMARY_LEVEL, UNARY_LEVEL, operator_level};
use parser_base::parts::{Wanted, expression, fits, type_expression};
use parser_parts::lists::braced_elements;
use parser_parts::signatures::signature;
use parser_parts::types::literal_type;
use tree::{BinaryOperator, ChanDirection, Expr, Stmt};
use tree_hold::{boxed, release};
use tree_make as make;

/// The least level of an expression that is to be read, and whether it stands in a header, where no composite literal
/// of a bare type name is read.
#[derive(Clone, Copy)]
pub struct WantedExpression {
    pub in_header: bool,
    pub least: u32,
}

/// An expression of at least this level.
///
/// # Errors
///
/// Where another token stands, where it is too deep, and out of memory.
pub fn expression_of<F: Fn(Wanted, TokenPlace) -> Read<Expr>, S: Fn(TokenPlace) -> Read<Stmt>>(
    source: SourceTokens<'_>,
    parts: &F,
    statements: &S,
    wanted: WantedExpression,
    place: TokenPlace,
) -> Read<Expr>
    requires expressions { ReadsExpressions source (F.pre parts.now) (F.post parts.now) }
    requires statements { ReadsStatements source (S.pre statements.now) (S.post statements.now) }
    ensures { Gives (seen source.entry expression_syntax) result (read_expression_of (go_text source.entry) (parts_of
        source.entry) source.entry.below wanted.in_header wanted.least (cursor source.entry place)) }
{
    if is_lone_expression(source, wanted.in_header, place) {
        return name(source, place);
    }
    match lone_literal(source, wanted.in_header, place) {
        Some(kind) => Ok(literal(source, kind, place)),
        None => longer_expression(source, parts, statements, wanted, place),
    }
}

/// An expression of at least this level, read by all its parts.
///
/// # Errors
///
/// Where another token stands, where it is too deep, and out of memory.
// Kept out of what reads an operand that stands alone, which needs no memory of this one's.
#[inline(never)]
#[tactic(auto, unfolding(tree_reader::specs::Reader::read_expression_of))]
fn longer_expression<F: Fn(Wanted, TokenPlace) -> Read<Expr>, S: Fn(TokenPlace) -> Read<Stmt>>(
    source: SourceTokens<'_>,
    parts: &F,
    statements: &S,
    wanted: WantedExpression,
    place: TokenPlace,
) -> Read<Expr>
    requires expressions { ReadsExpressions source (F.pre parts.now) (F.post parts.now) }
    requires statements { ReadsStatements source (S.pre statements.now) (S.post statements.now) }
    ensures { Gives (seen source.entry expression_syntax) result (read_expression_of (go_text source.entry) (parts_of
        source.entry) source.entry.below wanted.in_header wanted.least (cursor source.entry place)) }
{
    let WantedExpression { in_header, least } = wanted;
    if PRIMARY_LEVEL <= least {
        return primary(source, parts, statements, in_header, place);
    }
    if UNARY_LEVEL <= least {
        return unary(source, parts, statements, in_header, place);
    }
    let (first, rest) = unary(source, parts, statements, in_header, place)?;
    let begun = Begun {
        from: place,
        first,
        place: rest,
    };
    operators(source, parts, wanted, begun)
}

/// An operator and its operand, or a primary expression.
///
/// # Errors
///
/// Where another token stands, where it is too deep, and out of memory.
#[tactic(auto, unfolding(tree_reader::specs::Reader::read_unary))]
fn unary<F: Fn(Wanted, TokenPlace) -> Read<Expr>, S: Fn(TokenPlace) -> Read<Stmt>>(
    source: SourceTokens<'_>,
    parts: &F,
    statements: &S,
    header: bool,
    place: TokenPlace,
) -> Read<Expr>
    requires expressions { ReadsExpressions source (F.pre parts.now) (F.post parts.now) }
    requires statements { ReadsStatements source (S.pre statements.now) (S.post statements.now) }
    ensures { Gives (seen source.entry expression_syntax) result (read_unary (go_text source.entry) (parts_of
        source.entry) source.entry.below header (cursor source.entry place)) }
{
    if source.stands(place, TokenKind::Star) {
        let (operand, end) = expression(source, parts, header, UNARY_LEVEL, source.behind(place))?;
        let kept = boxed::expression(source.alloc, operand)?;
        return Ok((
            make::expression::star_expression(kept, source.span_to(place, end)),
            end,
        ));
    }
    match source.next_unary_operator(place) {
        Some(operator) => {
            let (operand, end) = expression(
                source,
                parts,
                header,
                UNARY_LEVEL,
                source.behind(place),
            )?;
            let kept = boxed::expression(source.alloc, operand)?;
            let span = source.span_to(place, end);
            Ok((
                make::expression::unary_expression(operator, kept, span),
                end,
            ))
        }
        None => primary(source, parts, statements, header, place),
    }
}

/// All operators of at least this level that follow a left operand, and their right operands.
///
/// # Errors
///
/// Where another token stands, where it is too deep, and out of memory.
fn operators<F: Fn(Wanted, TokenPlace) -> Read<Expr>>(
    source: SourceTokens<'_>,
    parts: &F,
    wanted: WantedExpression,
    begun: Begun<Expr>,
) -> Read<Expr>
    requires { ReadsExpressions source (F.pre parts.now) (F.post parts.now) }
    ensures { Gives (seen source.entry expression_syntax) result (read_operators (go_text source.entry) (parts_of
        source.entry) source.entry.below wanted.in_header wanted.least (cursor source.entry begun.from) (steps (cursor
        source.entry begun.place)) (expression_syntax begun.first) (cursor source.entry begun.place)) }
{
    let WantedExpression { in_header, least } = wanted;
    let Begun { from, first, place } = begun;
    let mut grown = first;
    let mut rest = place;
    for _ in 0..source.steps(place) {
        let operator = match next_operator(source, least, rest) {
            Some(operator) => operator,
            None => return Ok((grown, rest)),
        };
        if !fits(source, &grown) {
            release::expression(grown);
            return Err(Stop::TooDeep);
        }
        let left = Begun {
            from,
            first: grown,
            place: rest,
        };
        let (longer, after) = binary(source, parts, in_header, operator, left)?;
        grown = longer;
        rest = after;
    }
    release::expression(grown);
    Err(source.unexpected(rest))
}

/// An operator and its right operand after a left one.
///
/// # Errors
///
/// Where another token stands, where it is too deep, and out of memory.
fn binary<F: Fn(Wanted, TokenPlace) -> Read<Expr>>(
    source: SourceTokens<'_>,
    parts: &F,
    header: bool,
    operator: BinaryOperator,
    begun: Begun<Expr>,
) -> Read<Expr>
    requires { ReadsExpressions source (F.pre parts.now) (F.post parts.now) }
    ensures { Gives (seen source.entry expression_syntax) result (option_and_then (λ (right : Expression × Cursor).
        Some (spanned (cursor source.entry begun.from) (binary_expression operator (expression_syntax begun.first)
        right.0) right.1)) ((parts_of source.entry).read_expression header (suc (level_of operator)) (behind (cursor
        source.entry begun.place)))) }
{
    let Begun {
        from,
        first: left,
        place,
    } = begun;
    let level = operator_level(operator) + 1;
    let next = source.behind(place);
    let (operand, end) = holding!(expression: left; expression(source, parts, header, level, next));
    let right = holding!(expression: left; memory boxed::expression(source.alloc, operand));
    let kept = holding!(boxed_expression: right; memory boxed::expression(source.alloc, left));
    Ok((
        make::expression::binary_expression(operator, kept, right, source.span_to(from, end)),
        end,
    ))
}

/// An expression, or elements in braces.
///
/// # Errors
///
/// Where another token stands, where it is too deep, and out of memory.
#[tactic(auto, unfolding(tree_reader::specs::Reader::read_value_of))]
pub fn value_of<F: Fn(Wanted, TokenPlace) -> Read<Expr>, S: Fn(TokenPlace) -> Read<Stmt>>(
    source: SourceTokens<'_>,
    parts: &F,
    statements: &S,
    place: TokenPlace,
) -> Read<Expr>
    requires expressions { ReadsExpressions source (F.pre parts.now) (F.post parts.now) }
    requires statements { ReadsStatements source (S.pre statements.now) (S.post statements.now) }
    ensures { Gives (seen source.entry expression_syntax) result (read_value_of (go_text source.entry) (parts_of
        source.entry) source.entry.below (cursor source.entry place)) }
{
    if !source.stands(place, TokenKind::LeftBrace) {
        let wanted = WantedExpression {
            in_header: false,
            least: 1,
        };
        return expression_of(source, parts, statements, wanted, place);
    }
    let (elements, end) = braced_elements(source, parts, place)?;
    Ok((
        make::expression::literal_value(elements, source.span_to(place, end)),
        end,
    ))
}

/// A type.
///
/// # Errors
///
/// Where another token stands, where it is too deep, and out of memory.
// Kept out of what reads a node: with it there, lexing and parsing take one of 100 instructions more.
#[inline(never)]
#[tactic(auto, unfolding(tree_reader::specs::Reader::read_type_of))]
pub fn type_of<F: Fn(Wanted, TokenPlace) -> Read<Expr>>(
    source: SourceTokens<'_>,
    parts: &F,
    place: TokenPlace,
) -> Read<Expr>
    requires { ReadsExpressions source (F.pre parts.now) (F.post parts.now) }
    ensures { Gives (seen source.entry expression_syntax) result (read_type_of (go_text source.entry) (parts_of
        source.entry) source.entry.below (cursor source.entry place)) }
{
    if source.stands(place, TokenKind::Identifier) {
        return named_type(source, parts, place);
    }
    if source.stands(place, TokenKind::Star) {
        let (operand, end) = type_expression(source, parts, source.behind(place))?;
        let kept = boxed::expression(source.alloc, operand)?;
        return Ok((
            make::expression::star_expression(kept, source.span_to(place, end)),
            end,
        ));
    }
    if source.stands(place, TokenKind::LeftParenthesis) {
        let (operand, rest) = type_expression(source, parts, source.behind(place))?;
        let end = holding!(expression: operand; source.take(rest, TokenKind::RightParenthesis));
        let kept = boxed::expression(source.alloc, operand)?;
        return Ok((
            make::expression::parenthesized(kept, source.span_to(place, end)),
            end,
        ));
    }
    if source.stands(place, TokenKind::Arrow) {
        return receiving_type(source, parts, place);
    }
    if source.stands(place, TokenKind::FuncKeyword) {
        return function_type(source, parts, place);
    }
    literal_type(source, parts, place)
}

/// `<-chan T`, from its arrow on.
///
/// # Errors
///
/// Where another token stands, and out of memory.
fn receiving_type<F: Fn(Wanted, TokenPlace) -> Read<Expr>>(
    source: SourceTokens<'_>,
    parts: &F,
    place: TokenPlace,
) -> Read<Expr>
    requires { ReadsExpressions source (F.pre parts.now) (F.post parts.now) }
    ensures { Gives (seen source.entry expression_syntax) result (option_and_then (λ (word : Cursor). option_and_then
        (λ (element : Expression × Cursor). Some (spanned (cursor source.entry place) (channel_type receive_only
        element.0) element.1)) ((parts_of source.entry).read_type word)) (take ChanKeyword (behind (cursor
        source.entry place)))) }
{
    let inner = source.take(source.behind(place), TokenKind::ChanKeyword)?;
    let (element, end) = type_expression(source, parts, inner)?;
    let kept = boxed::expression(source.alloc, element)?;
    let span = source.span_to(place, end);
    Ok((
        make::types::channel_type(ChanDirection::Receive, kept, span),
        end,
    ))
}

/// `func(..) ..`, from its keyword on.
///
/// # Errors
///
/// Where another token stands, and out of memory.
fn function_type<F: Fn(Wanted, TokenPlace) -> Read<Expr>>(
    source: SourceTokens<'_>,
    parts: &F,
    place: TokenPlace,
) -> Read<Expr>
    requires { ReadsExpressions source (F.pre parts.now) (F.post parts.now) }
    ensures { Gives (seen source.entry expression_syntax) result (option_and_then (λ (signature : Signature × Cursor).
        Some (spanned (cursor source.entry place) (function_type signature.0) signature.1)) (read_signature
        (go_text source.entry) (parts_of source.entry) (behind (cursor source.entry place)))) }
{
    let (signature, end) = signature(source, parts, source.behind(place))?;
    let kept = boxed::signature(source.alloc, signature)?;
    Ok((
        make::types::function_type(kept, source.span_to(place, end)),
        end,
    ))
}
