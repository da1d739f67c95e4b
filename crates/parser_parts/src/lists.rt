//! Lists of expressions (the Go specification, "Calls", "Composite literals").

ghost use Rattle.std.specs.Prelude.{◌≡◌};
ghost use Rattle.tree.specs.View.{expression_syntax, expressions_syntax, optional_expression_syntax};
ghost use Rattle.parser_base.specs.Gives.{Gives};
ghost use Rattle.parser_base.specs.Parts.{ReadsExpressions};
ghost use Rattle.parser_base.specs.Places.{cursor, seen, parts_of, go_text};
ghost use Rattle.tree_reader.specs.Reader.{read_expressions, read_element, read_expression_unless, read_elements, read_braced_elements, read_arguments};
ghost use Rattle.tree_reader.specs.Reading.{steps};

use lexer::TokenKind;
use parser_base::cursor::{Read, SourceTokens, TokenPlace};
use parser_base::holding;
use parser_base::parts::{Wanted, element_value, expression};
use tree::Expr;
use tree_hold::{boxed, list, release};
use tree_make as make;

/// Expressions with commas between, and the place after them.
///
/// # Errors
///
/// Where another token stands, and out of memory.
#[tactic(auto, unfolding(tree_reader::specs::Reader::read_expressions))]
pub fn expressions<F: Fn(Wanted, TokenPlace) -> Read<Expr>>(
    source: SourceTokens<'_>,
    parts: &F,
    header: bool,
    place: TokenPlace,
) -> Read<Vec<Expr>>
    requires { ReadsExpressions source (F.pre parts.now) (F.post parts.now) }
    ensures { Gives (seen source.entry (λ es. expressions_syntax es.items)) result (read_expressions
        (go_text source.entry) (parts_of source.entry) header (cursor source.entry place)) }
{
    let (first, mut rest) = expression(source, parts, header, 1, place)?;
    let mut items = list::with_expression(Vec::new(source.alloc), first)?;
    for _ in 0..source.steps(rest) {
        if !source.stands(rest, TokenKind::Comma) {
            return Ok((items, rest));
        }
        let next = source.behind(rest);
        let (item, after) =
            holding!(expressions: items; expression(source, parts, header, 1, next));
        items = list::with_expression(items, item)?;
        rest = after;
    }
    release::expressions(items);
    Err(source.unexpected(rest))
}

/// `key: value`, or `value`, among the elements of a composite literal.
#[tactic(auto, unfolding(tree_reader::specs::Reader::read_element))]
fn element<F: Fn(Wanted, TokenPlace) -> Read<Expr>>(
    source: SourceTokens<'_>,
    parts: &F,
    place: TokenPlace,
) -> Read<Expr>
    requires { ReadsExpressions source (F.pre parts.now) (F.post parts.now) }
    ensures { Gives (seen source.entry expression_syntax) result (read_element (go_text source.entry) (parts_of
        source.entry) (cursor source.entry place)) }
{
    let (key, rest) = element_value(source, parts, place)?;
    if !source.stands(rest, TokenKind::Colon) {
        return Ok((key, rest));
    }
    let (value, end) = holding!(expression: key; element_value(source, parts, source.behind(rest)));
    let kept = holding!(expression: key; memory boxed::expression(source.alloc, value));
    let first = holding!(boxed_expression: kept; memory boxed::expression(source.alloc, key));
    Ok((
        make::expression::key_value(first, kept, source.span_to(place, end)),
        end,
    ))
}

/// An expression, where no token of this kind stands.
///
/// # Errors
///
/// Where another token stands, and out of memory.
#[tactic(auto, unfolding(tree_reader::specs::Reader::read_expression_unless))]
pub fn expression_unless<F: Fn(Wanted, TokenPlace) -> Read<Expr>>(
    source: SourceTokens<'_>,
    parts: &F,
    kind: TokenKind,
    header: bool,
    place: TokenPlace,
) -> Read<Option<Box<Expr>>>
    requires { ReadsExpressions source (F.pre parts.now) (F.post parts.now) }
    ensures { Gives (seen source.entry optional_expression_syntax) result (read_expression_unless (go_text source.entry)
        (parts_of source.entry) kind header (cursor source.entry place)) }
{
    if source.stands(place, kind) {
        return Ok((None, place));
    }
    let (only, end) = expression(source, parts, header, 1, place)?;
    let kept = boxed::expression(source.alloc, only)?;
    Ok((Some(kept), end))
}

/// Elements up to a closing brace, and the place before it.
fn elements<F: Fn(Wanted, TokenPlace) -> Read<Expr>>(
    source: SourceTokens<'_>,
    parts: &F,
    place: TokenPlace,
) -> Read<Vec<Expr>>
    requires { ReadsExpressions source (F.pre parts.now) (F.post parts.now) }
    ensures { Gives (seen source.entry (λ es. expressions_syntax es.items)) result (read_elements (go_text source.entry)
        (parts_of source.entry) (steps (cursor source.entry place)) (cursor source.entry place)) }
{
    let mut items = Vec::new(source.alloc);
    let mut rest = place;
    for _ in 0..source.steps(place) {
        if source.stands(rest, TokenKind::RightBrace) {
            return Ok((items, rest));
        }
        let (item, after) = holding!(expressions: items; element(source, parts, rest));
        items = list::with_expression(items, item)?;
        if !source.stands(after, TokenKind::Comma) {
            return Ok((items, after));
        }
        rest = source.behind(after);
    }
    release::expressions(items);
    Err(source.unexpected(rest))
}

/// Elements of a composite literal in braces.
///
/// # Errors
///
/// Where another token stands, and out of memory.
#[tactic(auto, unfolding(tree_reader::specs::Reader::read_braced_elements))]
pub fn braced_elements<F: Fn(Wanted, TokenPlace) -> Read<Expr>>(
    source: SourceTokens<'_>,
    parts: &F,
    place: TokenPlace,
) -> Read<Vec<Expr>>
    requires { ReadsExpressions source (F.pre parts.now) (F.post parts.now) }
    ensures { Gives (seen source.entry (λ es. expressions_syntax es.items)) result (read_braced_elements
        (go_text source.entry) (parts_of source.entry) (cursor source.entry place)) }
{
    let inner = source.take(place, TokenKind::LeftBrace)?;
    let (items, rest) = elements(source, parts, inner)?;
    let end = holding!(expressions: items; source.take(rest, TokenKind::RightBrace));
    Ok((items, end))
}

/// Arguments up to a closing bracket, and whether `...` stands after the last.
///
/// # Errors
///
/// Where another token stands, and out of memory.
pub fn arguments<F: Fn(Wanted, TokenPlace) -> Read<Expr>>(
    source: SourceTokens<'_>,
    parts: &F,
    place: TokenPlace,
) -> Read<(Vec<Expr>, bool)>
    requires { ReadsExpressions source (F.pre parts.now) (F.post parts.now) }
    ensures { Gives (seen source.entry (λ es. (expressions_syntax es.0.items, es.1))) result (read_arguments
        (go_text source.entry) (parts_of source.entry) (steps (cursor source.entry place)) (cursor source.entry
        place)) }
{
    let mut items = Vec::new(source.alloc);
    let mut rest = place;
    for _ in 0..source.steps(place) {
        if source.stands(rest, TokenKind::RightParenthesis) {
            return Ok(((items, false), rest));
        }
        let (item, after) = holding!(expressions: items; expression(source, parts, false, 1, rest));
        items = list::with_expression(items, item)?;
        if source.stands(after, TokenKind::Ellipsis) {
            return Ok((
                (items, true),
                source.past(source.behind(after), TokenKind::Comma),
            ));
        }
        if !source.stands(after, TokenKind::Comma) {
            return Ok(((items, false), after));
        }
        rest = source.behind(after);
    }
    release::expressions(items);
    Err(source.unexpected(rest))
}
