//! Indexes, slices and instances (the Go specification, "Index expressions", "Slice expressions", "Instantiations").

ghost use Rattle.std.specs.Prelude.{◌≡◌, false, true, Some, option_and_then, if◌then◌else◌};
ghost use Rattle.lexer.specs.declared.token.TokenKind.TheVariants.{Colon, RightBracket};
ghost use Rattle.meaning.specs.Cursor.{Cursor};
ghost use Rattle.tree.specs.Syntax.{Expression, Expressions, expression_and, index_expression, missing_expression, present_expression};
ghost use Rattle.tree.specs.View.{expression_syntax, expressions_syntax, optional_expression_syntax};
ghost use Rattle.parser_base.specs.Gives.{Gives};
ghost use Rattle.parser_base.specs.Parts.{ReadsExpressions};
ghost use Rattle.parser_base.specs.Places.{cursor, seen, parts_of, go_text};
ghost use Rattle.tree_reader.specs.Reader.{read_any, read_expression_unless, read_index, read_slice, read_instance, read_more_arguments};
ghost use Rattle.tree_reader.specs.Reading.{stands, behind, spanned, steps, take};

use crate::lists::expression_unless;
use lexer::TokenKind;
use parser_base::cursor::{Begun, Read, SourceTokens, TokenPlace};
use parser_base::holding;
use parser_base::parts::{Wanted, expression};
use parser_base::type_faults::{fault_of_types, fault_of_types_or_length};
use tree::Expr;
use tree_hold::{boxed, list, release};
use tree_make as make;

/// `[index]` after an operand that began at `from`, the bounds of a slice, or in the second edition the arguments of an
/// instance.
///
/// # Errors
///
/// Where another token stands, and out of memory.
#[tactic(auto, unfolding(tree_reader::specs::Reader::read_index, tree_reader::specs::Reader::read_expression_unless))]
pub fn index<F: Fn(Wanted, TokenPlace) -> Read<Expr>>(
    source: SourceTokens<'_>,
    parts: &F,
    from: TokenPlace,
    operand: Expr,
    place: TokenPlace,
) -> Read<Expr>
    requires { ReadsExpressions source (F.pre parts.now) (F.post parts.now) }
    ensures { Gives (seen source.entry expression_syntax) result (read_index (go_text source.entry) (parts_of
        source.entry) (cursor source.entry from) (expression_syntax operand) (cursor source.entry place)) }
{
    let inner = source.behind(place);
    if source.stands(inner, TokenKind::Colon) {
        let begun = Begun {
            from,
            first: operand,
            place: inner,
        };
        return slice(source, parts, begun, None);
    }
    let (first, rest) = holding!(expression: operand; expression(source, parts, false, 1, inner));
    if source.stands(rest, TokenKind::Colon) {
        let low = holding!(expression: operand; memory boxed::expression(source.alloc, first));
        let begun = Begun {
            from,
            first: operand,
            place: rest,
        };
        return slice(source, parts, begun, Some(low));
    }
    let begun = Begun {
        from,
        first: operand,
        place: rest,
    };
    if source.is_second() && source.stands(rest, TokenKind::Comma) {
        return instance(source, parts, begun, first);
    }
    only_index(source, begun, first)
}

/// The same where only an instance can stand. A fault stands where the tokens stop being types.
///
/// # Errors
///
/// Where another token stands, and out of memory.
pub fn index_of_types<F: Fn(Wanted, TokenPlace) -> Read<Expr>>(
    source: SourceTokens<'_>,
    parts: &F,
    from: TokenPlace,
    operand: Expr,
    place: TokenPlace,
) -> Read<Expr>
    requires { ReadsExpressions source (F.pre parts.now) (F.post parts.now) }
    ensures { Gives (seen source.entry expression_syntax) result (read_index (go_text source.entry) (parts_of
        source.entry) (cursor source.entry from) (expression_syntax operand) (cursor source.entry place)) }
{
    match index(source, parts, from, operand, place) {
        Ok(read) => Ok(read),
        Err(stop) => Err(fault_of_types(source, source.behind(place), stop)),
    }
}

/// The same where an instance or the length of an array can stand.
///
/// # Errors
///
/// Where another token stands, and out of memory.
pub fn index_of_types_or_length<F: Fn(Wanted, TokenPlace) -> Read<Expr>>(
    source: SourceTokens<'_>,
    parts: &F,
    from: TokenPlace,
    operand: Expr,
    place: TokenPlace,
) -> Read<Expr>
    requires { ReadsExpressions source (F.pre parts.now) (F.post parts.now) }
    ensures { Gives (seen source.entry expression_syntax) result (read_index (go_text source.entry) (parts_of
        source.entry) (cursor source.entry from) (expression_syntax operand) (cursor source.entry place)) }
{
    match index(source, parts, from, operand, place) {
        Ok(read) => Ok(read),
        Err(stop) => Err(fault_of_types_or_length(source, source.behind(place), stop)),
    }
}

/// `]` behind an index, after an operand.
///
/// # Errors
///
/// Where another token stands, and out of memory.
fn only_index(source: SourceTokens<'_>, begun: Begun<Expr>, index: Expr) -> Read<Expr>
    ensures { Gives (seen source.entry expression_syntax) result (option_and_then (λ (end : Cursor). Some (spanned
        (cursor source.entry begun.from) (index_expression (expression_syntax begun.first) (expression_syntax index))
        end)) (take RightBracket (cursor source.entry begun.place))) }
{
    let Begun {
        from,
        first: operand,
        place,
    } = begun;
    let end =
        holding!(expression: operand, expression: index; source.take(place, TokenKind::RightBracket));
    let kept = holding!(expression: operand; memory boxed::expression(source.alloc, index));
    let indexed = holding!(boxed_expression: kept; memory boxed::expression(source.alloc, operand));
    Ok((
        make::expression::index_expression(indexed, kept, source.span_to(from, end)),
        end,
    ))
}

/// The arguments of an instance behind the first one, after its operand.
///
/// # Errors
///
/// Where another token stands, and out of memory.
#[tactic(auto, unfolding(tree_reader::specs::Reader::read_instance))]
fn instance<F: Fn(Wanted, TokenPlace) -> Read<Expr>>(
    source: SourceTokens<'_>,
    parts: &F,
    begun: Begun<Expr>,
    argument: Expr,
) -> Read<Expr>
    requires { ReadsExpressions source (F.pre parts.now) (F.post parts.now) }
    ensures { Gives (seen source.entry expression_syntax) result (read_instance (go_text source.entry) (parts_of
        source.entry) (cursor source.entry begun.from) (expression_syntax begun.first) (expression_syntax argument)
        (cursor source.entry begun.place)) }
{
    let Begun {
        from,
        first: operand,
        place,
    } = begun;
    let (list, rest) =
        holding!(expression: operand; more_arguments(source, parts, argument, place));
    let end =
        holding!(expression: operand, expressions: list; source.take(rest, TokenKind::RightBracket));
    let inner = holding!(expressions: list; memory boxed::expression(source.alloc, operand));
    Ok((
        make::expression::instance_expression(inner, list, source.span_to(from, end)),
        end,
    ))
}

/// This argument of an instance and those behind it, each with its comma before it, and the comma behind the last one.
fn more_arguments<F: Fn(Wanted, TokenPlace) -> Read<Expr>>(
    source: SourceTokens<'_>,
    parts: &F,
    argument: Expr,
    place: TokenPlace,
) -> Read<Vec<Expr>>
    requires { ReadsExpressions source (F.pre parts.now) (F.post parts.now) }
    ensures { Gives (seen source.entry (λ es. expressions_syntax es.items)) result (option_and_then (λ (more :
        Expressions × Cursor). Some (expression_and (expression_syntax argument) more.0, more.1)) (read_more_arguments
        (go_text source.entry) (parts_of source.entry) (steps (cursor source.entry place)) (cursor source.entry
        place))) }
{
    let mut items = list::with_expression(Vec::new(source.alloc), argument)?;
    let mut rest = place;
    for _ in 0..source.steps(place) {
        if !source.stands(rest, TokenKind::Comma) {
            return Ok((items, rest));
        }
        let next = source.behind(rest);
        if source.stands(next, TokenKind::RightBracket) {
            return Ok((items, next));
        }
        let (item, after) = holding!(expressions: items; expression(source, parts, false, 1, next));
        items = list::with_expression(items, item)?;
        rest = after;
    }
    release::expressions(items);
    Err(source.unexpected(rest))
}

/// The other bounds of a slice, after its operand and the first bound.
///
/// # Errors
///
/// Where another token stands, and out of memory.
#[tactic(auto, unfolding(tree_reader::specs::Reader::read_slice))]
fn slice<F: Fn(Wanted, TokenPlace) -> Read<Expr>>(
    source: SourceTokens<'_>,
    parts: &F,
    begun: Begun<Expr>,
    low: Option<Box<Expr>>,
) -> Read<Expr>
    requires { ReadsExpressions source (F.pre parts.now) (F.post parts.now) }
    ensures { Gives (seen source.entry expression_syntax) result (read_slice (go_text source.entry) (parts_of
        source.entry) (cursor source.entry begun.from) (expression_syntax begun.first)
        (optional_expression_syntax low) (cursor source.entry begun.place)) }
{
    let Begun {
        from,
        first: operand,
        place,
    } = begun;
    let inner = source.behind(place);
    let (high, after) =
        holding!(expression: operand, optional_expression: low; second_bound(source, parts, inner));
    let (most, rest) =
        holding!(expression: operand, optional_expression: low, optional_expression: high; third_bound(source, parts,
            after));
    let end =
        holding!(expression: operand, optional_expression: low, optional_expression: high, optional_expression: most;
            source.take(rest, TokenKind::RightBracket));
    let sliced =
        holding!(optional_expression: low, optional_expression: high, optional_expression: most; memory
            boxed::expression(source.alloc, operand));
    let made = make::expression::bounds(low, high, most);
    let bounds = holding!(boxed_expression: sliced; memory boxed::bounds(source.alloc, made));
    let span = source.span_to(from, end);
    Ok((
        make::expression::slice_expression(sliced, bounds, span),
        end,
    ))
}

/// The second bound of a slice, where no colon stands.
///
/// # Errors
///
/// Where another token stands, and out of memory.
fn second_bound<F: Fn(Wanted, TokenPlace) -> Read<Expr>>(
    source: SourceTokens<'_>,
    parts: &F,
    place: TokenPlace,
) -> Read<Option<Box<Expr>>>
    requires { ReadsExpressions source (F.pre parts.now) (F.post parts.now) }
    ensures { Gives (seen source.entry optional_expression_syntax) result (if stands Colon (cursor source.entry place)
        then Some (missing_expression, cursor source.entry place) else read_expression_unless (go_text source.entry)
        (parts_of source.entry) RightBracket false (cursor source.entry place)) }
{
    if source.stands(place, TokenKind::Colon) {
        return Ok((None, place));
    }
    expression_unless(source, parts, TokenKind::RightBracket, false, place)
}

/// The third bound of a slice, after a colon.
///
/// # Errors
///
/// Where another token stands, and out of memory.
fn third_bound<F: Fn(Wanted, TokenPlace) -> Read<Expr>>(
    source: SourceTokens<'_>,
    parts: &F,
    place: TokenPlace,
) -> Read<Option<Box<Expr>>>
    requires { ReadsExpressions source (F.pre parts.now) (F.post parts.now) }
    ensures { Gives (seen source.entry optional_expression_syntax) result (if stands Colon (cursor source.entry place)
        then option_and_then (λ (bound : Expression × Cursor). Some (present_expression bound.0, bound.1)) (read_any
        (go_text source.entry) (parts_of source.entry) (behind (cursor source.entry place))) else Some
        (missing_expression, cursor source.entry place)) }
{
    if !source.stands(place, TokenKind::Colon) {
        return Ok((None, place));
    }
    let (bound, end) = expression(source, parts, false, 1, source.behind(place))?;
    let kept = boxed::expression(source.alloc, bound)?;
    Ok((Some(kept), end))
}
