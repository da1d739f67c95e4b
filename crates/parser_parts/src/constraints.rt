//! Constraints, and type parameters (the Go specification, "General interfaces", "Type parameter declarations").

ghost use Rattle.std.specs.Prelude.{◌≡◌, Some, option_and_then};
ghost use Rattle.tree.specs.declared.operator.BinaryOperator.TheVariants.{Or};
ghost use Rattle.meaning.specs.Cursor.{Cursor};
ghost use Rattle.tree.specs.Syntax.{Expression, binary_expression};
ghost use Rattle.tree.specs.View.{expression_syntax, parameter_and, parameters_syntax};
ghost use Rattle.parser_base.specs.Gives.{Gives};
ghost use Rattle.parser_base.specs.Parts.{ReadsExpressions};
ghost use Rattle.parser_base.specs.Places.{cursor, seen, parts_of, go_text};
ghost use Rattle.tree_reader.specs.Reader.{read_term, read_terms, read_constraint, read_type_parameter, read_type_items, read_type_parameters, within};
ghost use Rattle.tree_reader.specs.Reading.{behind, spanned, steps};

use lexer::TokenKind;
use parser_base::cursor::{Begun, Read, SourceTokens, TokenPlace};
use parser_base::fault::Stop;
use parser_base::holding;
use parser_base::kinds::UNARY_LEVEL;
use parser_base::names::identifier;
use parser_base::parts::{Wanted, expression, within};
use parser_base::shapes::{end_constrained, is_constraint};
use parser_base::type_faults::fault_of_constraint;
use tree::{BinaryOperator, Expr, Param, UnaryOperator};
use tree_hold::{boxed, list, release};
use tree_make as make;

/// Where a fault of a type parameter's constraint stands.
#[derive(Clone, Copy)]
pub enum Faults {
    /// Where the tokens stop being types.
    OfTypes,
    /// Where they stop being expressions, as which they are read.
    OfExpressions,
}

/// A term of a constraint: what is read as an expression, perhaps with `~` before it.
#[tactic(auto, unfolding(tree_reader::specs::Reader::read_term))]
fn term<F: Fn(Wanted, TokenPlace) -> Read<Expr>>(
    source: SourceTokens<'_>,
    parts: &F,
    place: TokenPlace,
) -> Read<Expr>
    requires { ReadsExpressions source (F.pre parts.now) (F.post parts.now) }
    ensures { Gives (seen source.entry expression_syntax) result (read_term (go_text source.entry) (parts_of
        source.entry) (cursor source.entry place)) }
{
    if !source.stands(place, TokenKind::Tilde) {
        return expression(source, parts, false, UNARY_LEVEL, place);
    }
    let (operand, end) = expression(source, parts, false, UNARY_LEVEL, source.behind(place))?;
    let kept = boxed::expression(source.alloc, operand)?;
    let span = source.span_to(place, end);
    Ok((
        make::expression::unary_expression(UnaryOperator::Tilde, kept, span),
        end,
    ))
}

/// All terms behind the first one, each behind `|`, no deeper than parts may be.
fn terms<F: Fn(Wanted, TokenPlace) -> Read<Expr>>(
    source: SourceTokens<'_>,
    parts: &F,
    begun: Begun<Expr>,
) -> Read<Expr>
    requires { ReadsExpressions source (F.pre parts.now) (F.post parts.now) }
    ensures { Gives (seen source.entry expression_syntax) result (option_and_then (λ (c : Expression × Cursor). within
        (go_text source.entry) (parts_of source.entry) c) (read_terms (go_text source.entry) (parts_of source.entry)
        (cursor source.entry begun.from) (steps (cursor source.entry begun.place)) (expression_syntax begun.first)
        (cursor source.entry begun.place))) }
{
    let Begun { from, first, place } = begun;
    let mut grown = first;
    let mut rest = place;
    for _ in 0..source.steps(place) {
        if !within(source, &grown) {
            release::expression(grown);
            return Err(Stop::TooDeep);
        }
        if !source.stands(rest, TokenKind::Pipe) {
            return Ok((grown, rest));
        }
        let left = Begun {
            from,
            first: grown,
            place: rest,
        };
        let (longer, after) = union(source, parts, left)?;
        grown = longer;
        rest = after;
    }
    release::expression(grown);
    Err(source.unexpected(rest))
}

/// `|` and the term behind it, after terms.
fn union<F: Fn(Wanted, TokenPlace) -> Read<Expr>>(
    source: SourceTokens<'_>,
    parts: &F,
    begun: Begun<Expr>,
) -> Read<Expr>
    requires { ReadsExpressions source (F.pre parts.now) (F.post parts.now) }
    ensures { Gives (seen source.entry expression_syntax) result (option_and_then (λ (t : Expression × Cursor). Some
        (spanned (cursor source.entry begun.from) (binary_expression Or (expression_syntax begun.first) t.0) t.1))
        (read_term (go_text source.entry) (parts_of source.entry) (behind (cursor source.entry begun.place)))) }
{
    let Begun {
        from,
        first: left,
        place,
    } = begun;
    let (next, end) = holding!(expression: left; term(source, parts, source.behind(place)));
    let right = holding!(expression: left; memory boxed::expression(source.alloc, next));
    let kept = holding!(boxed_expression: right; memory boxed::expression(source.alloc, left));
    let span = source.span_to(from, end);
    Ok((
        make::expression::binary_expression(BinaryOperator::Or, kept, right, span),
        end,
    ))
}

/// Terms with `|` between them.
#[tactic(auto, unfolding(tree_reader::specs::Reader::read_constraint))]
fn all_terms<F: Fn(Wanted, TokenPlace) -> Read<Expr>>(
    source: SourceTokens<'_>,
    parts: &F,
    place: TokenPlace,
) -> Read<Expr>
    requires { ReadsExpressions source (F.pre parts.now) (F.post parts.now) }
    ensures { Gives (seen source.entry expression_syntax) result (read_constraint (go_text source.entry) (parts_of
        source.entry) (cursor source.entry place)) }
{
    let (first, rest) = term(source, parts, place)?;
    let begun = Begun {
        from: place,
        first,
        place: rest,
    };
    let (read, end) = terms(source, parts, begun)?;
    if !is_constraint(&read) {
        release::expression(read);
        return Err(source.unexpected(end));
    }
    Ok((read, end))
}

/// A constraint: terms with `|` between them. A fault stands where the tokens stop being terms.
///
/// # Errors
///
/// Where another token stands, where what stands here is no constraint, where it is too deep, and out of memory.
pub fn constraint<F: Fn(Wanted, TokenPlace) -> Read<Expr>>(
    source: SourceTokens<'_>,
    parts: &F,
    place: TokenPlace,
) -> Read<Expr>
    requires { ReadsExpressions source (F.pre parts.now) (F.post parts.now) }
    ensures { Gives (seen source.entry expression_syntax) result (read_constraint (go_text source.entry) (parts_of
        source.entry) (cursor source.entry place)) }
{
    match all_terms(source, parts, place) {
        Ok(read) => Ok(read),
        Err(stop) => Err(fault_of_constraint(source, place, stop)),
    }
}

/// The same, with its fault where it is asked for.
fn constraint_or_fault<F: Fn(Wanted, TokenPlace) -> Read<Expr>>(
    source: SourceTokens<'_>,
    parts: &F,
    faults: Faults,
    place: TokenPlace,
) -> Read<Expr>
    requires { ReadsExpressions source (F.pre parts.now) (F.post parts.now) }
    ensures { Gives (seen source.entry expression_syntax) result (read_constraint (go_text source.entry) (parts_of
        source.entry) (cursor source.entry place)) }
{
    match faults {
        Faults::OfTypes => constraint(source, parts, place),
        Faults::OfExpressions => all_terms(source, parts, place),
    }
}

/// A type parameter: a name, and its constraint where no comma follows it.
#[tactic(auto, unfolding(tree_reader::specs::Reader::read_type_parameter))]
fn type_parameter<F: Fn(Wanted, TokenPlace) -> Read<Expr>>(
    source: SourceTokens<'_>,
    parts: &F,
    faults: Faults,
    place: TokenPlace,
) -> Read<Param>
    requires { ReadsExpressions source (F.pre parts.now) (F.post parts.now) }
    ensures { Gives (seen source.entry parameter_and) result (read_type_parameter (go_text source.entry) (parts_of
        source.entry) (cursor source.entry place)) }
{
    let (name, rest) = identifier(source, place)?;
    if source.stands(rest, TokenKind::Comma) {
        return Ok((make::types::name_alone(name), rest));
    }
    let (kind, end) = constraint_or_fault(source, parts, faults, rest)?;
    Ok((make::types::named_parameter(name, false, kind), end))
}

/// Type parameters up to a closing bracket, and the place before it.
fn type_items<F: Fn(Wanted, TokenPlace) -> Read<Expr>>(
    source: SourceTokens<'_>,
    parts: &F,
    faults: Faults,
    place: TokenPlace,
) -> Read<Vec<Param>>
    requires { ReadsExpressions source (F.pre parts.now) (F.post parts.now) }
    ensures { Gives (seen source.entry (λ ps. parameters_syntax ps.items)) result (read_type_items (go_text
        source.entry) (parts_of source.entry) (steps (cursor source.entry place)) (cursor source.entry place)) }
{
    let mut read = Vec::new(source.alloc);
    let mut rest = place;
    for _ in 0..source.steps(place) {
        if source.stands(rest, TokenKind::RightBracket) {
            return Ok((read, rest));
        }
        let (param, after) = holding!(params: read; type_parameter(source, parts, faults, rest));
        read = list::with_param(read, param)?;
        if !source.stands(after, TokenKind::Comma) {
            return Ok((read, after));
        }
        rest = source.behind(after);
    }
    release::params(read);
    Err(source.unexpected(rest))
}

/// Type parameters in brackets. Each has a constraint, its own or that of the next one.
///
/// # Errors
///
/// Where another token stands, where the last one has no constraint, where one is too deep, and out of memory.
#[tactic(auto, unfolding(tree_reader::specs::Reader::read_type_parameters))]
pub fn type_parameters<F: Fn(Wanted, TokenPlace) -> Read<Expr>>(
    source: SourceTokens<'_>,
    parts: &F,
    faults: Faults,
    place: TokenPlace,
) -> Read<Vec<Param>>
    requires { ReadsExpressions source (F.pre parts.now) (F.post parts.now) }
    ensures { Gives (seen source.entry (λ ps. parameters_syntax ps.items)) result (read_type_parameters (go_text
        source.entry) (parts_of source.entry) (cursor source.entry place)) }
{
    let inner = source.take(place, TokenKind::LeftBracket)?;
    let (read, rest) = type_items(source, parts, faults, inner)?;
    let end = holding!(params: read; source.take(rest, TokenKind::RightBracket));
    if !end_constrained(&read) {
        release::params(read);
        return Err(source.unexpected(rest));
    }
    Ok((read, end))
}
