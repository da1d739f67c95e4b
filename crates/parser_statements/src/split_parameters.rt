//! Type parameters that were read as the length of an array (the Go specification, "Type parameter declarations").

ghost use Rattle.std.specs.Prelude.{◌≡◌, ◌&&◌, false, not, option_map};
ghost use Rattle.lexer.specs.declared.token.TokenKind.TheVariants.{RightBracket};
ghost use Rattle.tree.specs.Syntax.{expression_node, named_and, no_parameter, parenthesized};
ghost use Rattle.tree.specs.View.{expression_syntax, expressions_syntax, parameters_syntax};
ghost use Rattle.tree_reader.specs.Reader.{single};
ghost use Rattle.tree_reader.specs.Reading.{read_identifier, stands};
ghost use Rattle.parser_base.specs.Gives.{Gives};
ghost use Rattle.parser_base.specs.Places.{cursor, go_text};
ghost use Rattle.parser_statements.specs.SplitConstraint.{constraint_of, has_comma};

use lexer::TokenKind;
use parser_base::ahead::has_separator;
use parser_base::cursor::{SourceTokens, TokenPlace};
use parser_base::fault::Stop;
use parser_base::holding;
use parser_base::names::identifier;
use parser_clauses::simple::single;
use tree::{BinaryOperator, Expr, ExprKind, Param, Span};
use tree_hold::{boxed, list, release};
use tree_make as make;

/// Whether behind this name a comma stands in parentheses, outside all brackets in them.
fn has_comma(source: SourceTokens<'_>, name: TokenPlace) -> bool
    ensures { result ≡ has_comma (cursor source.entry name) }
{
    let after = source.behind(name);
    source.stands(after, TokenKind::LeftParenthesis) && has_separator(source, source.behind(after))
}

/// Whether behind a length that begins with this name a bracket closes, and no such comma stands in it.
pub fn ends_plainly(source: SourceTokens<'_>, name: TokenPlace, end: TokenPlace) -> bool
    ensures { result ≡ (not (has_comma (cursor source.entry name)) && stands RightBracket (cursor source.entry end)) }
{
    !has_comma(source, name) && source.stands(end, TokenKind::RightBracket)
}

/// The only one of a call's arguments, in the call's parentheses.
///
/// # Errors
///
/// Where there are none or more, and out of memory.
fn parenthesized(
    source: SourceTokens<'_>,
    arguments: Vec<Expr>,
    span: Span,
    place: TokenPlace,
) -> Result<Expr, Stop>
    ensures { Gives expression_syntax result (option_map (λ y. expression_node (parenthesized y) span) (single
        (expressions_syntax arguments.items))) }
{
    let only = single(source, arguments, place)?;
    let kept = boxed::expression(source.alloc, only)?;
    Ok(make::expression::parenthesized(kept, span))
}

/// The constraint that stands behind the name P in `P * Y` or `P (Y)`, perhaps with `| Z`, and begins at this offset.
///
/// # Errors
///
/// Where it is another expression, and out of memory.
pub fn constraint_of(
    source: SourceTokens<'_>,
    start: u32,
    length: Expr,
    place: TokenPlace,
) -> Result<Expr, Stop>
    ensures { Gives expression_syntax result (constraint_of start (expression_syntax length)) }
{
    let Expr { kind, span } = length;
    let whole = Span {
        start,
        end: span.end,
    };
    match kind {
        ExprKind::Binary(operator, left, right) => match operator {
            BinaryOperator::Or => {
                let inner = Box::into_inner(left);
                let first =
                    holding!(boxed_expression: right; constraint_of(source, start, inner, place));
                let kept =
                    holding!(boxed_expression: right; memory boxed::expression(source.alloc, first));
                Ok(make::expression::binary_expression(BinaryOperator::Or, kept, right, whole))
            }
            BinaryOperator::Multiply => {
                release::boxed_expression(left);
                Ok(make::expression::star_expression(right, whole))
            }
            _ => {
                release::boxed_expression(left);
                release::boxed_expression(right);
                Err(source.unexpected(place))
            }
        },
        ExprKind::Call(callee, arguments, has_ellipsis) => {
            release::boxed_expression(callee);
            if has_ellipsis {
                release::expressions(arguments);
                return Err(source.unexpected(place));
            }
            parenthesized(source, arguments, whole, place)
        }
        other => {
            release::expression(Expr { kind: other, span });
            Err(source.unexpected(place))
        }
    }
}

/// The one type parameter of the name that stands next.
///
/// # Errors
///
/// Where no name stands, and out of memory.
pub fn only_parameter(
    source: SourceTokens<'_>,
    name: TokenPlace,
    constraint: Expr,
) -> Result<Vec<Param>, Stop>
    ensures { Gives (λ ps. parameters_syntax ps.items) result (option_map (λ n. named_and n.0 false (expression_syntax
        constraint) no_parameter) (read_identifier (go_text source.entry) (cursor source.entry name))) }
{
    let (named, _) = holding!(expression: constraint; identifier(source, name));
    let only = make::types::named_parameter(named, false, constraint);
    Ok(list::with_param(Vec::new(source.alloc), only)?)
}
