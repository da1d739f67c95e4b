//! Steps of expressions and types that read no others (the Go specification, "Primary expressions", "Operator
//! precedence", "Types").

ghost use Rattle.std.specs.Prelude.{◌≡◌, true, Some};
ghost use Rattle.lexer.specs.declared.token.TokenKind.TheVariants.{Identifier as identifier_kind};
ghost use Rattle.tree.specs.Syntax.{name_expression};
ghost use Rattle.tree.specs.View.{expression_syntax};
ghost use Rattle.parser_base.specs.Gives.{Gives};
ghost use Rattle.parser_base.specs.Parts.{goes_on, next_operator};
ghost use Rattle.parser_base.specs.Places.{cursor, seen, parts_of, go_text};
ghost use Rattle.tree_reader.specs.Reader.{read_selector};
ghost use Rattle.tree_reader.specs.Reading.{stands, behind, spanned, word_between};

use crate::cursor::{Read, SourceTokens, TokenPlace};
use crate::kinds::operator_level;
use crate::names::{identifier, word};
use crate::shapes::takes_braces;
use lexer::TokenKind;
use tree::{BinaryOperator, Expr};
use tree_hold::boxed;
use tree_make as make;

/// Whether a primary expression goes on after what was read of it.
pub fn goes_on(source: SourceTokens<'_>, header: bool, operand: &Expr, place: TokenPlace) -> bool
    ensures { result ≡ goes_on source.entry.edition header (expression_syntax operand.now) (cursor source.entry place) }
{
    if source.stands(place, TokenKind::Dot) {
        return !source.is_guard(place);
    }
    if source.stands(place, TokenKind::LeftBracket)
        || source.stands(place, TokenKind::LeftParenthesis)
    {
        return true;
    }
    source.stands(place, TokenKind::LeftBrace) && (!header && takes_braces(source, operand))
}

/// The operator that stands next, of at least this level.
pub fn next_operator(
    source: SourceTokens<'_>,
    least: u32,
    place: TokenPlace,
) -> Option<BinaryOperator>
    ensures { result ≡ next_operator least (cursor source.entry place) }
{
    match source.next_binary_operator(place) {
        Some(operator) => if least <= operator_level(operator) {
            Some(operator)
        } else {
            None
        },
        None => None,
    }
}

/// The name that stands next, and the place after it.
///
/// # Errors
///
/// Out of memory.
pub fn name(source: SourceTokens<'_>, place: TokenPlace) -> Read<Expr>
    requires { stands identifier_kind (cursor source place) ≡ true }
    ensures { Gives (seen source.entry expression_syntax) result (Some (spanned (cursor source.entry place)
        (name_expression (word_between (go_text source.entry) (cursor source.entry place) (behind (cursor source.entry
        place)))) (behind (cursor source.entry place)))) }
{
    let text = word(source, place)?;
    let end = source.behind(place);
    let span = source.span_to(place, end);
    Ok((make::expression::name_expression(text, span), end))
}

/// `.name` after an operand that began at `from`, and the place after it.
///
/// # Errors
///
/// Where no name stands, and out of memory.
#[tactic(auto, unfolding(tree_reader::specs::Reader::read_selector))]
pub fn selector(
    source: SourceTokens<'_>,
    from: TokenPlace,
    operand: Expr,
    place: TokenPlace,
) -> Read<Expr>
    ensures { Gives (seen source.entry expression_syntax) result (read_selector (go_text source.entry) (parts_of
        source.entry)
        source.entry.below (cursor source.entry from) (expression_syntax operand) (cursor source.entry place)) }
{
    let (name, end) = holding!(expression: operand; identifier(source, source.behind(place)));
    let span = source.span_to(from, end);
    let inner = boxed::expression(source.alloc, operand)?;
    Ok((
        make::expression::selector_expression(inner, name, span),
        end,
    ))
}
