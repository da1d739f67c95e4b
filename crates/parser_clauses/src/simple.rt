//! Simple statements (the Go specification, "Simple statements").

ghost use Rattle.std.specs.Prelude.{◌≡◌, false, map};
ghost use Rattle.lexer.specs.declared.token.TokenKind.TheVariants.{Define as define_token, Assign as assign_token};
ghost use Rattle.tree.specs.Syntax.{expression_and, no_expression};
ghost use Rattle.tree.specs.View.{identifier_syntax, expression_syntax, expressions_syntax, optional_statement_syntax, statement_syntax};
ghost use Rattle.parser_base.specs.Gives.{Gives};
ghost use Rattle.parser_base.specs.Parts.{ReadsExpressions};
ghost use Rattle.parser_base.specs.Places.{cursor, seen, parts_of, go_text};
ghost use Rattle.tree_reader.specs.Reader.{as_identifier, as_identifiers, single, read_simple, read_simple_after, as_part, statement_expression};
ghost use Rattle.tree_reader.specs.Reading.{stands};

use lexer::TokenKind;
use parser_base::cursor::{Begun, Read, SourceTokens, TokenPlace};
use parser_base::fault::Stop;
use parser_base::holding;
use parser_base::parts::{Wanted, expression, statement_fits};
use parser_parts::lists::expressions;
use tree::{Expr, ExprKind, Identifier, Stmt, StmtKind};
use tree_hold::{boxed, release};
use tree_make as make;

/// The name that an expression is.
///
/// # Errors
///
/// Where it is another expression.
fn name_of(source: SourceTokens<'_>, item: Expr, place: TokenPlace) -> Result<Identifier, Stop>
    ensures { Gives identifier_syntax result (as_identifier (expression_syntax item)) }
{
    let Expr { kind, span } = item;
    match kind {
        ExprKind::Name(text) => Ok(Identifier { text, span }),
        other => {
            release::expression(Expr { kind: other, span });
            Err(source.unexpected(place))
        }
    }
}

/// The names that expressions are.
///
/// # Errors
///
/// Where one of them is another expression, and out of memory.
pub fn names_of(
    source: SourceTokens<'_>,
    list: Vec<Expr>,
    place: TokenPlace,
) -> Result<Vec<Identifier>, Stop>
    ensures { Gives (λ ns. map identifier_syntax ns.items) result (as_identifiers (expressions_syntax list.items)) }
{
    let mut left = list;
    left.reverse();
    let mut names = Vec::new(source.alloc);
    holding!(expressions: left; memory names.reserve_exact(left.len()));
    while let Some(item) = left.pop() {
        let name = holding!(expressions: left; name_of(source, item, place));
        holding!(expressions: left; memory names.push(name));
    }
    release::expressions(left);
    Ok(names)
}

/// The only one of some expressions.
///
/// # Errors
///
/// Where there are none or more.
pub fn single(source: SourceTokens<'_>, list: Vec<Expr>, place: TokenPlace) -> Result<Expr, Stop>
    ensures { Gives expression_syntax result (single (expressions_syntax list.items)) }
{
    let mut left = list;
    match left.pop() {
        Some(only) => if left.is_empty() {
            release::expressions(left);
            Ok(only)
        } else {
            release::expression(only);
            release::expressions(left);
            Err(source.unexpected(place))
        },
        None => {
            release::expressions(left);
            Err(source.unexpected(place))
        }
    }
}

/// A simple statement, after the one expression with which it begins.
///
/// # Errors
///
/// Where another token stands, and out of memory.
#[tactic(auto, unfolding(tree_reader::specs::Reader::read_simple_after))]
fn one_operand<F: Fn(Wanted, TokenPlace) -> Read<Expr>>(
    source: SourceTokens<'_>,
    parts: &F,
    header: bool,
    begun: Begun<Expr>,
) -> Read<Stmt>
    requires expressions { ReadsExpressions source (F.pre parts.now) (F.post parts.now) }
    requires defines_none { stands define_token (cursor source begun.place) ≡ false }
    requires assigns_none { stands assign_token (cursor source begun.place) ≡ false }
    ensures { Gives (seen source.entry statement_syntax) result (read_simple_after (go_text source.entry) (parts_of
        source.entry) source.entry.below header (cursor source.entry begun.from) (expression_and (expression_syntax
        begun.first) no_expression) (cursor source.entry begun.place)) }
{
    let Begun {
        from,
        first: left,
        place,
    } = begun;
    let end = source.behind(place);
    if let Some(operator) = source.next_assigning_operator(place) {
        let (right, end) = holding!(expression: left; expression(source, parts, header, 1, end));
        let left = holding!(expression: right; memory boxed::expression(source.alloc, left));
        let right = holding!(boxed_expression: left; memory boxed::expression(source.alloc, right));
        let span = source.span_to(from, end);
        return Ok((
            make::statement::operator_assignment(operator, left, right, span),
            end,
        ));
    }
    if source.stands(place, TokenKind::Arrow) {
        let (value, end) = holding!(expression: left; expression(source, parts, header, 1, end));
        let channel = holding!(expression: value; memory boxed::expression(source.alloc, left));
        let value =
            holding!(boxed_expression: channel; memory boxed::expression(source.alloc, value));
        let span = source.span_to(from, end);
        return Ok((make::statement::send_statement(channel, value, span), end));
    }
    let span = source.span_to(from, end);
    if source.stands(place, TokenKind::Increment) {
        return Ok((make::statement::increment_statement(left, span), end));
    }
    if source.stands(place, TokenKind::Decrement) {
        return Ok((make::statement::decrement_statement(left, span), end));
    }
    let span = source.span_to(from, place);
    Ok((make::statement::expression_statement(left, span), place))
}

/// A simple statement, after the expressions with which it begins.
///
/// # Errors
///
/// Where another token stands, and out of memory.
#[tactic(auto, unfolding(tree_reader::specs::Reader::read_simple_after))]
pub fn simple_after<F: Fn(Wanted, TokenPlace) -> Read<Expr>>(
    source: SourceTokens<'_>,
    parts: &F,
    header: bool,
    begun: Begun<Vec<Expr>>,
) -> Read<Stmt>
    requires { ReadsExpressions source (F.pre parts.now) (F.post parts.now) }
    ensures { Gives (seen source.entry statement_syntax) result (read_simple_after (go_text source.entry) (parts_of
        source.entry) source.entry.below header (cursor source.entry begun.from) (expressions_syntax
        begun.first.items) (cursor source.entry begun.place)) }
{
    let Begun {
        from,
        first: left,
        place,
    } = begun;
    if source.stands(place, TokenKind::Define) {
        let names = names_of(source, left, place)?;
        let (right, end) = expressions(source, parts, header, source.behind(place))?;
        let span = source.span_to(from, end);
        return Ok((make::statement::define_statement(names, right, span), end));
    }
    if source.stands(place, TokenKind::Assign) {
        let (right, end) =
            holding!(expressions: left; expressions(source, parts, header, source.behind(place)));
        let span = source.span_to(from, end);
        return Ok((make::statement::assignment(left, right, span), end));
    }
    let only = single(source, left, place)?;
    let begun = Begun {
        from,
        first: only,
        place,
    };
    one_operand(source, parts, header, begun)
}

/// A simple statement.
///
/// # Errors
///
/// Where another token stands, and out of memory.
#[tactic(auto, unfolding(tree_reader::specs::Reader::read_simple))]
pub fn simple<F: Fn(Wanted, TokenPlace) -> Read<Expr>>(
    source: SourceTokens<'_>,
    parts: &F,
    header: bool,
    place: TokenPlace,
) -> Read<Stmt>
    requires { ReadsExpressions source (F.pre parts.now) (F.post parts.now) }
    ensures { Gives (seen source.entry statement_syntax) result (read_simple (go_text source.entry) (parts_of
        source.entry) source.entry.below header (cursor source.entry place)) }
{
    let (first, rest) = expressions(source, parts, header, place)?;
    let begun = Begun {
        from: place,
        first,
        place: rest,
    };
    simple_after(source, parts, header, begun)
}

/// A statement as a part of another.
///
/// # Errors
///
/// Where it is too deep, and out of memory.
pub fn as_part(source: SourceTokens<'_>, part: Stmt) -> Result<Option<Box<Stmt>>, Stop>
    ensures { Gives (optional_statement_syntax) result (as_part (go_text source.entry) (parts_of source.entry)
        source.entry.below (statement_syntax part)) }
{
    if !statement_fits(source, &part) {
        release::statement(part);
        return Err(Stop::TooDeep);
    }
    let kept = boxed::statement(source.alloc, part)?;
    Ok(Some(kept))
}

/// The expression that a statement is, which ends before this place.
///
/// # Errors
///
/// Where it is another statement.
pub fn only_expression(
    source: SourceTokens<'_>,
    statement: Stmt,
    place: TokenPlace,
) -> Result<Expr, Stop>
    ensures { Gives (expression_syntax) result (statement_expression (go_text source.entry) (parts_of source.entry)
        source.entry.below (statement_syntax statement)) }
{
    let Stmt { kind, span } = statement;
    match kind {
        StmtKind::Expr(only) => Ok(only),
        other => {
            release::statement(Stmt { kind: other, span });
            Err(source.unexpected(place))
        }
    }
}
