//! `if` (the Go specification, "If statements").

ghost use Rattle.std.specs.Prelude.{◌≡◌, option_map};
ghost use Rattle.tree.specs.View.{expression_syntax, optional_statement_syntax, statement_syntax};
ghost use Rattle.parser_base.specs.Gives.{Gives};
ghost use Rattle.parser_base.specs.Parts.{ReadsExpressions, ReadsStatements};
ghost use Rattle.parser_base.specs.Places.{cursor, seen, parts_of, go_text};
ghost use Rattle.tree_reader.specs.Reader.{read_condition, read_else, read_if};

use lexer::TokenKind;
use parser_base::cursor::{Read, SourceTokens, TokenPlace};
use parser_base::fault::Stop;
use parser_base::holding;
use parser_base::parts::{Wanted, expression, statement};
use parser_clauses::headers::{Header, read_header};
use parser_clauses::simple::only_expression;
use parser_parts::blocks::block;
use tree::{Expr, Stmt};
use tree_hold::{boxed, release};
use tree_make as make;

/// A condition, which may have been read as a statement.
///
/// # Errors
///
/// Where it is another statement, where another token stands, and out of memory.
#[tactic(auto, unfolding(tree_reader::specs::Reader::read_condition))]
fn condition<F: Fn(Wanted, TokenPlace) -> Read<Expr>>(
    source: SourceTokens<'_>,
    parts: &F,
    first: Option<Stmt>,
    place: TokenPlace,
) -> Read<Expr>
    requires { ReadsExpressions source (F.pre parts.now) (F.post parts.now) }
    ensures { Gives (seen source.entry expression_syntax) result (read_condition (go_text source.entry) (parts_of
        source.entry) source.entry.below (option_map statement_syntax first) (cursor source.entry place)) }
{
    match first {
        None => expression(source, parts, true, 1, place),
        Some(statement) => {
            let only = only_expression(source, statement, place)?;
            Ok((only, place))
        }
    }
}

/// `else` and what follows, if it stands here.
///
/// # Errors
///
/// Where another token stands, and out of memory.
#[tactic(auto, unfolding(tree_reader::specs::Reader::read_else))]
fn otherwise<S: Fn(TokenPlace) -> Read<Stmt>>(
    source: SourceTokens<'_>,
    statements: &S,
    place: TokenPlace,
) -> Read<Option<Box<Stmt>>>
    requires { ReadsStatements source (S.pre statements.now) (S.post statements.now) }
    ensures { Gives (seen source.entry optional_statement_syntax) result (read_else (go_text source.entry) (parts_of
        source.entry) source.entry.below (cursor source.entry place)) }
{
    if !source.stands(place, TokenKind::ElseKeyword) {
        return Ok((None, place));
    }
    let inner = source.behind(place);
    if source.stands(inner, TokenKind::IfKeyword) {
        let (branch, end) = statement(source, statements, inner)?;
        let kept = boxed::statement(source.alloc, branch)?;
        return Ok((Some(kept), end));
    }
    let (branch, end) = block(source, statements, inner)?;
    let branch = make::statement::block_statement(branch, source.span_to(inner, end));
    let kept = boxed::statement(source.alloc, branch)?;
    Ok((Some(kept), end))
}

/// `if`, at its word.
///
/// # Errors
///
/// Where another token stands, where it is too deep, and out of memory.
#[tactic(auto, unfolding(tree_reader::specs::Reader::read_if))]
pub fn choice<F: Fn(Wanted, TokenPlace) -> Read<Expr>, S: Fn(TokenPlace) -> Read<Stmt>>(
    source: SourceTokens<'_>,
    parts: &F,
    statements: &S,
    place: TokenPlace,
) -> Read<Stmt>
    requires expressions { ReadsExpressions source (F.pre parts.now) (F.post parts.now) }
    requires statements { ReadsStatements source (S.pre statements.now) (S.post statements.now) }
    ensures { Gives (seen source.entry statement_syntax) result (read_if (go_text source.entry) (parts_of source.entry)
        source.entry.below (cursor source.entry place)) }
{
    let (header, rest) = read_header(source, parts, source.behind(place))?;
    let Header {
        init,
        has_semicolon,
        first,
    } = header;
    let (test, rest) = holding!(optional_statement: init; condition(source, parts, first, rest));
    let (body, rest) =
        holding!(optional_statement: init, expression: test; block(source, statements, rest));
    let (other, end) =
        holding!(optional_statement: init, expression: test, block: body; otherwise(source, statements, rest));
    let kept = holding!(optional_statement: init, block: body, optional_statement: other; memory
            boxed::expression(source.alloc, test));
    let span = source.span_to(place, end);
    Ok((
        make::control::if_statement(init, has_semicolon, kept, body, other, span),
        end,
    ))
}
