//! `switch` (the Go specification, "Switch statements").

ghost use Rattle.std.specs.Prelude.{◌≡◌, nat_le, option_map};
ghost use Rattle.tree.specs.Syntax.{statement_node};
ghost use Rattle.tree.specs.View.{case_clause_and, cases_syntax, expression_syntax, expressions_syntax, identifier_syntax, optional_statement_syntax, statement_syntax};
ghost use Rattle.meaning.specs.Grammar.{form_of};
ghost use Rattle.meaning.specs.WellFormed.{level, primary_level};
ghost use Rattle.parser_base.specs.Gives.{Gives};
ghost use Rattle.parser_base.specs.Parts.{ReadsExpressions, ReadsStatements};
ghost use Rattle.parser_base.specs.Places.{cursor, seen, parts_of, go_text};
ghost use Rattle.parser_clauses.specs.Clauses.{read_braced_cases, read_case_clause};
ghost use Rattle.parser_clauses.specs.Guards.{behind_type, guard_syntax, only, switch_form_of};
ghost use Rattle.parser_clauses.specs.Headers.{header_syntax};
ghost use Rattle.tree_reader.specs.Reader.{primary_guard, read_case_head, read_cases, read_guard, read_switch, read_switch_guard, read_switch_header, type_guard};
ghost use Rattle.tree_reader.specs.Reading.{steps};

use crate::headers::{Header, read_header};
use crate::simple::{only_expression, simple, single};
use lexer::TokenKind;
use parser_base::cursor::{Read, SourceTokens, TokenPlace};
use parser_base::fault::Stop;
use parser_base::holding;
use parser_base::parts::Wanted;
use parser_parts::blocks::statement_list;
use parser_parts::lists::expressions;
use tree::{CaseClause, Expr, ExprKind, Identifier, Span, Stmt, StmtKind};
use tree_hold::{boxed, list, release};
use tree_make as make;

/// What a `switch` looks at: a value or nothing, or the type of a value.
enum Guard {
    Value(Option<Box<Expr>>),
    Type(Option<Identifier>, Box<Expr>),
}

/// Lets what a `switch` looks at go.
fn release_guard(guard: Guard) {
    match guard {
        Guard::Value(tag) => release::optional_expression(tag),
        Guard::Type(_, operand) => release::boxed_expression(operand),
    }
}

/// Whether no operator stands outside all of the expression's brackets.
fn is_primary(operand: &Expr) -> bool
    ensures { result ≡ nat_le primary_level (level (expression_syntax operand.now)) }
{
    match &operand.kind {
        ExprKind::Binary(_, _, _) => false,
        ExprKind::Unary(_, _) => false,
        ExprKind::Star(_) => false,
        _ => true,
    }
}

/// The only one of some names.
fn only_name(names: Vec<Identifier>) -> Option<Identifier>
    ensures { result ≡ only names.items }
{
    let mut rest = names;
    match rest.pop() {
        Some(name) => if rest.is_empty() { Some(name) } else { None },
        None => None,
    }
}

/// A type switch with this operand and this name before it.
///
/// # Errors
///
/// Where the operand is no primary expression, and out of memory.
fn primary_guard(
    source: SourceTokens<'_>,
    name: Option<Identifier>,
    operand: Expr,
    place: TokenPlace,
) -> Result<Guard, Stop>
    ensures { Gives guard_syntax result (primary_guard (option_map identifier_syntax name) (expression_syntax
        operand)) }
{
    if !is_primary(&operand) {
        release::expression(operand);
        return Err(source.unexpected(place));
    }
    let kept = boxed::expression(source.alloc, operand)?;
    Ok(Guard::Type(name, kept))
}

/// A type switch whose operand, and the name before it, were read as a statement, at its word `type`.
///
/// # Errors
///
/// Where the statement has another form, and out of memory.
fn type_guard(source: SourceTokens<'_>, statement: Stmt, place: TokenPlace) -> Result<Guard, Stop>
    ensures { Gives guard_syntax result (type_guard (form_of (statement_syntax statement))) }
{
    let Stmt { kind, span } = statement;
    match kind {
        StmtKind::Expr(operand) => primary_guard(source, None, operand, place),
        StmtKind::Define(names, values) => {
            let operand = single(source, values, place)?;
            match only_name(names) {
                Some(name) => primary_guard(source, Some(name), operand, place),
                None => {
                    release::expression(operand);
                    Err(source.unexpected(place))
                }
            }
        }
        other => {
            release::statement(Stmt { kind: other, span });
            Err(source.unexpected(place))
        }
    }
}

/// The place after `(type)`.
///
/// # Errors
///
/// Where another token stands.
fn behind_type(source: SourceTokens<'_>, place: TokenPlace) -> Result<TokenPlace, Stop>
    ensures { Gives (cursor source.entry) result (behind_type (cursor source.entry place)) }
{
    let word = source.take(place, TokenKind::LeftParenthesis)?;
    let end = source.take(word, TokenKind::TypeKeyword)?;
    source.take(end, TokenKind::RightParenthesis)
}

/// What a header's statement without a semicolon says of what a `switch` looks at, and the place after it.
///
/// # Errors
///
/// Where the statement has another form, where another token stands, and out of memory.
#[tactic(auto, unfolding(tree_reader::specs::Reader::read_guard))]
fn statement_guard(source: SourceTokens<'_>, statement: Stmt, place: TokenPlace) -> Read<Guard>
    ensures { Gives (seen source.entry guard_syntax) result (read_guard (go_text source.entry) (parts_of source.entry)
        source.entry.below (statement_syntax statement) (cursor source.entry place)) }
{
    if !source.stands(place, TokenKind::Dot) {
        let tag = only_expression(source, statement, place)?;
        let kept = boxed::expression(source.alloc, tag)?;
        return Ok((Guard::Value(Some(kept)), place));
    }
    let inner = source.behind(place);
    let found = type_guard(source, statement, source.behind(inner))?;
    match behind_type(source, inner) {
        Ok(end) => Ok((found, end)),
        Err(stop) => {
            release_guard(found);
            Err(stop)
        }
    }
}

/// What a `switch` looks at, after the first part of its header, and the place after it.
///
/// # Errors
///
/// Where another token stands, and out of memory.
#[tactic(auto, unfolding(tree_reader::specs::Reader::read_switch_guard))]
fn switch_guard<F: Fn(Wanted, TokenPlace) -> Read<Expr>>(
    source: SourceTokens<'_>,
    parts: &F,
    first: Option<Stmt>,
    place: TokenPlace,
) -> Read<Guard>
    requires { ReadsExpressions source (F.pre parts.now) (F.post parts.now) }
    ensures { Gives (seen source.entry guard_syntax) result (read_switch_guard (go_text source.entry) (parts_of
        source.entry) source.entry.below (option_map statement_syntax first) (cursor source.entry place)) }
{
    match first {
        Some(statement) => statement_guard(source, statement, place),
        None => {
            if source.stands(place, TokenKind::LeftBrace) {
                return Ok((Guard::Value(None), place));
            }
            let (statement, rest) = simple(source, parts, true, place)?;
            statement_guard(source, statement, rest)
        }
    }
}

/// The first part of a header of a `switch`, which may be missing.
///
/// # Errors
///
/// Where another token stands, where it is too deep, and out of memory.
fn switch_header<F: Fn(Wanted, TokenPlace) -> Read<Expr>>(
    source: SourceTokens<'_>,
    parts: &F,
    place: TokenPlace,
) -> Read<Header>
    requires { ReadsExpressions source (F.pre parts.now) (F.post parts.now) }
    ensures { Gives (seen source.entry header_syntax) result (read_switch_header (go_text source.entry) (parts_of
        source.entry) source.entry.below (cursor source.entry place)) }
{
    if source.stands(place, TokenKind::LeftBrace) {
        let header = Header {
            init: None,
            has_semicolon: false,
            first: None,
        };
        return Ok((header, place));
    }
    read_header(source, parts, place)
}

/// The expressions of a clause of a `switch`, none at `default`, and the place after them.
///
/// # Errors
///
/// Where another token stands, and out of memory.
fn case_head<F: Fn(Wanted, TokenPlace) -> Read<Expr>>(
    source: SourceTokens<'_>,
    parts: &F,
    place: TokenPlace,
) -> Read<Vec<Expr>>
    requires { ReadsExpressions source (F.pre parts.now) (F.post parts.now) }
    ensures { Gives (seen source.entry (λ es. expressions_syntax es.items)) result (read_case_head (go_text
        source.entry) (parts_of source.entry) source.entry.below (cursor source.entry place)) }
{
    if source.stands(place, TokenKind::DefaultKeyword) {
        return Ok((Vec::new(source.alloc), source.behind(place)));
    }
    let word = source.take(place, TokenKind::CaseKeyword)?;
    expressions(source, parts, false, word)
}

/// A clause of a `switch`, and the place after it.
///
/// # Errors
///
/// Where another token stands, and out of memory.
fn case_clause<F: Fn(Wanted, TokenPlace) -> Read<Expr>, S: Fn(TokenPlace) -> Read<Stmt>>(
    source: SourceTokens<'_>,
    parts: &F,
    statements: &S,
    place: TokenPlace,
) -> Read<CaseClause>
    requires expressions { ReadsExpressions source (F.pre parts.now) (F.post parts.now) }
    requires statements { ReadsStatements source (S.pre statements.now) (S.post statements.now) }
    ensures { Gives (seen source.entry case_clause_and) result (read_case_clause (go_text source.entry) (parts_of
        source.entry) source.entry.below (cursor source.entry place)) }
{
    let (head, rest) = case_head(source, parts, place)?;
    let inner = holding!(expressions: head; source.take(rest, TokenKind::Colon));
    let (body, end) = holding!(expressions: head; statement_list(source, statements, inner));
    let span = source.span_to(place, end);
    Ok((make::control::case_clause(head, body, span), end))
}

/// The clauses of a `switch` up to a closing brace, and the place after them.
///
/// # Errors
///
/// Where another token stands, and out of memory.
fn cases<F: Fn(Wanted, TokenPlace) -> Read<Expr>, S: Fn(TokenPlace) -> Read<Stmt>>(
    source: SourceTokens<'_>,
    parts: &F,
    statements: &S,
    place: TokenPlace,
) -> Read<Vec<CaseClause>>
    requires expressions { ReadsExpressions source (F.pre parts.now) (F.post parts.now) }
    requires statements { ReadsStatements source (S.pre statements.now) (S.post statements.now) }
    ensures { Gives (seen source.entry (λ cs. cases_syntax cs.items)) result (read_cases (go_text source.entry)
        (parts_of source.entry) source.entry.below (steps (cursor source.entry place)) (cursor source.entry place)) }
{
    let mut items = Vec::new(source.alloc);
    let mut rest = place;
    for _ in 0..source.steps(place) {
        if source.stands(rest, TokenKind::RightBrace) {
            return Ok((items, rest));
        }
        let (item, after) =
            holding!(case_clauses: items; case_clause(source, parts, statements, rest));
        items = list::with_case_clause(items, item)?;
        rest = after;
    }
    release::case_clauses(items);
    Err(source.unexpected(rest))
}

/// The clauses of a `switch` in braces, and the place after them.
///
/// # Errors
///
/// Where another token stands, and out of memory.
fn braced_cases<F: Fn(Wanted, TokenPlace) -> Read<Expr>, S: Fn(TokenPlace) -> Read<Stmt>>(
    source: SourceTokens<'_>,
    parts: &F,
    statements: &S,
    place: TokenPlace,
) -> Read<Vec<CaseClause>>
    requires expressions { ReadsExpressions source (F.pre parts.now) (F.post parts.now) }
    requires statements { ReadsStatements source (S.pre statements.now) (S.post statements.now) }
    ensures { Gives (seen source.entry (λ cs. cases_syntax cs.items)) result (read_braced_cases (go_text source.entry)
        (parts_of source.entry) source.entry.below (cursor source.entry place)) }
{
    let inner = source.take(place, TokenKind::LeftBrace)?;
    let (clauses, rest) = cases(source, parts, statements, inner)?;
    let end = holding!(case_clauses: clauses; source.take(rest, TokenKind::RightBrace));
    Ok((clauses, end))
}

/// A `switch` of its parts; whether a semicolon stands in its header.
fn switch_of(
    init: Option<Box<Stmt>>,
    has_semicolon: bool,
    guard: Guard,
    clauses: Vec<CaseClause>,
    span: Span,
) -> Stmt
    ensures { statement_syntax result ≡ statement_node (switch_form_of (optional_statement_syntax init) has_semicolon
        (guard_syntax guard) (cases_syntax clauses.items)) span }
{
    match guard {
        Guard::Value(tag) => {
            make::control::switch_statement(init, has_semicolon, tag, clauses, span)
        }
        Guard::Type(name, operand) => {
            make::control::type_switch_statement(init, has_semicolon, name, operand, clauses, span)
        }
    }
}

/// `switch`, at its word.
///
/// # Errors
///
/// Where another token stands, where it is too deep, and out of memory.
#[tactic(auto, unfolding(tree_reader::specs::Reader::read_switch))]
pub fn switch<F: Fn(Wanted, TokenPlace) -> Read<Expr>, S: Fn(TokenPlace) -> Read<Stmt>>(
    source: SourceTokens<'_>,
    parts: &F,
    statements: &S,
    place: TokenPlace,
) -> Read<Stmt>
    requires expressions { ReadsExpressions source (F.pre parts.now) (F.post parts.now) }
    requires statements { ReadsStatements source (S.pre statements.now) (S.post statements.now) }
    ensures { Gives (seen source.entry statement_syntax) result (read_switch (go_text source.entry) (parts_of
        source.entry) source.entry.below (cursor source.entry place)) }
{
    let (header, rest) = switch_header(source, parts, source.behind(place))?;
    let Header {
        init,
        has_semicolon,
        first,
    } = header;
    let (guard, at_cases) =
        holding!(optional_statement: init; switch_guard(source, parts, first, rest));
    match braced_cases(source, parts, statements, at_cases) {
        Ok((clauses, end)) => {
            let span = source.span_to(place, end);
            Ok((switch_of(init, has_semicolon, guard, clauses, span), end))
        }
        Err(stop) => {
            release::optional_statement(init);
            release_guard(guard);
            Err(stop)
        }
    }
}
