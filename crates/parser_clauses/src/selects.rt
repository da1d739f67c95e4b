//! `select` (the Go specification, "Select statements").

ghost use Rattle.std.specs.Prelude.{◌≡◌};
ghost use Rattle.tree.specs.View.{communication_clause_and, communications_syntax, optional_statement_syntax, statement_syntax};
ghost use Rattle.meaning.specs.Grammar.{form_of};
ghost use Rattle.parser_base.specs.Gives.{Gives};
ghost use Rattle.parser_base.specs.Parts.{ReadsExpressions, ReadsStatements};
ghost use Rattle.parser_base.specs.Places.{cursor, seen, parts_of, go_text};
ghost use Rattle.parser_clauses.specs.Clauses.{read_communication_clause};
ghost use Rattle.tree_reader.specs.Reader.{is_communication, read_communication, read_communication_head, read_communications, read_select};
ghost use Rattle.tree_reader.specs.Reading.{steps};

use crate::simple::{as_part, simple};
use lexer::TokenKind;
use parser_base::cursor::{Read, SourceTokens, TokenPlace};
use parser_base::fault::Stop;
use parser_base::holding;
use parser_base::parts::Wanted;
use parser_parts::blocks::statement_list;
use tree::{CommClause, Expr, Stmt, StmtKind};
use tree_hold::{list, release};
use tree_make as make;

/// Whether a clause of a `select` can wait for it.
fn is_communication(statement: &Stmt) -> bool
    ensures { result ≡ is_communication (form_of (statement_syntax statement.now)) }
{
    match &statement.kind {
        StmtKind::Expr(_) => true,
        StmtKind::Send(_, _) => true,
        StmtKind::Assign(_, right) => right.len() == 1,
        StmtKind::Define(_, right) => right.len() == 1,
        _ => false,
    }
}

/// The offset of the end of what of a statement a clause of a `select` could still wait for: an operand before `++`,
/// `--` or `+=`, or the first value on the right.
fn last_good(statement: &Stmt) -> u32 {
    match &statement.kind {
        StmtKind::Increment(operand) => operand.span.end,
        StmtKind::Decrement(operand) => operand.span.end,
        StmtKind::AssignOp(_, left, _) => left.span.end,
        StmtKind::Assign(_, right) => first_end(right),
        StmtKind::Define(_, right) => first_end(right),
        _ => statement.span.end,
    }
}

/// The offset of the end of the first expression, and 0 where there is none.
fn first_end(expressions: &[Expr]) -> u32 {
    match expressions.first() {
        Some(first) => first.span.end,
        None => 0,
    }
}

/// What a clause of a `select` waits for, and the place after it.
///
/// # Errors
///
/// Where another statement stands, where it is too deep, and out of memory.
#[tactic(auto, unfolding(tree_reader::specs::Reader::read_communication))]
fn communication<F: Fn(Wanted, TokenPlace) -> Read<Expr>>(
    source: SourceTokens<'_>,
    parts: &F,
    place: TokenPlace,
) -> Read<Option<Box<Stmt>>>
    requires { ReadsExpressions source (F.pre parts.now) (F.post parts.now) }
    ensures { Gives (seen source.entry optional_statement_syntax) result (read_communication (go_text source.entry)
        (parts_of source.entry) source.entry.below (cursor source.entry place)) }
{
    let (statement, end) = simple(source, parts, false, place)?;
    if !is_communication(&statement) {
        let wrong = source.first_from(place, last_good(&statement));
        release::statement(statement);
        return Err(source.unexpected(wrong));
    }
    let part = as_part(source, statement)?;
    Ok((part, end))
}

/// The head of a clause of a `select`, before its colon: what it waits for, or nothing at `default`.
///
/// # Errors
///
/// Where another token stands, where it is too deep, and out of memory.
fn communication_head<F: Fn(Wanted, TokenPlace) -> Read<Expr>>(
    source: SourceTokens<'_>,
    parts: &F,
    place: TokenPlace,
) -> Read<Option<Box<Stmt>>>
    requires { ReadsExpressions source (F.pre parts.now) (F.post parts.now) }
    ensures { Gives (seen source.entry optional_statement_syntax) result (read_communication_head (go_text source.entry)
        (parts_of source.entry) source.entry.below (cursor source.entry place)) }
{
    if source.stands(place, TokenKind::DefaultKeyword) {
        return Ok((None, source.behind(place)));
    }
    let word = source.take(place, TokenKind::CaseKeyword)?;
    communication(source, parts, word)
}

/// A clause of a `select`, and the place after it.
///
/// # Errors
///
/// Where another token stands, where it is too deep, and out of memory.
fn communication_clause<F: Fn(Wanted, TokenPlace) -> Read<Expr>, S: Fn(TokenPlace) -> Read<Stmt>>(
    source: SourceTokens<'_>,
    parts: &F,
    statements: &S,
    place: TokenPlace,
) -> Read<CommClause>
    requires expressions { ReadsExpressions source (F.pre parts.now) (F.post parts.now) }
    requires statements { ReadsStatements source (S.pre statements.now) (S.post statements.now) }
    ensures { Gives (seen source.entry communication_clause_and) result (read_communication_clause (go_text
        source.entry) (parts_of source.entry) source.entry.below (cursor source.entry place)) }
{
    let (head, rest) = communication_head(source, parts, place)?;
    let inner = holding!(optional_statement: head; source.take(rest, TokenKind::Colon));
    let (body, end) = holding!(optional_statement: head; statement_list(source, statements, inner));
    let span = source.span_to(place, end);
    Ok((make::control::communication_clause(head, body, span), end))
}

/// The clauses of a `select` up to a closing brace, and the place after them.
///
/// # Errors
///
/// Where another token stands, where it is too deep, and out of memory.
fn communications<F: Fn(Wanted, TokenPlace) -> Read<Expr>, S: Fn(TokenPlace) -> Read<Stmt>>(
    source: SourceTokens<'_>,
    parts: &F,
    statements: &S,
    place: TokenPlace,
) -> Read<Vec<CommClause>>
    requires expressions { ReadsExpressions source (F.pre parts.now) (F.post parts.now) }
    requires statements { ReadsStatements source (S.pre statements.now) (S.post statements.now) }
    ensures { Gives (seen source.entry (λ cs. communications_syntax cs.items)) result (read_communications
        (go_text source.entry) (parts_of source.entry) source.entry.below (steps (cursor source.entry place)) (cursor
        source.entry place)) }
{
    let mut items = Vec::new(source.alloc);
    let mut rest = place;
    for _ in 0..source.steps(place) {
        if source.stands(rest, TokenKind::RightBrace) {
            return Ok((items, rest));
        }
        let (item, after) =
            holding!(communication_clauses: items; communication_clause(source, parts, statements, rest));
        items = list::with_communication_clause(items, item)?;
        rest = after;
    }
    release::communication_clauses(items);
    Err(source.unexpected(rest))
}

/// `select`, at its word.
///
/// # Errors
///
/// Where another token stands, where it is too deep, and out of memory.
#[tactic(auto, unfolding(tree_reader::specs::Reader::read_select))]
pub fn select<F: Fn(Wanted, TokenPlace) -> Read<Expr>, S: Fn(TokenPlace) -> Read<Stmt>>(
    source: SourceTokens<'_>,
    parts: &F,
    statements: &S,
    place: TokenPlace,
) -> Read<Stmt>
    requires expressions { ReadsExpressions source (F.pre parts.now) (F.post parts.now) }
    requires statements { ReadsStatements source (S.pre statements.now) (S.post statements.now) }
    ensures { Gives (seen source.entry statement_syntax) result (read_select (go_text source.entry) (parts_of
        source.entry) source.entry.below (cursor source.entry place)) }
{
    let inner = source.take(source.behind(place), TokenKind::LeftBrace)?;
    let (clauses, rest) = communications(source, parts, statements, inner)?;
    let end = holding!(communication_clauses: clauses; source.take(rest, TokenKind::RightBrace));
    Ok((
        make::control::select_statement(clauses, source.span_to(place, end)),
        end,
    ))
}
