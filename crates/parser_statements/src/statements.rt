//! Statements (the Go specification, "Statements").

ghost use Rattle.std.specs.Prelude.{◌≡◌, Some, if◌then◌else◌};
ghost use Rattle.tree.specs.Syntax.{go_statement, defer_statement, break_statement, continue_statement, fallthrough_statement};
ghost use Rattle.tree.specs.View.{expression_syntax, statement_syntax};
ghost use Rattle.meaning.specs.WellFormed.{is_call};
ghost use Rattle.parser_base.specs.Gives.{Gives};
ghost use Rattle.parser_base.specs.Parts.{ReadsExpressions, ReadsStatements};
ghost use Rattle.parser_base.specs.Places.{cursor, seen, parts_of, go_text};
ghost use Rattle.parser_statements.specs.Starts.{start_of, start_in, next_start, read_named, read_start};
ghost use Rattle.tree_reader.specs.Reader.{read_after_label, read_labeled, read_started, read_return, read_branch, read_goto, read_block_statement, read_statement_of};
ghost use Rattle.tree_reader.specs.Reading.{behind, spanned_statement};

use crate::branches::choice;
use crate::declarations::declaration;
use crate::loops::repetition;
use lexer::TokenKind;
use parser_base::cursor::{Read, SourceTokens, TokenPlace};
use parser_base::fault::Stop;
use parser_base::kinds::PRIMARY_LEVEL;
use parser_base::names::{identifier, optional_identifier};
use parser_base::parts::{Wanted, expression, statement};
use parser_clauses::selects::select;
use parser_clauses::simple::simple;
use parser_clauses::switches::switch;
use parser_parts::blocks::block;
use parser_parts::lists::expressions;
use tree::{Edition, Expr, ExprKind, Span, Stmt};
use tree_hold::{boxed, release};
use tree_make as make;

/// What a statement is that begins with a token, but for declarations.
#[derive(Clone, Copy)]
enum Start {
    Name,
    Block,
    If,
    For,
    Switch,
    Select,
    Return,
    Go,
    Defer,
    Break,
    Continue,
    Goto,
    Fallthrough,
    Simple,
}

/// What a statement is that begins with such a token.
fn start_of(kind: TokenKind) -> Start
    ensures { result ≡ start_of kind }
{
    match kind {
        TokenKind::Identifier => Start::Name,
        TokenKind::LeftBrace => Start::Block,
        TokenKind::IfKeyword => Start::If,
        TokenKind::ForKeyword => Start::For,
        TokenKind::SwitchKeyword => Start::Switch,
        TokenKind::SelectKeyword => Start::Select,
        TokenKind::ReturnKeyword => Start::Return,
        TokenKind::GoKeyword => Start::Go,
        TokenKind::DeferKeyword => Start::Defer,
        TokenKind::BreakKeyword => Start::Break,
        TokenKind::ContinueKeyword => Start::Continue,
        TokenKind::GotoKeyword => Start::Goto,
        TokenKind::FallthroughKeyword => Start::Fallthrough,
        _ => Start::Simple,
    }
}

/// What it is in an edition: the first one has neither `goto` nor `fallthrough`.
fn start_in(edition: Edition, start: Start) -> Start
    ensures { result ≡ start_in edition start }
{
    match edition {
        Edition::First => match start {
            Start::Goto => Start::Simple,
            Start::Fallthrough => Start::Simple,
            other => other,
        },
        Edition::Second => start,
    }
}

/// What a statement is that begins with the next token.
fn next_start(source: SourceTokens<'_>, place: TokenPlace) -> Start
    ensures { result ≡ next_start source.entry.edition (cursor source.entry place) }
{
    match source.tokens.get(place.at) {
        Some(first) => start_in(source.edition, start_of(first.kind)),
        None => Start::Simple,
    }
}

/// The statement after a label, which may be empty.
fn after_label<S: Fn(TokenPlace) -> Read<Stmt>>(
    source: SourceTokens<'_>,
    statements: &S,
    place: TokenPlace,
) -> Read<Stmt>
    requires { ReadsStatements source (S.pre statements.now) (S.post statements.now) }
    ensures { Gives (seen source.entry statement_syntax) result (read_after_label (go_text source.entry) (parts_of
        source.entry) source.entry.below (cursor source.entry place)) }
{
    if !source.ends(place) {
        return statement(source, statements, place);
    }
    if 1 <= source.below {
        let span = Span {
            start: place.end,
            end: place.end,
        };
        return Ok((make::statement::empty_statement(span), place));
    }
    Err(Stop::TooDeep)
}

/// A label and its statement.
#[tactic(auto, unfolding(tree_reader::specs::Reader::read_labeled))]
fn labeled<S: Fn(TokenPlace) -> Read<Stmt>>(
    source: SourceTokens<'_>,
    statements: &S,
    place: TokenPlace,
) -> Read<Stmt>
    requires { ReadsStatements source (S.pre statements.now) (S.post statements.now) }
    ensures { Gives (seen source.entry statement_syntax) result (read_labeled (go_text source.entry) (parts_of
        source.entry) source.entry.below (cursor source.entry place)) }
{
    let (label, rest) = identifier(source, place)?;
    let (inner, end) = after_label(source, statements, source.behind(rest))?;
    let kept = boxed::statement(source.alloc, inner)?;
    Ok((
        make::statement::labeled_statement(label, kept, source.span_to(place, end)),
        end,
    ))
}

/// A statement that begins with a name.
fn named<F: Fn(Wanted, TokenPlace) -> Read<Expr>, S: Fn(TokenPlace) -> Read<Stmt>>(
    source: SourceTokens<'_>,
    parts: &F,
    statements: &S,
    place: TokenPlace,
) -> Read<Stmt>
    requires expressions { ReadsExpressions source (F.pre parts.now) (F.post parts.now) }
    requires statements { ReadsStatements source (S.pre statements.now) (S.post statements.now) }
    ensures { Gives (seen source.entry statement_syntax) result (read_named (go_text source.entry) (parts_of
        source.entry) source.entry.below (cursor source.entry place)) }
{
    if source.stands(source.behind(place), TokenKind::Colon) {
        labeled(source, statements, place)
    } else {
        simple(source, parts, false, place)
    }
}

/// Whether it is a call.
#[tactic(auto, unfolding(tree::specs::View::expression_form))]
fn is_call(operand: &Expr) -> bool
    ensures { result ≡ is_call (expression_syntax operand.now) }
{
    matches!(operand.kind, ExprKind::Call(_, _, _))
}

/// The call that `go` and `defer` take, after the word.
#[tactic(auto, unfolding(tree_reader::specs::Reader::read_started))]
fn started<F: Fn(Wanted, TokenPlace) -> Read<Expr>>(
    source: SourceTokens<'_>,
    parts: &F,
    is_deferred: bool,
    place: TokenPlace,
) -> Read<Stmt>
    requires { ReadsExpressions source (F.pre parts.now) (F.post parts.now) }
    ensures { Gives (seen source.entry statement_syntax) result (read_started (go_text source.entry) (parts_of
        source.entry) source.entry.below (if is_deferred then defer_statement else go_statement) (cursor source.entry
        place)) }
{
    // A call has an operand.
    if source.below < 2 {
        return Err(Stop::TooDeep);
    }
    let (call, end) = expression(source, parts, false, PRIMARY_LEVEL, source.behind(place))?;
    if !is_call(&call) {
        release::expression(call);
        return Err(source.unexpected(end));
    }
    let span = source.span_to(place, end);
    if is_deferred {
        return Ok((make::statement::defer_statement(call, span), end));
    }
    Ok((make::statement::go_statement(call, span), end))
}

/// `return`.
#[tactic(auto, unfolding(tree_reader::specs::Reader::read_return))]
fn leave<F: Fn(Wanted, TokenPlace) -> Read<Expr>>(
    source: SourceTokens<'_>,
    parts: &F,
    place: TokenPlace,
) -> Read<Stmt>
    requires { ReadsExpressions source (F.pre parts.now) (F.post parts.now) }
    ensures { Gives (seen source.entry statement_syntax) result (read_return (go_text source.entry) (parts_of
        source.entry) source.entry.below (cursor source.entry place)) }
{
    let inner = source.behind(place);
    if source.ends(inner) {
        let span = source.span_to(place, inner);
        return Ok((
            make::statement::return_statement(Vec::new(source.alloc), span),
            inner,
        ));
    }
    let (values, end) = expressions(source, parts, false, inner)?;
    Ok((
        make::statement::return_statement(values, source.span_to(place, end)),
        end,
    ))
}

/// `break` or `continue`, perhaps with a label.
#[tactic(auto, unfolding(tree_reader::specs::Reader::read_branch))]
fn branch(source: SourceTokens<'_>, is_break: bool, place: TokenPlace) -> Read<Stmt>
    ensures { Gives (seen source.entry statement_syntax) result (read_branch (go_text source.entry) (parts_of
        source.entry) source.entry.below (if is_break then break_statement else continue_statement) (cursor
        source.entry place)) }
{
    let (label, end) = optional_identifier(source, source.behind(place))?;
    let span = source.span_to(place, end);
    if is_break {
        return Ok((make::statement::break_statement(label, span), end));
    }
    Ok((make::statement::continue_statement(label, span), end))
}

/// `goto` and its label.
#[tactic(auto, unfolding(tree_reader::specs::Reader::read_goto))]
fn jump(source: SourceTokens<'_>, place: TokenPlace) -> Read<Stmt>
    ensures { Gives (seen source.entry statement_syntax) result (read_goto (go_text source.entry) (parts_of
        source.entry) source.entry.below (cursor source.entry place)) }
{
    let (label, end) = identifier(source, source.behind(place))?;
    let span = source.span_to(place, end);
    Ok((make::statement::goto_statement(label, span), end))
}

/// `fallthrough`.
fn fall_through(source: SourceTokens<'_>, place: TokenPlace) -> Read<Stmt>
    ensures { Gives (seen source.entry statement_syntax) result (Some (spanned_statement (cursor source.entry place)
        fallthrough_statement (behind (cursor source.entry place)))) }
{
    let end = source.behind(place);
    let span = source.span_to(place, end);
    Ok((make::statement::fallthrough_statement(span), end))
}

/// A block as a statement.
#[tactic(auto, unfolding(tree_reader::specs::Reader::read_block_statement))]
fn braced<S: Fn(TokenPlace) -> Read<Stmt>>(
    source: SourceTokens<'_>,
    statements: &S,
    place: TokenPlace,
) -> Read<Stmt>
    requires { ReadsStatements source (S.pre statements.now) (S.post statements.now) }
    ensures { Gives (seen source.entry statement_syntax) result (read_block_statement (go_text source.entry) (parts_of
        source.entry) source.entry.below (cursor source.entry place)) }
{
    let (body, end) = block(source, statements, place)?;
    Ok((
        make::statement::block_statement(body, source.span_to(place, end)),
        end,
    ))
}

/// A statement that begins so.
fn begun<F: Fn(Wanted, TokenPlace) -> Read<Expr>, S: Fn(TokenPlace) -> Read<Stmt>>(
    source: SourceTokens<'_>,
    parts: &F,
    statements: &S,
    start: Start,
    place: TokenPlace,
) -> Read<Stmt>
    requires expressions { ReadsExpressions source (F.pre parts.now) (F.post parts.now) }
    requires statements { ReadsStatements source (S.pre statements.now) (S.post statements.now) }
    ensures { Gives (seen source.entry statement_syntax) result (read_start (go_text source.entry) (parts_of
        source.entry) source.entry.below start (cursor source.entry place)) }
{
    match start {
        Start::Name => named(source, parts, statements, place),
        Start::Block => braced(source, statements, place),
        Start::If => choice(source, parts, statements, place),
        Start::For => repetition(source, parts, statements, place),
        Start::Switch => switch(source, parts, statements, place),
        Start::Select => select(source, parts, statements, place),
        Start::Return => leave(source, parts, place),
        Start::Go => started(source, parts, false, place),
        Start::Defer => started(source, parts, true, place),
        Start::Break => branch(source, true, place),
        Start::Continue => branch(source, false, place),
        Start::Goto => jump(source, place),
        Start::Fallthrough => fall_through(source, place),
        Start::Simple => simple(source, parts, false, place),
    }
}

/// A statement.
///
/// # Errors
///
/// Where another token stands, where it is too deep, and out of memory.
#[tactic(auto, using(crate::proofs::Begins::by_start), unfolding(tree_reader::specs::Reader::read_statement_of))]
pub fn statement_of<F: Fn(Wanted, TokenPlace) -> Read<Expr>, S: Fn(TokenPlace) -> Read<Stmt>>(
    source: SourceTokens<'_>,
    parts: &F,
    statements: &S,
    place: TokenPlace,
) -> Read<Stmt>
    requires expressions { ReadsExpressions source (F.pre parts.now) (F.post parts.now) }
    requires statements { ReadsStatements source (S.pre statements.now) (S.post statements.now) }
    ensures { Gives (seen source.entry statement_syntax) result (read_statement_of (go_text source.entry) (parts_of
        source.entry) source.entry.below (cursor source.entry place)) }
{
    match source.next_declaration_keyword(place) {
        Some(keyword) => {
            let (declared, end) = declaration(source, parts, keyword, place)?;
            let span = source.span_to(place, end);
            Ok((make::statement::declaration_statement(declared, span), end))
        }
        None => begun(source, parts, statements, next_start(source, place), place),
    }
}
