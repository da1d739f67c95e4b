//! `for` (the Go specification, "For statements").

ghost use Rattle.std.specs.Prelude.{◌≡◌, ◌&&◌, map};
ghost use Rattle.lexer.specs.declared.token.TokenKind.TheVariants.{RangeKeyword};
ghost use Rattle.tree.specs.Syntax.{for_statement, range_assignment, range_definition};
ghost use Rattle.tree.specs.View.{identifier_syntax, expressions_syntax, optional_expression_syntax, optional_statement_syntax, statement_syntax};
ghost use Rattle.parser_base.specs.Gives.{Gives};
ghost use Rattle.parser_base.specs.Parts.{ReadsExpressions, ReadsStatements};
ghost use Rattle.parser_base.specs.Places.{cursor, seen, parts_of, go_text};
ghost use Rattle.tree_reader.specs.Reader.{read_loop, read_post, read_clauses, read_range, read_for_after, read_for};
ghost use Rattle.tree_reader.specs.Reading.{stands, behind};

use lexer::TokenKind;
use parser_base::cursor::{Begun, Read, SourceTokens, TokenPlace};
use parser_base::fault::Stop;
use parser_base::holding;
use parser_base::parts::{Wanted, expression};
use parser_clauses::simple::{as_part, names_of, only_expression, simple, simple_after};
use parser_parts::blocks::block;
use parser_parts::lists::{expression_unless, expressions};
use tree::{Expr, Identifier, Stmt};
use tree_hold::boxed;
use tree_make as make;

/// What stands between `for` and the block, where that is no range.
struct LoopHead {
    init: Option<Box<Stmt>>,
    condition: Option<Box<Expr>>,
    post: Option<Box<Stmt>>,
    has_semicolons: bool,
}

/// The block of a loop that began at `from` with this head.
#[tactic(auto, unfolding(tree_reader::specs::Reader::read_loop))]
fn loop_of<S: Fn(TokenPlace) -> Read<Stmt>>(
    source: SourceTokens<'_>,
    statements: &S,
    from: TokenPlace,
    head: LoopHead,
    place: TokenPlace,
) -> Read<Stmt>
    requires { ReadsStatements source (S.pre statements.now) (S.post statements.now) }
    ensures { Gives (seen source.entry statement_syntax) result (read_loop (go_text source.entry) (parts_of
        source.entry) source.entry.below (cursor source.entry from) (for_statement (optional_statement_syntax head.init)
        (optional_expression_syntax head.condition) (optional_statement_syntax head.post) head.has_semicolons)
        (cursor source.entry place)) }
{
    let LoopHead {
        init,
        condition,
        post,
        has_semicolons,
    } = head;
    let (body, end) =
        holding!(optional_statement: init, optional_expression: condition, optional_statement: post; block(source,
            statements, place));
    let span = source.span_to(from, end);
    Ok((
        make::control::for_statement(init, condition, post, has_semicolons, body, span),
        end,
    ))
}

/// `range operand` and the block of a loop that assigns to the expressions with which it begins.
#[tactic(auto, unfolding(tree_reader::specs::Reader::read_range, tree_reader::specs::Reader::read_loop))]
fn assigned_range<F: Fn(Wanted, TokenPlace) -> Read<Expr>, S: Fn(TokenPlace) -> Read<Stmt>>(
    source: SourceTokens<'_>,
    parts: &F,
    statements: &S,
    begun: Begun<Vec<Expr>>,
) -> Read<Stmt>
    requires expressions { ReadsExpressions source (F.pre parts.now) (F.post parts.now) }
    requires statements { ReadsStatements source (S.pre statements.now) (S.post statements.now) }
    ensures { Gives (seen source.entry statement_syntax) result (read_range (go_text source.entry) (parts_of
        source.entry) source.entry.below (cursor source.entry begun.from) (range_assignment (expressions_syntax
        begun.first.items)) (cursor source.entry begun.place)) }
{
    let Begun {
        from,
        first: left,
        place,
    } = begun;
    let (operand, rest) =
        holding!(expressions: left; expression(source, parts, true, 1, source.behind(place)));
    let kept = holding!(expressions: left; memory boxed::expression(source.alloc, operand));
    let (body, end) =
        holding!(expressions: left, boxed_expression: kept; block(source, statements, rest));
    let span = source.span_to(from, end);
    Ok((make::control::range_assignment(left, kept, body, span), end))
}

/// `range operand` and the block of a loop that defines the names with which it begins.
#[tactic(auto, unfolding(tree_reader::specs::Reader::read_range, tree_reader::specs::Reader::read_loop))]
fn defined_range<F: Fn(Wanted, TokenPlace) -> Read<Expr>, S: Fn(TokenPlace) -> Read<Stmt>>(
    source: SourceTokens<'_>,
    parts: &F,
    statements: &S,
    begun: Begun<Vec<Identifier>>,
) -> Read<Stmt>
    requires expressions { ReadsExpressions source (F.pre parts.now) (F.post parts.now) }
    requires statements { ReadsStatements source (S.pre statements.now) (S.post statements.now) }
    ensures { Gives (seen source.entry statement_syntax) result (read_range (go_text source.entry) (parts_of
        source.entry) source.entry.below (cursor source.entry begun.from) (range_definition (map identifier_syntax
        begun.first.items)) (cursor source.entry begun.place)) }
{
    let Begun {
        from,
        first: names,
        place,
    } = begun;
    let (operand, rest) = expression(source, parts, true, 1, source.behind(place))?;
    let kept = boxed::expression(source.alloc, operand)?;
    let (body, end) = holding!(boxed_expression: kept; block(source, statements, rest));
    let span = source.span_to(from, end);
    Ok((
        make::control::range_definition(names, kept, body, span),
        end,
    ))
}

/// The statement after a loop's second semicolon, or none before its block.
fn read_post<F: Fn(Wanted, TokenPlace) -> Read<Expr>>(
    source: SourceTokens<'_>,
    parts: &F,
    place: TokenPlace,
) -> Read<Option<Box<Stmt>>>
    requires { ReadsExpressions source (F.pre parts.now) (F.post parts.now) }
    ensures { Gives (seen source.entry optional_statement_syntax) result (read_post (go_text source.entry) (parts_of
        source.entry) source.entry.below (cursor source.entry place)) }
{
    if source.stands(place, TokenKind::LeftBrace) {
        return Ok((None, place));
    }
    let (post, end) = simple(source, parts, true, place)?;
    let kept = as_part(source, post)?;
    Ok((kept, end))
}

/// `condition; post` and the block of a loop, after the statement with which it begins, or none, and a semicolon.
#[tactic(auto, unfolding(tree_reader::specs::Reader::read_clauses))]
fn clauses<F: Fn(Wanted, TokenPlace) -> Read<Expr>, S: Fn(TokenPlace) -> Read<Stmt>>(
    source: SourceTokens<'_>,
    parts: &F,
    statements: &S,
    begun: Begun<Option<Box<Stmt>>>,
) -> Read<Stmt>
    requires expressions { ReadsExpressions source (F.pre parts.now) (F.post parts.now) }
    requires statements { ReadsStatements source (S.pre statements.now) (S.post statements.now) }
    ensures { Gives (seen source.entry statement_syntax) result (read_clauses (go_text source.entry) (parts_of
        source.entry) source.entry.below (cursor source.entry begun.from) (optional_statement_syntax begun.first)
        (cursor source.entry begun.place)) }
{
    let Begun {
        from,
        first: init,
        place,
    } = begun;
    let (condition, rest) =
        holding!(optional_statement: init; expression_unless(source, parts, TokenKind::Semicolon, true, place));
    holding!(optional_statement: init, optional_expression: condition; source.take(rest, TokenKind::Semicolon));
    let after = source.behind_semicolon(rest);
    let (post, end) =
        holding!(optional_statement: init, optional_expression: condition; read_post(source, parts, after));
    let head = LoopHead {
        init,
        condition,
        post,
        has_semicolons: true,
    };
    loop_of(source, statements, from, head, end)
}

/// Whether a token of this kind and `range` stand next.
fn has_range(source: SourceTokens<'_>, kind: TokenKind, place: TokenPlace) -> bool
    ensures { result ≡ (stands kind (cursor source.entry place) && stands RangeKeyword (behind (cursor source.entry
        place))) }
{
    source.stands(place, kind) && source.stands(source.behind(place), TokenKind::RangeKeyword)
}

/// A loop that began at `from`, after the expressions with which its header begins.
#[tactic(auto, unfolding(tree_reader::specs::Reader::read_for_after))]
fn loop_after<F: Fn(Wanted, TokenPlace) -> Read<Expr>, S: Fn(TokenPlace) -> Read<Stmt>>(
    source: SourceTokens<'_>,
    parts: &F,
    statements: &S,
    from: TokenPlace,
    header: Begun<Vec<Expr>>,
) -> Read<Stmt>
    requires expressions { ReadsExpressions source (F.pre parts.now) (F.post parts.now) }
    requires statements { ReadsStatements source (S.pre statements.now) (S.post statements.now) }
    ensures { Gives (seen source.entry statement_syntax) result (read_for_after (go_text source.entry) (parts_of
        source.entry) source.entry.below (cursor source.entry from) (cursor source.entry header.from)
        (expressions_syntax header.first.items) (cursor source.entry header.place)) }
{
    let Begun {
        from: start,
        first: left,
        place,
    } = header;
    if has_range(source, TokenKind::Define, place) {
        let names = names_of(source, left, place)?;
        let begun = Begun {
            from,
            first: names,
            place: source.behind(place),
        };
        return defined_range(source, parts, statements, begun);
    }
    if has_range(source, TokenKind::Assign, place) {
        let begun = Begun {
            from,
            first: left,
            place: source.behind(place),
        };
        return assigned_range(source, parts, statements, begun);
    }
    let statement = Begun {
        from: start,
        first: left,
        place,
    };
    let (first, rest) = simple_after(source, parts, true, statement)?;
    if source.stands(rest, TokenKind::Semicolon) {
        let init = as_part(source, first)?;
        let begun = Begun {
            from,
            first: init,
            place: source.behind_semicolon(rest),
        };
        return clauses(source, parts, statements, begun);
    }
    let condition = only_expression(source, first, rest)?;
    let kept = boxed::expression(source.alloc, condition)?;
    let head = LoopHead {
        init: None,
        condition: Some(kept),
        post: None,
        has_semicolons: false,
    };
    loop_of(source, statements, from, head, rest)
}

/// `for`, at its word.
///
/// # Errors
///
/// Where another token stands, where it is too deep, and out of memory.
#[tactic(auto, unfolding(tree_reader::specs::Reader::read_for))]
pub fn repetition<F: Fn(Wanted, TokenPlace) -> Read<Expr>, S: Fn(TokenPlace) -> Read<Stmt>>(
    source: SourceTokens<'_>,
    parts: &F,
    statements: &S,
    place: TokenPlace,
) -> Read<Stmt>
    requires expressions { ReadsExpressions source (F.pre parts.now) (F.post parts.now) }
    requires statements { ReadsStatements source (S.pre statements.now) (S.post statements.now) }
    ensures { Gives (seen source.entry statement_syntax) result (read_for (go_text source.entry) (parts_of source.entry)
        source.entry.below (cursor source.entry place)) }
{
    let start = source.behind(place);
    if source.stands(start, TokenKind::LeftBrace) {
        let head = LoopHead {
            init: None,
            condition: None,
            post: None,
            has_semicolons: false,
        };
        return loop_of(source, statements, place, head, start);
    }
    if source.stands(start, TokenKind::RangeKeyword) {
        let begun = Begun {
            from: place,
            first: Vec::new(source.alloc),
            place: start,
        };
        return assigned_range(source, parts, statements, begun);
    }
    if source.stands(start, TokenKind::Semicolon) {
        let begun = Begun {
            from: place,
            first: None,
            place: source.behind_semicolon(start),
        };
        return clauses(source, parts, statements, begun);
    }
    let (first, rest) = expressions(source, parts, true, start)?;
    let header = Begun {
        from: start,
        first,
        place: rest,
    };
    loop_after(source, parts, statements, place, header)
}
