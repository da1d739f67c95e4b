//! Blocks (the Go specification, "Blocks").

ghost use Rattle.std.specs.Prelude.{◌≡◌};
ghost use Rattle.tree.specs.View.{statements_syntax};
ghost use Rattle.parser_base.specs.Gives.{Gives};
ghost use Rattle.parser_base.specs.Parts.{ReadsStatements, braced};
ghost use Rattle.parser_base.specs.Places.{cursor, seen, parts_of, go_text};
ghost use Rattle.tree_reader.specs.Reader.{read_statements, read_block};
ghost use Rattle.tree_reader.specs.Reading.{steps};

use lexer::TokenKind;
use parser_base::cursor::{Read, SourceTokens, TokenPlace};
use parser_base::holding;
use parser_base::parts::statement;
use tree::{Block, Stmt};
use tree_hold::{list, release};
use tree_make as make;

/// Statements up to a closing brace or the next clause.
///
/// # Errors
///
/// Where another token stands, and out of memory.
pub fn statement_list<S: Fn(TokenPlace) -> Read<Stmt>>(
    source: SourceTokens<'_>,
    statements: &S,
    place: TokenPlace,
) -> Read<Vec<Stmt>>
    requires { ReadsStatements source (S.pre statements.now) (S.post statements.now) }
    ensures { Gives (seen source.entry (λ ss. statements_syntax ss.items)) result (read_statements
        (go_text source.entry) (parts_of source.entry) (steps (cursor source.entry place)) (cursor source.entry
        place)) }
{
    let mut items = Vec::new(source.alloc);
    let mut rest = place;
    for _ in 0..source.steps(place) {
        let first = source.skip_semicolons(rest);
        if source.ends_statements(first) {
            return Ok((items, first));
        }
        let (item, after) = holding!(statements: items; statement(source, statements, first));
        items = list::with_statement(items, item)?;
        rest = holding!(statements: items; source.semicolon(after));
    }
    release::statements(items);
    Err(source.unexpected(rest))
}

/// Statements in braces.
///
/// # Errors
///
/// Where another token stands, and out of memory.
#[tactic(auto, unfolding(tree_reader::specs::Reader::read_block))]
pub fn block<S: Fn(TokenPlace) -> Read<Stmt>>(
    source: SourceTokens<'_>,
    statements: &S,
    place: TokenPlace,
) -> Read<Block>
    requires { ReadsStatements source (S.pre statements.now) (S.post statements.now) }
    ensures { Gives (seen source.entry braced) result (read_block (go_text source.entry) (parts_of source.entry) (cursor
        source.entry place)) }
{
    let inner = source.take(place, TokenKind::LeftBrace)?;
    let (items, rest) = statement_list(source, statements, inner)?;
    let end = holding!(statements: items; source.take(rest, TokenKind::RightBrace));
    Ok((make::control::block(items, source.span_to(place, end)), end))
}
