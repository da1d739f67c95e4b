//! What the parts of a node are read by (the Go specification, "Expressions", "Types", "Statements"). Here the ends of
//! the parser are tied: each node reads its parts by what reads nodes that may be one less deep.

ghost use Rattle.std.specs.Prelude.{◌≡◌, ◌-◌};
ghost use Rattle.tree.specs.View.{expression_syntax, statement_syntax};
ghost use Rattle.parser_base.specs.Gives.{Gives};
ghost use Rattle.parser_base.specs.Parts.{read_wanted};
ghost use Rattle.parser_base.specs.Places.{cursor, seen, parts_of, go_text};

use parser_base::cursor::{Read, SourceTokens, TokenPlace};
use parser_base::fault::Stop;
use parser_base::parts::Wanted;
use parser_expressions::expressions::{WantedExpression, expression_of, type_of, value_of};
use parser_statements::statements::statement_of;
use tree::{Expr, Stmt};

/// The source of the parts of a node, which may be one less deep.
fn one_less_deep(source: SourceTokens<'_>) -> SourceTokens<'_>
    ensures edition { result.edition ≡ source.entry.edition }
    ensures text { result.text.now ≡ source.entry.text.now }
    ensures tokens { result.tokens.now ≡ source.entry.tokens.now }
    ensures below { result.below ≡ source.entry.below - 1 }
{
    SourceTokens {
        alloc: source.alloc,
        edition: source.edition,
        text: source.text,
        tokens: source.tokens,
        below: source.below.saturating_sub(1),
    }
}

/// An expression, a type or an element, at most as deep as the source lets it be.
///
/// # Errors
///
/// Where another token stands, where it is too deep, and out of memory.
#[cycle(node)]
#[tactic(auto, unfolding(tree_reader::specs::Reader::readers))]
pub fn node(source: SourceTokens<'_>, wanted: Wanted, place: TokenPlace) -> Read<Expr>
    ensures { Gives (seen source.entry expression_syntax) result (read_wanted (parts_of source.entry) wanted (cursor
        source.entry place)) }
{
    if source.below == 0 {
        return Err(Stop::TooDeep);
    }
    let inner = one_less_deep(source);
    let parts = |wanted: Wanted, place: TokenPlace| -> Read<Expr>
        ensures { Gives (seen inner.entry expression_syntax) result (read_wanted (parts_of inner.entry) wanted (cursor
            inner.entry place)) }
    { node(inner, wanted, place) };
    let statements = |place: TokenPlace| -> Read<Stmt>
        ensures { Gives (seen inner.entry statement_syntax) result ((parts_of inner.entry).read_statement (cursor
            inner.entry place)) }
    { statement_node(inner, place) };
    match wanted {
        Wanted::Expression(header, least) => {
            let wanted = WantedExpression {
                in_header: header,
                least,
            };
            expression_of(inner, &parts, &statements, wanted, place)
        }
        Wanted::TypeExpression => type_of(inner, &parts, place),
        Wanted::Element => value_of(inner, &parts, &statements, place),
    }
}

/// A statement, at most as deep as the source lets it be.
///
/// # Errors
///
/// Where another token stands, where it is too deep, and out of memory.
#[cycle(node)]
#[tactic(auto, unfolding(tree_reader::specs::Reader::readers))]
pub fn statement_node(source: SourceTokens<'_>, place: TokenPlace) -> Read<Stmt>
    ensures { Gives (seen source.entry statement_syntax) result ((parts_of source.entry).read_statement (cursor
        source.entry place)) }
{
    if source.below == 0 {
        return Err(Stop::TooDeep);
    }
    let inner = one_less_deep(source);
    let parts = |wanted: Wanted, place: TokenPlace| -> Read<Expr>
        ensures { Gives (seen inner.entry expression_syntax) result (read_wanted (parts_of inner.entry) wanted (cursor
            inner.entry place)) }
    { node(inner, wanted, place) };
    let statements = |place: TokenPlace| -> Read<Stmt>
        ensures { Gives (seen inner.entry statement_syntax) result ((parts_of inner.entry).read_statement (cursor
            inner.entry place)) }
    { statement_node(inner, place) };
    statement_of(inner, &parts, &statements, place)
}
