//! Reading the parts of what is read. How they are read is given as a function, so that all that reads a form of syntax
//! stands on its own; the parser ties the ends.

ghost use Rattle.std.specs.Prelude.{◌≡◌, nat_le};
ghost use Rattle.tree.specs.Depth.{expression_depth, statement_depth};
ghost use Rattle.tree.specs.View.{expression_syntax, statement_syntax};
ghost use Rattle.parser_base.specs.Gives.{Gives};
ghost use Rattle.parser_base.specs.Parts.{ReadsExpressions, ReadsStatements};
ghost use Rattle.parser_base.specs.Places.{cursor, seen, parts_of};

use crate::cursor::{Read, SourceTokens, TokenPlace};
use tree::{Expr, Stmt};

/// An expression or a type that is to be read.
#[derive(Clone, Copy)]
pub enum Wanted {
    /// An expression of at least this level; whether it stands in a header, where no composite literal of a bare type
    /// name is read.
    Expression(bool, u32),
    /// A type.
    TypeExpression,
    /// An expression, or elements in braces.
    Element,
}

/// An expression of at least this level.
pub fn expression<F: Fn(Wanted, TokenPlace) -> Read<Expr>>(
    source: SourceTokens<'_>,
    parts: &F,
    header: bool,
    least: u32,
    place: TokenPlace,
) -> Read<Expr>
    requires { ReadsExpressions source (F.pre parts.now) (F.post parts.now) }
    ensures { Gives (seen source.entry expression_syntax) result ((parts_of source.entry).read_expression header least
        (cursor source.entry place)) }
{
    parts(Wanted::Expression(header, least), place)
}

/// A type.
pub fn type_expression<F: Fn(Wanted, TokenPlace) -> Read<Expr>>(
    source: SourceTokens<'_>,
    parts: &F,
    place: TokenPlace,
) -> Read<Expr>
    requires { ReadsExpressions source (F.pre parts.now) (F.post parts.now) }
    ensures { Gives (seen source.entry expression_syntax) result ((parts_of source.entry).read_type (cursor
        source.entry place)) }
{
    parts(Wanted::TypeExpression, place)
}

/// An expression, or elements in braces.
pub fn element_value<F: Fn(Wanted, TokenPlace) -> Read<Expr>>(
    source: SourceTokens<'_>,
    parts: &F,
    place: TokenPlace,
) -> Read<Expr>
    requires { ReadsExpressions source (F.pre parts.now) (F.post parts.now) }
    ensures { Gives (seen source.entry expression_syntax) result ((parts_of source.entry).read_value (cursor
        source.entry place)) }
{
    parts(Wanted::Element, place)
}

/// A statement.
pub fn statement<S: Fn(TokenPlace) -> Read<Stmt>>(
    source: SourceTokens<'_>,
    statements: &S,
    place: TokenPlace,
) -> Read<Stmt>
    requires { ReadsStatements source (S.pre statements.now) (S.post statements.now) }
    ensures { Gives (seen source.entry statement_syntax) result ((parts_of source.entry).read_statement (cursor
        source.entry place)) }
{
    statements(place)
}

/// Whether an expression can be a part of what is read.
pub fn fits(source: SourceTokens<'_>, expression: &Expr) -> bool
    ensures { result ≡ nat_le (expression_depth (expression_syntax expression.now)) source.entry.below }
{
    expression.depth() <= source.below
}

/// Whether an expression is no deeper than the parts of what is read may be.
pub fn within(source: SourceTokens<'_>, expression: &Expr) -> bool
    ensures { result ≡ nat_le (expression_depth (expression_syntax expression.now)) (parts_of source.entry).most }
{
    fits(source, expression)
}

/// Whether a statement can be a part of what is read.
pub fn statement_fits(source: SourceTokens<'_>, statement: &Stmt) -> bool
    ensures { result ≡ nat_le (statement_depth (statement_syntax statement.now)) source.entry.below }
{
    statement.depth() <= source.below
}
