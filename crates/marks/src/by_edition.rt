//! What a walk marks: what conditions find out in the second edition alone, and fields there where some field keeps
//! what it holds.

ghost use Rattle.std.specs.Prelude.{◌≡◌, ◌+◌, ◌<◌, OnOk, drop, length};
ghost use Rattle.meaning.specs.Mentions.{nil_where, nil_marks, row_in, first_row, guard_marks, behind_row};
ghost use Rattle.marks.specs.WalkViews.{AddsBy};
ghost use Rattle.mentions.specs.MarkViews.{Adds};
ghost use Rattle.tree.specs.Syntax.{no_statement, statement_and};
ghost use Rattle.tree.specs.View.{expression_syntax, statement_syntax, statements_syntax, optional_statement_syntax};

use crate::rows::{first_row, row_in};
use mentions::Marks;
use mentions::found::{found_nil as all_found_nil, guard_marks};
use std::alloc::AllocError;
use tree::{Edition, Expr, Span, Stmt, StmtKind};

/// By what is marked: an edition, and whether some field keeps what it holds. In the first edition none does.
#[derive(Clone, Copy)]
pub struct Told {
    pub edition: Edition,
    pub some_keep: bool,
}

/// A walk over a file: by what it marks, and the marks so far.
#[derive(Drop)]
pub struct Walk<'m, 'a> {
    pub told: Told,
    pub marks: Marks<'m, 'a>,
}

/// The names that are nil wherever the condition has come out so, at that site.
///
/// # Errors
///
/// Memory was refused.
pub fn found_nil<'m, 'a>(
    walk: &mut Walk<'m, 'a>,
    site: u32,
    outcome: bool,
    condition: &'a Expr,
) -> Result<(), AllocError>
    ensures { OnOk result (AddsBy walk.old walk.new (nil_marks site
        (nil_where outcome (expression_syntax condition.now)))) }
{
    match walk.told.edition {
        Edition::First => Ok(()),
        Edition::Second => all_found_nil(&mut walk.marks, site, outcome, condition),
    }
}

/// What the condition of an `if` finds out behind the row that is its first statement.
///
/// # Errors
///
/// Memory was refused.
pub fn first_guard<'m, 'a>(
    walk: &mut Walk<'m, 'a>,
    init: &'a Option<Box<Stmt>>,
    condition: &'a Expr,
    braces: Span,
) -> Result<(), AllocError>
    ensures { OnOk result (AddsBy walk.old walk.new (guard_marks (first_row (optional_statement_syntax init.now))
        (expression_syntax condition.now) braces)) }
{
    match walk.told.edition {
        Edition::First => Ok(()),
        Edition::Second => guard_marks(&mut walk.marks, first_row(init), condition, braces),
    }
}

/// What an `if` finds out that stands behind the statement of that number, which is a row or ends with one.
///
/// # Errors
///
/// Memory was refused.
pub fn behind_row<'m, 'a>(
    walk: &mut Walk<'m, 'a>,
    statement: &'a Stmt,
    index: usize,
    list: &'a [Stmt],
) -> Result<(), AllocError>
    requires { index < length list.now }
    ensures { OnOk result (AddsBy walk.old walk.new (behind_row (row_in (statement_syntax statement.now))
        (statements_syntax (drop (index + 1) list.now)))) }
{
    match walk.told.edition {
        Edition::First => Ok(()),
        Edition::Second => match list.get(index + 1) {
            Some(next) => guard_behind(&mut walk.marks, statement, next),
            None => Ok(()),
        },
    }
}

fn guard_behind<'m, 'a>(
    marks: &mut Marks<'m, 'a>,
    statement: &'a Stmt,
    next: &'a Stmt,
) -> Result<(), AllocError>
    ensures { OnOk result (Adds marks.old.list.items marks.new.list.items (behind_row
        (row_in (statement_syntax statement.now)) (statement_and (statement_syntax next.now) no_statement))) }
{
    match &next.kind {
        StmtKind::If {
            init,
            condition,
            body,
            ..
        } => match init {
            Some(_) => Ok(()),
            None => guard_marks(marks, row_in(statement), condition, body.span),
        },
        _ => Ok(()),
    }
}
