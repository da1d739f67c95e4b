//! Where the clauses of a switch fall through.

ghost use Rattle.std.specs.Prelude.{◌≡◌, ◌++◌, IfOk, OnOk};
ghost use Rattle.body_code.specs.FallViews.{at_most_one};
ghost use Rattle.meaning.specs.StatementCode.{falls_at, last_falls, clauses_fall};
ghost use Rattle.tree.specs.declared.statement.CaseClause.{out-CaseClause};
ghost use Rattle.tree.specs.View.{statement_syntax, statements_syntax, cases_syntax};

use std::alloc::{AllocError, Global};
use tree::{CaseClause, Stmt, StmtKind};

/// The byte offset of the `fallthrough` that the statement is, under labels too.
fn falls_at(statement: &Stmt) -> Option<u32>
    ensures { at_most_one result ≡ falls_at (statement_syntax statement.now) }
{
    match &statement.kind {
        StmtKind::Fallthrough => Some(statement.span.start),
        StmtKind::Labeled(_, labeled) => falls_at(labeled),
        _ => None,
    }
}

/// That of the last of these statements.
fn last_falls(list: &[Stmt]) -> Option<u32>
    ensures { at_most_one result ≡ last_falls (statements_syntax list.now) }
{
    match list.last() {
        Some(last) => falls_at(last),
        None => None,
    }
}

/// Adds that of a clause, if there is one.
fn add_fall(clause: &CaseClause, falls: &mut Vec<u32>) -> Result<(), AllocError>
    ensures { OnOk result (falls.new.items ≡ falls.old.items
        ++ last_falls (statements_syntax (out-CaseClause clause.now).statements.items)) }
{
    match last_falls(&clause.statements) {
        Some(at) => {
            falls.push(at)?;
            Ok(())
        }
        None => Ok(()),
    }
}

/// Those of these clauses, in the order of the text. Where there is none, nothing is allocated.
///
/// # Errors
///
/// Memory was refused.
pub fn clauses_fall(alloc: Global, clauses: &[CaseClause]) -> Result<Vec<u32>, AllocError>
    ensures { IfOk result (λ falls. falls.items ≡ clauses_fall (cases_syntax clauses.now)) }
{
    let mut falls = Vec::new(alloc);
    for clause in clauses {
        add_fall(clause, &mut falls)?;
    }
    Ok(falls)
}
