//! The returns of a body that stand in no literal in it.

ghost use Rattle.std.specs.Prelude.{◌≡◌, IfOk, map};
ghost use Rattle.meaning.specs.FunctionFacts.{listed, own_returns};
ghost use Rattle.meaning.specs.Mentions.{statements_marks};
ghost use Rattle.mentions.specs.MarkViews.{marks_view};
ghost use Rattle.tree.specs.View.{expressions_syntax, statements_syntax};

use crate::file::statement_marks;
use bumpalo::Bump;
use mentions::Mark;
use std::alloc::{AllocError, Global};
use tree::{Expr, Stmt};

/// The items of each of them, in their order.
///
/// # Errors
///
/// Memory was refused.
pub fn own_returns<'a>(alloc: Global, list: &'a [Stmt]) -> Result<Vec<&'a [Expr]>, AllocError>
    ensures { IfOk result (λ returns. map (λ es. listed (expressions_syntax es.now)) returns.items ≡ own_returns 0
        (statements_marks (statements_syntax list.now))) }
{
    let arena = Bump::new(alloc);
    let marks = statement_marks(alloc, &arena, list)?;
    returns_among(alloc, &marks)
}

fn returns_among<'a>(alloc: Global, marks: &[Mark<'_, 'a>]) -> Result<Vec<&'a [Expr]>, AllocError>
    ensures { IfOk result (λ returns. map (λ es. listed (expressions_syntax es.now)) returns.items ≡ own_returns 0
        (marks_view marks.now)) }
{
    let mut returns: Vec<&'a [Expr]> = Vec::new(alloc);
    let mut literals: usize = 0;
    for mark in marks {
        match *mark {
            Mark::Opens(_) => literals += 1,
            Mark::Closes => literals = literals.saturating_sub(1),
            Mark::Returns(_, items) => {
                if literals == 0 {
                    returns.push(items)?;
                }
            }
            _ => {}
        }
    }
    Ok(returns)
}
