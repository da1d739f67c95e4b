//! Which clause of a switch or a select is entered.

ghost use Rattle.std.specs.Prelude.{◌≡◌, map};
ghost use Rattle.code.specs.CodeViews.{text_now, Changes, Joins};
ghost use Rattle.meaning.specs.Code.{then_code};
ghost use Rattle.meaning.specs.StatementCode.{is_default, has_default, or_past, breaks_end, clauses_fall, switch_code};
ghost use Rattle.tree.specs.declared.statement.CaseClause.{out-CaseClause};
ghost use Rattle.tree.specs.View.{expressions_syntax, cases_syntax};

use crate::falls::clauses_fall;
use code::Code;
use code::parts::{Made, breaks_end, either, falling_over, then};
use std::alloc::Global;
use tree::CaseClause;

/// Whether it is `default:`, which has no expressions.
fn is_default(clause: &CaseClause) -> bool
    ensures { result ≡ is_default (expressions_syntax (out-CaseClause clause.now).expressions.items) }
{
    clause.expressions.as_slice().is_empty()
}

/// Whether one of the clauses has no expressions.
fn has_default(clauses: &[CaseClause]) -> bool
    ensures { result ≡ has_default (cases_syntax clauses.now) }
{
    for clause in clauses {
        if is_default(clause) {
            return true;
        }
    }
    false
}

/// A switch without default may be passed.
fn or_past<'a, E: Copy>(alloc: Global, clauses: &[CaseClause], code: Made<'a, E>) -> Made<'a, E>
    ensures { Changes (or_past (cases_syntax clauses.now)) code.entry result }
{
    if clauses.is_empty() {
        Ok(Code::Skip)
    } else if has_default(clauses) {
        code
    } else {
        either(alloc, code, Ok(Code::Skip))
    }
}

/// The code of a type switch, but for the statement before it: the header, and then one of the clauses, or past them.
pub fn one_clause<'a, E: Copy>(
    alloc: Global,
    labels: &[&'a str],
    header: Made<'a, E>,
    clauses: &[CaseClause],
    entered: Made<'a, E>,
) -> Made<'a, E>
    ensures { Joins (λ h e. then_code h (breaks_end (map text_now labels.now)
        (or_past (cases_syntax clauses.now) e))) header.entry entered.entry result }
{
    let whole = breaks_end(alloc, labels, or_past(alloc, clauses, entered));
    then(alloc, header, whole)
}

/// The code of a `switch`, but for the statement before it: the header, and then one of the clauses, or past them; and
/// where clauses fall through, the header again.
pub fn switch<'a, E: Copy>(
    alloc: Global,
    labels: &[&'a str],
    header: Made<'a, E>,
    clauses: &[CaseClause],
    entered: Made<'a, E>,
) -> Made<'a, E>
    ensures { Joins (λ h e. switch_code (map text_now labels.now) (clauses_fall (cases_syntax clauses.now)) h
        (or_past (cases_syntax clauses.now) e)) header.entry entered.entry result }
{
    let falls = clauses_fall(alloc, clauses)?;
    if falls.is_empty() {
        return one_clause(alloc, labels, header, clauses, entered);
    }
    falling_over(
        alloc,
        labels,
        falls,
        header,
        or_past(alloc, clauses, entered),
    )
}

/// The code of a `select`: the header, and then one of the clauses.
pub fn one_communication<'a, E: Copy>(
    alloc: Global,
    labels: &[&'a str],
    header: Made<'a, E>,
    entered: Made<'a, E>,
) -> Made<'a, E>
    ensures { Joins (λ h e. then_code h (breaks_end (map text_now labels.now) e)) header.entry entered.entry result }
{
    then(alloc, header, breaks_end(alloc, labels, entered))
}
