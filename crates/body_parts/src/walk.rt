//! The walk over the statements of a body.

ghost use Rattle.std.specs.Prelude.{[], ◌∷◌, ◌++◌, OnOk};
ghost use Rattle.body_parts.specs.PartViews.{part_view, Adds};
ghost use Rattle.meaning.specs.Jumps.{plain_part, statement_parts, form_parts, parts_of, optional_parts, cases_parts, communications_parts};
ghost use Rattle.tree.specs.declared.statement.CaseClause.{out-CaseClause};
ghost use Rattle.tree.specs.declared.statement.CommClause.{out-CommClause};
ghost use Rattle.tree.specs.View.{statement_form, statement_syntax, statements_syntax, optional_statement_syntax, cases_syntax, communications_syntax};

use crate::part::{Part, Wanted, is_wanted};
use std::alloc::AllocError;
use tree::{CaseClause, CommClause, Stmt, StmtKind};

/// Adds the part, if it is wanted.
fn add<'a>(wanted: Wanted, part: Part<'a>, parts: &mut Vec<Part<'a>>) -> Result<(), AllocError>
    ensures { OnOk result (Adds wanted (part_view part.entry ∷ []) parts.old.items parts.new.items) }
{
    if is_wanted(wanted, part) {
        parts.push(part)?;
    }
    Ok(())
}

/// Adds those parts of a statement that are wanted.
#[cycle(parts)]
fn add_statement<'a>(
    wanted: Wanted,
    statement: &'a Stmt,
    parts: &mut Vec<Part<'a>>,
) -> Result<(), AllocError>
    ensures { OnOk result (Adds wanted (statement_parts (statement_syntax statement.now)) parts.old.items
        parts.new.items) }
{
    add_form(wanted, statement.span.start, &statement.kind, parts)
}

/// The same of a statement that begins at the offset.
#[cycle(parts)]
fn add_form<'a>(
    wanted: Wanted,
    at: u32,
    kind: &'a StmtKind,
    parts: &mut Vec<Part<'a>>,
) -> Result<(), AllocError>
    ensures { OnOk result (Adds wanted (form_parts at (statement_form kind.now)) parts.old.items parts.new.items) }
{
    match kind {
        StmtKind::Empty => Ok(()),
        StmtKind::Decl(declared) => add(wanted, Part::Declaration(declared), parts),
        StmtKind::Labeled(_, labeled) => add_statement(wanted, labeled, parts),
        StmtKind::Expr(_) => add(wanted, Part::Plain(at), parts),
        StmtKind::Send(_, _) => add(wanted, Part::Plain(at), parts),
        StmtKind::Increment(_) => add(wanted, Part::Plain(at), parts),
        StmtKind::Decrement(_) => add(wanted, Part::Plain(at), parts),
        StmtKind::Assign(_, _) => add(wanted, Part::Plain(at), parts),
        StmtKind::AssignOp(_, _, _) => add(wanted, Part::Plain(at), parts),
        StmtKind::Define(_, _) => add(wanted, Part::Plain(at), parts),
        StmtKind::Go(_) => add(wanted, Part::Plain(at), parts),
        StmtKind::Defer(_) => add(wanted, Part::Plain(at), parts),
        StmtKind::Return(_) => add(wanted, Part::Return(at), parts),
        StmtKind::Break(_) => add(wanted, Part::Plain(at), parts),
        StmtKind::Continue(_) => add(wanted, Part::Plain(at), parts),
        StmtKind::Goto(_) => add(wanted, Part::Goto(at), parts),
        StmtKind::Fallthrough => add(wanted, Part::Plain(at), parts),
        StmtKind::Block(inner) => add_statements(wanted, &inner.statements, parts),
        StmtKind::If {
            init,
            body,
            otherwise,
            ..
        } => {
            add_optional(wanted, init, parts)?;
            add(wanted, Part::Plain(at), parts)?;
            add_statements(wanted, &body.statements, parts)?;
            add_optional(wanted, otherwise, parts)
        }
        StmtKind::For {
            init,
            post,
            body,
            ..
        } => {
            add_optional(wanted, init, parts)?;
            add(wanted, Part::Plain(at), parts)?;
            add_statements(wanted, &body.statements, parts)?;
            add_optional(wanted, post, parts)
        }
        StmtKind::RangeAssign(_, _, body) => {
            add(wanted, Part::Plain(at), parts)?;
            add_statements(wanted, &body.statements, parts)
        }
        StmtKind::RangeDefine(_, _, body) => {
            add(wanted, Part::Plain(at), parts)?;
            add_statements(wanted, &body.statements, parts)
        }
        StmtKind::Switch { init, clauses, .. } => {
            add_optional(wanted, init, parts)?;
            add(wanted, Part::Plain(at), parts)?;
            add_cases(wanted, clauses, parts)
        }
        StmtKind::TypeSwitch { init, clauses, .. } => {
            add_optional(wanted, init, parts)?;
            add(wanted, Part::Plain(at), parts)?;
            add_cases(wanted, clauses, parts)
        }
        StmtKind::Select(clauses) => {
            add(wanted, Part::Plain(at), parts)?;
            add_communications(wanted, clauses, parts)
        }
    }
}

/// The same of a statement that may be missing.
#[cycle(parts)]
fn add_optional<'a>(
    wanted: Wanted,
    present: &'a Option<Box<Stmt>>,
    parts: &mut Vec<Part<'a>>,
) -> Result<(), AllocError>
    ensures { OnOk result (Adds wanted (optional_parts (optional_statement_syntax present.now)) parts.old.items
        parts.new.items) }
{
    match present {
        Some(present) => add_statement(wanted, present, parts),
        None => Ok(()),
    }
}

/// Adds those parts of these statements that are wanted.
///
/// # Errors
///
/// Memory was refused.
#[cycle(parts)]
pub fn add_statements<'a>(
    wanted: Wanted,
    list: &'a [Stmt],
    parts: &mut Vec<Part<'a>>,
) -> Result<(), AllocError>
    ensures { OnOk result (Adds wanted (parts_of (statements_syntax list.now)) parts.old.items parts.new.items) }
{
    for item in list {
        add_statement(wanted, item, parts)?;
    }
    Ok(())
}

/// The same of a clause of a switch.
#[cycle(parts)]
fn add_case<'a>(
    wanted: Wanted,
    clause: &'a CaseClause,
    parts: &mut Vec<Part<'a>>,
) -> Result<(), AllocError>
    ensures { OnOk result (Adds wanted (plain_part (out-CaseClause clause.now).span.start
        ∷ parts_of (statements_syntax (out-CaseClause clause.now).statements.items)) parts.old.items
        parts.new.items) }
{
    add(wanted, Part::Plain(clause.span.start), parts)?;
    add_statements(wanted, &clause.statements, parts)
}

/// The same of the clauses of a switch.
#[cycle(parts)]
fn add_cases<'a>(
    wanted: Wanted,
    clauses: &'a [CaseClause],
    parts: &mut Vec<Part<'a>>,
) -> Result<(), AllocError>
    ensures { OnOk result (Adds wanted (cases_parts (cases_syntax clauses.now)) parts.old.items parts.new.items) }
{
    for clause in clauses {
        add_case(wanted, clause, parts)?;
    }
    Ok(())
}

/// The same of a clause of a `select`.
#[cycle(parts)]
fn add_communication<'a>(
    wanted: Wanted,
    clause: &'a CommClause,
    parts: &mut Vec<Part<'a>>,
) -> Result<(), AllocError>
    ensures { OnOk result (Adds wanted (plain_part (out-CommClause clause.now).span.start
        ∷ parts_of (statements_syntax (out-CommClause clause.now).statements.items)) parts.old.items
        parts.new.items) }
{
    add(wanted, Part::Plain(clause.span.start), parts)?;
    add_statements(wanted, &clause.statements, parts)
}

/// The same of the clauses of a `select`.
#[cycle(parts)]
fn add_communications<'a>(
    wanted: Wanted,
    clauses: &'a [CommClause],
    parts: &mut Vec<Part<'a>>,
) -> Result<(), AllocError>
    ensures { OnOk result (Adds wanted (communications_parts (communications_syntax clauses.now)) parts.old.items
        parts.new.items) }
{
    for clause in clauses {
        add_communication(wanted, clause, parts)?;
    }
    Ok(())
}
