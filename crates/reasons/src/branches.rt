//! The statements of a body that branch.

ghost use Rattle.std.specs.Prelude.{◌≡◌, [], ◌∷◌, ◌++◌, IfOk, OnOk, map};
ghost use Rattle.reasons.specs.Branches.{branch_of, branches_of, statement_branches, form_branches, optional_branches, case_branches, communication_branches, case_offsets, communication_offsets};
ghost use Rattle.reasons.specs.WordViews.{branch_view, form_view, AddsBranches};
ghost use Rattle.tree.specs.declared.statement.CaseClause.{out-CaseClause};
ghost use Rattle.tree.specs.declared.statement.CommClause.{out-CommClause};
ghost use Rattle.tree.specs.View.{statement_form, statement_syntax, statements_syntax, optional_statement_syntax, cases_syntax, communications_syntax};

use crate::silent::are_silent;
use std::alloc::{AllocError, Global};
use tree::{CaseClause, CommClause, Span, Stmt, StmtKind};

/// How a statement branches.
#[derive(Drop)]
pub enum BranchForm {
    /// An `if`: its block's braces, and whether the block gives no occurrence.
    If(Span, bool),
    Loop,
    /// A `switch` or `select`: the byte offsets of its clauses.
    Clauses(Vec<u32>),
}

/// A statement that branches. Its header stands where it begins.
#[derive(Drop)]
pub struct Branch {
    pub span: Span,
    pub form: BranchForm,
}

fn add(span: Span, form: BranchForm, branches: &mut Vec<Branch>) -> Result<(), AllocError>
    ensures { OnOk result (AddsBranches (branch_of span (form_view form)) branches.old.items branches.new.items) }
{
    branches.push(Branch { span, form })?;
    Ok(())
}

/// The byte offsets of the clauses of a switch.
fn case_offsets(alloc: Global, clauses: &[CaseClause]) -> Result<Vec<u32>, AllocError>
    ensures { IfOk result (λ offsets. offsets.items ≡ case_offsets (cases_syntax clauses.now)) }
{
    let mut offsets = Vec::new(alloc);
    for clause in clauses {
        offsets.push(clause.span.start)?;
    }
    Ok(offsets)
}

/// The byte offsets of the clauses of a `select`.
fn communication_offsets(alloc: Global, clauses: &[CommClause]) -> Result<Vec<u32>, AllocError>
    ensures { IfOk result (λ offsets. offsets.items ≡ communication_offsets (communications_syntax clauses.now)) }
{
    let mut offsets = Vec::new(alloc);
    for clause in clauses {
        offsets.push(clause.span.start)?;
    }
    Ok(offsets)
}

/// Adds the branches of a statement.
#[cycle(branches)]
fn add_statement(
    alloc: Global,
    statement: &Stmt,
    branches: &mut Vec<Branch>,
) -> Result<(), AllocError>
    ensures { OnOk result (AddsBranches (statement_branches (statement_syntax statement.now)) branches.old.items
        branches.new.items) }
{
    add_form(alloc, statement.span, &statement.kind, branches)
}

/// The same of a statement of that span.
#[cycle(branches)]
fn add_form(
    alloc: Global,
    span: Span,
    kind: &StmtKind,
    branches: &mut Vec<Branch>,
) -> Result<(), AllocError>
    ensures { OnOk result (AddsBranches (form_branches span (statement_form kind.now)) branches.old.items
        branches.new.items) }
{
    match kind {
        StmtKind::Empty => Ok(()),
        StmtKind::Decl(_) => Ok(()),
        StmtKind::Labeled(_, labeled) => add_statement(alloc, labeled, branches),
        StmtKind::Expr(_) => Ok(()),
        StmtKind::Send(_, _) => Ok(()),
        StmtKind::Increment(_) => Ok(()),
        StmtKind::Decrement(_) => Ok(()),
        StmtKind::Assign(_, _) => Ok(()),
        StmtKind::AssignOp(_, _, _) => Ok(()),
        StmtKind::Define(_, _) => Ok(()),
        StmtKind::Go(_) => Ok(()),
        StmtKind::Defer(_) => Ok(()),
        StmtKind::Return(_) => Ok(()),
        StmtKind::Break(_) => Ok(()),
        StmtKind::Continue(_) => Ok(()),
        StmtKind::Goto(_) => Ok(()),
        StmtKind::Fallthrough => Ok(()),
        StmtKind::Block(inner) => add_statements(alloc, &inner.statements, branches),
        StmtKind::If {
            init,
            body,
            otherwise,
            ..
        } => {
            add_optional(alloc, init, branches)?;
            let is_silent = are_silent(&body.statements);
            add(span, BranchForm::If(body.span, is_silent), branches)?;
            add_statements(alloc, &body.statements, branches)?;
            add_optional(alloc, otherwise, branches)
        }
        StmtKind::For {
            init,
            post,
            body,
            ..
        } => {
            add_optional(alloc, init, branches)?;
            add(span, BranchForm::Loop, branches)?;
            add_statements(alloc, &body.statements, branches)?;
            add_optional(alloc, post, branches)
        }
        StmtKind::RangeAssign(_, _, body) => {
            add(span, BranchForm::Loop, branches)?;
            add_statements(alloc, &body.statements, branches)
        }
        StmtKind::RangeDefine(_, _, body) => {
            add(span, BranchForm::Loop, branches)?;
            add_statements(alloc, &body.statements, branches)
        }
        StmtKind::Switch { init, clauses, .. } => {
            add_optional(alloc, init, branches)?;
            let offsets = case_offsets(alloc, clauses)?;
            add(span, BranchForm::Clauses(offsets), branches)?;
            add_cases(alloc, clauses, branches)
        }
        StmtKind::TypeSwitch { init, clauses, .. } => {
            add_optional(alloc, init, branches)?;
            let offsets = case_offsets(alloc, clauses)?;
            add(span, BranchForm::Clauses(offsets), branches)?;
            add_cases(alloc, clauses, branches)
        }
        StmtKind::Select(clauses) => {
            let offsets = communication_offsets(alloc, clauses)?;
            add(span, BranchForm::Clauses(offsets), branches)?;
            add_communications(alloc, clauses, branches)
        }
    }
}

/// The same of a statement that may be missing.
#[cycle(branches)]
fn add_optional(
    alloc: Global,
    present: &Option<Box<Stmt>>,
    branches: &mut Vec<Branch>,
) -> Result<(), AllocError>
    ensures { OnOk result (AddsBranches (optional_branches (optional_statement_syntax present.now))
        branches.old.items branches.new.items) }
{
    match present {
        Some(present) => add_statement(alloc, present, branches),
        None => Ok(()),
    }
}

/// The same of these statements.
#[cycle(branches)]
fn add_statements(
    alloc: Global,
    list: &[Stmt],
    branches: &mut Vec<Branch>,
) -> Result<(), AllocError>
    ensures { OnOk result (AddsBranches (branches_of (statements_syntax list.now)) branches.old.items
        branches.new.items) }
{
    for item in list {
        add_statement(alloc, item, branches)?;
    }
    Ok(())
}

/// The same of a clause of a switch.
#[cycle(branches)]
fn add_case(
    alloc: Global,
    clause: &CaseClause,
    branches: &mut Vec<Branch>,
) -> Result<(), AllocError>
    ensures { OnOk result (AddsBranches (branches_of (statements_syntax (out-CaseClause clause.now).statements.items))
        branches.old.items branches.new.items) }
{
    add_statements(alloc, &clause.statements, branches)
}

/// The same of the clauses of a switch.
#[cycle(branches)]
fn add_cases(
    alloc: Global,
    clauses: &[CaseClause],
    branches: &mut Vec<Branch>,
) -> Result<(), AllocError>
    ensures { OnOk result (AddsBranches (case_branches (cases_syntax clauses.now)) branches.old.items
        branches.new.items) }
{
    for clause in clauses {
        add_case(alloc, clause, branches)?;
    }
    Ok(())
}

/// The same of a clause of a `select`.
#[cycle(branches)]
fn add_communication(
    alloc: Global,
    clause: &CommClause,
    branches: &mut Vec<Branch>,
) -> Result<(), AllocError>
    ensures { OnOk result (AddsBranches (branches_of (statements_syntax (out-CommClause clause.now).statements.items))
        branches.old.items branches.new.items) }
{
    add_statements(alloc, &clause.statements, branches)
}

/// The same of the clauses of a `select`.
#[cycle(branches)]
fn add_communications(
    alloc: Global,
    clauses: &[CommClause],
    branches: &mut Vec<Branch>,
) -> Result<(), AllocError>
    ensures { OnOk result (AddsBranches (communication_branches (communications_syntax clauses.now))
        branches.old.items branches.new.items) }
{
    for clause in clauses {
        add_communication(alloc, clause, branches)?;
    }
    Ok(())
}

/// The branches of these statements, and of those in them but for literals, in the order of the text.
///
/// # Errors
///
/// Memory was refused.
pub fn branches_of(alloc: Global, list: &[Stmt]) -> Result<Vec<Branch>, AllocError>
    ensures { IfOk result (λ branches. map branch_view branches.items ≡ branches_of (statements_syntax list.now)) }
{
    let mut branches = Vec::new(alloc);
    add_statements(alloc, list, &mut branches)?;
    Ok(branches)
}
