//! Statements that give no occurrence.

ghost use Rattle.std.specs.Prelude.{◌≡◌};
ghost use Rattle.reasons.specs.Branches.{are_silent, is_silent_form};
ghost use Rattle.tree.specs.View.{statement_form, statements_syntax};

use tree::{Stmt, StmtKind};

/// Whether the statement gives no occurrence.
#[cycle(silent)]
fn is_silent_form(kind: &StmtKind) -> bool
    ensures { result ≡ is_silent_form (statement_form kind.now) }
{
    match kind {
        StmtKind::Empty => true,
        StmtKind::Decl(declared) => declared.specs.is_empty(),
        StmtKind::Labeled(_, labeled) => is_silent_form(&labeled.kind),
        StmtKind::Block(inner) => are_silent(&inner.statements),
        StmtKind::Expr(_) => false,
        StmtKind::Send(_, _) => false,
        StmtKind::Increment(_) => false,
        StmtKind::Decrement(_) => false,
        StmtKind::Assign(_, _) => false,
        StmtKind::AssignOp(_, _, _) => false,
        StmtKind::Define(_, _) => false,
        StmtKind::Go(_) => false,
        StmtKind::Defer(_) => false,
        StmtKind::Return(_) => false,
        StmtKind::Break(_) => false,
        StmtKind::Continue(_) => false,
        StmtKind::Goto(_) => false,
        StmtKind::Fallthrough => false,
        StmtKind::If { .. } => false,
        StmtKind::For { .. } => false,
        StmtKind::RangeAssign(_, _, _) => false,
        StmtKind::RangeDefine(_, _, _) => false,
        StmtKind::Switch { .. } => false,
        StmtKind::TypeSwitch { .. } => false,
        StmtKind::Select(_) => false,
    }
}

/// Whether these statements give no occurrence: none stands there, or only labels, blocks and empty ones.
#[cycle(silent)]
pub fn are_silent(list: &[Stmt]) -> bool
    ensures { result ≡ are_silent (statements_syntax list.now) }
{
    for item in list {
        if !is_silent_form(&item.kind) {
            return false;
        }
    }
    true
}
