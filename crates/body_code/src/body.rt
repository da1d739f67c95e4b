//! The code of statements.

ghost use Rattle.std.specs.Prelude.{◌≡◌, ◌-◌, [], ◌∷◌, IfOk, map, if◌then◌else◌};
ghost use Rattle.code.specs.CodeViews.{text_now, way_view, block_of, IsCode};
ghost use Rattle.body_code.specs.SiteViews.{sites_view};
ghost use Rattle.meaning.specs.Code.{then_code, leave};
ghost use Rattle.meaning.specs.StatementCode.{stuck, is_present, site, statement_code, form_code, optional_code, statements_code, cases_code, communications_code, block_code, body_code};
ghost use Rattle.tree.specs.declared.statement.CaseClause.{out-CaseClause};
ghost use Rattle.tree.specs.declared.statement.CommClause.{out-CommClause};
ghost use Rattle.tree.specs.View.{identifier_syntax, statement_form, statement_syntax, statements_syntax, optional_statement_syntax, optional_expression_syntax, cases_syntax, communications_syntax};

use crate::clauses::{one_clause, one_communication, switch};
use crate::jumping::jumping;
use crate::site::{branch_at, declaration, ending, leaving, site};
use crate::sites::Sites;
use body_parts::jumps_in;
use code::parts::{
    Jump, Made, in_sequence, label_of, one_of, one_turn, then, turns, two_ways, way_to,
};
use code::{Code, Occurrence, Way};
use std::alloc::{AllocError, Global};
use tree::{CaseClause, CommClause, Expr, Identifier, Span, Stmt, StmtKind};

/// The labels of a labeled statement, the innermost first: its own, and after it those that stand before it.
fn with_label<'a>(
    alloc: Global,
    name: &'a Identifier,
    labels: &[&'a str],
) -> Result<Vec<&'a str>, AllocError>
    ensures { IfOk result (λ texts. map text_now texts.items ≡ (identifier_syntax name.now).text
        ∷ map text_now labels.now) }
{
    let mut texts = Vec::new(alloc);
    texts.push(name.text.as_str())?;
    texts.extend_from_slice(labels)?;
    Ok(texts)
}

/// The code of an expression as a statement: nothing comes after a call of the universe's `panic`.
fn expression_statement<'a, E: Copy>(alloc: Global, sites: &Sites<E>, at: u32) -> Made<'a, E>
    ensures { IsCode result (if (sites_view sites.now).panics at
        then then_code (site (sites_view sites.now) at) stuck else site (sites_view sites.now) at) }
{
    if sites.panics_at(at) {
        ending(alloc, sites, at)
    } else {
        site(alloc, sites, at)
    }
}

/// Whether the header of a `for` has a condition.
fn is_present(condition: &Option<Box<Expr>>) -> bool
    ensures { result ≡ is_present (optional_expression_syntax condition.now) }
{
    condition.is_some()
}

/// The code of a statement with these labels, the innermost first.
#[cycle(code)]
fn statement<'a, E: Copy>(
    alloc: Global,
    sites: &Sites<E>,
    labels: &[&'a str],
    statement: &'a Stmt,
) -> Made<'a, E>
    ensures { IsCode result (statement_code (sites_view sites.now) (map text_now labels.now)
        (statement_syntax statement.now)) }
{
    form(alloc, sites, labels, statement.span.start, &statement.kind)
}

/// The code of a statement that begins at the offset.
#[cycle(code)]
fn form<'a, E: Copy>(
    alloc: Global,
    sites: &Sites<E>,
    labels: &[&'a str],
    at: u32,
    kind: &'a StmtKind,
) -> Made<'a, E>
    ensures { IsCode result (form_code (sites_view sites.now) (map text_now labels.now) at
        (statement_form kind.now)) }
{
    match kind {
        StmtKind::Empty => Ok(Code::Skip),
        StmtKind::Decl(declared) => declaration(alloc, sites, declared),
        StmtKind::Labeled(name, labeled) => {
            let texts = with_label(alloc, name, labels)?;
            statement(alloc, sites, &texts, labeled)
        }
        StmtKind::Expr(_) => expression_statement(alloc, sites, at),
        StmtKind::Send(_, _) => site(alloc, sites, at),
        StmtKind::Increment(_) => site(alloc, sites, at),
        StmtKind::Decrement(_) => site(alloc, sites, at),
        StmtKind::Assign(_, _) => site(alloc, sites, at),
        StmtKind::AssignOp(_, _, _) => site(alloc, sites, at),
        StmtKind::Define(_, _) => site(alloc, sites, at),
        StmtKind::Go(_) => site(alloc, sites, at),
        StmtKind::Defer(_) => site(alloc, sites, at),
        StmtKind::Return(_) => leaving(alloc, sites, at, Way::Returning),
        StmtKind::Break(label) => {
            leaving(alloc, sites, at, way_to(Jump::Break, label_of(label)))
        }
        StmtKind::Continue(label) => {
            leaving(alloc, sites, at, way_to(Jump::Continue, label_of(label)))
        }
        StmtKind::Goto(_) => ending(alloc, sites, at),
        StmtKind::Fallthrough => leaving(alloc, sites, at, Way::Falling(at)),
        StmtKind::Block(inner) => statements(alloc, sites, &inner.statements),
        StmtKind::If {
            init,
            body,
            otherwise,
            ..
        } => two_ways(
            alloc,
            optional(alloc, sites, init),
            site(alloc, sites, at),
            branch_at(
                alloc,
                sites,
                body.span.start,
                statements(alloc, sites, &body.statements),
            ),
            branch_at(
                alloc,
                sites,
                last_brace(body.span),
                optional(alloc, sites, otherwise),
            ),
        ),
        StmtKind::For {
            init,
            condition,
            post,
            body,
            ..
        } => then(
            alloc,
            optional(alloc, sites, init),
            turns(
                alloc,
                labels,
                site(alloc, sites, at),
                one_turn(
                    alloc,
                    labels,
                    is_present(condition),
                    statements(alloc, sites, &body.statements),
                    optional(alloc, sites, post),
                ),
            ),
        ),
        StmtKind::RangeAssign(_, _, body) => turns(
            alloc,
            labels,
            site(alloc, sites, at),
            one_turn(
                alloc,
                labels,
                true,
                statements(alloc, sites, &body.statements),
                Ok(Code::Skip),
            ),
        ),
        StmtKind::RangeDefine(_, _, body) => turns(
            alloc,
            labels,
            site(alloc, sites, at),
            one_turn(
                alloc,
                labels,
                true,
                statements(alloc, sites, &body.statements),
                Ok(Code::Skip),
            ),
        ),
        StmtKind::Switch { init, clauses, .. } => {
            let list: &'a [CaseClause] = clauses;
            then(
                alloc,
                optional(alloc, sites, init),
                switch(
                    alloc,
                    labels,
                    site(alloc, sites, at),
                    list,
                    cases(alloc, sites, list),
                ),
            )
        }
        StmtKind::TypeSwitch { init, clauses, .. } => {
            let list: &'a [CaseClause] = clauses;
            then(
                alloc,
                optional(alloc, sites, init),
                one_clause(
                    alloc,
                    labels,
                    site(alloc, sites, at),
                    list,
                    cases(alloc, sites, list),
                ),
            )
        }
        StmtKind::Select(clauses) => one_communication(
            alloc,
            labels,
            site(alloc, sites, at),
            communications(alloc, sites, clauses),
        ),
    }
}

/// The code of a statement that may be missing.
#[cycle(code)]
fn optional<'a, E: Copy>(
    alloc: Global,
    sites: &Sites<E>,
    present: &'a Option<Box<Stmt>>,
) -> Made<'a, E>
    ensures { IsCode result (optional_code (sites_view sites.now)
        (optional_statement_syntax present.now)) }
{
    match present {
        Some(present) => statement(alloc, sites, &[], present),
        None => Ok(Code::Skip),
    }
}

/// The code of statements, one after the other. There may be many, so they are a list, and nothing recurs along it.
#[cycle(code)]
fn statements<'a, E: Copy>(alloc: Global, sites: &Sites<E>, list: &'a [Stmt]) -> Made<'a, E>
    ensures { IsCode result (statements_code (sites_view sites.now)
        (statements_syntax list.now)) }
{
    let mut codes = Vec::new(alloc);
    for item in list {
        let code = statement(alloc, sites, &[], item)?;
        codes.push(code)?;
    }
    Ok(in_sequence(codes))
}

/// The code of a clause of a switch.
#[cycle(code)]
fn case<'a, E: Copy>(alloc: Global, sites: &Sites<E>, clause: &'a CaseClause) -> Made<'a, E>
    ensures { IsCode result (then_code (site (sites_view sites.now) (out-CaseClause clause.now).span.start)
        (statements_code (sites_view sites.now) (statements_syntax (out-CaseClause clause.now).statements.items))) }
{
    then(
        alloc,
        site(alloc, sites, clause.span.start),
        statements(alloc, sites, &clause.statements),
    )
}

/// The code of the clauses of a switch: one is entered.
#[cycle(code)]
fn cases<'a, E: Copy>(alloc: Global, sites: &Sites<E>, clauses: &'a [CaseClause]) -> Made<'a, E>
    ensures { IsCode result (cases_code (sites_view sites.now) (cases_syntax clauses.now)) }
{
    let mut codes = Vec::new(alloc);
    for clause in clauses {
        let code = case(alloc, sites, clause)?;
        codes.push(code)?;
    }
    Ok(one_of(codes))
}

/// The code of a clause of a `select`.
#[cycle(code)]
fn communication<'a, E: Copy>(
    alloc: Global,
    sites: &Sites<E>,
    clause: &'a CommClause,
) -> Made<'a, E>
    ensures { IsCode result (then_code (site (sites_view sites.now) (out-CommClause clause.now).span.start)
        (statements_code (sites_view sites.now) (statements_syntax (out-CommClause clause.now).statements.items))) }
{
    then(
        alloc,
        site(alloc, sites, clause.span.start),
        statements(alloc, sites, &clause.statements),
    )
}

/// The code of the clauses of a `select`: one is entered.
#[cycle(code)]
fn communications<'a, E: Copy>(
    alloc: Global,
    sites: &Sites<E>,
    clauses: &'a [CommClause],
) -> Made<'a, E>
    ensures { IsCode result (communications_code (sites_view sites.now)
        (communications_syntax clauses.now)) }
{
    let mut codes = Vec::new(alloc);
    for clause in clauses {
        let code = communication(alloc, sites, clause)?;
        codes.push(code)?;
    }
    Ok(one_of(codes))
}

/// The code of the statements of a body: of its parts alone, where a `goto` is among them.
fn block<'a, E: Copy>(alloc: Global, sites: &Sites<E>, list: &'a [Stmt]) -> Made<'a, E>
    ensures { IsCode result (block_code (sites_view sites.now) (statements_syntax list.now)) }
{
    let jumps = jumps_in(alloc, list)?;
    if jumps.is_empty() {
        statements(alloc, sites, list)
    } else {
        jumping(alloc, sites, list)
    }
}

/// The offset of the last brace of a block.
fn last_brace(braces: Span) -> u32
    ensures { result ≡ braces.end - 1 }
{
    braces.end.saturating_sub(1)
}

/// What a body with these statements between its braces does: an event at its first brace, then its statements, and
/// then, where they are left at their end, the return at its last brace.
///
/// # Errors
///
/// Memory was refused.
pub fn body_code<'a, E: Copy>(
    alloc: Global,
    sites: &Sites<E>,
    list: &'a [Stmt],
    braces: Span,
) -> Made<'a, E>
    ensures { IsCode result (body_code (sites_view sites.now) (block_of (statements_syntax list.now) braces)) }
{
    let entry = Occurrence {
        at: braces.start,
        order: 0,
        event: sites.other(),
    };
    let last = Occurrence {
        at: last_brace(braces),
        order: 0,
        event: sites.returns(),
    };
    let inner = block(alloc, sites, list);
    then(
        alloc,
        Ok(Code::Does(entry)),
        then(alloc, inner, Ok(Code::Does(last))),
    )
}
