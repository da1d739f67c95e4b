//! The names in expressions, types and statements, in the order in which they are declared and used.

ghost use Rattle.std.specs.Prelude.{◌≡◌, OnOk, option_map};
ghost use Rattle.meaning.specs.Scopes.{expression_names, expression_form_names, expressions_names, optional_names, signature_names, parameters_names, fields_names, statement_names, statement_form_names, statements_names, optional_statement_names, cases_names, communications_names, specs_names, embedded_name};
ghost use Rattle.scopes.specs.Views.{Adds};
ghost use Rattle.tree.specs.Syntax.{no_parameter, no_field, no_spec};
ghost use Rattle.tree.specs.declared.statement.CommClause.{out-CommClause};
ghost use Rattle.tree.specs.View.{identifier_syntax, type_name_syntax, expression_form, expression_syntax, expressions_syntax, optional_expression_syntax, signature_syntax, parameters_syntax, fields_syntax, statement_form, statement_syntax, statements_syntax, optional_statement_syntax, cases_syntax, communications_syntax, specs_syntax, parameter_and, field_and, spec_and};

use crate::declared::{
    behind_name, declare_guard, declare_literal, declare_names, declare_short, declare_type,
    declare_type_parameters,
};
use crate::naming::{Naming, Scope};
use std::alloc::AllocError;
use tree::{
    CaseClause, CommClause, DeclKeyword, Expr, ExprKind, Field, Identifier, Param, Signature, Span,
    Spec, Stmt, StmtKind, TypeName,
};

/// The names of an expression.
///
/// # Errors
///
/// Memory was refused.
#[cycle(names)]
pub fn expression<'a>(namings: &mut Vec<Naming<'a>>, expression: &'a Expr) -> Result<(), AllocError>
    ensures { OnOk result (Adds namings.old.items namings.new.items (expression_names
        (expression_syntax expression.now))) }
{
    expression_form(namings, expression.span.start, &expression.kind)
}

/// The names of an expression that begins at the offset.
#[cycle(names)]
fn expression_form<'a>(
    namings: &mut Vec<Naming<'a>>,
    at: u32,
    kind: &'a ExprKind,
) -> Result<(), AllocError>
    ensures { OnOk result (Adds namings.old.items namings.new.items (expression_form_names at
        (expression_form kind.now))) }
{
    match kind {
        ExprKind::Name(text) => {
            namings.push(Naming::Use(text.as_str(), at))?;
            Ok(())
        }
        ExprKind::BasicLit(_) => Ok(()),
        ExprKind::FuncLit(literal) => {
            signature(namings, &literal.signature)?;
            declare_literal(namings, literal)?;
            statements(namings, literal.body.span, &literal.body.statements)
        }
        ExprKind::CompositeLit(kind, elements) => {
            expression(namings, kind)?;
            expressions(namings, elements)
        }
        ExprKind::LiteralValue(elements) => expressions(namings, elements),
        ExprKind::KeyValue(key, value) => {
            element_key(namings, key)?;
            expression(namings, value)
        }
        ExprKind::Paren(operand) => expression(namings, operand),
        ExprKind::Selector(operand, _) => expression(namings, operand),
        ExprKind::Index(operand, index) => {
            expression(namings, operand)?;
            expression(namings, index)
        }
        ExprKind::Instance(operand, arguments) => {
            expression(namings, operand)?;
            expressions(namings, arguments)
        }
        ExprKind::Slice(operand, bounds) => {
            expression(namings, operand)?;
            optional(namings, &bounds.low)?;
            optional(namings, &bounds.high)?;
            optional(namings, &bounds.max)
        }
        ExprKind::TypeAssert(operand, kind) => {
            expression(namings, operand)?;
            expression(namings, kind)
        }
        ExprKind::Call(callee, arguments, _) => {
            expression(namings, callee)?;
            expressions(namings, arguments)
        }
        ExprKind::Star(operand) => expression(namings, operand),
        ExprKind::Unary(_, operand) => expression(namings, operand),
        ExprKind::Binary(_, left, right) => {
            expression(namings, left)?;
            expression(namings, right)
        }
        ExprKind::ArrayType(length, element) => {
            expression(namings, length)?;
            expression(namings, element)
        }
        ExprKind::EllipsisArrayType(element) => expression(namings, element),
        ExprKind::SliceType(element) => expression(namings, element),
        ExprKind::MapType(index, element) => {
            expression(namings, index)?;
            expression(namings, element)
        }
        ExprKind::ChanType(_, element) => expression(namings, element),
        ExprKind::FuncType(kind) => signature(namings, kind),
        ExprKind::StructType(list) => fields(namings, list),
        ExprKind::InterfaceType(list) => fields(namings, list),
    }
}

/// The names of a key. Where it is a name alone, it counts as used: only the type of the literal tells whether it is a
/// field's.
#[cycle(names)]
fn element_key<'a>(namings: &mut Vec<Naming<'a>>, key: &'a Expr) -> Result<(), AllocError>
    ensures { OnOk result (Adds namings.old.items namings.new.items (expression_names (expression_syntax key.now))) }
{
    expression(namings, key)
}

/// The names of expressions, one after the other.
///
/// # Errors
///
/// Memory was refused.
#[cycle(names)]
pub fn expressions<'a>(namings: &mut Vec<Naming<'a>>, list: &'a [Expr]) -> Result<(), AllocError>
    ensures { OnOk result (Adds namings.old.items namings.new.items (expressions_names (expressions_syntax list.now))) }
{
    for item in list {
        expression(namings, item)?;
    }
    Ok(())
}

/// The names of an expression, where there is one.
///
/// # Errors
///
/// Memory was refused.
#[cycle(names)]
pub fn optional<'a>(
    namings: &mut Vec<Naming<'a>>,
    present: &'a Option<Box<Expr>>,
) -> Result<(), AllocError>
    ensures { OnOk result (Adds namings.old.items namings.new.items (optional_names
        (optional_expression_syntax present.now))) }
{
    match present {
        Some(present) => expression(namings, present),
        None => Ok(()),
    }
}

/// The names of a signature's types.
#[cycle(names)]
pub fn signature<'a>(
    namings: &mut Vec<Naming<'a>>,
    signature: &'a Signature,
) -> Result<(), AllocError>
    ensures { OnOk result (Adds namings.old.items namings.new.items (signature_names
        (signature_syntax signature.now))) }
{
    parameters(namings, &signature.params)?;
    parameters(namings, &signature.results)
}

/// The names of the types of parameters.
///
/// # Errors
///
/// Memory was refused.
#[cycle(names)]
pub fn parameters<'a>(namings: &mut Vec<Naming<'a>>, list: &'a [Param]) -> Result<(), AllocError>
    ensures { OnOk result (Adds namings.old.items namings.new.items (parameters_names (parameters_syntax list.now))) }
{
    for item in list {
        parameter(namings, item)?;
    }
    Ok(())
}

#[cycle(names)]
fn parameter<'a>(namings: &mut Vec<Naming<'a>>, param: &'a Param) -> Result<(), AllocError>
    ensures { OnOk result (Adds namings.old.items namings.new.items (parameters_names
        (parameter_and param.now no_parameter))) }
{
    match param {
        Param::Named(_, _, kind) => expression(namings, kind),
        Param::Unnamed(_, kind) => expression(namings, kind),
        Param::NameAlone(_) => Ok(()),
    }
}

#[cycle(names)]
fn fields<'a>(namings: &mut Vec<Naming<'a>>, list: &'a [Field]) -> Result<(), AllocError>
    ensures { OnOk result (Adds namings.old.items namings.new.items (fields_names (fields_syntax list.now))) }
{
    for item in list {
        field(namings, item)?;
    }
    Ok(())
}

#[cycle(names)]
fn field<'a>(namings: &mut Vec<Naming<'a>>, field: &'a Field) -> Result<(), AllocError>
    ensures { OnOk result (Adds namings.old.items namings.new.items (fields_names (field_and field.now no_field))) }
{
    match field {
        Field::Named(_, kind, _, _) => expression(namings, kind),
        Field::Embedded(_, name, _, _) => embedded(namings, name),
        Field::Element(_, kind, _, _) => expression(namings, kind),
        Field::Method(_, kind, _) => signature(namings, kind),
    }
}

/// An embedded type is used by its first name.
fn embedded<'a>(namings: &mut Vec<Naming<'a>>, name: &'a TypeName) -> Result<(), AllocError>
    ensures { OnOk result (Adds namings.old.items namings.new.items (embedded_name (type_name_syntax name.now))) }
{
    let first = match &name.package {
        Some(package) => package,
        None => &name.name,
    };
    namings.push(Naming::Use(first.text.as_str(), first.span.start))?;
    Ok(())
}

/// The block that a statement is by itself, as each `if`, `for` and `switch` is one: all its bytes.
fn statement_block(statement: &Stmt) -> Span
    ensures { result ≡ statement.now.span }
{
    statement.span
}

/// The names of a statement that stands in the block.
#[cycle(names)]
fn statement<'a>(
    namings: &mut Vec<Naming<'a>>,
    block: Span,
    statement: &'a Stmt,
) -> Result<(), AllocError>
    ensures { OnOk result (Adds namings.old.items namings.new.items (statement_names block
        (statement_syntax statement.now))) }
{
    statement_form(namings, block, statement_block(statement), &statement.kind)
}

/// The names of a statement that takes the bytes of the span.
#[cycle(names)]
fn statement_form<'a>(
    namings: &mut Vec<Naming<'a>>,
    block: Span,
    span: Span,
    kind: &'a StmtKind,
) -> Result<(), AllocError>
    ensures { OnOk result (Adds namings.old.items namings.new.items (statement_form_names block span
        (statement_form kind.now))) }
{
    match kind {
        StmtKind::Empty => Ok(()),
        StmtKind::Decl(declaration) => {
            specs(namings, block, declaration.keyword, &declaration.specs)
        }
        StmtKind::Labeled(_, labeled) => statement(namings, block, labeled),
        StmtKind::Expr(value) => expression(namings, value),
        StmtKind::Send(channel, value) => {
            expression(namings, channel)?;
            expression(namings, value)
        }
        StmtKind::Increment(operand) => expression(namings, operand),
        StmtKind::Decrement(operand) => expression(namings, operand),
        StmtKind::Assign(left, right) => {
            expressions(namings, left)?;
            expressions(namings, right)
        }
        StmtKind::AssignOp(_, left, right) => {
            expression(namings, left)?;
            expression(namings, right)
        }
        StmtKind::Define(names, values) => {
            expressions(namings, values)?;
            declare_short(namings, block, span, names)
        }
        StmtKind::Go(call) => expression(namings, call),
        StmtKind::Defer(call) => expression(namings, call),
        StmtKind::Return(values) => expressions(namings, values),
        StmtKind::Break(_) => Ok(()),
        StmtKind::Continue(_) => Ok(()),
        StmtKind::Goto(_) => Ok(()),
        StmtKind::Fallthrough => Ok(()),
        StmtKind::Block(inner) => statements(namings, inner.span, &inner.statements),
        StmtKind::If {
            init,
            condition,
            body,
            otherwise,
            ..
        } => {
            optional_statement(namings, span, init)?;
            expression(namings, condition)?;
            statements(namings, body.span, &body.statements)?;
            optional_statement(namings, span, otherwise)
        }
        StmtKind::For {
            init,
            condition,
            post,
            body,
            ..
        } => {
            optional_statement(namings, span, init)?;
            optional(namings, condition)?;
            optional_statement(namings, span, post)?;
            statements(namings, body.span, &body.statements)
        }
        StmtKind::RangeAssign(left, operand, body) => {
            expressions(namings, left)?;
            expression(namings, operand)?;
            statements(namings, body.span, &body.statements)
        }
        StmtKind::RangeDefine(names, operand, body) => {
            expression(namings, operand)?;
            declare_short(namings, span, operand.span, names)?;
            statements(namings, body.span, &body.statements)
        }
        StmtKind::Switch {
            init,
            tag,
            clauses,
            ..
        } => {
            optional_statement(namings, span, init)?;
            optional(namings, tag)?;
            cases(namings, None, clauses)
        }
        StmtKind::TypeSwitch {
            init,
            name,
            operand,
            clauses,
            ..
        } => {
            optional_statement(namings, span, init)?;
            expression(namings, operand)?;
            cases(namings, name.as_ref(), clauses)
        }
        StmtKind::Select(clauses) => communications(namings, clauses),
    }
}

/// The names of the statements of that block.
///
/// # Errors
///
/// Memory was refused.
#[cycle(names)]
pub fn statements<'a>(
    namings: &mut Vec<Naming<'a>>,
    block: Span,
    list: &'a [Stmt],
) -> Result<(), AllocError>
    ensures { OnOk result (Adds namings.old.items namings.new.items (statements_names block
        (statements_syntax list.now))) }
{
    for item in list {
        statement(namings, block, item)?;
    }
    Ok(())
}

#[cycle(names)]
fn optional_statement<'a>(
    namings: &mut Vec<Naming<'a>>,
    block: Span,
    present: &'a Option<Box<Stmt>>,
) -> Result<(), AllocError>
    ensures { OnOk result (Adds namings.old.items namings.new.items (optional_statement_names block
        (optional_statement_syntax present.now))) }
{
    match present {
        Some(present) => statement(namings, block, present),
        None => Ok(()),
    }
}

/// The names of the clauses of a switch, with the name of a type switch.
#[cycle(names)]
fn cases<'a>(
    namings: &mut Vec<Naming<'a>>,
    guard: Option<&'a Identifier>,
    clauses: &'a [CaseClause],
) -> Result<(), AllocError>
    ensures { OnOk result (Adds namings.old.items namings.new.items (cases_names (option_map
        (λ n. identifier_syntax n.now) guard.entry) (cases_syntax clauses.now))) }
{
    for clause in clauses {
        declare_guard(namings, guard, clause.span, &clause.expressions)?;
        expressions(namings, &clause.expressions)?;
        statements(namings, clause.span, &clause.statements)?;
    }
    Ok(())
}

/// The block of a clause: all its bytes.
fn clause_block(clause: &CommClause) -> Span
    ensures { result ≡ (out-CommClause clause.now).span }
{
    clause.span
}

/// The names of the clauses of a `select`.
#[cycle(names)]
fn communications<'a>(
    namings: &mut Vec<Naming<'a>>,
    clauses: &'a [CommClause],
) -> Result<(), AllocError>
    ensures { OnOk result (Adds namings.old.items namings.new.items (communications_names
        (communications_syntax clauses.now))) }
{
    for clause in clauses {
        let block = clause_block(clause);
        optional_statement(namings, block, &clause.communication)?;
        statements(namings, block, &clause.statements)?;
    }
    Ok(())
}

#[cycle(names)]
fn specs<'a>(
    namings: &mut Vec<Naming<'a>>,
    block: Span,
    keyword: DeclKeyword,
    list: &'a [Spec],
) -> Result<(), AllocError>
    ensures { OnOk result (Adds namings.old.items namings.new.items (specs_names block keyword
        (specs_syntax list.now))) }
{
    for item in list {
        spec(namings, block, keyword, item)?;
    }
    Ok(())
}

/// The scope of a constant or a variable begins after its own spec.
#[cycle(names)]
fn spec<'a>(
    namings: &mut Vec<Naming<'a>>,
    block: Span,
    keyword: DeclKeyword,
    spec: &'a Spec,
) -> Result<(), AllocError>
    ensures { OnOk result (Adds namings.old.items namings.new.items (specs_names block keyword
        (spec_and spec.now no_spec))) }
{
    match spec {
        Spec::Value(names, kind, values, span) => {
            optional(namings, kind)?;
            expressions(namings, values)?;
            let scope = Scope {
                block,
                from: span.end,
            };
            declare_names(namings, keyword, scope, false, names)
        }
        Spec::Type(name, params, _, kind, span) => {
            declare_type(namings, block, name)?;
            declare_type_parameters(namings, behind_name(name, *span), params)?;
            parameters(namings, params)?;
            expression(namings, kind)
        }
    }
}
