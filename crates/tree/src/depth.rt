//! How deep a tree is: the number of statements and expressions on its longest path down, counting both ends. What
//! counts as one, and what as nothing, `specs/Depth.antt` says. A depth past the largest `u32` is given as that.

ghost use Rattle.std.specs.Prelude.{◌≡◌, min, option_map};
ghost use Rattle.tree.specs.Depth.{expression_depth, below_expression, expressions_depth, optional_depth, signature_depth, parameters_depth, fields_depth, statement_depth, below_statement, statements_depth, optional_statement_depth, else_depth, cases_depth, communications_depth, declaration_depth, specs_depth, receiver_depth, body_depth, function_depth, top_level_depth, file_depth};
ghost use Rattle.tree.specs.Syntax.{no_parameter, no_field, no_spec};
ghost use Rattle.tree.specs.View.{expression_form, expression_syntax, expressions_syntax, optional_expression_syntax, signature_syntax, parameters_syntax, fields_syntax, statement_form, statement_syntax, statements_syntax, optional_statement_syntax, cases_syntax, communications_syntax, declaration_syntax, specs_syntax, function_syntax, top_level_syntax, file_syntax, block_syntax, parameter_and, field_and, spec_and};

use crate::declaration::{Decl, Spec};
use crate::expression::{Expr, ExprKind, Field, Param, Signature};
use crate::file::{File, Func, TopLevelDecl};
use crate::statement::{Block, CaseClause, CommClause, Stmt, StmtKind};

impl File {
    /// The depth of the deepest declaration, and 0 where there is none.
    pub fn depth(&self) -> u32
        ensures { result ≡ min u32.MAX (file_depth (file_syntax self.now)) }
    {
        let mut depth = 0u32;
        for declaration in &self.declarations {
            depth = depth.max(top_level_depth(declaration));
        }
        depth
    }
}

fn top_level_depth(declaration: &TopLevelDecl) -> u32
    ensures { result ≡ min u32.MAX (top_level_depth (top_level_syntax declaration.now)) }
{
    match declaration {
        TopLevelDecl::Func(function) => function.depth(),
        TopLevelDecl::Decl(declaration) => specs_depth(&declaration.specs),
    }
}

impl Func {
    /// The depth of its receiver, type parameters, signature and body.
    pub fn depth(&self) -> u32
        ensures { result ≡ min u32.MAX (function_depth (function_syntax self.now)) }
    {
        let body = signature_depth(&self.signature).max(body_depth(&self.body));
        receiver_depth(&self.receiver).max(parameters_depth(&self.type_params).max(body))
    }
}

fn receiver_depth(receiver: &Option<Vec<Param>>) -> u32
    ensures { result ≡ min u32.MAX (receiver_depth (option_map (λ ps. parameters_syntax ps.items) receiver.now)) }
{
    match receiver {
        Some(params) => parameters_depth(params),
        None => 0,
    }
}

fn body_depth(body: &Option<Block>) -> u32
    ensures { result ≡ min u32.MAX (body_depth (option_map block_syntax body.now)) }
{
    match body {
        Some(block) => statements_depth(&block.statements),
        None => 0,
    }
}

impl Stmt {
    /// How deep the tree is; `u32::MAX` where it is deeper than that.
    pub fn depth(&self) -> u32
        ensures { result ≡ min u32.MAX (statement_depth (statement_syntax self.now)) }
    {
        statement_depth(self)
    }
}

impl Expr {
    /// How deep the tree is; `u32::MAX` where it is deeper than that.
    pub fn depth(&self) -> u32
        ensures { result ≡ min u32.MAX (expression_depth (expression_syntax self.now)) }
    {
        expression_depth(self)
    }
}

#[cycle(depth)]
fn expression_depth(expression: &Expr) -> u32
    ensures { result ≡ min u32.MAX (expression_depth (expression_syntax expression.now)) }
{
    let below = below_expression(&expression.kind);
    match expression.kind {
        ExprKind::KeyValue(_, _) => below,
        _ => below.saturating_add(1),
    }
}

/// The depth of what is below an expression.
#[cycle(depth)]
fn below_expression(kind: &ExprKind) -> u32
    ensures { result ≡ min u32.MAX (below_expression (expression_form kind.now)) }
{
    match kind {
        ExprKind::Name(_) => 0,
        ExprKind::BasicLit(_) => 0,
        ExprKind::FuncLit(literal) => {
            signature_depth(&literal.signature).max(statements_depth(&literal.body.statements))
        }
        ExprKind::CompositeLit(kind, elements) => {
            expression_depth(kind).max(expressions_depth(elements))
        }
        ExprKind::LiteralValue(elements) => expressions_depth(elements),
        ExprKind::KeyValue(key, value) => expression_depth(key).max(expression_depth(value)),
        ExprKind::Paren(operand) => expression_depth(operand),
        ExprKind::Selector(operand, _) => expression_depth(operand),
        ExprKind::Index(operand, index) => expression_depth(operand).max(expression_depth(index)),
        ExprKind::Instance(operand, arguments) => {
            expression_depth(operand).max(expressions_depth(arguments))
        }
        ExprKind::Slice(operand, bounds) => {
            let last = optional_depth(&bounds.high).max(optional_depth(&bounds.max));
            expression_depth(operand).max(optional_depth(&bounds.low).max(last))
        }
        ExprKind::TypeAssert(operand, kind) => {
            expression_depth(operand).max(expression_depth(kind))
        }
        ExprKind::Call(callee, arguments, _) => {
            expression_depth(callee).max(expressions_depth(arguments))
        }
        ExprKind::Star(operand) => expression_depth(operand),
        ExprKind::Unary(_, operand) => expression_depth(operand),
        ExprKind::Binary(_, left, right) => expression_depth(left).max(expression_depth(right)),
        ExprKind::ArrayType(length, element) => {
            expression_depth(length).max(expression_depth(element))
        }
        ExprKind::EllipsisArrayType(element) => expression_depth(element),
        ExprKind::SliceType(element) => expression_depth(element),
        ExprKind::MapType(key, element) => expression_depth(key).max(expression_depth(element)),
        ExprKind::ChanType(_, element) => expression_depth(element),
        ExprKind::FuncType(signature) => signature_depth(signature),
        ExprKind::StructType(fields) => fields_depth(fields),
        ExprKind::InterfaceType(fields) => fields_depth(fields),
    }
}

#[cycle(depth)]
fn expressions_depth(expressions: &[Expr]) -> u32
    ensures { result ≡ min u32.MAX (expressions_depth (expressions_syntax expressions.now)) }
{
    let mut depth = 0u32;
    for expression in expressions {
        depth = depth.max(expression_depth(expression));
    }
    depth
}

#[cycle(depth)]
fn optional_depth(expression: &Option<Box<Expr>>) -> u32
    ensures { result ≡ min u32.MAX (optional_depth (optional_expression_syntax expression.now)) }
{
    match expression {
        Some(expression) => expression_depth(expression),
        None => 0,
    }
}

#[cycle(depth)]
fn signature_depth(signature: &Signature) -> u32
    ensures { result ≡ min u32.MAX (signature_depth (signature_syntax signature.now)) }
{
    parameters_depth(&signature.params).max(parameters_depth(&signature.results))
}

#[cycle(depth)]
fn parameters_depth(params: &[Param]) -> u32
    ensures { result ≡ min u32.MAX (parameters_depth (parameters_syntax params.now)) }
{
    let mut depth = 0u32;
    for param in params {
        depth = depth.max(parameter_depth(param));
    }
    depth
}

#[cycle(depth)]
fn parameter_depth(param: &Param) -> u32
    ensures { result ≡ min u32.MAX (parameters_depth (parameter_and param.now no_parameter)) }
{
    match param {
        Param::Named(_, _, kind) => expression_depth(kind),
        Param::Unnamed(_, kind) => expression_depth(kind),
        Param::NameAlone(_) => 0,
    }
}

#[cycle(depth)]
fn fields_depth(fields: &[Field]) -> u32
    ensures { result ≡ min u32.MAX (fields_depth (fields_syntax fields.now)) }
{
    let mut depth = 0u32;
    for field in fields {
        depth = depth.max(field_depth(field));
    }
    depth
}

#[cycle(depth)]
fn field_depth(field: &Field) -> u32
    ensures { result ≡ min u32.MAX (fields_depth (field_and field.now no_field)) }
{
    match field {
        Field::Named(_, kind, _, _) => expression_depth(kind),
        Field::Embedded(_, _, _, _) => 0,
        Field::Element(_, kind, _, _) => expression_depth(kind),
        Field::Method(_, signature, _) => signature_depth(signature),
    }
}

#[cycle(depth)]
fn statement_depth(statement: &Stmt) -> u32
    ensures { result ≡ min u32.MAX (statement_depth (statement_syntax statement.now)) }
{
    below_statement(&statement.kind).saturating_add(1)
}

/// The depth of what is below a statement.
#[cycle(depth)]
fn below_statement(kind: &StmtKind) -> u32
    ensures { result ≡ min u32.MAX (below_statement (statement_form kind.now)) }
{
    match kind {
        StmtKind::Empty => 0,
        StmtKind::Decl(declaration) => specs_depth(&declaration.specs),
        StmtKind::Labeled(_, statement) => statement_depth(statement),
        StmtKind::Expr(expression) => expression_depth(expression),
        StmtKind::Send(channel, value) => expression_depth(channel).max(expression_depth(value)),
        StmtKind::Increment(operand) => expression_depth(operand),
        StmtKind::Decrement(operand) => expression_depth(operand),
        StmtKind::Assign(left, right) => expressions_depth(left).max(expressions_depth(right)),
        StmtKind::AssignOp(_, left, right) => expression_depth(left).max(expression_depth(right)),
        StmtKind::Define(_, values) => expressions_depth(values),
        StmtKind::Go(call) => expression_depth(call),
        StmtKind::Defer(call) => expression_depth(call),
        StmtKind::Return(values) => expressions_depth(values),
        StmtKind::Break(_) => 0,
        StmtKind::Continue(_) => 0,
        StmtKind::Goto(_) => 0,
        StmtKind::Fallthrough => 0,
        StmtKind::Block(block) => statements_depth(&block.statements),
        StmtKind::If {
            init,
            condition,
            body,
            otherwise,
            ..
        } => {
            let branches = statements_depth(&body.statements).max(else_depth(otherwise));
            optional_statement_depth(init).max(expression_depth(condition).max(branches))
        }
        StmtKind::For {
            init,
            condition,
            post,
            body,
            ..
        } => {
            let after = optional_statement_depth(post).max(statements_depth(&body.statements));
            optional_statement_depth(init).max(optional_depth(condition).max(after))
        }
        StmtKind::RangeAssign(left, operand, body) => {
            let after = expression_depth(operand).max(statements_depth(&body.statements));
            expressions_depth(left).max(after)
        }
        StmtKind::RangeDefine(_, operand, body) => {
            expression_depth(operand).max(statements_depth(&body.statements))
        }
        StmtKind::Switch {
            init,
            tag,
            clauses,
            ..
        } => {
            let after = optional_depth(tag).max(cases_depth(clauses));
            optional_statement_depth(init).max(after)
        }
        StmtKind::TypeSwitch {
            init,
            operand,
            clauses,
            ..
        } => {
            let after = expression_depth(operand).max(cases_depth(clauses));
            optional_statement_depth(init).max(after)
        }
        StmtKind::Select(clauses) => communications_depth(clauses),
    }
}

#[cycle(depth)]
fn statements_depth(statements: &[Stmt]) -> u32
    ensures { result ≡ min u32.MAX (statements_depth (statements_syntax statements.now)) }
{
    let mut depth = 0u32;
    for statement in statements {
        depth = depth.max(statement_depth(statement));
    }
    depth
}

#[cycle(depth)]
fn optional_statement_depth(statement: &Option<Box<Stmt>>) -> u32
    ensures { result ≡ min u32.MAX (optional_statement_depth (optional_statement_syntax statement.now)) }
{
    match statement {
        Some(statement) => statement_depth(statement),
        None => 0,
    }
}

/// The depth of what stands after `else`: a block there counts nothing.
#[cycle(depth)]
fn else_depth(otherwise: &Option<Box<Stmt>>) -> u32
    ensures { result ≡ min u32.MAX (else_depth (optional_statement_syntax otherwise.now)) }
{
    match otherwise {
        Some(statement) => {
            let below = below_statement(&statement.kind);
            match statement.kind {
                StmtKind::Block(_) => below,
                _ => below.saturating_add(1),
            }
        }
        None => 0,
    }
}

#[cycle(depth)]
fn cases_depth(clauses: &[CaseClause]) -> u32
    ensures { result ≡ min u32.MAX (cases_depth (cases_syntax clauses.now)) }
{
    let mut depth = 0u32;
    for clause in clauses {
        let expressions = expressions_depth(&clause.expressions);
        depth = depth.max(expressions.max(statements_depth(&clause.statements)));
    }
    depth
}

#[cycle(depth)]
fn communications_depth(clauses: &[CommClause]) -> u32
    ensures { result ≡ min u32.MAX (communications_depth (communications_syntax clauses.now)) }
{
    let mut depth = 0u32;
    for clause in clauses {
        let communication = optional_statement_depth(&clause.communication);
        depth = depth.max(communication.max(statements_depth(&clause.statements)));
    }
    depth
}

#[cycle(depth)]
fn specs_depth(specs: &[Spec]) -> u32
    ensures { result ≡ min u32.MAX (specs_depth (specs_syntax specs.now)) }
{
    let mut depth = 0u32;
    for spec in specs {
        depth = depth.max(spec_depth(spec));
    }
    depth
}

#[cycle(depth)]
fn spec_depth(spec: &Spec) -> u32
    ensures { result ≡ min u32.MAX (specs_depth (spec_and spec.now no_spec)) }
{
    match spec {
        Spec::Value(_, kind, values, _) => optional_depth(kind).max(expressions_depth(values)),
        Spec::Type(_, params, _, kind, _) => parameters_depth(params).max(expression_depth(kind)),
    }
}
