//! Statements without a header, and the specs of declarations (the Go specification, "Statements", "Declarations and
//! scope").

ghost use Rattle.std.specs.Prelude.{◌≡◌, map, option_map};
ghost use Rattle.tree.specs.Syntax.{statement_node, empty_statement, declaration_statement, labeled_statement, expression_statement, send_statement, increment_statement, decrement_statement, assignment, operator_assignment, define_statement, go_statement, defer_statement, return_statement, break_statement, continue_statement, goto_statement, fallthrough_statement, block_statement, Specs, value_and, type_and};
ghost use Rattle.tree.specs.View.{identifier_syntax, block_syntax, expression_syntax, expressions_syntax, optional_expression_syntax, parameters_syntax, statement_syntax, declaration_syntax, spec_and};

use tree::{BinaryOperator, Block, Decl, Expr, Identifier, Param, Span, Spec, Stmt, StmtKind};

/// The empty statement after a label.
pub fn empty_statement(span: Span) -> Stmt
    ensures { statement_syntax result ≡ statement_node empty_statement span }
{
    let kind = StmtKind::Empty;
    Stmt { kind, span }
}

/// A declaration inside a function.
pub fn declaration_statement(declaration: Decl, span: Span) -> Stmt
    ensures { statement_syntax result ≡ statement_node (declaration_statement (declaration_syntax declaration)) span }
{
    let kind = StmtKind::Decl(declaration);
    Stmt { kind, span }
}

/// `label: statement`.
pub fn labeled_statement(label: Identifier, statement: Box<Stmt>, span: Span) -> Stmt
    ensures { statement_syntax result ≡ statement_node (labeled_statement (identifier_syntax label)
        (statement_syntax statement.value)) span }
{
    let kind = StmtKind::Labeled(label, statement);
    Stmt { kind, span }
}

/// An expression as a statement.
pub fn expression_statement(expression: Expr, span: Span) -> Stmt
    ensures { statement_syntax result ≡ statement_node (expression_statement (expression_syntax expression)) span }
{
    let kind = StmtKind::Expr(expression);
    Stmt { kind, span }
}

/// `channel <- value`.
pub fn send_statement(channel: Box<Expr>, value: Box<Expr>, span: Span) -> Stmt
    ensures { statement_syntax result ≡ statement_node (send_statement (expression_syntax channel.value)
        (expression_syntax value.value)) span }
{
    let kind = StmtKind::Send(channel, value);
    Stmt { kind, span }
}

/// `operand++`.
pub fn increment_statement(operand: Expr, span: Span) -> Stmt
    ensures { statement_syntax result ≡ statement_node (increment_statement (expression_syntax operand)) span }
{
    let kind = StmtKind::Increment(operand);
    Stmt { kind, span }
}

/// `operand--`.
pub fn decrement_statement(operand: Expr, span: Span) -> Stmt
    ensures { statement_syntax result ≡ statement_node (decrement_statement (expression_syntax operand)) span }
{
    let kind = StmtKind::Decrement(operand);
    Stmt { kind, span }
}

/// `left = right`.
pub fn assignment(left: Vec<Expr>, right: Vec<Expr>, span: Span) -> Stmt
    ensures { statement_syntax result ≡ statement_node (assignment (expressions_syntax left.items)
        (expressions_syntax right.items)) span }
{
    let kind = StmtKind::Assign(left, right);
    Stmt { kind, span }
}

/// `left += right`, and so with each arithmetic operator.
pub fn operator_assignment(
    operator: BinaryOperator,
    left: Box<Expr>,
    right: Box<Expr>,
    span: Span,
) -> Stmt
    ensures { statement_syntax result ≡ statement_node (operator_assignment operator (expression_syntax left.value)
        (expression_syntax right.value)) span }
{
    let kind = StmtKind::AssignOp(operator, left, right);
    Stmt { kind, span }
}

/// `names := values`.
pub fn define_statement(names: Vec<Identifier>, values: Vec<Expr>, span: Span) -> Stmt
    ensures { statement_syntax result ≡ statement_node (define_statement (map identifier_syntax names.items)
        (expressions_syntax values.items)) span }
{
    let kind = StmtKind::Define(names, values);
    Stmt { kind, span }
}

/// `go call`.
pub fn go_statement(call: Expr, span: Span) -> Stmt
    ensures { statement_syntax result ≡ statement_node (go_statement (expression_syntax call)) span }
{
    let kind = StmtKind::Go(call);
    Stmt { kind, span }
}

/// `defer call`.
pub fn defer_statement(call: Expr, span: Span) -> Stmt
    ensures { statement_syntax result ≡ statement_node (defer_statement (expression_syntax call)) span }
{
    let kind = StmtKind::Defer(call);
    Stmt { kind, span }
}

/// `return values`.
pub fn return_statement(values: Vec<Expr>, span: Span) -> Stmt
    ensures { statement_syntax result ≡ statement_node (return_statement (expressions_syntax values.items)) span }
{
    let kind = StmtKind::Return(values);
    Stmt { kind, span }
}

/// `break`, perhaps with a label.
pub fn break_statement(label: Option<Identifier>, span: Span) -> Stmt
    ensures { statement_syntax result ≡ statement_node (break_statement (option_map identifier_syntax label)) span }
{
    let kind = StmtKind::Break(label);
    Stmt { kind, span }
}

/// `continue`, perhaps with a label.
pub fn continue_statement(label: Option<Identifier>, span: Span) -> Stmt
    ensures { statement_syntax result ≡ statement_node (continue_statement (option_map identifier_syntax label))
        span }
{
    let kind = StmtKind::Continue(label);
    Stmt { kind, span }
}

/// `goto label`.
pub fn goto_statement(label: Identifier, span: Span) -> Stmt
    ensures { statement_syntax result ≡ statement_node (goto_statement (identifier_syntax label)) span }
{
    let kind = StmtKind::Goto(label);
    Stmt { kind, span }
}

/// `fallthrough`.
pub fn fallthrough_statement(span: Span) -> Stmt
    ensures { statement_syntax result ≡ statement_node fallthrough_statement span }
{
    let kind = StmtKind::Fallthrough;
    Stmt { kind, span }
}

/// A block as a statement.
pub fn block_statement(block: Block, span: Span) -> Stmt
    ensures { statement_syntax result ≡ statement_node (block_statement (block_syntax block).statements
        (block_syntax block).braces) span }
{
    let kind = StmtKind::Block(block);
    Stmt { kind, span }
}

/// `names Type = values` in a declaration; the type or the values may be missing.
pub fn value_spec(
    names: Vec<Identifier>,
    kind: Option<Box<Expr>>,
    values: Vec<Expr>,
    span: Span,
) -> Spec
    ensures { (after : Specs) → spec_and result after
        ≡ value_and (map identifier_syntax names.items) (optional_expression_syntax kind)
        (expressions_syntax values.items) span after }
{
    Spec::Value(names, kind, values, span)
}

/// `name Type` in a declaration, or `name = Type`; whether `=` stands there. Type parameters follow the name, if there
/// are any.
pub fn type_spec(
    name: Identifier,
    params: Vec<Param>,
    is_alias: bool,
    kind: Box<Expr>,
    span: Span,
) -> Spec
    ensures { (after : Specs) → spec_and result after ≡ type_and (identifier_syntax name)
        (parameters_syntax params.items) is_alias (expression_syntax kind.value) span after }
{
    Spec::Type(name, params, is_alias, kind, span)
}
