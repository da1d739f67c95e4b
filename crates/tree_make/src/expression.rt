//! Expressions (the Go specification, "Expressions"). The span is the bytes that the node takes.

ghost use Rattle.std.specs.Prelude.{◌≡◌};
ghost use Rattle.tree.specs.Syntax.{expression_node, name_expression, basic_literal, function_literal, composite_literal, literal_value, key_value, parenthesized, selector_expression, index_expression, instance_expression, slice_expression, type_assertion, call_expression, star_expression, unary_expression, binary_expression};
ghost use Rattle.tree.specs.View.{identifier_syntax, signature_syntax, block_syntax, expression_syntax, expressions_syntax, optional_expression_syntax, low_bound, high_bound, most_bound, literal_syntax};

use tree::{
    BasicLitKind, BinaryOperator, Block, Bounds, Expr, ExprKind, Identifier, Literal, NameText,
    Signature, Span, UnaryOperator,
};

/// A name, with its text.
pub fn name_expression(text: NameText, span: Span) -> Expr
    ensures { expression_syntax result ≡ expression_node (name_expression text) span }
{
    let kind = ExprKind::Name(text);
    Expr { kind, span }
}

/// A number, a rune or a string.
pub fn basic_literal(kind: BasicLitKind, span: Span) -> Expr
    ensures { expression_syntax result ≡ expression_node (basic_literal kind) span }
{
    let kind = ExprKind::BasicLit(kind);
    Expr { kind, span }
}

/// `func(..) { .. }`, of the signature and the body that `literal` puts together.
pub fn function_literal(literal: Box<Literal>, span: Span) -> Expr
    ensures { expression_syntax result ≡ expression_node (literal_syntax literal.value) span }
{
    let kind = ExprKind::FuncLit(literal);
    Expr { kind, span }
}

/// A function literal's signature and its body.
pub fn literal(signature: Signature, body: Block) -> Literal
    ensures { literal_syntax result ≡ function_literal (signature_syntax signature) (block_syntax body).statements
        (block_syntax body).braces }
{
    Literal { signature, body }
}

/// `kind{ elements }`.
pub fn composite_literal(kind: Box<Expr>, elements: Vec<Expr>, span: Span) -> Expr
    ensures { expression_syntax result ≡ expression_node (composite_literal (expression_syntax kind.value)
        (expressions_syntax elements.items)) span }
{
    let kind = ExprKind::CompositeLit(kind, elements);
    Expr { kind, span }
}

/// `{ elements }`, an element without its type.
pub fn literal_value(elements: Vec<Expr>, span: Span) -> Expr
    ensures { expression_syntax result ≡ expression_node (literal_value (expressions_syntax elements.items)) span }
{
    let kind = ExprKind::LiteralValue(elements);
    Expr { kind, span }
}

/// `key: value`, an element.
pub fn key_value(key: Box<Expr>, value: Box<Expr>, span: Span) -> Expr
    ensures { expression_syntax result ≡ expression_node (key_value (expression_syntax key.value) (expression_syntax
        value.value)) span }
{
    let kind = ExprKind::KeyValue(key, value);
    Expr { kind, span }
}

/// `(operand)`.
pub fn parenthesized(operand: Box<Expr>, span: Span) -> Expr
    ensures { expression_syntax result ≡ expression_node (parenthesized (expression_syntax operand.value)) span }
{
    let kind = ExprKind::Paren(operand);
    Expr { kind, span }
}

/// `operand.name`.
pub fn selector_expression(operand: Box<Expr>, name: Identifier, span: Span) -> Expr
    ensures { expression_syntax result ≡ expression_node (selector_expression (expression_syntax operand.value)
        (identifier_syntax name)) span }
{
    let kind = ExprKind::Selector(operand, name);
    Expr { kind, span }
}

/// `operand[index]`, and an instance with one argument.
pub fn index_expression(operand: Box<Expr>, index: Box<Expr>, span: Span) -> Expr
    ensures { expression_syntax result ≡ expression_node (index_expression (expression_syntax operand.value)
        (expression_syntax index.value)) span }
{
    let kind = ExprKind::Index(operand, index);
    Expr { kind, span }
}

/// `operand[arguments]`, of two arguments or more, or of one and a comma.
pub fn instance_expression(operand: Box<Expr>, arguments: Vec<Expr>, span: Span) -> Expr
    ensures { expression_syntax result ≡ expression_node (instance_expression (expression_syntax operand.value)
        (expressions_syntax arguments.items)) span }
{
    let kind = ExprKind::Instance(operand, arguments);
    Expr { kind, span }
}

/// The bounds of a slice, each of which may be missing.
pub fn bounds(
    low: Option<Box<Expr>>,
    high: Option<Box<Expr>>,
    max: Option<Box<Expr>>, // behind a second colon
) -> Bounds
    ensures low { low_bound result ≡ optional_expression_syntax low }
    ensures high { high_bound result ≡ optional_expression_syntax high }
    ensures most { most_bound result ≡ optional_expression_syntax max }
{
    Bounds { low, high, max }
}

/// `operand[low:high:max]`.
pub fn slice_expression(operand: Box<Expr>, bounds: Box<Bounds>, span: Span) -> Expr
    ensures { expression_syntax result ≡ expression_node (slice_expression (expression_syntax operand.value)
        (low_bound bounds.value) (high_bound bounds.value) (most_bound bounds.value)) span }
{
    let kind = ExprKind::Slice(operand, bounds);
    Expr { kind, span }
}

/// `operand.(kind)`.
pub fn type_assertion(operand: Box<Expr>, kind: Box<Expr>, span: Span) -> Expr
    ensures { expression_syntax result ≡ expression_node (type_assertion (expression_syntax operand.value)
        (expression_syntax kind.value)) span }
{
    let kind = ExprKind::TypeAssert(operand, kind);
    Expr { kind, span }
}

/// `callee(arguments)`; whether `...` stands after the last one.
pub fn call_expression(
    callee: Box<Expr>,
    arguments: Vec<Expr>,
    has_ellipsis: bool,
    span: Span,
) -> Expr
    ensures { expression_syntax result ≡ expression_node (call_expression (expression_syntax callee.value)
        (expressions_syntax arguments.items) has_ellipsis) span }
{
    let kind = ExprKind::Call(callee, arguments, has_ellipsis);
    Expr { kind, span }
}

/// `*operand`.
pub fn star_expression(operand: Box<Expr>, span: Span) -> Expr
    ensures { expression_syntax result ≡ expression_node (star_expression (expression_syntax operand.value)) span }
{
    let kind = ExprKind::Star(operand);
    Expr { kind, span }
}

/// An operator and its operand.
pub fn unary_expression(operator: UnaryOperator, operand: Box<Expr>, span: Span) -> Expr
    ensures { expression_syntax result ≡ expression_node (unary_expression operator (expression_syntax
        operand.value)) span }
{
    let kind = ExprKind::Unary(operator, operand);
    Expr { kind, span }
}

/// Two operands with an operator between them.
pub fn binary_expression(
    operator: BinaryOperator,
    left: Box<Expr>,
    right: Box<Expr>,
    span: Span,
) -> Expr
    ensures { expression_syntax result ≡ expression_node (binary_expression operator (expression_syntax left.value)
        (expression_syntax right.value)) span }
{
    let kind = ExprKind::Binary(operator, left, right);
    Expr { kind, span }
}
