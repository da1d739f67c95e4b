//! Expressions, and types, which are expressions too (the Go specification, "Expressions", "Types").

use crate::name_text::NameText;
use crate::operator::{BasicLitKind, BinaryOperator, ChanDirection, UnaryOperator};
use crate::span::{Identifier, Span, TypeName};
use crate::statement::Block;

/// An expression or a type, and its bytes.
#[derive(Drop)]
#[cycle(node)]
pub struct Expr {
    pub kind: ExprKind,
    pub span: Span,
}

/// What an expression or a type is.
#[derive(Drop)]
#[cycle(node)]
pub enum ExprKind {
    /// A name, with its text.
    Name(NameText),
    /// A number, a rune or a string.
    BasicLit(BasicLitKind),
    /// `func(..) { .. }`.
    FuncLit(Box<Literal>),
    /// `Type{ .. }`; its elements may be literal values and key-value pairs.
    CompositeLit(Box<Expr>, Vec<Expr>),
    /// `{ .. }` among the elements of a composite literal: one without its type.
    LiteralValue(Vec<Expr>),
    /// `key: value` among the elements of a composite literal.
    KeyValue(Box<Expr>, Box<Expr>),
    /// `(operand)`.
    Paren(Box<Expr>),
    /// `operand.name`; the type `package.Name` too.
    Selector(Box<Expr>, Identifier),
    /// `operand[index]`, and an instance with one argument ("Instantiations").
    Index(Box<Expr>, Box<Expr>),
    /// `operand[arguments]`: an instance with two arguments or more, or with one and a comma ("Instantiations").
    Instance(Box<Expr>, Vec<Expr>),
    /// `operand[low:high:max]`. The bounds stand in a box, so that what is seldom makes no other node larger.
    Slice(Box<Expr>, Box<Bounds>),
    /// `operand.(Type)`.
    TypeAssert(Box<Expr>, Box<Expr>),
    /// `callee(arguments)`; whether `...` stands after the last one.
    Call(Box<Expr>, Vec<Expr>, bool),
    /// `*operand`: what a pointer points to, or the type of pointers.
    Star(Box<Expr>),
    /// An operator and its operand.
    Unary(UnaryOperator, Box<Expr>),
    /// Two operands with an operator between them.
    Binary(BinaryOperator, Box<Expr>, Box<Expr>),
    /// `[length]Type`.
    ArrayType(Box<Expr>, Box<Expr>),
    /// `[...]Type`.
    EllipsisArrayType(Box<Expr>),
    /// `[]Type`.
    SliceType(Box<Expr>),
    /// `map[Key]Type`.
    MapType(Box<Expr>, Box<Expr>),
    /// `chan Type`, `chan<- Type`, `<-chan Type`.
    ChanType(ChanDirection, Box<Expr>),
    /// `func(..) ..`.
    FuncType(Box<Signature>),
    /// `struct{ .. }`.
    StructType(Vec<Field>),
    /// `interface{ .. }`.
    InterfaceType(Vec<Field>),
}

/// The bounds of a slice expression, each of which may be missing.
#[derive(Drop)]
#[cycle(node)]
pub struct Bounds {
    pub low: Option<Box<Expr>>,
    pub high: Option<Box<Expr>>,
    pub max: Option<Box<Expr>>,
}

/// A function literal. It takes the bytes of its expression.
#[derive(Drop)]
#[cycle(node)]
pub struct Literal {
    pub signature: Signature,
    pub body: Block,
}

/// Parameters and results (the Go specification, "Function types"). A result that is one type without brackets
/// is one unnamed item.
#[derive(Drop)]
#[cycle(node)]
pub struct Signature {
    pub params: Vec<Param>,
    pub results: Vec<Param>,
    pub has_result_brackets: bool,
}

/// An item of a list of parameters.
#[derive(Drop)]
#[cycle(node)]
pub enum Param {
    /// `name Type`, or `name ...Type`; whether `...` stands there.
    Named(Identifier, bool, Expr),
    /// `Type`, or `...Type`; whether `...` stands there.
    Unnamed(bool, Expr),
    /// A name that takes the type of the next item.
    NameAlone(Identifier),
}

/// A line of a struct type or of an interface type (the Go specification, "Struct types", "Interface types").
#[derive(Drop)]
#[cycle(node)]
pub enum Field {
    /// `a, b Type`, in a struct, and its tag, if any.
    Named(Vec<Identifier>, Expr, Option<Span>, Span),
    /// `Type` or `*Type`, whether `*` stands there, and its tag, if any; in an interface `Type` alone.
    Embedded(bool, TypeName, Option<Span>, Span),
    /// An instance that a struct embeds, whether `*` stands before it, and its tag, if any; in an interface a union or
    /// another constraint that is more than a name ("General interfaces").
    Element(bool, Expr, Option<Span>, Span),
    /// `name(..) ..`, in an interface.
    Method(Identifier, Signature, Span),
}
