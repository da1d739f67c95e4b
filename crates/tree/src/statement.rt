//! Statements and blocks (the Go specification, "Statements", "Blocks").

use crate::declaration::Decl;
use crate::expression::Expr;
use crate::operator::BinaryOperator;
use crate::span::{Identifier, Span};

/// A statement, and its bytes.
#[derive(Drop)]
#[cycle(node)]
pub struct Stmt {
    pub kind: StmtKind,
    pub span: Span,
}

/// What a statement is.
#[derive(Drop)]
#[cycle(node)]
pub enum StmtKind {
    /// The empty statement after a label; others leave nothing in the tree.
    Empty,
    /// A declaration inside a function.
    Decl(Decl),
    /// `label: statement`.
    Labeled(Identifier, Box<Stmt>),
    /// An expression as a statement.
    Expr(Expr),
    /// `channel <- value`.
    Send(Box<Expr>, Box<Expr>),
    /// `operand++`.
    Increment(Expr),
    /// `operand--`.
    Decrement(Expr),
    /// `left = right`.
    Assign(Vec<Expr>, Vec<Expr>),
    /// `left += right`, and so with each arithmetic operator.
    AssignOp(BinaryOperator, Box<Expr>, Box<Expr>),
    /// `names := values`.
    Define(Vec<Identifier>, Vec<Expr>),
    /// `go call`.
    Go(Expr),
    /// `defer call`.
    Defer(Expr),
    /// `return values`.
    Return(Vec<Expr>),
    /// `break`, perhaps with a label.
    Break(Option<Identifier>),
    /// `continue`, perhaps with a label.
    Continue(Option<Identifier>),
    /// `goto label`.
    Goto(Identifier),
    /// `fallthrough`.
    Fallthrough,
    /// A block as a statement.
    Block(Block),
    /// `if init; condition body else otherwise`, where `otherwise` is a block or an `if`. The `;` may stand
    /// there without an `init`.
    If {
        init: Option<Box<Stmt>>,
        has_semicolon: bool,
        condition: Box<Expr>,
        body: Block,
        otherwise: Option<Box<Stmt>>,
    },
    /// `for init; condition; post body`, each of which may be missing, and without semicolons
    /// `for condition body`.
    For {
        init: Option<Box<Stmt>>,
        condition: Option<Box<Expr>>,
        post: Option<Box<Stmt>>,
        has_semicolons: bool,
        body: Block,
    },
    /// `for left = range operand body`, or `for range operand body`.
    RangeAssign(Vec<Expr>, Box<Expr>, Block),
    /// `for names := range operand body`.
    RangeDefine(Vec<Identifier>, Box<Expr>, Block),
    /// `switch init; tag { clauses }`.
    Switch {
        init: Option<Box<Stmt>>,
        has_semicolon: bool,
        tag: Option<Box<Expr>>,
        clauses: Vec<CaseClause>,
    },
    /// `switch init; name := operand.(type) { clauses }`.
    TypeSwitch {
        init: Option<Box<Stmt>>,
        has_semicolon: bool,
        name: Option<Identifier>,
        operand: Box<Expr>,
        clauses: Vec<CaseClause>,
    },
    /// `select { clauses }`.
    Select(Vec<CommClause>),
}

/// Statements in braces; the span takes in the braces.
#[derive(Drop)]
#[cycle(node)]
pub struct Block {
    pub statements: Vec<Stmt>,
    pub span: Span,
}

/// A clause of a `switch`: `case expressions:`, or `default:`, which has none.
#[derive(Drop)]
#[cycle(node)]
pub struct CaseClause {
    pub expressions: Vec<Expr>,
    pub statements: Vec<Stmt>,
    pub span: Span,
}

/// A clause of a `select`: `case communication:`, or `default:`, which has none.
#[derive(Drop)]
#[cycle(node)]
pub struct CommClause {
    pub communication: Option<Box<Stmt>>,
    pub statements: Vec<Stmt>,
    pub span: Span,
}
