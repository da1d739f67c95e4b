//! The syntax tree of a Go file (the Go specification, from "Source file organization" back to "Types"), each node
//! with the bytes that it takes. It is named as Go's own `go/ast` and the specification name it.
#![tactic(auto)]

pub mod declaration;
pub mod depth;
pub mod edition;
pub mod expression;
pub mod file;
pub mod name_text;
pub mod operator;
pub mod span;
pub mod statement;

pub use declaration::{Decl, Spec};
pub use edition::Edition;
pub use expression::{Bounds, Expr, ExprKind, Field, Literal, Param, Signature};
pub use file::{File, Func, ImportDecl, ImportSpec, TopLevelDecl};
pub use name_text::NameText;
pub use operator::{BasicLitKind, BinaryOperator, ChanDirection, DeclKeyword, UnaryOperator};
pub use span::{BLANK, Identifier, Span, TypeName};
pub use statement::{Block, CaseClause, CommClause, Stmt, StmtKind};
