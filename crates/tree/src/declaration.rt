//! Declarations of constants, variables and types (the Go specification, "Declarations and scope").

use crate::expression::{Expr, Param};
use crate::operator::DeclKeyword;
use crate::span::{Identifier, Span};

/// A declaration; whether its specs stand in brackets.
#[derive(Drop)]
#[cycle(node)]
pub struct Decl {
    pub keyword: DeclKeyword,
    pub specs: Vec<Spec>,
    pub is_grouped: bool,
    pub span: Span,
}

/// What one line of a declaration declares.
#[derive(Drop)]
#[cycle(node)]
pub enum Spec {
    /// Of constants or variables: `names Type = values`; the type or the values may be missing.
    Value(Vec<Identifier>, Option<Box<Expr>>, Vec<Expr>, Span),
    /// Of a type: `name Type`, or `name = Type`, an alias; whether `=` stands there. Type parameters follow the name,
    /// if there are any ("Type parameter declarations").
    Type(Identifier, Vec<Param>, bool, Box<Expr>, Span),
}
