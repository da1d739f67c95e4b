//! Files and what stands in them (the Go specification, "Packages", "Function declarations", "Method declarations").

use crate::declaration::Decl;
use crate::expression::{Param, Signature};
use crate::span::{Identifier, Span};
use crate::statement::Block;

/// A file: its package clause's name, its imports and its declarations, in the order of the text.
#[derive(Drop)]
pub struct File {
    pub package_name: Identifier,
    pub imports: Vec<ImportDecl>,
    pub declarations: Vec<TopLevelDecl>,
    pub span: Span,
}

/// An import declaration; whether its specs stand in brackets.
#[derive(Drop)]
pub struct ImportDecl {
    pub specs: Vec<ImportSpec>,
    pub is_grouped: bool,
    pub span: Span,
}

/// `"path"`, or `name "path"`, where the name may be `.` ("Import declarations"): the text between the path's quotes,
/// and the bytes of the path's token.
#[derive(Drop)]
pub struct ImportSpec {
    pub name: Option<Identifier>,
    pub path: String,
    pub path_span: Span,
    pub span: Span,
}

/// A declaration outside all functions.
#[derive(Drop)]
pub enum TopLevelDecl {
    Func(Func),
    Decl(Decl),
}

/// A function, or a method, which has a receiver; one without a body is written elsewhere. Type parameters stand as
/// parameters do: names with a constraint, or alone before one with it ("Type parameter declarations").
#[derive(Drop)]
pub struct Func {
    pub receiver: Option<Vec<Param>>,
    pub name: Identifier,
    pub type_params: Vec<Param>,
    pub signature: Signature,
    pub body: Option<Block>,
    pub span: Span,
}
