//! Letting parts go.

use tree::{
    Block, CaseClause, CommClause, Expr, Field, File, Param, Signature, Spec, Stmt, TopLevelDecl,
};

/// Lets a part go.
fn let_go<T: Drop>(_part: T) {}

/// Lets an expression go.
pub fn expression(part: Expr) {
    let_go(part);
}

/// Lets an expression in a box go.
pub fn boxed_expression(part: Box<Expr>) {
    let_go(part);
}

/// Lets an expression that may be missing go.
pub fn optional_expression(part: Option<Box<Expr>>) {
    let_go(part);
}

/// Lets expressions go.
pub fn expressions(part: Vec<Expr>) {
    let_go(part);
}

/// Lets a statement go.
pub fn statement(part: Stmt) {
    let_go(part);
}

/// Lets a statement in a box go.
pub fn boxed_statement(part: Box<Stmt>) {
    let_go(part);
}

/// Lets a statement that may be missing go.
pub fn optional_statement(part: Option<Box<Stmt>>) {
    let_go(part);
}

/// Lets statements go.
pub fn statements(part: Vec<Stmt>) {
    let_go(part);
}

/// Lets a block go.
pub fn block(part: Block) {
    let_go(part);
}

/// Lets items of a list of parameters go.
pub fn params(part: Vec<Param>) {
    let_go(part);
}

/// Lets a signature go.
pub fn signature(part: Signature) {
    let_go(part);
}

/// Lets lines of a struct or interface type go.
pub fn fields(part: Vec<Field>) {
    let_go(part);
}

/// Lets a spec go.
pub fn spec(part: Spec) {
    let_go(part);
}

/// Lets specs go.
pub fn specs(part: Vec<Spec>) {
    let_go(part);
}

/// Lets clauses of a `switch` go.
pub fn case_clauses(part: Vec<CaseClause>) {
    let_go(part);
}

/// Lets clauses of a `select` go.
pub fn communication_clauses(part: Vec<CommClause>) {
    let_go(part);
}

/// Lets a declaration of a file go.
pub fn top_level(part: TopLevelDecl) {
    let_go(part);
}

/// Lets declarations of a file go.
pub fn top_levels(part: Vec<TopLevelDecl>) {
    let_go(part);
}

/// Lets a receiver that may be missing go.
pub fn optional_params(part: Option<Vec<Param>>) {
    let_go(part);
}

/// Lets a file go.
pub fn file(part: File) {
    let_go(part);
}
