//! Blocks, the statements that have a header, and their clauses (the Go specification, "Blocks", "If statements", "For
//! statements", "Switch statements", "Select statements").

ghost use Rattle.std.specs.Prelude.{◌≡◌, map, option_map};
ghost use Rattle.tree.specs.Syntax.{statement_node, if_statement, for_statement, range_assignment, range_definition, switch_statement, type_switch_statement, select_statement, CaseClauses, case_and, CommunicationClauses, communication_and};
ghost use Rattle.tree.specs.View.{identifier_syntax, block_syntax, expression_syntax, expressions_syntax, optional_expression_syntax, statement_syntax, statements_syntax, optional_statement_syntax, cases_syntax, communications_syntax, case_clause_and, communication_clause_and};

use tree::{Block, CaseClause, CommClause, Expr, Identifier, Span, Stmt, StmtKind};

/// `{ statements }`, which takes the bytes of the span.
pub fn block(statements: Vec<Stmt>, span: Span) -> Block
    ensures { block_syntax result ≡ record { statements = statements_syntax statements.items; braces = span } }
{
    Block { statements, span }
}

/// `case expressions: statements`, and `default: statements` where there are none.
pub fn case_clause(expressions: Vec<Expr>, statements: Vec<Stmt>, span: Span) -> CaseClause
    ensures { (after : CaseClauses) → case_clause_and result after
        ≡ case_and (expressions_syntax expressions.items) (statements_syntax statements.items) span after }
{
    CaseClause {
        expressions,
        statements,
        span,
    }
}

/// `case communication: statements`, and `default: statements` where it is missing.
pub fn communication_clause(
    communication: Option<Box<Stmt>>,
    statements: Vec<Stmt>,
    span: Span,
) -> CommClause
    ensures { (after : CommunicationClauses) → communication_clause_and result after
        ≡ communication_and (optional_statement_syntax communication) (statements_syntax statements.items)
        span after }
{
    CommClause {
        communication,
        statements,
        span,
    }
}

/// `if init; condition body else otherwise`; whether the `;` stands there.
pub fn if_statement(
    init: Option<Box<Stmt>>,
    has_semicolon: bool,
    condition: Box<Expr>,
    body: Block,
    otherwise: Option<Box<Stmt>>,
    span: Span,
) -> Stmt
    ensures { statement_syntax result ≡ statement_node (if_statement (optional_statement_syntax init) has_semicolon
        (expression_syntax condition.value) (block_syntax body).statements (block_syntax body).braces
        (optional_statement_syntax otherwise)) span }
{
    let kind = StmtKind::If {
        init,
        has_semicolon,
        condition,
        body,
        otherwise,
    };
    Stmt { kind, span }
}

/// `for init; condition; post body`; whether the semicolons stand there.
pub fn for_statement(
    init: Option<Box<Stmt>>,
    condition: Option<Box<Expr>>,
    post: Option<Box<Stmt>>,
    has_semicolons: bool,
    body: Block,
    span: Span,
) -> Stmt
    ensures { statement_syntax result ≡ statement_node (for_statement (optional_statement_syntax init)
        (optional_expression_syntax condition) (optional_statement_syntax post) has_semicolons (block_syntax
        body).statements (block_syntax body).braces) span }
{
    let kind = StmtKind::For {
        init,
        condition,
        post,
        has_semicolons,
        body,
    };
    Stmt { kind, span }
}

/// `for left = range operand body`, or `for range operand body`.
pub fn range_assignment(left: Vec<Expr>, operand: Box<Expr>, body: Block, span: Span) -> Stmt
    ensures { statement_syntax result ≡ statement_node (range_assignment (expressions_syntax left.items)
        (expression_syntax operand.value) (block_syntax body).statements (block_syntax body).braces) span }
{
    let kind = StmtKind::RangeAssign(left, operand, body);
    Stmt { kind, span }
}

/// `for names := range operand body`.
pub fn range_definition(names: Vec<Identifier>, operand: Box<Expr>, body: Block, span: Span) -> Stmt
    ensures { statement_syntax result ≡ statement_node (range_definition (map identifier_syntax names.items)
        (expression_syntax operand.value) (block_syntax body).statements (block_syntax body).braces) span }
{
    let kind = StmtKind::RangeDefine(names, operand, body);
    Stmt { kind, span }
}

/// `switch init; tag { clauses }`; whether the `;` stands there.
pub fn switch_statement(
    init: Option<Box<Stmt>>,
    has_semicolon: bool,
    tag: Option<Box<Expr>>,
    clauses: Vec<CaseClause>,
    span: Span,
) -> Stmt
    ensures { statement_syntax result ≡ statement_node (switch_statement (optional_statement_syntax init)
        has_semicolon (optional_expression_syntax tag) (cases_syntax clauses.items)) span }
{
    let kind = StmtKind::Switch {
        init,
        has_semicolon,
        tag,
        clauses,
    };
    Stmt { kind, span }
}

/// `switch init; name := operand.(type) { clauses }`; whether the `;` stands there.
pub fn type_switch_statement(
    init: Option<Box<Stmt>>,
    has_semicolon: bool,
    name: Option<Identifier>,
    operand: Box<Expr>,
    clauses: Vec<CaseClause>,
    span: Span,
) -> Stmt
    ensures { statement_syntax result ≡ statement_node (type_switch_statement (optional_statement_syntax init)
        has_semicolon (option_map identifier_syntax name) (expression_syntax operand.value) (cases_syntax
        clauses.items)) span }
{
    let kind = StmtKind::TypeSwitch {
        init,
        has_semicolon,
        name,
        operand,
        clauses,
    };
    Stmt { kind, span }
}

/// `select { clauses }`.
pub fn select_statement(clauses: Vec<CommClause>, span: Span) -> Stmt
    ensures { statement_syntax result ≡ statement_node (select_statement (communications_syntax clauses.items)) span }
{
    let kind = StmtKind::Select(clauses);
    Stmt { kind, span }
}
