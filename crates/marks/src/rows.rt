//! Which row a statement is, or ends with.

ghost use Rattle.std.specs.Prelude.{◌≡◌, None, option_map};
ghost use Rattle.meaning.specs.Mentions.{last_row, row_in, first_row};
ghost use Rattle.mentions.specs.MarkViews.{row_view};
ghost use Rattle.tree.specs.Syntax.{no_spec};
ghost use Rattle.tree.specs.View.{spec_and, specs_syntax, statement_syntax, optional_statement_syntax};

use mentions::{Row, RowForm, Standing};
use tree::{DeclKeyword, Spec, Stmt, StmtKind};

/// The row of a spec, which names no type.
fn row_of_spec(keyword: DeclKeyword, at: u32, spec: &Spec) -> Option<Row<'_>>
    ensures { option_map row_view result ≡ last_row keyword at None (spec_and spec.now no_spec) }
{
    match spec {
        Spec::Value(names, kind, values, _) => Some(Row {
            form: RowForm::Declares(keyword, names, kind),
            values,
            statement: at,
            standing: Standing::Ordinary,
        }),
        Spec::Type(_, _, _, _, _) => None,
    }
}

/// The row of the last spec of a declaration that begins at the offset.
fn last_row(keyword: DeclKeyword, at: u32, specs: &[Spec]) -> Option<Row<'_>>
    ensures { option_map row_view result ≡ last_row keyword at None (specs_syntax specs.now) }
{
    let mut row = None;
    for spec in specs {
        let found = row_of_spec(keyword, at, spec);
        row = found;
    }
    row
}

/// The row that a statement without label is, or ends with.
pub fn row_in(statement: &Stmt) -> Option<Row<'_>>
    ensures { option_map row_view result ≡ row_in (statement_syntax statement.now) }
{
    match &statement.kind {
        StmtKind::Assign(left, values) => Some(Row {
            form: RowForm::Assigns(left),
            values,
            statement: statement.span.start,
            standing: Standing::Ordinary,
        }),
        StmtKind::Define(names, values) => Some(Row {
            form: RowForm::Defines(names),
            values,
            statement: statement.span.start,
            standing: Standing::Ordinary,
        }),
        StmtKind::Decl(declaration) => last_row(
            declaration.keyword,
            declaration.span.start,
            &declaration.specs,
        ),
        _ => None,
    }
}

/// The row that the first statement of an `if` is, or ends with.
pub fn first_row(init: &Option<Box<Stmt>>) -> Option<Row<'_>>
    ensures { option_map row_view result ≡ first_row (optional_statement_syntax init.now) }
{
    match init {
        Some(statement) => row_in(statement),
        None => None,
    }
}
