//! What the condition of an `if` finds out: names that are nil, and names that are not (the Go specification, "Logical
//! operators", "Comparison operators").

ghost use Rattle.std.specs.Prelude.{◌≡◌, ◌++◌, OnOk, option_map};
ghost use Rattle.meaning.specs.Mentions.{as_bare, nil_test, has_both, compares, nil_where, nil_marks, error_where, error_marks, guard_marks};
ghost use Rattle.mentions.specs.MarkViews.{Adds, named_view, row_view, test_view, listed_test};
ghost use Rattle.tree.specs.View.{expression_syntax};

use crate::kept::Marks;
use crate::mark::{Named, Role, Row};
use crate::named::as_bare;
use crate::parts::mention;
use std::alloc::AllocError;
use tree::{BinaryOperator, Expr, ExprKind, Span};

/// A name that is compared with `nil`, and the offset of `nil`.
#[derive(Clone, Copy)]
pub struct NilTest<'a> {
    pub named: Named<'a>,
    pub nil: u32,
}

/// The first of two operands, if the second one is `nil`, by its form.
fn nil_test<'a>(left: Option<Named<'a>>, right: Option<Named<'a>>) -> Option<NilTest<'a>>
    ensures { listed_test (option_map test_view result) ≡ nil_test (option_map named_view left.entry)
        (option_map named_view right.entry) }
{
    match (left, right) {
        (Some(named), Some(nil)) => {
            if nil.name == "nil" {
                Some(NilTest { named, nil: nil.at })
            } else {
                None
            }
        }
        _ => None,
    }
}

/// Whether both operands come out so where this does.
fn has_both(outcome: bool, operator: BinaryOperator) -> bool
    ensures { result ≡ has_both outcome operator }
{
    match operator {
        BinaryOperator::LogicalAnd => outcome,
        BinaryOperator::LogicalOr => !outcome,
        _ => false,
    }
}

/// Whether the operands are equal where this comes out so.
fn compares(outcome: bool, operator: BinaryOperator) -> bool
    ensures { result ≡ compares outcome operator }
{
    match operator {
        BinaryOperator::Equal => outcome,
        BinaryOperator::NotEqual => !outcome,
        _ => false,
    }
}

/// Adds the name that is nil there, if there is a test.
fn nil_mark<'m, 'a>(
    marks: &mut Marks<'m, 'a>,
    site: u32,
    test: Option<NilTest<'a>>,
) -> Result<(), AllocError>
    ensures { OnOk result (Adds marks.old.list.items marks.new.list.items (nil_marks site (listed_test
        (option_map test_view test.entry)))) }
{
    match test {
        Some(test) => mention(marks, site, Role::FoundNil(test.nil), test.named),
        None => Ok(()),
    }
}

/// Adds the operands of a comparison that are nil where both are equal.
fn nil_operands<'m, 'a>(
    marks: &mut Marks<'m, 'a>,
    site: u32,
    left: &'a Expr,
    right: &'a Expr,
) -> Result<(), AllocError>
    ensures { OnOk result (Adds marks.old.list.items marks.new.list.items (nil_marks site
        (nil_test (as_bare (expression_syntax left.now)) (as_bare (expression_syntax right.now))
        ++ nil_test (as_bare (expression_syntax right.now)) (as_bare (expression_syntax left.now))))) }
{
    nil_mark(marks, site, nil_test(as_bare(left), as_bare(right)))?;
    nil_mark(marks, site, nil_test(as_bare(right), as_bare(left)))
}

/// Adds the names that are nil wherever the condition has come out so, at that site.
///
/// # Errors
///
/// Memory was refused.
pub fn found_nil<'m, 'a>(
    marks: &mut Marks<'m, 'a>,
    site: u32,
    outcome: bool,
    condition: &'a Expr,
) -> Result<(), AllocError>
    ensures { OnOk result (Adds marks.old.list.items marks.new.list.items (nil_marks site
        (nil_where outcome (expression_syntax condition.now)))) }
{
    match &condition.kind {
        ExprKind::Binary(operator, left, right) => {
            if has_both(outcome, *operator) {
                found_nil(marks, site, outcome, left)?;
                return found_nil(marks, site, outcome, right);
            }
            if compares(outcome, *operator) {
                return nil_operands(marks, site, left, right);
            }
            Ok(())
        }
        _ => Ok(()),
    }
}

/// Adds the name that is not nil there, behind the row, if there is a test.
fn error_mark<'m, 'a>(
    marks: &mut Marks<'m, 'a>,
    site: u32,
    row: &'m Row<'a>,
    test: Option<NilTest<'a>>,
) -> Result<(), AllocError>
    ensures { OnOk result (Adds marks.old.list.items marks.new.list.items (error_marks site (row_view row.now)
        (listed_test (option_map test_view test.entry)))) }
{
    match test {
        Some(test) => mention(marks, site, Role::FoundError(test.nil, row), test.named),
        None => Ok(()),
    }
}

/// Adds the operands of a comparison that are not nil where they differ.
fn error_operands<'m, 'a>(
    marks: &mut Marks<'m, 'a>,
    site: u32,
    row: &'m Row<'a>,
    left: &'a Expr,
    right: &'a Expr,
) -> Result<(), AllocError>
    ensures { OnOk result (Adds marks.old.list.items marks.new.list.items (error_marks site (row_view row.now)
        (nil_test (as_bare (expression_syntax left.now)) (as_bare (expression_syntax right.now))
        ++ nil_test (as_bare (expression_syntax right.now)) (as_bare (expression_syntax left.now))))) }
{
    error_mark(marks, site, row, nil_test(as_bare(left), as_bare(right)))?;
    error_mark(marks, site, row, nil_test(as_bare(right), as_bare(left)))
}

/// Adds the name that is not nil where the condition, one comparison, has come out so, at that site.
fn found_error<'m, 'a>(
    marks: &mut Marks<'m, 'a>,
    site: u32,
    row: &'m Row<'a>,
    outcome: bool,
    condition: &'a Expr,
) -> Result<(), AllocError>
    ensures { OnOk result (Adds marks.old.list.items marks.new.list.items (error_marks site (row_view row.now)
        (error_where outcome (expression_syntax condition.now)))) }
{
    match &condition.kind {
        ExprKind::Binary(operator, left, right) => {
            if compares(!outcome, *operator) {
                error_operands(marks, site, row, left, right)
            } else {
                Ok(())
            }
        }
        _ => Ok(()),
    }
}

/// Adds the names that are not nil in the block between the braces, and past it, of an `if` behind the row.
///
/// # Errors
///
/// Memory was refused.
pub fn guard_marks<'m, 'a>(
    marks: &mut Marks<'m, 'a>,
    row: Option<Row<'a>>,
    condition: &'a Expr,
    braces: Span,
) -> Result<(), AllocError>
    ensures { OnOk result (Adds marks.old.list.items marks.new.list.items (guard_marks (option_map row_view row.entry)
        (expression_syntax condition.now) braces)) }
{
    match row {
        Some(row) => {
            let kept = marks.keep_row(row)?;
            found_error(marks, braces.start, kept, true, condition)?;
            found_error(marks, braces.end.saturating_sub(1), kept, false, condition)
        }
        None => Ok(()),
    }
}
