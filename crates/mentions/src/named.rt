//! Expressions that are names, or names with another one after a dot.

ghost use Rattle.std.specs.Prelude.{◌≡◌, option_map};
ghost use Rattle.meaning.specs.Mentions.{addressed, addressed_within, select_from, as_bare, bare_within, as_named, as_bracketed, as_pointer, as_new_literal, without_brackets, embedded};
ghost use Rattle.mentions.specs.MarkViews.{named_view};
ghost use Rattle.tree.specs.declared.operator.UnaryOperator.TheVariants.{Address};
ghost use Rattle.tree.specs.View.{expression_syntax, identifier_syntax, type_name_syntax};

use crate::mark::Named;
use tree::{Expr, ExprKind, Identifier, TypeName, UnaryOperator};

/// `n`.
pub fn as_bare(expression: &Expr) -> Option<Named<'_>>
    ensures { option_map named_view result ≡ as_bare (expression_syntax expression.now) }
{
    match &expression.kind {
        ExprKind::Name(text) => Some(Named {
            name: text.as_str(),
            at: expression.span.start,
            selected: None,
        }),
        _ => None,
    }
}

/// `n`, or `n.m`.
pub fn as_named(expression: &Expr) -> Option<Named<'_>>
    ensures { option_map named_view result ≡ as_named (expression_syntax expression.now) }
{
    match &expression.kind {
        ExprKind::Name(text) => Some(Named {
            name: text.as_str(),
            at: expression.span.start,
            selected: None,
        }),
        ExprKind::Selector(operand, member) => select_from(as_bare(operand), member),
        _ => None,
    }
}

/// `n.m`, where there is an n.
pub fn select_from<'a>(named: Option<Named<'a>>, member: &'a Identifier) -> Option<Named<'a>>
    ensures { option_map named_view result ≡ select_from
        (option_map named_view named.entry) (identifier_syntax member.now) }
{
    match named {
        Some(named) => Some(Named {
            name: named.name,
            at: named.at,
            selected: Some(member.text.as_str()),
        }),
        None => None,
    }
}

/// What stands in brackets of any number.
fn without_brackets(expression: &Expr) -> &Expr
    ensures { expression_syntax result.now ≡ without_brackets (expression_syntax expression.now) }
{
    match &expression.kind {
        ExprKind::Paren(operand) => without_brackets(operand),
        _ => expression,
    }
}

/// `(n)`, or `(n.m)`, in brackets of any number.
pub fn as_bracketed(expression: &Expr) -> Option<Named<'_>>
    ensures { option_map named_view result ≡ as_bracketed (expression_syntax expression.now) }
{
    match &expression.kind {
        ExprKind::Paren(operand) => as_named(without_brackets(operand)),
        _ => None,
    }
}

/// `n`, in brackets or not.
pub fn bare_within(expression: &Expr) -> Option<Named<'_>>
    ensures { option_map named_view result ≡ bare_within (expression_syntax expression.now) }
{
    as_bare(without_brackets(expression))
}

/// `*n`, or `*n.m`.
pub fn as_pointer(expression: &Expr) -> Option<Named<'_>>
    ensures { option_map named_view result ≡ as_pointer (expression_syntax expression.now) }
{
    match &expression.kind {
        ExprKind::Star(operand) => as_named(operand),
        _ => None,
    }
}

/// T of `&T{}`.
pub fn as_new_literal(operator: UnaryOperator, operand: &Expr) -> Option<Named<'_>>
    ensures { option_map named_view result ≡ as_new_literal operator (expression_syntax operand.now) }
{
    match operator {
        UnaryOperator::Address => as_empty_literal(operand),
        _ => None,
    }
}

/// T of `T{}`, which `&` stands before.
fn as_empty_literal(operand: &Expr) -> Option<Named<'_>>
    ensures { option_map named_view result ≡ as_new_literal Address (expression_syntax operand.now) }
{
    match &operand.kind {
        ExprKind::CompositeLit(kind, elements) => {
            if elements.as_slice().is_empty() {
                as_named(kind)
            } else {
                None
            }
        }
        _ => None,
    }
}

/// `&n`: the operand of the operator.
pub fn addressed(operator: UnaryOperator, operand: &Expr) -> Option<Named<'_>>
    ensures { option_map named_view result ≡ addressed operator
        (expression_syntax operand.now) }
{
    match operator {
        UnaryOperator::Address => as_bare(operand),
        _ => None,
    }
}

/// `&n`, where n may stand in brackets: the operand of the operator.
pub fn addressed_within(operator: UnaryOperator, operand: &Expr) -> Option<Named<'_>>
    ensures { option_map named_view result ≡ addressed_within operator
        (expression_syntax operand.now) }
{
    match operator {
        UnaryOperator::Address => bare_within(operand),
        _ => None,
    }
}

/// An embedded type.
pub fn embedded(kind: &TypeName) -> Named<'_>
    ensures { named_view result ≡ embedded (type_name_syntax kind.now) }
{
    match &kind.package {
        Some(package) => Named {
            name: package.text.as_str(),
            at: package.span.start,
            selected: Some(kind.name.text.as_str()),
        },
        None => Named {
            name: kind.name.text.as_str(),
            at: kind.name.span.start,
            selected: None,
        },
    }
}
