//! Which forms what was read has: of expressions where types may stand, and of type parameters (the Go specification,
//! "Types", "Type parameter declarations", "General interfaces").

ghost use Rattle.std.specs.Prelude.{◌≡◌, option_map};
ghost use Rattle.meaning.specs.TypeParameters.{has_type, splits, split_has_type, is_parameter, joins, is_one_parameter};
ghost use Rattle.meaning.specs.WellFormed.{is_name, names_type, is_instance, is_received, is_type, are_types, is_term, is_constraint, end_constrained};
ghost use Rattle.tree.specs.View.{expression_syntax, expressions_syntax, parameters_syntax};
ghost use Rattle.tree_reader.specs.Reader.{single, takes_braces};

use crate::cursor::SourceTokens;
use tree::{BinaryOperator, ChanDirection, Expr, ExprKind, Param, UnaryOperator};

/// Whether it is a name.
#[tactic(auto, unfolding(tree::specs::View::expression_form))]
pub fn is_name(operand: &Expr) -> bool
    ensures { result ≡ is_name (expression_syntax operand.now) }
{
    matches!(operand.kind, ExprKind::Name(_))
}

/// Whether it is `name` or `package.name`, which braces can make a composite literal.
#[tactic(auto, unfolding(tree::specs::View::expression_form))]
pub fn names_type(operand: &Expr) -> bool
    ensures { result ≡ names_type (expression_syntax operand.now) }
{
    match &operand.kind {
        ExprKind::Name(_) => true,
        ExprKind::Selector(qualifier, _) => matches!(qualifier.kind, ExprKind::Name(_)),
        _ => false,
    }
}

/// Whether it is an index, or an instance.
#[tactic(auto, unfolding(tree::specs::View::expression_form))]
pub fn is_instance(operand: &Expr) -> bool
    ensures { result ≡ is_instance (expression_syntax operand.now) }
{
    match operand.kind {
        ExprKind::Index(_, _) => true,
        ExprKind::Instance(_, _) => true,
        _ => false,
    }
}

/// Whether braces can make it a composite literal: a type's name, or in the second edition an instance of a type.
pub fn takes_braces(source: SourceTokens<'_>, operand: &Expr) -> bool
    ensures { result ≡ takes_braces source.entry.edition (expression_syntax operand.now) }
{
    names_type(operand) || (source.is_second() && (is_instance(operand) && is_type(operand)))
}

/// Whether it makes a type of channels from which values can be received, after `<-`.
#[tactic(auto, unfolding(meaning::specs::WellFormed::is_received, tree::specs::View::expression_form))]
fn is_received(expression: &Expr) -> bool
    ensures { result ≡ is_received (expression_syntax expression.now) }
{
    match &expression.kind {
        ExprKind::ChanType(direction, element) => match direction {
            ChanDirection::Both => true,
            ChanDirection::Send => is_received(element),
            ChanDirection::Receive => false,
        },
        _ => false,
    }
}

/// Whether it is written as a type.
#[cycle(types)]
pub fn is_type(expression: &Expr) -> bool
    ensures { result ≡ is_type (expression_syntax expression.now) }
{
    match &expression.kind {
        ExprKind::Name(_) => true,
        ExprKind::BasicLit(_) => false,
        ExprKind::FuncLit(_) => false,
        ExprKind::CompositeLit(_, _) => false,
        ExprKind::LiteralValue(_) => false,
        ExprKind::KeyValue(_, _) => false,
        ExprKind::Paren(operand) => is_type(operand),
        ExprKind::Selector(qualifier, _) => is_name(qualifier),
        ExprKind::Index(operand, argument) => names_type(operand) && is_type(argument),
        ExprKind::Instance(operand, arguments) => names_type(operand) && are_types(arguments),
        ExprKind::Slice(_, _) => false,
        ExprKind::TypeAssert(_, _) => false,
        ExprKind::Call(_, _, _) => false,
        ExprKind::Star(operand) => is_type(operand),
        ExprKind::Unary(operator, operand) => match operator {
            UnaryOperator::Receive => is_received(operand),
            _ => false,
        },
        ExprKind::Binary(_, _, _) => false,
        ExprKind::ArrayType(_, _) => true,
        ExprKind::EllipsisArrayType(_) => true,
        ExprKind::SliceType(_) => true,
        ExprKind::MapType(_, _) => true,
        ExprKind::ChanType(_, _) => true,
        ExprKind::FuncType(_) => true,
        ExprKind::StructType(_) => true,
        ExprKind::InterfaceType(_) => true,
    }
}

/// Whether all are written as types.
#[cycle(types)]
fn are_types(expressions: &[Expr]) -> bool
    ensures { result ≡ are_types (expressions_syntax expressions.now) }
{
    for expression in expressions {
        if !is_type(expression) {
            return false;
        }
    }
    true
}

/// Whether it is a term of a constraint: a type, perhaps with `~` before it.
fn is_term(expression: &Expr) -> bool
    ensures { result ≡ is_term (expression_syntax expression.now) }
{
    match &expression.kind {
        ExprKind::Unary(operator, operand) => match operator {
            UnaryOperator::Tilde => is_type(operand),
            _ => is_type(expression),
        },
        _ => is_type(expression),
    }
}

/// Whether it is a constraint: terms with `|` between them.
pub fn is_constraint(expression: &Expr) -> bool
    ensures { result ≡ is_constraint (expression_syntax expression.now) }
{
    match &expression.kind {
        ExprKind::Binary(operator, left, right) => match operator {
            BinaryOperator::Or => is_constraint(left) && is_term(right),
            _ => false,
        },
        _ => is_term(expression),
    }
}

/// Whether a type that is no name stands in it, outside all but operators and parentheses.
fn has_type(expression: &Expr) -> bool
    ensures { result ≡ has_type (expression_syntax expression.now) }
{
    match &expression.kind {
        ExprKind::Name(_) => false,
        ExprKind::BasicLit(_) => false,
        ExprKind::FuncLit(_) => false,
        ExprKind::CompositeLit(_, _) => false,
        ExprKind::LiteralValue(_) => false,
        ExprKind::KeyValue(_, _) => false,
        ExprKind::Paren(operand) => has_type(operand),
        ExprKind::Selector(_, _) => false,
        ExprKind::Index(_, _) => false,
        ExprKind::Instance(_, _) => false,
        ExprKind::Slice(_, _) => false,
        ExprKind::TypeAssert(_, _) => false,
        ExprKind::Call(_, _, _) => false,
        ExprKind::Star(operand) => has_type(operand),
        ExprKind::Unary(_, operand) => has_type(operand),
        ExprKind::Binary(_, left, right) => has_type(left) || has_type(right),
        ExprKind::ArrayType(_, _) => true,
        ExprKind::EllipsisArrayType(_) => true,
        ExprKind::SliceType(_) => true,
        ExprKind::MapType(_, _) => true,
        ExprKind::ChanType(_, _) => true,
        ExprKind::FuncType(_) => true,
        ExprKind::StructType(_) => true,
        ExprKind::InterfaceType(_) => true,
    }
}

/// The only one of some expressions.
fn only(expressions: &[Expr]) -> Option<&Expr>
    ensures { option_map (λ e. expression_syntax e.now) result ≡ single (expressions_syntax expressions.now) }
{
    if expressions.len() == 1 {
        Some(&expressions[0])
    } else {
        None
    }
}

/// Whether it is `P * Y` or `P (Y)`, perhaps with `| Z`.
fn splits(expression: &Expr) -> bool
    ensures { result ≡ splits (expression_syntax expression.now) }
{
    match &expression.kind {
        ExprKind::Binary(operator, left, _) => match operator {
            BinaryOperator::Multiply => is_name(left),
            BinaryOperator::Or => splits(left),
            _ => false,
        },
        ExprKind::Call(callee, arguments, has_ellipsis) => if *has_ellipsis {
            false
        } else {
            match only(arguments) {
                Some(_) => is_name(callee),
                None => false,
            }
        },
        _ => false,
    }
}

/// Whether such a type stands in Y, or in a Z of it.
fn split_has_type(expression: &Expr) -> bool
    ensures { result ≡ split_has_type (expression_syntax expression.now) }
{
    match &expression.kind {
        ExprKind::Binary(operator, left, right) => match operator {
            BinaryOperator::Multiply => has_type(right),
            BinaryOperator::Or => split_has_type(left) || has_type(right),
            _ => false,
        },
        ExprKind::Call(_, arguments, has_ellipsis) => if *has_ellipsis {
            false
        } else {
            match only(arguments) {
                Some(argument) => has_type(argument),
                None => false,
            }
        },
        _ => false,
    }
}

/// Whether it is no length of an array, since it is read as a type parameter.
pub fn is_parameter(expression: &Expr) -> bool
    ensures { result ≡ is_parameter (expression_syntax expression.now) }
{
    splits(expression) && split_has_type(expression)
}

/// Whether it is a constraint that makes such an expression with the name before it.
fn joins(expression: &Expr) -> bool
    ensures { result ≡ joins (expression_syntax expression.now) }
{
    match &expression.kind {
        ExprKind::Binary(operator, left, right) => match operator {
            BinaryOperator::Or => joins(left) && is_type(right),
            _ => false,
        },
        ExprKind::Star(_) => true,
        ExprKind::Paren(_) => true,
        _ => false,
    }
}

/// Whether it is one type parameter that was read where the tokens alone would be a length.
pub fn is_one_parameter(params: &[Param]) -> bool
    ensures { result ≡ is_one_parameter (parameters_syntax params.now) }
{
    if params.len() != 1 {
        return false;
    }
    match &params[0] {
        Param::Named(_, _, kind) => joins(kind) && has_type(kind),
        _ => false,
    }
}

/// Whether these are type parameters: each has a constraint, its own or that of the next one.
pub fn end_constrained(params: &[Param]) -> bool
    ensures { result ≡ end_constrained (parameters_syntax params.now) }
{
    let mut is_constrained = false;
    for param in params {
        match param {
            Param::Named(_, _, _) => is_constrained = true,
            Param::Unnamed(_, _) => return false,
            Param::NameAlone(_) => is_constrained = false,
        }
    }
    is_constrained
}
