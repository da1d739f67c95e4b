//! The type of a composite literal: whether its elements are fields, and the type of those that are written without
//! one.

ghost use Rattle.std.specs.Prelude.{◌≡◌, option_map};
ghost use Rattle.kept_forms.specs.FormViews.{held_type, held_by, type_syntax};
ghost use Rattle.meaning.specs.Kept.{may_have_fields};
ghost use Rattle.tree.specs.View.{expression_syntax};

use tree::{Expr, ExprKind};

/// The type of the elements of a type that is written as an array, slice or map.
fn held_type(kind: &Expr) -> Option<&Expr>
    ensures { option_map (λ e. expression_syntax e.now) result ≡ held_type (expression_syntax kind.now) }
{
    match &kind.kind {
        ExprKind::ArrayType(_, held) => Some(held),
        ExprKind::EllipsisArrayType(held) => Some(held),
        ExprKind::SliceType(held) => Some(held),
        ExprKind::MapType(_, held) => Some(held),
        _ => None,
    }
}

/// The type that an element has which is written without one, in a literal of that type, if it has one.
pub fn element_type<'a>(literal: Option<&'a Expr>) -> Option<&'a Expr>
    ensures { option_map (λ e. expression_syntax e.now) result ≡ held_by (type_syntax literal.entry) }
{
    match literal {
        Some(kind) => held_type(kind),
        None => None,
    }
}

/// Whether a literal of that type may have fields.
pub fn may_have_fields(literal: Option<&Expr>) -> bool
    ensures { result ≡ may_have_fields (type_syntax literal.entry) }
{
    match element_type(literal) {
        Some(_) => false,
        None => true,
    }
}
