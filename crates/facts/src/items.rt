//! The items of a list of parameters or results.

ghost use Rattle.std.specs.Prelude.{◌≡◌, ◌∷◌, IfOk, map, option_map, slice_get};
ghost use Rattle.meaning.specs.FunctionFacts.{items_of};
ghost use Rattle.facts.specs.FactViews.{item_view};
ghost use Rattle.tree.specs.Syntax.{Parameters};
ghost use Rattle.tree.specs.View.{parameter_and, parameters_syntax};

use std::alloc::{AllocError, Global};
use tree::{Expr, Identifier, Param};

/// A parameter or a result with its type, which a name alone takes from the next item.
#[derive(Clone, Copy)]
pub struct Item<'a> {
    pub name: Option<&'a Identifier>,
    pub is_variadic: bool,
    pub kind: Option<&'a Expr>,
}

/// The item of a parameter that stands before the next item.
fn item_before<'a>(param: &'a Param, next: Option<Item<'a>>) -> Item<'a>
    ensures { (rest : Parameters) → option_map item_view next.entry ≡ slice_get (items_of rest) 0 →
        item_view result ∷ items_of rest ≡ items_of (parameter_and param.now rest) }
{
    match param {
        Param::Named(name, is_variadic, kind) => Item {
            name: Some(name),
            is_variadic: *is_variadic,
            kind: Some(kind),
        },
        Param::Unnamed(is_variadic, kind) => Item {
            name: None,
            is_variadic: *is_variadic,
            kind: Some(kind),
        },
        Param::NameAlone(name) => match next {
            Some(item) => Item {
                name: Some(name),
                is_variadic: item.is_variadic,
                kind: item.kind,
            },
            None => Item {
                name: Some(name),
                is_variadic: false,
                kind: None,
            },
        },
    }
}

/// The items of a list, in their order.
///
/// # Errors
///
/// Memory was refused.
pub fn parameter_items<'a>(alloc: Global, params: &'a [Param]) -> Result<Vec<Item<'a>>, AllocError>
    ensures { IfOk result (λ items. map item_view items.items ≡ items_of (parameters_syntax params.now)) }
{
    let mut items: Vec<Item<'a>> = Vec::new(alloc);
    let mut next: Option<Item<'a>> = None;
    let mut start = params.len();
    while start > 0 {
        start -= 1;
        let item = item_before(&params[start], next);
        items.push(item)?;
        next = Some(item);
    }
    items.reverse();
    Ok(items)
}
