//! An element of a composite literal that may stand in a field.

ghost use Rattle.std.specs.Prelude.{◌≡◌, option_map};
ghost use Rattle.kept_forms.specs.FormViews.{listed_element};
ghost use Rattle.meaning.specs.Kept.{element, element_of};
ghost use Rattle.mentions.specs.MarkViews.{named_view};
ghost use Rattle.tree.specs.View.{expression_syntax};

use mentions::{Named, as_bare};
use tree::{Expr, ExprKind};

/// `f: c`, an element of a composite literal.
#[derive(Clone, Copy)]
pub struct Element<'a> {
    pub field: &'a str,
    /// The offset of f.
    pub at: u32,
    pub value: Named<'a>,
}

/// A key and a value, if both are names.
fn element_of<'a>(key: Option<Named<'a>>, value: Option<Named<'a>>) -> Option<Element<'a>>
    ensures { listed_element result ≡ element_of (option_map named_view key.entry)
        (option_map named_view value.entry) }
{
    match (key, value) {
        (Some(field), Some(value)) => Some(Element {
            field: field.name,
            at: field.at,
            value,
        }),
        _ => None,
    }
}

/// The element, if it is `f: c`.
pub fn as_element(value: &Expr) -> Option<Element<'_>>
    ensures { listed_element result ≡ element (expression_syntax value.now) }
{
    match &value.kind {
        ExprKind::KeyValue(key, value) => element_of(as_bare(key), as_bare(value)),
        _ => None,
    }
}
