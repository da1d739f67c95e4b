//! Lists in their order, of which nothing may come twice.

ghost use Rattle.std.specs.Prelude.{ℕ, Decides, List, map, IfNone, IfSome};
ghost use Rattle.std.specs.List.{IsDistinct};
ghost use Rattle.std.specs.Ordering.{eq_by_cmp, nat_cmp};
ghost use Rattle.table_json.specs.declared.table.Parameter.{Parameter};
ghost use Rattle.table_json.specs.Tables.{Entry, by_bytes, entry_of, itself, name_of, position_of, IsArranged};

use crate::table::{Function, Parameter};

/// Positions in their order; `None` if one comes twice.
pub(crate) fn positions_in_order(positions: Vec<u32>) -> Option<Vec<u32>>
    ensures some { IfSome result (λ ordered. IsArranged nat_cmp itself positions.items ordered.items) }
    ensures none { IfNone result ((other : List ℕ) → ¬ IsArranged nat_cmp itself positions.items other) }
{
    let mut ordered = positions;
    ordered.sort_unstable();
    if ordered.is_sorted_by(|first, second| first < second) {
        Some(ordered)
    } else {
        None
    }
}

/// Parameters in the order of their positions; `None` if one comes twice.
pub(crate) fn parameters_in_order(parameters: Vec<Parameter>) -> Option<Vec<Parameter>>
    ensures some { IfSome result (λ ordered. IsArranged nat_cmp position_of parameters.items ordered.items) }
    ensures none { IfNone result
        ((other : List Parameter) → ¬ IsArranged nat_cmp position_of parameters.items other) }
{
    let mut ordered = parameters;
    ordered.sort_unstable_by_key(|parameter| parameter.position());
    if ordered.is_sorted_by(|first, second| first.position() < second.position()) {
        Some(ordered)
    } else {
        None
    }
}

/// Functions in the order of their names; `None` if one comes twice.
pub(crate) fn functions_in_order(functions: Vec<Function>) -> Option<Vec<Function>>
    ensures some { IfSome result (λ ordered. IsArranged by_bytes name_of (map entry_of functions.items)
        (map entry_of ordered.items)) }
    ensures none { IfNone result
        ((other : List Entry) → ¬ IsArranged by_bytes name_of (map entry_of functions.items) other) }
{
    let mut ordered = functions;
    ordered.sort_unstable_by(|first, second| first.name.cmp(&second.name));
    if ordered.is_sorted_by(|first, second| first.name < second.name) {
        Some(ordered)
    } else {
        None
    }
}

/// Whether no text comes twice.
pub fn are_distinct(texts: Vec<&str>) -> bool
    ensures { Decides result (IsDistinct (eq_by_cmp by_bytes) (map (λ text. text.now) texts.entry.items)) }
{
    let mut ordered = texts;
    ordered.sort_unstable();
    ordered.is_sorted_by(|first, second| first.cmp(second).is_lt())
}
