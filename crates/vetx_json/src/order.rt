//! Functions in their order, of which none may come twice.

ghost use Rattle.std.specs.Prelude.{List, map, IfNone, IfSome};
ghost use Rattle.table_json.specs.Tables.{by_bytes, IsArranged};
ghost use Rattle.vetx_json.specs.KeptUnits.{function_of, name_of, FunctionEntry};

use crate::functions::KeptFunction;

/// Functions in the order of their names; `None` if one comes twice.
pub(crate) fn functions_in_order(functions: Vec<KeptFunction>) -> Option<Vec<KeptFunction>>
    ensures some { IfSome result (λ ordered. IsArranged by_bytes name_of (map function_of functions.items)
        (map function_of ordered.items)) }
    ensures none { IfNone result
        ((other : List FunctionEntry) → ¬ IsArranged by_bytes name_of (map function_of functions.items) other) }
{
    let mut ordered = functions;
    ordered.sort_unstable_by(|first, second| first.facts.name.cmp(&second.facts.name));
    if ordered.is_sorted_by(|first, second| first.facts.name < second.facts.name) {
        Some(ordered)
    } else {
        None
    }
}
