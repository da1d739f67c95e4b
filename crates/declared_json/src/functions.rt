//! Functions, and lists of them.

ghost use Rattle.std.specs.Prelude.{◌≡◌, option_map};
ghost use Rattle.table_json.specs.Tables.{entry_of};
ghost use Rattle.declared_json.specs.MembersRead.{declared_with};
ghost use Rattle.declared_json.specs.DeclaredPackages.{are_below, function_of};

use crate::order::functions_in_order;
use crate::outside::DeclaredFunction;
use json::Reader;
use json_reading::{ReadItem, Stop, Under, read_list, read_made};
use std::alloc::Global;
use table_json::{Function, FunctionMembers, Positions, Version};

/// Whether each position is that of one of so many results.
fn are_below(results: u32, positions: &[u32]) -> bool
    ensures { result ≡ are_below results positions.now }
{
    for position in positions {
        if *position >= results {
            return false;
        }
    }
    true
}

/// The function with these facts and so many results.
#[tactic(auto, unfolding(crate::specs::MembersRead::declared_with))]
fn declared_with(facts: Function, results: u32) -> Option<DeclaredFunction>
    ensures { option_map function_of result ≡ declared_with (entry_of facts) results }
{
    if are_below(results, &facts.gives) && are_below(results, &facts.causes) {
        Some(DeclaredFunction { facts, results })
    } else {
        None
    }
}

/// The functions of a list.
#[derive(Clone, Copy, Drop)]
struct Functions;

impl ReadItem for Functions {
    ghost use Rattle.json_reading.specs.Standing.{Refutes};
    ghost use Rattle.declared_json.specs.DeclaredPackages.{function_of};
    ghost use Rattle.declared_json.specs.DeclaredValues.{IsDeclaredValue};

    type Item = DeclaredFunction;

    ghost is_item = { λ _ value function. IsDeclaredValue value (function_of function) };

    ghost is_none = { λ _. Refutes IsDeclaredValue };

    fn read_item(
        &self,
        alloc: Global,
        reader: &mut Reader<'_>,
        depth: usize,
    ) -> Result<Option<DeclaredFunction>, Stop> {
        let members = Under {
            key: "results",
            values: &Positions,
            found: None,
            others: FunctionMembers::new(Version::Newer),
        };
        match read_made(alloc, members, reader, depth)? {
            Some((results, facts)) => Ok(declared_with(facts, results)),
            None => Ok(None),
        }
    }
}

/// Lists of functions, in the order of their names.
#[derive(Clone, Copy, Drop)]
pub(crate) struct DeclaredLists;

impl ReadItem for DeclaredLists {
    ghost use Rattle.std.specs.Prelude.{map};
    ghost use Rattle.json_reading.specs.Standing.{Refutes};
    ghost use Rattle.declared_json.specs.MembersRead.{AreDeclaredIn};
    ghost use Rattle.declared_json.specs.DeclaredPackages.{function_of};

    type Item = Vec<DeclaredFunction>;

    ghost is_item = { λ _ value functions. AreDeclaredIn value (map function_of functions.items) };

    ghost is_none = { λ _. Refutes AreDeclaredIn };

    fn read_item(
        &self,
        alloc: Global,
        reader: &mut Reader<'_>,
        depth: usize,
    ) -> Result<Option<Vec<DeclaredFunction>>, Stop> {
        match read_list(alloc, &Functions, reader, depth)? {
            Some(given) => Ok(functions_in_order(given)),
            None => Ok(None),
        }
    }
}
