//! Functions, and lists of them.

use crate::order::functions_in_order;
use json::Reader;
use json_reading::{ListOf, NoOthers, ReadItem, Stop, Under, read_list, read_made};
use std::alloc::Global;
use table_json::{Function, FunctionMembers, Positions, Version};

/// That a function gives the result at one position, unless the error at another is not nil.
#[derive(Clone, Copy, Debug, Drop, PartialEq)]
pub struct KeptUnless {
    pub given: u32,
    pub error: u32,
}

/// What is kept of one function.
#[derive(Debug, Drop, PartialEq)]
pub struct KeptFunction {
    /// Its facts, as a table has them.
    pub facts: Function,
    /// How many results it has.
    pub results: u32,
    /// What it gives unless there is an error.
    pub unless: Vec<KeptUnless>,
}

/// What functions give unless there is an error, one by one.
#[derive(Clone, Copy, Drop)]
struct Unless;

impl ReadItem for Unless {
    ghost use Rattle.json_reading.specs.Standing.{Refutes};
    ghost use Rattle.vetx_json.specs.KeptUnits.{unless_of};
    ghost use Rattle.vetx_json.specs.VetxValues.{IsUnlessValue};

    type Item = KeptUnless;

    ghost is_item = { λ _ value unless. IsUnlessValue value (unless_of unless) };

    ghost is_none = { λ _. Refutes IsUnlessValue };

    fn read_item(
        &self,
        alloc: Global,
        reader: &mut Reader<'_>,
        depth: usize,
    ) -> Result<Option<KeptUnless>, Stop> {
        let members = Under {
            key: "error",
            values: &Positions,
            found: None,
            others: Under {
                key: "given",
                values: &Positions,
                found: None,
                others: NoOthers { are_none: true },
            },
        };
        match read_made(alloc, members, reader, depth)? {
            Some((error, (given, _))) => Ok(Some(KeptUnless { given, error })),
            None => Ok(None),
        }
    }
}

/// The functions of a list.
#[derive(Clone, Copy, Drop)]
struct Functions;

impl ReadItem for Functions {
    ghost use Rattle.json_reading.specs.Standing.{Refutes};
    ghost use Rattle.vetx_json.specs.KeptUnits.{function_of};
    ghost use Rattle.vetx_json.specs.VetxValues.{IsFunctionValue};

    type Item = KeptFunction;

    ghost is_item = { λ _ value function. IsFunctionValue value (function_of function) };

    ghost is_none = { λ _. Refutes IsFunctionValue };

    fn read_item(
        &self,
        alloc: Global,
        reader: &mut Reader<'_>,
        depth: usize,
    ) -> Result<Option<KeptFunction>, Stop> {
        let members = Under {
            key: "unless",
            values: &ListOf { items: &Unless },
            found: None,
            others: Under {
                key: "results",
                values: &Positions,
                found: None,
                others: FunctionMembers::new(Version::Newer),
            },
        };
        match read_made(alloc, members, reader, depth)? {
            Some(found) => {
                let (unless, (results, facts)) = found;
                Ok(Some(KeptFunction {
                    facts,
                    results,
                    unless,
                }))
            }
            None => Ok(None),
        }
    }
}

/// Lists of functions, in the order of their names.
#[derive(Clone, Copy, Drop)]
pub(crate) struct KeptLists;

impl ReadItem for KeptLists {
    ghost use Rattle.std.specs.Prelude.{map};
    ghost use Rattle.json_reading.specs.Standing.{Refutes};
    ghost use Rattle.vetx_json.specs.KeptUnits.{function_of};
    ghost use Rattle.vetx_json.specs.VetxValues.{AreFunctionsIn};

    type Item = Vec<KeptFunction>;

    ghost is_item = { λ _ value functions. AreFunctionsIn value (map function_of functions.items) };

    ghost is_none = { λ _. Refutes AreFunctionsIn };

    fn read_item(
        &self,
        alloc: Global,
        reader: &mut Reader<'_>,
        depth: usize,
    ) -> Result<Option<Vec<KeptFunction>>, Stop> {
        match read_list(alloc, &Functions, reader, depth)? {
            Some(given) => Ok(functions_in_order(given)),
            None => Ok(None),
        }
    }
}
