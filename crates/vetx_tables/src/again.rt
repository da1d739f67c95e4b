//! The table that is made again of what was kept of it.

ghost use Rattle.std.specs.Prelude.{◌≡◌, ◌++◌, IfOk, OnOk, map};
ghost use Rattle.std.specs.List.{list_any};
ghost use Rattle.declared_tables.specs.DeclaredTables.{table_view};
ghost use Rattle.declared_tables.specs.MarkedGivers.{MarksGivers};
ghost use Rattle.facts.specs.FactViews.{cancel_result_view, facts_view, unless_view};
ghost use Rattle.vetx_json.specs.KeptUnits.{function_of, unless_of};
ghost use Rattle.vetx_tables.specs.KeptParts.{is_giver, AddsKept};
ghost use Rattle.vetx_tables.specs.KeptTables.{count_below, facts_again, results_by_position, table_again, tells_something, unless_again};

use called_parameters::Called;
use declared_tables::{PackageTable, add_calls, add_results, parameters_of};
use facts::{CancelResult, CancelType, FunctionFacts, Table, Unless};
use std::alloc::{AllocError, Global};
use table_json::says_something;
use vetx_json::{KeptFunction, KeptUnless};

/// How many of the positions, from the first on, are below that one.
fn count_below(end: u32, positions: &[u32]) -> usize
    ensures { result ≡ count_below end positions.now }
{
    let mut count = 0;
    for position in positions {
        if *position >= end {
            return count;
        }
        count += 1;
    }
    count
}

/// The results at these positions: cancel functions, and those with a cause, in one order.
fn results_by_position(
    alloc: Global,
    gives: &[u32],
    causes: &[u32],
) -> Result<Vec<CancelResult>, AllocError>
    ensures { IfOk result
        (λ results. map cancel_result_view results.items ≡ results_by_position gives.now causes.now) }
{
    let mut results = Vec::new(alloc);
    let mut left = gives;
    for position in causes {
        let (below, after) = left.split_at(count_below(*position, left));
        add_results(&mut results, CancelType::Plain, below)?;
        results.push(CancelResult {
            position: *position as usize,
            cancel_type: CancelType::WithCause,
        })?;
        left = after;
    }
    add_results(&mut results, CancelType::Plain, left)?;
    Ok(results)
}

/// What a function gives unless there is an error.
fn unless_again(alloc: Global, unless: &[KeptUnless]) -> Result<Vec<Unless>, AllocError>
    ensures { IfOk result (λ again. map unless_view again.items ≡ map unless_again (map unless_of unless.now)) }
{
    let mut again = Vec::new(alloc);
    for one in unless {
        again.push(Unless {
            given: one.given as usize,
            error: one.error as usize,
        })?;
    }
    Ok(again)
}

/// What is known of a function.
fn facts_again(alloc: Global, function: &KeptFunction) -> Result<FunctionFacts, AllocError>
    ensures { IfOk result (λ facts. facts_view facts ≡ facts_again (function_of function.now)) }
{
    let parameters = parameters_of(alloc, &function.facts.params)?;
    let gives = results_by_position(alloc, &function.facts.gives, &function.facts.causes)?;
    let unless = unless_again(alloc, &function.unless)?;
    Ok(FunctionFacts {
        parameters,
        gives,
        results: function.results as usize,
        unless,
    })
}

/// Whether the function gives a cancel function, of whatever type.
fn is_giver(function: &KeptFunction) -> bool
    ensures { result ≡ is_giver (function_of function.now) }
{
    0 < function.facts.gives.len() || 0 < function.facts.causes.len()
}

fn any_is_giver(functions: &[KeptFunction]) -> bool
    ensures { result ≡ list_any is_giver (map function_of functions.now) }
{
    for function in functions {
        if is_giver(function) {
            return true;
        }
    }
    false
}

/// Whether the function has a parameter or a result that is tracked.
fn tells_something(function: &KeptFunction) -> bool
    ensures { result ≡ tells_something (function_of function.now) }
{
    says_something(&function.facts)
}

fn any_tells_something(functions: &[KeptFunction]) -> bool
    ensures { result ≡ list_any tells_something (map function_of functions.now) }
{
    for function in functions {
        if tells_something(function) {
            return true;
        }
    }
    false
}

/// Adds what is known of a function: its facts, unless there are some of its name, and what it calls.
fn add_function<'a>(
    alloc: Global,
    function: &'a KeptFunction,
    signatures: &mut Table<'a>,
    called: &mut Called<'a>,
) -> Result<(), AllocError>
    ensures { OnOk result (AddsKept (function_of function.now) signatures.old called.old signatures.new called.new) }
{
    let name = function.facts.name.as_str();
    let facts = facts_again(alloc, function)?;
    signatures.insert(name, facts)?;
    add_calls(name, &function.facts.params, called)?;
    Ok(())
}

/// The table that is made of what was kept of functions. Of several of one name the first counts; no text
/// keeps such.
///
/// # Errors
///
/// Memory was refused.
pub fn table_again<'a>(
    alloc: Global,
    functions: &'a [KeptFunction],
) -> Result<PackageTable<'a>, AllocError>
    ensures table { IfOk result (λ table. table_view table ≡ table_again (map function_of functions.now)) }
    ensures marks { IfOk result MarksGivers }
{
    let mut signatures = Table::new(alloc);
    let mut called = Called::new(alloc);
    for function in functions {
        add_function(alloc, function, &mut signatures, &mut called)?;
    }
    Ok(PackageTable {
        signatures,
        called,
        gives: any_is_giver(functions),
        is_told: any_tells_something(functions),
    })
}
