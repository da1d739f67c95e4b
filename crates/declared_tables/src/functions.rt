//! What is declared of functions, as their callers know them.

ghost use Rattle.std.specs.Prelude.{◌≡◌, ◌++◌, ◌&&◌, ◌||◌, ◌==◌, ℕ, List, IfOk, OnOk, map};
ghost use Rattle.std.specs.List.{list_any};
ghost use Rattle.std.specs.Str.{bytes_eq};
ghost use Rattle.called_parameters.specs.Called.{is_called};
ghost use Rattle.declared_tables.specs.AddedFunctions.{AddsFunction};
ghost use Rattle.declared_tables.specs.DeclaredTables.{facts_of, is_called_at, parameter_of, results_of};
ghost use Rattle.facts.specs.FactViews.{cancel_result_view, facts_view, parameter_view, type_view};
ghost use Rattle.declared_json.specs.DeclaredPackages.{function_of};

use called_parameters::{Called, FunctionParameter};
use declared_json::DeclaredFunction;
use facts::{CancelResult, CancelType, FunctionFacts, Table, TrackedParameter, TrackedType};
use std::alloc::{AllocError, Global};
use table_json::Parameter;

/// Adds the results at these positions, as cancel functions of that type.
///
/// # Errors
///
/// Memory was refused.
pub fn add_results(
    gives: &mut Vec<CancelResult>,
    cancel_type: CancelType,
    positions: &[u32],
) -> Result<(), AllocError>
    ensures { OnOk result (map cancel_result_view gives.new.items
        ≡ map cancel_result_view gives.old.items ++ results_of (type_view cancel_type) positions.now) }
{
    for position in positions {
        gives.push(CancelResult {
            position: *position as usize,
            cancel_type,
        })?;
    }
    Ok(())
}

fn parameter_of(parameter: Parameter) -> TrackedParameter
    ensures { parameter_view result ≡ parameter_of parameter }
{
    match parameter {
        Parameter::Cancel { at, .. } => TrackedParameter {
            position: at as usize,
            typed: TrackedType::Cancel(CancelType::Plain),
        },
        Parameter::Cause { at, .. } => TrackedParameter {
            position: at as usize,
            typed: TrackedType::Cancel(CancelType::WithCause),
        },
        Parameter::Group { at } => TrackedParameter {
            position: at as usize,
            typed: TrackedType::Group,
        },
    }
}

/// The parameters of a function, without whether it is known to call them.
///
/// # Errors
///
/// Memory was refused.
pub fn parameters_of(
    alloc: Global,
    params: &[Parameter],
) -> Result<Vec<TrackedParameter>, AllocError>
    ensures { IfOk result (λ found. map parameter_view found.items ≡ map parameter_of params.now) }
{
    let mut found = Vec::new(alloc);
    for parameter in params {
        found.push(parameter_of(*parameter))?;
    }
    Ok(found)
}

/// What is declared of a function, as what its signature says.
fn facts_of(alloc: Global, function: &DeclaredFunction) -> Result<FunctionFacts, AllocError>
    ensures { IfOk result (λ facts. facts_view facts ≡ facts_of (function_of function.now)) }
{
    let mut gives = Vec::new(alloc);
    add_results(&mut gives, CancelType::Plain, &function.facts.gives)?;
    add_results(&mut gives, CancelType::WithCause, &function.facts.causes)?;
    let parameters = parameters_of(alloc, &function.facts.params)?;
    Ok(FunctionFacts {
        parameters,
        gives,
        results: function.results as usize,
        unless: Vec::new(alloc),
    })
}

/// Adds the parameter at that position of the function of that name, if it is called.
fn add_if<'a>(
    calls: bool,
    name: &'a str,
    at: u32,
    called: &mut Called<'a>,
) -> Result<(), AllocError>
    ensures { OnOk result ((n : List ℕ) (k : ℕ) → is_called called.new n k
        ≡ (is_called called.old n k || (bytes_eq n name.now && (calls && (k == at))))) }
{
    if calls {
        called.add(FunctionParameter {
            name,
            position: at as usize,
        })?;
    }
    Ok(())
}

/// Adds the parameter of the function of that name, if it is declared to be called.
fn add_call<'a>(
    name: &'a str,
    parameter: Parameter,
    called: &mut Called<'a>,
) -> Result<(), AllocError>
    ensures { OnOk result ((n : List ℕ) (k : ℕ) → is_called called.new n k
        ≡ (is_called called.old n k || (bytes_eq n name.now && is_called_at k parameter))) }
{
    match parameter {
        Parameter::Cancel { at, calls } => add_if(calls, name, at, called),
        Parameter::Cause { at, calls } => add_if(calls, name, at, called),
        Parameter::Group { .. } => Ok(()),
    }
}

/// Adds the parameters of the function of that name that are declared to be called.
///
/// # Errors
///
/// Memory was refused.
pub fn add_calls<'a>(
    name: &'a str,
    params: &[Parameter],
    called: &mut Called<'a>,
) -> Result<(), AllocError>
    ensures { OnOk result ((n : List ℕ) (k : ℕ) → is_called called.new n k
        ≡ (is_called called.old n k || (bytes_eq n name.now && list_any (is_called_at k) params.now))) }
{
    for parameter in params {
        add_call(name, *parameter, called)?;
    }
    Ok(())
}

/// Adds what is declared of a function, unless something is of its name.
pub fn add_function<'a>(
    alloc: Global,
    function: &'a DeclaredFunction,
    signatures: &mut Table<'a>,
    called: &mut Called<'a>,
) -> Result<(), AllocError>
    ensures { OnOk result (AddsFunction (function_of function.now) signatures.old called.old signatures.new
        called.new) }
{
    let name = function.facts.name.as_str();
    if signatures.has(name) {
        return Ok(());
    }
    let facts = facts_of(alloc, function)?;
    signatures.insert(name, facts)?;
    add_calls(name, &function.facts.params, called)
}
