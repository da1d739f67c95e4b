//! The text of a table.

ghost use Rattle.std.specs.Prelude.{◌≡◌, IfOk, OnOk, map, string_bytes};
ghost use Rattle.std.specs.List.{AllByRecursion, AllZip, filter};
ghost use Rattle.std.specs.Ordering.{nat_cmp};
ghost use Rattle.serde_json.specs.View.{view};
ghost use Rattle.table_json.specs.Parts.{HasFits};
ghost use Rattle.table_json.specs.Tables.{Entry, by_bytes, entry_of, entries_of, itself, name_of, position_of};
ghost use Rattle.table_json.specs.TableValues.{function_value, parameter_value, table_value, whole, AllFit, Fits};
ghost use Rattle.table_json.specs.WrittenTables.{says_something, AreWritten, IsOrdered, IsWrittenAs, IsWrittenText};

use crate::table::{Function, Parameter, Table, VERSION};
use serde_json::{Value, json};
use std::alloc::{AllocError, Global};

// What is written

/// Whether anything is told of the function but its name.
pub fn says_something(function: &Function) -> bool
    ensures { result ≡ says_something (entry_of function.now) }
{
    !(function.gives.is_empty() && function.causes.is_empty() && function.params.is_empty())
}

/// The functions of which anything is told.
fn told(alloc: Global, functions: &[Function]) -> Result<Vec<&Function>, AllocError>
    ensures { IfOk result (λ told. map (λ f. entry_of f.now) told.items
        ≡ filter says_something (map entry_of functions.now)) }
{
    let mut told = Vec::new(alloc);
    for function in functions {
        if says_something(function) {
            told.push(function)?;
        }
    }
    Ok(told)
}

/// The same, in the order of their names.
fn written_in_order(alloc: Global, functions: &[Function]) -> Result<Vec<&Function>, AllocError>
    ensures { IfOk result (λ told. IsOrdered by_bytes name_of (filter says_something (map entry_of functions.now))
        (map (λ f. entry_of f.now) told.items)) }
{
    let mut told = told(alloc, functions)?;
    told.sort_unstable_by(|first, second| first.name.cmp(&second.name));
    Ok(told)
}

/// Positions in their order.
fn positions_written(alloc: Global, positions: &[u32]) -> Result<Vec<u32>, AllocError>
    ensures { IfOk result (λ written. IsOrdered nat_cmp itself positions.now written.items) }
{
    let mut written = Vec::from_slice(alloc, positions)?;
    written.sort_unstable();
    Ok(written)
}

/// Parameters in the order of their positions.
fn parameters_written(alloc: Global, parameters: &[Parameter]) -> Result<Vec<Parameter>, AllocError>
    ensures { IfOk result (λ written. IsOrdered nat_cmp position_of parameters.now written.items) }
{
    let mut written = Vec::from_slice(alloc, parameters)?;
    written.sort_unstable_by_key(|parameter| parameter.position());
    Ok(written)
}

/// A function with its positions in their order.
fn function_written(alloc: Global, function: &Function) -> Result<Function, AllocError>
    ensures { IfOk result (λ written. IsWrittenAs (entry_of function.now) (entry_of written)) }
{
    let gives = positions_written(alloc, &function.gives)?;
    let causes = positions_written(alloc, &function.causes)?;
    let params = parameters_written(alloc, &function.params)?;
    Ok(Function {
        name: String::from_str(alloc, function.name.as_str())?,
        gives,
        causes,
        params,
    })
}

fn functions_written(alloc: Global, functions: &[&Function]) -> Result<Vec<Function>, AllocError>
    ensures { IfOk result (λ written. AllZip IsWrittenAs (map (λ f. entry_of f.now) functions.now)
        (map entry_of written.items)) }
{
    let mut written = Vec::new(alloc);
    for function in functions {
        written.push(function_written(alloc, *function)?)?;
    }
    Ok(written)
}

/// What is written of a table: functions without positions are left out, the others stand in the order of their names,
/// and each has its positions in their order.
///
/// # Errors
///
/// Memory was refused.
pub fn as_written(alloc: Global, table: &Table) -> Result<Table, AllocError>
    ensures { IfOk result (λ written. AreWritten (entries_of table.now) (entries_of written)) }
{
    let told = written_in_order(alloc, &table.functions)?;
    Ok(Table {
        functions: functions_written(alloc, &told)?,
    })
}

// As JSON

/// Positions as JSON, as they stand.
///
/// # Errors
///
/// Memory was refused.
pub fn position_values(alloc: Global, positions: &[u32]) -> Result<Vec<Value>, AllocError>
    ensures values { IfOk result (λ values. map view values.items ≡ map whole positions.now) }
    ensures fit { IfOk result (λ values. AllFit itself positions.now) }
{
    let mut values = Vec::new(alloc);
    for position in positions {
        values.push(Value::from(*position))?;
    }
    Ok(values)
}

fn parameter_value(alloc: Global, parameter: Parameter) -> Result<Value, AllocError>
    ensures value { IfOk result (λ value. view value ≡ parameter_value parameter) }
    ensures fits { IfOk result (λ value. Fits (position_of parameter)) }
{
    match parameter {
        Parameter::Cancel { at, calls } => {
            json!(in alloc; {"at": at, "calls": calls, "kind": "cancel"})
        }
        Parameter::Cause { at, calls } => {
            json!(in alloc; {"at": at, "calls": calls, "kind": "cause"})
        }
        Parameter::Group { at } => json!(in alloc; {"at": at, "kind": "group"}),
    }
}

/// Parameters as JSON, as they stand.
///
/// # Errors
///
/// Memory was refused.
pub fn parameter_values(alloc: Global, parameters: &[Parameter]) -> Result<Vec<Value>, AllocError>
    ensures values { IfOk result (λ values. map view values.items ≡ map parameter_value parameters.now) }
    ensures fit { IfOk result (λ values. AllFit position_of parameters.now) }
{
    let mut values = Vec::new(alloc);
    for parameter in parameters {
        values.push(parameter_value(alloc, *parameter)?)?;
    }
    Ok(values)
}

fn function_value(alloc: Global, function: &Function) -> Result<Value, AllocError>
    ensures value { IfOk result (λ value. view value ≡ function_value (entry_of function.now)) }
    ensures fits { IfOk result (λ value. HasFits (entry_of function.now)) }
{
    let causes = Value::Array(position_values(alloc, &function.causes)?);
    let gives = Value::Array(position_values(alloc, &function.gives)?);
    let params = Value::Array(parameter_values(alloc, &function.params)?);
    json!(in alloc; {"causes": causes, "gives": gives, "name": &function.name, "params": params})
}

/// Functions as JSON, as they stand.
///
/// # Errors
///
/// Memory was refused.
pub fn function_values(alloc: Global, functions: &[Function]) -> Result<Vec<Value>, AllocError>
    ensures values { IfOk result
        (λ values. map view values.items ≡ map function_value (map entry_of functions.now)) }
    ensures fit { IfOk result (λ values. AllByRecursion HasFits (map entry_of functions.now)) }
{
    let mut values = Vec::new(alloc);
    for function in functions {
        values.push(function_value(alloc, function)?)?;
    }
    Ok(values)
}

/// A table as JSON.
fn table_value(alloc: Global, table: &Table) -> Result<Value, AllocError>
    ensures value { IfOk result (λ value. view value ≡ table_value (entries_of table.now)) }
    ensures fits { IfOk result (λ value. AllByRecursion HasFits (entries_of table.now)) }
{
    let functions = Value::Array(function_values(alloc, &table.functions)?);
    json!(in alloc; {"functions": functions, "version": VERSION})
}

/// The text of a table: compact JSON with its keys in the order of their bytes. Functions without positions are left
/// out, the others stand in the order of their names, and each has its positions in their order, however the table
/// stands. The text of a table in order reads back as that table.
///
/// # Errors
///
/// Memory was refused.
pub fn to_json(alloc: Global, table: &Table) -> Result<String, AllocError>
    ensures { IfOk result (λ text. IsWrittenText (entries_of table.now) (string_bytes text)) }
{
    let written = as_written(alloc, table)?;
    table_value(alloc, &written)?.to_string(alloc)
}
