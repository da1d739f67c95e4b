//! The text of what is kept of a package.

ghost use Rattle.std.specs.Prelude.{◌≡◌, IfOk, map, string_bytes};
ghost use Rattle.std.specs.List.{AllByRecursion};
ghost use Rattle.serde_json.specs.View.{view};
ghost use Rattle.vetx_json.specs.KeptUnits.{function_of, unless_of, vetx_of};
ghost use Rattle.vetx_json.specs.Parts.{HasFits, HasUnlessFits, HasVetxFits};
ghost use Rattle.vetx_json.specs.VetxTexts.{IsWrittenText};
ghost use Rattle.vetx_json.specs.VetxValues.{function_value, unless_value, vetx_value};

use crate::functions::{KeptFunction, KeptUnless};
use crate::vetx::{VERSION, Vetx};
use serde_json::{Value, json};
use std::alloc::{AllocError, Global};
use table_json::{parameter_values, position_values};

fn unless_value(alloc: Global, unless: KeptUnless) -> Result<Value, AllocError>
    ensures value { IfOk result (λ value. view value ≡ unless_value (unless_of unless)) }
    ensures fits { IfOk result (λ value. HasUnlessFits (unless_of unless)) }
{
    json!(in alloc; {"error": unless.error, "given": unless.given})
}

fn unless_values(alloc: Global, unless: &[KeptUnless]) -> Result<Vec<Value>, AllocError>
    ensures values { IfOk result
        (λ values. map view values.items ≡ map unless_value (map unless_of unless.now)) }
    ensures fit { IfOk result (λ values. AllByRecursion HasUnlessFits (map unless_of unless.now)) }
{
    let mut values = Vec::new(alloc);
    for one in unless {
        values.push(unless_value(alloc, *one)?)?;
    }
    Ok(values)
}

fn function_value(alloc: Global, function: &KeptFunction) -> Result<Value, AllocError>
    ensures value { IfOk result (λ value. view value ≡ function_value (function_of function.now)) }
    ensures fits { IfOk result (λ value. HasFits (function_of function.now)) }
{
    let causes = Value::Array(position_values(alloc, &function.facts.causes)?);
    let gives = Value::Array(position_values(alloc, &function.facts.gives)?);
    let params = Value::Array(parameter_values(alloc, &function.facts.params)?);
    let unless = Value::Array(unless_values(alloc, &function.unless)?);
    json!(in alloc; {
        "causes": causes,
        "gives": gives,
        "name": &function.facts.name,
        "params": params,
        "results": function.results,
        "unless": unless
    })
}

fn function_values(alloc: Global, functions: &[KeptFunction]) -> Result<Vec<Value>, AllocError>
    ensures values { IfOk result
        (λ values. map view values.items ≡ map function_value (map function_of functions.now)) }
    ensures fit { IfOk result (λ values. AllByRecursion HasFits (map function_of functions.now)) }
{
    let mut values = Vec::new(alloc);
    for function in functions {
        values.push(function_value(alloc, function)?)?;
    }
    Ok(values)
}

fn vetx_value(alloc: Global, kept: &Vetx) -> Result<Value, AllocError>
    ensures value { IfOk result (λ value. view value ≡ vetx_value (vetx_of kept.now)) }
    ensures fits { IfOk result (λ value. HasVetxFits (vetx_of kept.now)) }
{
    let functions = Value::Array(function_values(alloc, &kept.functions)?);
    json!(in alloc; {
        "edition": kept.edition,
        "facts": &kept.facts,
        "functions": functions,
        "module": &kept.module_path,
        "name": &kept.name,
        "path": &kept.path,
        "version": VERSION,
        "whole": kept.has_whole_fault,
        "yes": kept.is_yes
    })
}

/// The text of what is kept of a package: compact JSON with its keys in the order of their bytes, and each function of
/// it as it stands, those without facts too. The text of what is in order reads back as that.
///
/// # Errors
///
/// Memory was refused.
pub fn to_json(alloc: Global, kept: &Vetx) -> Result<String, AllocError>
    ensures { IfOk result (λ text. IsWrittenText (vetx_of kept.now) (string_bytes text)) }
{
    vetx_value(alloc, kept)?.to_string(alloc)
}
