//! What is known of functions of Go's library. `facts/std.json` has the same, with where it is from.

ghost use Rattle.std.specs.Prelude.{◌≡◌, ◌++◌, [], ◌∷◌, IfOk, OnOk, map};
ghost use Rattle.table_json.specs.declared.table.Parameter.TheVariants.{Cancel};
ghost use Rattle.declared_json.specs.DeclaredPackages.{function_of, package_of, packages_of};
ghost use Rattle.library_facts.specs.Library.{calls_at, gives_at, library_entries, package_with};
ghost use Rattle.library_facts.specs.LibraryText.{library_text};

use declared_json::{DeclaredFunction, DeclaredPackage, DeclaredPackages};
use std::alloc::{AllocError, Global};
use table_json::{Function, Parameter};

/// What is known, a line for each function.
const LIBRARY_TEXT: &str = "crypto/subtle.WithDataIndependentTiming calls 0 of 0
os/signal.NotifyContext gives 1 of 2
runtime/trace.WithRegion calls 2 of 0
testing.AllocsPerRun calls 1 of 1
";

/// What is known of Go's library, as a text: another set has another one.
#[tactic(auto, unfolding(crate::specs::Library::library_entries))]
pub fn library_text() -> &'static str
    ensures { result.now ≡ library_text }
{
    LIBRARY_TEXT
}

/// The function of this name calls the cancel function that it takes at this position.
fn calls_at(
    alloc: Global,
    name: &str,
    at: u32,
    results: u32,
) -> Result<DeclaredFunction, AllocError>
    ensures { IfOk result (λ found. function_of found ≡ calls_at name.now at results) }
{
    let mut params = Vec::new(alloc);
    params.push(Parameter::Cancel { at, calls: true })?;
    Ok(DeclaredFunction {
        facts: Function {
            name: String::from_str(alloc, name)?,
            gives: Vec::new(alloc),
            causes: Vec::new(alloc),
            params,
        },
        results,
    })
}

/// The function of this name gives a cancel function as its result of this number.
fn gives_at(
    alloc: Global,
    name: &str,
    position: u32,
    results: u32,
) -> Result<DeclaredFunction, AllocError>
    ensures { IfOk result (λ found. function_of found ≡ gives_at name.now position results) }
{
    let mut gives = Vec::new(alloc);
    gives.push(position)?;
    Ok(DeclaredFunction {
        facts: Function {
            name: String::from_str(alloc, name)?,
            gives,
            causes: Vec::new(alloc),
            params: Vec::new(alloc),
        },
        results,
    })
}

/// The package of this path, of which this one function is known.
fn package_with(
    alloc: Global,
    path: &str,
    function: DeclaredFunction,
) -> Result<DeclaredPackage, AllocError>
    ensures { IfOk result (λ found. package_of found ≡ package_with path.now (function_of function)) }
{
    let mut functions = Vec::new(alloc);
    functions.push(function)?;
    Ok(DeclaredPackage {
        path: String::from_str(alloc, path)?,
        functions,
    })
}

/// Adds the package of this path, of which it is known that this function calls the parameter at this position.
fn add_calling(
    alloc: Global,
    path: &str,
    name: &str,
    at: u32,
    results: u32,
    packages: &mut Vec<DeclaredPackage>,
) -> Result<(), AllocError>
    ensures { OnOk result (map package_of packages.new.items
        ≡ map package_of packages.old.items ++ package_with path.now (calls_at name.now at results) ∷ []) }
{
    let function = calls_at(alloc, name, at, results)?;
    packages.push(package_with(alloc, path, function)?)?;
    Ok(())
}

/// The same of a function that gives a cancel function as its result of this number.
fn add_giving(
    alloc: Global,
    path: &str,
    name: &str,
    position: u32,
    results: u32,
    packages: &mut Vec<DeclaredPackage>,
) -> Result<(), AllocError>
    ensures { OnOk result (map package_of packages.new.items
        ≡ map package_of packages.old.items ++ package_with path.now (gives_at name.now position results) ∷ []) }
{
    let function = gives_at(alloc, name, position, results)?;
    packages.push(package_with(alloc, path, function)?)?;
    Ok(())
}

/// What is known of Go's library.
///
/// # Errors
///
/// Memory was refused.
#[tactic(auto, unfolding(crate::specs::Library::library_entries))]
pub fn library_facts(alloc: Global) -> Result<DeclaredPackages, AllocError>
    ensures { IfOk result (λ known. packages_of known ≡ library_entries) }
{
    let mut packages = Vec::new(alloc);
    add_calling(
        alloc,
        "crypto/subtle",
        "WithDataIndependentTiming",
        0,
        0,
        &mut packages,
    )?;
    add_giving(alloc, "os/signal", "NotifyContext", 1, 2, &mut packages)?;
    add_calling(alloc, "runtime/trace", "WithRegion", 2, 0, &mut packages)?;
    add_calling(alloc, "testing", "AllocsPerRun", 1, 1, &mut packages)?;
    Ok(DeclaredPackages { packages })
}
