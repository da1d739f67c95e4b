//! What is known of the functions of packages, as plain values. What it says is in `specs/Tables.antt`.

ghost use Rattle.std.specs.Prelude.{◌≡◌, ◌++◌, ℕ, List, IfOk, OnOk, flat_map, map};
ghost use Rattle.one_package.specs.Judgments.{table_view};
ghost use Rattle.plain_tables.specs.Tables.{as_list, declared_name, declared_names, entries_for, entry_told, if_told, is_none_of, parameter_kept, parameter_told, result_told, AreInOrder, IsPlain, TellsNames};
ghost use Rattle.facts.specs.FactViews.{cancel_result_view, facts_view, parameter_view, tracked_type_view, type_view};
ghost use Rattle.imports.specs.Views.{text_views};
ghost use Rattle.called_parameters.specs.Called.{is_called};
ghost use Rattle.meaning_reports.specs.Loaded.{LoadedPackage as MeantPackage, Tables};
ghost use Rattle.meaning_reports.specs.PackageTables.{IsTable};
ghost use Rattle.table_json.specs.Tables.{entries_of, entry_of};
ghost use Rattle.tree.specs.View.{file_syntax, top_level_syntax};
ghost use Rattle.whole_packages.specs.LoadedViews.{TellsPackage};

use called_parameters::Called;
use facts::{CancelResult, CancelType, FunctionFacts, TrackedParameter, TrackedType};
use one_package::Judged;
use std::alloc::{AllocError, Global};
use table_json::{Function, Parameter, Table, if_fits};
use tree::{File, TopLevelDecl};
use whole_packages::LoadedPackage;

/// Adds the name of a declaration that is a function or a method.
fn add_name<'a>(declaration: &'a TopLevelDecl, names: &mut Vec<&'a str>) -> Result<(), AllocError>
    ensures { OnOk result (text_views names.new.items ≡ text_views names.old.items
        ++ declared_name (top_level_syntax declaration.now)) }
{
    match declaration {
        TopLevelDecl::Func(function) => {
            names.push(function.name.text.as_str())?;
            Ok(())
        }
        TopLevelDecl::Decl(_) => Ok(()),
    }
}

fn add_names<'a>(
    declarations: &'a [TopLevelDecl],
    names: &mut Vec<&'a str>,
) -> Result<(), AllocError>
    ensures { OnOk result (text_views names.new.items ≡ text_views names.old.items
        ++ flat_map declared_name (map top_level_syntax declarations.now)) }
{
    for declaration in declarations {
        add_name(declaration, names)?;
    }
    Ok(())
}

/// The names of the functions and methods of these files, in the order of the text.
fn function_names<'a>(alloc: Global, trees: &'a [File]) -> Result<Vec<&'a str>, AllocError>
    ensures { IfOk result (λ names. text_views names.items ≡ declared_names (map file_syntax trees.now)) }
{
    let mut names = Vec::new(alloc);
    for tree in trees {
        add_names(&tree.declarations, &mut names)?;
    }
    Ok(names)
}

/// The names of the functions and methods of these files, in the order of their bytes, each once.
///
/// # Errors
///
/// Memory was refused.
pub fn names_in_order<'a>(alloc: Global, trees: &'a [File]) -> Result<Vec<&'a str>, AllocError>
    ensures { IfOk result (λ names. AreInOrder (declared_names (map file_syntax trees.now)) (text_views names.items)) }
{
    let mut names = function_names(alloc, trees)?;
    names.sort_unstable();
    names.dedup();
    Ok(names)
}

/// Adds the position of a result, if it is of that type and a table can have it.
fn add_result(
    wanted: CancelType,
    given: CancelResult,
    positions: &mut Vec<u32>,
) -> Result<(), AllocError>
    ensures { OnOk result (positions.new.items ≡ positions.old.items
        ++ result_told (type_view wanted) (cancel_result_view given)) }
{
    if !wanted.is_same(given.cancel_type) {
        return Ok(());
    }
    if let Some(position) = if_fits(given.position) {
        positions.push(position)?;
    }
    Ok(())
}

/// The positions of the results of that type.
fn positions_of(
    alloc: Global,
    wanted: CancelType,
    gives: &[CancelResult],
) -> Result<Vec<u32>, AllocError>
    ensures { IfOk result (λ found. found.items ≡ flat_map (result_told (type_view wanted))
        (map cancel_result_view gives.now)) }
{
    let mut found = Vec::new(alloc);
    for given in gives {
        add_result(wanted, *given, &mut found)?;
    }
    Ok(found)
}

/// A parameter of the function of that name, as a table has it.
fn parameter_kept(name: &str, tracked: TrackedParameter, at: u32, called: &Called<'_>) -> Parameter
    ensures { result ≡ parameter_kept (is_called called.now name.now) (parameter_view tracked)
        (tracked_type_view tracked.typed) at }
{
    match tracked.typed {
        TrackedType::Cancel(CancelType::Plain) => Parameter::Cancel {
            at,
            calls: called.has(name, tracked.position),
        },
        TrackedType::Cancel(CancelType::WithCause) => Parameter::Cause {
            at,
            calls: called.has(name, tracked.position),
        },
        TrackedType::Group => Parameter::Group { at },
    }
}

/// Adds a parameter of the function of that name, if a table can have its position.
fn add_parameter(
    name: &str,
    tracked: TrackedParameter,
    called: &Called<'_>,
    parameters: &mut Vec<Parameter>,
) -> Result<(), AllocError>
    ensures { OnOk result (parameters.new.items ≡ parameters.old.items
        ++ as_list (parameter_told (is_called called.now name.now) (parameter_view tracked))) }
{
    if let Some(at) = if_fits(tracked.position) {
        parameters.push(parameter_kept(name, tracked, at, called))?;
    }
    Ok(())
}

fn parameters_of(
    alloc: Global,
    name: &str,
    tracked: &[TrackedParameter],
    called: &Called<'_>,
) -> Result<Vec<Parameter>, AllocError>
    ensures { IfOk result (λ parameters. parameters.items ≡ flat_map
        (λ p. as_list (parameter_told (is_called called.now name.now) p)) (map parameter_view tracked.now)) }
{
    let mut parameters = Vec::new(alloc);
    for parameter in tracked {
        add_parameter(name, *parameter, called, &mut parameters)?;
    }
    Ok(parameters)
}

/// What a table says of the function of that name: its results that are cancel functions, and its parameters that are
/// tracked. A position that is not below 2^32 is left out.
///
/// # Errors
///
/// Memory was refused.
pub fn function_of(
    alloc: Global,
    name: &str,
    facts: &FunctionFacts,
    called: &Called<'_>,
) -> Result<Function, AllocError>
    ensures { IfOk result (λ function. entry_of function
        ≡ entry_told (is_called called.now name.now) name.now (facts_view facts.now)) }
{
    let gives = positions_of(alloc, CancelType::Plain, &facts.gives)?;
    let causes = positions_of(alloc, CancelType::WithCause, &facts.gives)?;
    let params = parameters_of(alloc, name, &facts.parameters, called)?;
    Ok(Function {
        name: String::from_str(alloc, name)?,
        gives,
        causes,
        params,
    })
}

/// Whether there is none.
fn is_none_of<T>(items: &[T]) -> bool
    ensures { result ≡ is_none_of items.now }
{
    items.is_empty()
}

/// Adds a function, if anything is told of it but its name.
fn add_told(function: Function, functions: &mut Vec<Function>) -> Result<(), AllocError>
    ensures { OnOk result (map entry_of functions.new.items ≡ map entry_of functions.old.items
        ++ if_told (entry_of function)) }
{
    if is_none_of(&function.gives) && is_none_of(&function.causes) && is_none_of(&function.params) {
        return Ok(());
    }
    functions.push(function)?;
    Ok(())
}

/// Adds what is known of the function of that name, if anything is.
fn add_function(
    alloc: Global,
    name: &str,
    judged: &Judged<'_>,
    functions: &mut Vec<Function>,
) -> Result<(), AllocError>
    ensures { OnOk result (map entry_of functions.new.items ≡ map entry_of functions.old.items
        ++ entries_for (table_view judged.now) name.now) }
{
    match judged.table.signatures.facts(name) {
        Some(facts) => add_told(
            function_of(alloc, name, facts, &judged.table.called)?,
            functions,
        ),
        None => Ok(()),
    }
}

/// What is known of the functions of these names.
fn functions_of(
    alloc: Global,
    names: &[&str],
    judged: &Judged<'_>,
) -> Result<Vec<Function>, AllocError>
    ensures { IfOk result (λ functions. map entry_of functions.items
        ≡ flat_map (entries_for (table_view judged.now)) (text_views names.now)) }
{
    let mut functions = Vec::new(alloc);
    for name in names {
        add_function(alloc, name, judged, &mut functions)?;
    }
    Ok(functions)
}

/// The table of a package with these trees.
fn table_of(alloc: Global, trees: &[File], judged: &Judged<'_>) -> Result<Table, AllocError>
    ensures { IfOk result (λ table. TellsNames (declared_names (map file_syntax trees.now)) (table_view judged.now)
        (entries_of table)) }
{
    let names = names_in_order(alloc, trees)?;
    let functions = functions_of(alloc, &names, judged)?;
    Ok(Table { functions })
}

/// The table of this package, which was judged so: what is known of its functions. One of which nothing is told is left
/// out, and so is a position that is not below 2^32.
///
/// # Errors
///
/// Memory was refused.
pub fn package_table(
    alloc: Global,
    loaded: &LoadedPackage,
    judged: &Judged<'_>,
) -> Result<Table, AllocError>
    ensures { IfOk result (λ table. (ps : List MeantPackage) (tables : Tables) (i : ℕ) (p : MeantPackage)
        → TellsPackage p loaded.now → IsTable ps tables i p (table_view judged.now)
        → IsPlain (table_view judged.now) (entries_of table)) }
{
    table_of(alloc, &loaded.trees, judged)
}
