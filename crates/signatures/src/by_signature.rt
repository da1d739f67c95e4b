//! What signatures say.

ghost use Rattle.std.specs.Prelude.{◌≡◌, ℕ, List, [], ◌∷◌, ◌++◌, IfOk, OnOk, map, option_map};
ghost use Rattle.meaning.specs.FunctionFacts.{parameter_at, tracked_parameters, signature_facts, function_facts, facts_in, package_facts};
ghost use Rattle.meaning.specs.OuterBlocks.{or_else};
ghost use Rattle.names.specs.Answers.{declared_at};
ghost use Rattle.facts.specs.FactViews.{tracked_type_view, item_view, parameter_view, facts_view, facts_by_name};
ghost use Rattle.signatures.specs.Meanings.{meanings_of};
ghost use Rattle.tree.specs.Syntax.{function_declaration};
ghost use Rattle.tree.specs.View.{signature_syntax, function_syntax, file_syntax, top_level_syntax};

use crate::in_file::InFile;
use crate::unless::unless_by;
use facts::{
    FunctionFacts, Item, Table, TrackedParameter, TrackedType, cancel_results, item_type,
    parameter_items,
};
use names::{Names, can_be_meant};
use std::alloc::{AllocError, Global};
use tree::{Edition, File, Func, Param, Signature, TopLevelDecl};

/// Adds a parameter at that position, if its type is tracked.
fn add_tracked(
    tracked: &mut Vec<TrackedParameter>,
    position: usize,
    typed: Option<TrackedType>,
) -> Result<(), AllocError>
    ensures { OnOk result (map parameter_view tracked.new.items ≡ map parameter_view tracked.old.items ++
        parameter_at position (option_map tracked_type_view typed)) }
{
    if let Some(typed) = typed {
        tracked.push(TrackedParameter { position, typed })?;
    }
    Ok(())
}

fn tracked_parameters(
    alloc: Global,
    names: &Names<'_>,
    file: usize,
    params: &[Item<'_>],
) -> Result<Vec<TrackedParameter>, AllocError>
    ensures { IfOk result (λ tracked. map parameter_view tracked.items ≡ tracked_parameters
        (declared_at names.now file) 0 (map item_view params.now)) }
{
    let mut tracked: Vec<TrackedParameter> = Vec::new(alloc);
    for (position, item) in params.iter().enumerate() {
        add_tracked(&mut tracked, position, item_type(names, file, item))?;
    }
    Ok(tracked)
}

fn signature_facts(
    alloc: Global,
    names: &Names<'_>,
    file: usize,
    signature: &Signature,
) -> Result<FunctionFacts, AllocError>
    ensures { IfOk result (λ facts. facts_view facts ≡ signature_facts (declared_at names.now file)
        (signature_syntax signature.now)) }
{
    let params = parameter_items(alloc, &signature.params)?;
    let results = parameter_items(alloc, &signature.results)?;
    Ok(FunctionFacts {
        parameters: tracked_parameters(alloc, names, file, &params)?,
        gives: cancel_results(alloc, names, file, &results)?,
        results: results.len(),
        unless: Vec::new(alloc),
    })
}

/// What the signature of a function says, and in the second edition what its returns say.
fn function_facts(
    alloc: Global,
    told: InFile<'_, '_>,
    function: &Func,
) -> Result<FunctionFacts, AllocError>
    ensures { IfOk result (λ facts. facts_view facts ≡ function_facts told.entry.edition (meanings_of told.entry)
        (function_syntax function.now)) }
{
    let mut facts = signature_facts(alloc, told.names, told.file, &function.signature)?;
    match told.edition {
        Edition::First => Ok(facts),
        Edition::Second => match &function.body {
            Some(body) => {
                let results: &[Param] = &function.signature.results;
                facts.unless = unless_by(alloc, told, &facts.gives, results, body)?;
                Ok(facts)
            }
            None => Ok(facts),
        },
    }
}

/// Adds the facts of a function, if the function can be meant.
fn add_function<'a>(
    alloc: Global,
    told: InFile<'_, 'a>,
    function: &'a Func,
    table: &mut Table<'a>,
) -> Result<(), AllocError>
    ensures { OnOk result ((name : List ℕ) → facts_by_name table.new name ≡ or_else (facts_by_name table.old name)
        (facts_in told.entry.edition (meanings_of told.entry) name
        (function_declaration (function_syntax function.now) ∷ []))) }
{
    if !can_be_meant(function) {
        return Ok(());
    }
    let facts = function_facts(alloc, told, function)?;
    table.insert(function.name.text.as_str(), facts)
}

/// Adds the facts of a declaration, if it is a function that can be meant.
fn add_declaration<'a>(
    alloc: Global,
    told: InFile<'_, 'a>,
    declaration: &'a TopLevelDecl,
    table: &mut Table<'a>,
) -> Result<(), AllocError>
    ensures { OnOk result ((name : List ℕ) → facts_by_name table.new name ≡ or_else (facts_by_name table.old name)
        (facts_in told.entry.edition (meanings_of told.entry) name (top_level_syntax declaration.now ∷ []))) }
{
    match declaration {
        TopLevelDecl::Func(function) => add_function(alloc, told, function, table),
        TopLevelDecl::Decl(_) => Ok(()),
    }
}

/// Adds the facts of a file's functions.
fn file_signatures<'a>(
    alloc: Global,
    told: InFile<'_, 'a>,
    declarations: &'a [TopLevelDecl],
    table: &mut Table<'a>,
) -> Result<(), AllocError>
    ensures { OnOk result ((name : List ℕ) → facts_by_name table.new name ≡ or_else (facts_by_name table.old name)
        (facts_in told.entry.edition (meanings_of told.entry) name (map top_level_syntax declarations.now))) }
{
    for declaration in declarations {
        add_declaration(alloc, told, declaration, table)?;
    }
    Ok(())
}

/// The facts of a package's functions.
///
/// # Errors
///
/// Memory was refused.
pub fn signatures<'a>(
    alloc: Global,
    edition: Edition,
    files: &'a [File],
    names: &Names<'a>,
) -> Result<Table<'a>, AllocError>
    ensures { IfOk result (λ table. (name : List ℕ) → facts_by_name table name ≡ package_facts edition
        (λ file. declared_at names.now file) (map file_syntax files.now) name) }
{
    let mut table = Table::new(alloc);
    for (number, file) in files.iter().enumerate() {
        let told = InFile {
            edition,
            names,
            file: number,
        };
        file_signatures(alloc, told, &file.declarations, &mut table)?;
    }
    Ok(table)
}
