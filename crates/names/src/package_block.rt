//! What the files of a package declare outside functions (the Go specification, "Declarations and scope").

ghost use Rattle.std.specs.Prelude.{◌≡◌, ℕ, List, OnOk, IfOk, map};
ghost use Rattle.meaning.specs.OuterBlocks.{declares_at_package_level, names_at_package_level, specs_at_package_level, can_be_meant, declaration_at_package_level, declarations_at_package_level, package_block};
ghost use Rattle.names.specs.Answers.{at_name};
ghost use Rattle.names.specs.Maps.{Adds, is_function_in};
ghost use Rattle.tree.specs.Syntax.{no_spec, function_declaration};
ghost use Rattle.tree.specs.View.{identifier_syntax, spec_and, specs_syntax, function_syntax, top_level_syntax, file_syntax};

use crate::first::keep_first_name;
use indexmap::IndexMap;
use std::alloc::{AllocError, Global};
use tree::{BLANK, File, Func, Identifier, Spec, TopLevelDecl};

/// The name of functions that run before `main`, and to which nothing can refer.
pub const INIT: &str = "init";

/// Adds a name, and whether it is that of a function. The blank identifier declares nothing.
fn add_name<'a>(
    block: &mut IndexMap<&'a str, bool>,
    is_function: bool,
    name: &'a Identifier,
) -> Result<(), AllocError>
    ensures { OnOk result (Adds block.old block.new (is_function_in (declares_at_package_level is_function
        (identifier_syntax name.now).text))) }
{
    if name.text.as_str() != BLANK {
        keep_first_name(block, name.text.as_str(), is_function)?;
    }
    Ok(())
}

fn add_names<'a>(
    block: &mut IndexMap<&'a str, bool>,
    names: &'a [Identifier],
) -> Result<(), AllocError>
    ensures { OnOk result (Adds block.old block.new (is_function_in (names_at_package_level
        (map identifier_syntax names.now)))) }
{
    for name in names {
        add_name(block, false, name)?;
    }
    Ok(())
}

fn add_spec<'a>(block: &mut IndexMap<&'a str, bool>, spec: &'a Spec) -> Result<(), AllocError>
    ensures { OnOk result (Adds block.old block.new (is_function_in (specs_at_package_level
        (spec_and spec.now no_spec)))) }
{
    match spec {
        Spec::Value(names, _, _, _) => add_names(block, names),
        Spec::Type(name, _, _, _, _) => add_name(block, false, name),
    }
}

fn add_specs<'a>(block: &mut IndexMap<&'a str, bool>, specs: &'a [Spec]) -> Result<(), AllocError>
    ensures { OnOk result (Adds block.old block.new (is_function_in (specs_at_package_level
        (specs_syntax specs.now)))) }
{
    for spec in specs {
        add_spec(block, spec)?;
    }
    Ok(())
}

/// Whether the function can be referred to by its name alone: it is no method, and called neither `init` nor `_`.
pub fn can_be_meant(function: &Func) -> bool
    ensures { result ≡ can_be_meant (function_syntax function.now) }
{
    let name = function.name.text.as_str();
    function.receiver.is_none() && name != BLANK && name != INIT
}

fn add_function<'a>(
    block: &mut IndexMap<&'a str, bool>,
    function: &'a Func,
) -> Result<(), AllocError>
    ensures { OnOk result (Adds block.old block.new (is_function_in (declaration_at_package_level
        (function_declaration (function_syntax function.now))))) }
{
    if !can_be_meant(function) {
        return Ok(());
    }
    add_name(block, true, &function.name)
}

fn add_declaration<'a>(
    block: &mut IndexMap<&'a str, bool>,
    declaration: &'a TopLevelDecl,
) -> Result<(), AllocError>
    ensures { OnOk result (Adds block.old block.new (is_function_in (declaration_at_package_level
        (top_level_syntax declaration.now)))) }
{
    match declaration {
        TopLevelDecl::Func(function) => add_function(block, function),
        TopLevelDecl::Decl(declared) => add_specs(block, &declared.specs),
    }
}

fn add_declarations<'a>(
    block: &mut IndexMap<&'a str, bool>,
    declarations: &'a [TopLevelDecl],
) -> Result<(), AllocError>
    ensures { OnOk result (Adds block.old block.new (is_function_in (declarations_at_package_level
        (map top_level_syntax declarations.now)))) }
{
    for declaration in declarations {
        add_declaration(block, declaration)?;
    }
    Ok(())
}

/// By its name, whether what the package declares so is a function.
///
/// # Errors
///
/// Memory was refused.
pub fn package_block<'a>(
    alloc: Global,
    files: &'a [File],
) -> Result<IndexMap<&'a str, bool>, AllocError>
    ensures { IfOk result (λ block. (name : List ℕ) → at_name block name ≡ is_function_in (package_block
        (map file_syntax files.now)) name) }
{
    let mut block = IndexMap::new(alloc);
    for file in files {
        add_declarations(&mut block, &file.declarations)?;
    }
    Ok(block)
}
