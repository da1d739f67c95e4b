//! The names of a whole file, but for what it declares outside functions.

ghost use Rattle.std.specs.Prelude.{◌≡◌, ◌++◌, OnOk, IfOk, option_map, map};
ghost use Rattle.meaning.specs.Scopes.{type_parameters_declared, behind_name, parameters_named, body_names, function_names, outer_specs_names, top_level_names, top_levels_names, file_names};
ghost use Rattle.scopes.specs.Views.{Adds, namings_view, bare_view};
ghost use Rattle.tree.specs.View.{parameters_syntax, signature_syntax, block_syntax, function_syntax, specs_syntax, top_level_syntax, file_syntax, spec_and};
ghost use Rattle.tree.specs.Syntax.{no_spec};

use crate::declared::{
    behind_name, declare_bare_names, declare_receiver, declare_signature, declare_type_parameters,
};
use crate::names::{expression, expressions, optional, parameters, signature, statements};
use crate::naming::{BareName, Naming};
use crate::receivers::{named_in_receiver, receiver};
use std::alloc::{AllocError, Global};
use tree::{Block, File, Func, Param, Signature, Spec, TopLevelDecl};

/// The names of a file, in the order in which they are declared and used.
///
/// # Errors
///
/// Memory was refused.
pub fn file_names<'a>(alloc: Global, file: &'a File) -> Result<Vec<Naming<'a>>, AllocError>
    ensures { IfOk result (λ namings. namings_view namings.items ≡ file_names (file_syntax file.now)) }
{
    let mut namings = Vec::new(alloc);
    for declaration in &file.declarations {
        top_level(alloc, &mut namings, declaration)?;
    }
    Ok(namings)
}

fn top_level<'a>(
    alloc: Global,
    namings: &mut Vec<Naming<'a>>,
    declaration: &'a TopLevelDecl,
) -> Result<(), AllocError>
    ensures { OnOk result (Adds namings.old.items namings.new.items (top_level_names
        (top_level_syntax declaration.now))) }
{
    match declaration {
        TopLevelDecl::Func(declared) => function(alloc, namings, declared),
        TopLevelDecl::Decl(declared) => outer_specs(namings, &declared.specs),
    }
}

/// The names of a function or method; of one without a block those of its types alone.
fn function<'a>(
    alloc: Global,
    namings: &mut Vec<Naming<'a>>,
    function: &'a Func,
) -> Result<(), AllocError>
    ensures { OnOk result (Adds namings.old.items namings.new.items (function_names (function_syntax function.now))) }
{
    let named = named_in_receiver(alloc, &function.receiver)?;
    receiver(alloc, namings, &named, &function.receiver)?;
    type_parameters(namings, &named, function)?;
    parameters(namings, &function.type_params)?;
    signature(namings, &function.signature)?;
    body(
        namings,
        &function.receiver,
        &function.signature,
        &function.body,
    )
}

/// Adds the type parameters of a function: those that its receiver's type names, and those behind its own name.
fn type_parameters<'a>(
    namings: &mut Vec<Naming<'a>>,
    named: &[BareName<'a>],
    function: &'a Func,
) -> Result<(), AllocError>
    ensures { OnOk result (Adds namings.old.items namings.new.items (type_parameters_declared
        (behind_name (function_syntax function.now).name (function_syntax function.now).span)
        (map bare_view named.now ++ parameters_named (function_syntax function.now).type_parameters))) }
{
    let block = behind_name(&function.name, function.span);
    declare_bare_names(namings, block, named)?;
    declare_type_parameters(namings, block, &function.type_params)
}

fn body<'a>(
    namings: &mut Vec<Naming<'a>>,
    receiver: &'a Option<Vec<Param>>,
    signature: &'a Signature,
    body: &'a Option<Block>,
) -> Result<(), AllocError>
    ensures { OnOk result (Adds namings.old.items namings.new.items (body_names (option_map
        (λ ps. parameters_syntax ps.items) receiver.now) (signature_syntax signature.now)
        (option_map block_syntax body.now))) }
{
    match body {
        Some(block) => {
            declare_receiver(namings, block.span, receiver)?;
            declare_signature(namings, block.span, signature)?;
            statements(namings, block.span, &block.statements)
        }
        None => Ok(()),
    }
}

/// The names of a declaration outside all functions, which declares no local but type parameters.
fn outer_specs<'a>(namings: &mut Vec<Naming<'a>>, list: &'a [Spec]) -> Result<(), AllocError>
    ensures { OnOk result (Adds namings.old.items namings.new.items (outer_specs_names (specs_syntax list.now))) }
{
    for item in list {
        outer_spec(namings, item)?;
    }
    Ok(())
}

fn outer_spec<'a>(namings: &mut Vec<Naming<'a>>, spec: &'a Spec) -> Result<(), AllocError>
    ensures { OnOk result (Adds namings.old.items namings.new.items (outer_specs_names (spec_and spec.now no_spec))) }
{
    match spec {
        Spec::Value(_, kind, values, _) => {
            optional(namings, kind)?;
            expressions(namings, values)
        }
        Spec::Type(name, params, _, kind, span) => {
            declare_type_parameters(namings, behind_name(name, *span), params)?;
            parameters(namings, params)?;
            expression(namings, kind)
        }
    }
}
