//! What the type of a receiver declares and uses (the Go specification, "Method declarations").

ghost use Rattle.std.specs.Prelude.{◌≡◌, ◌==◌, [], ◌∷◌, OnOk, IfOk, map, option_map};
ghost use Rattle.std.specs.List.{list_any, filter};
ghost use Rattle.meaning.specs.Scopes.{bare_names, named_in_type, named_in_types, named_in_receiver, is_none_of, parameters_names};
ghost use Rattle.scopes.specs.Views.{Adds, naming_view, namings_view, bare_view, AddsBare, names_but};
ghost use Rattle.tree.specs.Syntax.{no_expression, expression_and, no_parameter};
ghost use Rattle.tree.specs.View.{expression_syntax, expressions_syntax, parameter_and, parameters_syntax};

use crate::names::parameters;
use crate::naming::{BareName, Naming};
use std::alloc::{AllocError, Global};
use tree::{Expr, ExprKind, Param};

/// The type parameters that a receiver declares, if there is one.
///
/// # Errors
///
/// Memory was refused.
pub fn named_in_receiver<'a>(
    alloc: Global,
    receiver: &'a Option<Vec<Param>>,
) -> Result<Vec<BareName<'a>>, AllocError>
    ensures { IfOk result (λ names. map bare_view names.items ≡ named_in_receiver (option_map
        (λ ps. parameters_syntax ps.items) receiver.now)) }
{
    match receiver {
        Some(params) => named_in_types(alloc, params),
        None => Ok(Vec::new(alloc)),
    }
}

/// The type parameters that a receiver's type declares: the bare names in the brackets behind its own name.
///
/// # Errors
///
/// Memory was refused.
pub fn named_in_types<'a>(
    alloc: Global,
    params: &'a [Param],
) -> Result<Vec<BareName<'a>>, AllocError>
    ensures { IfOk result (λ names. map bare_view names.items ≡ named_in_types (parameters_syntax params.now)) }
{
    let mut names: Vec<BareName<'a>> = Vec::new(alloc);
    for param in params {
        add_parameter(&mut names, param)?;
    }
    Ok(names)
}

/// Adds the names in the type of a receiver.
fn add_parameter<'a>(names: &mut Vec<BareName<'a>>, param: &'a Param) -> Result<(), AllocError>
    ensures { OnOk result (AddsBare names.old.items names.new.items (named_in_types (parameter_and param.now
        no_parameter))) }
{
    match param {
        Param::Named(_, _, kind) => add_type(names, kind),
        Param::Unnamed(_, kind) => add_type(names, kind),
        Param::NameAlone(_) => Ok(()),
    }
}

/// Adds the names in the brackets behind the type's own name.
fn add_type<'a>(names: &mut Vec<BareName<'a>>, kind: &'a Expr) -> Result<(), AllocError>
    ensures { OnOk result (AddsBare names.old.items names.new.items (named_in_type (expression_syntax kind.now))) }
{
    match &kind.kind {
        ExprKind::Paren(inner) => add_type(names, inner),
        ExprKind::Star(inner) => add_type(names, inner),
        ExprKind::Index(_, argument) => add_argument(names, argument),
        ExprKind::Instance(_, arguments) => add_arguments(names, arguments),
        _ => Ok(()),
    }
}

fn add_arguments<'a>(names: &mut Vec<BareName<'a>>, arguments: &'a [Expr]) -> Result<(), AllocError>
    ensures { OnOk result (AddsBare names.old.items names.new.items (bare_names (expressions_syntax arguments.now))) }
{
    for argument in arguments {
        add_argument(names, argument)?;
    }
    Ok(())
}

/// Adds what stands in the brackets, if it is a bare name.
fn add_argument<'a>(names: &mut Vec<BareName<'a>>, argument: &'a Expr) -> Result<(), AllocError>
    ensures { OnOk result (AddsBare names.old.items names.new.items (bare_names (expression_and
        (expression_syntax argument.now) no_expression))) }
{
    match &argument.kind {
        ExprKind::Name(text) => {
            let name = BareName {
                text: text.as_str(),
                span: argument.span,
            };
            names.push(name)?;
            Ok(())
        }
        _ => Ok(()),
    }
}

/// The names that a receiver's type uses: all but these, which it declares.
///
/// # Errors
///
/// Memory was refused.
pub fn receiver<'a>(
    alloc: Global,
    namings: &mut Vec<Naming<'a>>,
    named: &[BareName<'a>],
    receiver: &'a Option<Vec<Param>>,
) -> Result<(), AllocError>
    ensures { OnOk result (Adds namings.old.items namings.new.items (names_but (map bare_view named.now) (option_map
        (λ ps. parameters_syntax ps.items) receiver.now))) }
{
    match receiver {
        Some(params) => types_but(alloc, namings, named, params),
        None => Ok(()),
    }
}

/// The names of the types of parameters, but for those that are declared there.
fn types_but<'a>(
    alloc: Global,
    namings: &mut Vec<Naming<'a>>,
    named: &[BareName<'a>],
    params: &'a [Param],
) -> Result<(), AllocError>
    ensures { OnOk result (Adds namings.old.items namings.new.items (filter (is_none_of (map bare_view named.now))
        (parameters_names (parameters_syntax params.now)))) }
{
    if named.is_empty() {
        return parameters(namings, params);
    }
    let mut all: Vec<Naming<'a>> = Vec::new(alloc);
    parameters(&mut all, params)?;
    add_others(namings, named, &all)
}

/// Adds the names but for those that are declared there.
fn add_others<'a>(
    namings: &mut Vec<Naming<'a>>,
    named: &[BareName<'a>],
    all: &[Naming<'a>],
) -> Result<(), AllocError>
    ensures { OnOk result (Adds namings.old.items namings.new.items (filter (is_none_of (map bare_view named.now))
        (namings_view all.now))) }
{
    for naming in all {
        add_other(namings, named, *naming)?;
    }
    Ok(())
}

fn add_other<'a>(
    namings: &mut Vec<Naming<'a>>,
    named: &[BareName<'a>],
    naming: Naming<'a>,
) -> Result<(), AllocError>
    ensures { OnOk result (Adds namings.old.items namings.new.items (filter (is_none_of (map bare_view named.now))
        (naming_view naming.entry ∷ []))) }
{
    if is_none_of(named, naming) {
        namings.push(naming)?;
    }
    Ok(())
}

/// Whether none of these names is what is used there.
fn is_none_of(named: &[BareName<'_>], naming: Naming<'_>) -> bool
    ensures { result ≡ is_none_of (map bare_view named.now) (naming_view naming.entry) }
{
    match naming {
        Naming::Use(_, at) => !stands_at(named, at),
        Naming::Declaration(_) => true,
    }
}

/// Whether one of these names begins at the offset.
fn stands_at(named: &[BareName<'_>], at: u32) -> bool
    ensures { result ≡ list_any (λ n. n.span.start == at) (map bare_view named.now) }
{
    for name in named {
        if name.span.start == at {
            return true;
        }
    }
    false
}
