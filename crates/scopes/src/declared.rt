//! What a function declares, name by name. The blank identifier declares nothing.

ghost use Rattle.std.specs.Prelude.{◌≡◌, true, [], ◌∷◌, OnOk, map, option_map};
ghost use Rattle.meaning.specs.Scopes.{declared, declared_names, parameter_name, parameters_declared, signature_declared, type_declared, behind_name, type_parameters_declared, parameters_named, guard_declared, end_of_last, receiver_declared};
ghost use Rattle.scopes.specs.Views.{local_view, bare_view, Adds};
ghost use Rattle.tree.specs.Syntax.{no_parameter};
ghost use Rattle.tree.specs.View.{expressions_syntax, identifier_syntax, parameter_and, parameters_syntax, signature_syntax};
ghost use Rattle.tree.specs.declared.expression.Literal.{out-Literal};
ghost use Rattle.tree.specs.declared.operator.DeclKeyword.TheVariants.{Var};
ghost use Rattle.tree.specs.declared.statement.Block.{out-Block};

use crate::naming::{BareName, LocalName, Naming, Scope};
use std::alloc::AllocError;
use tree::{BLANK, DeclKeyword, Expr, Identifier, Literal, Param, Signature, Span};

/// Adds the declaration, but for one of the blank identifier.
pub fn declare<'a>(namings: &mut Vec<Naming<'a>>, local: LocalName<'a>) -> Result<(), AllocError>
    ensures { OnOk result (Adds namings.old.items namings.new.items (declared (local_view local.entry))) }
{
    if local.name != BLANK {
        namings.push(Naming::Declaration(local))?;
    }
    Ok(())
}

/// Adds the declarations of names that are declared together, with their scope.
pub fn declare_names<'a>(
    namings: &mut Vec<Naming<'a>>,
    kind: DeclKeyword,
    scope: Scope,
    is_short: bool,
    names: &'a [Identifier],
) -> Result<(), AllocError>
    ensures { OnOk result (Adds namings.old.items namings.new.items (declared_names kind scope.block scope.from
        is_short (map identifier_syntax names.now))) }
{
    for name in names {
        let local = LocalName {
            name: name.text.as_str(),
            number: name.span.start,
            kind,
            block: scope.block,
            from: scope.from,
            is_short,
        };
        declare(namings, local)?;
    }
    Ok(())
}

/// Adds the names that `:=` declares. Their scope begins after the bytes before it: those of the statement, or of what
/// a `range` goes over.
pub fn declare_short<'a>(
    namings: &mut Vec<Naming<'a>>,
    block: Span,
    before: Span,
    names: &'a [Identifier],
) -> Result<(), AllocError>
    ensures { OnOk result (Adds namings.old.items namings.new.items (declared_names Var block before.end true
        (map identifier_syntax names.now))) }
{
    let scope = Scope {
        block,
        from: before.end,
    };
    declare_names(namings, DeclKeyword::Var, scope, true, names)
}

/// Adds a parameter or a result, whose scope is the whole block of its function.
fn declare_parameter<'a>(
    namings: &mut Vec<Naming<'a>>,
    block: Span,
    name: &'a Identifier,
) -> Result<(), AllocError>
    ensures { OnOk result (Adds namings.old.items namings.new.items (parameter_name block
        (identifier_syntax name.now))) }
{
    let local = LocalName {
        name: name.text.as_str(),
        number: name.span.start,
        kind: DeclKeyword::Var,
        block,
        from: block.start,
        is_short: false,
    };
    declare(namings, local)
}

/// Adds what a list of parameters or results declares in the block of its function.
pub fn declare_parameters<'a>(
    namings: &mut Vec<Naming<'a>>,
    block: Span,
    params: &'a [Param],
) -> Result<(), AllocError>
    ensures { OnOk result (Adds namings.old.items namings.new.items (parameters_declared block
        (parameters_syntax params.now))) }
{
    for param in params {
        match param {
            Param::Named(name, _, _) => declare_parameter(namings, block, name)?,
            Param::Unnamed(_, _) => (),
            Param::NameAlone(name) => declare_parameter(namings, block, name)?,
        }
    }
    Ok(())
}

/// Adds the parameters and results of a function with that block.
pub fn declare_signature<'a>(
    namings: &mut Vec<Naming<'a>>,
    block: Span,
    signature: &'a Signature,
) -> Result<(), AllocError>
    ensures { OnOk result (Adds namings.old.items namings.new.items (signature_declared block
        (signature_syntax signature.now))) }
{
    declare_parameters(namings, block, &signature.params)?;
    declare_parameters(namings, block, &signature.results)
}

/// Adds the parameters and results of a function literal, which stand in the block of its body.
pub fn declare_literal<'a>(
    namings: &mut Vec<Naming<'a>>,
    literal: &'a Literal,
) -> Result<(), AllocError>
    ensures { OnOk result (Adds namings.old.items namings.new.items (signature_declared
        (out-Block (out-Literal literal.now).body).span (signature_syntax (out-Literal literal.now).signature))) }
{
    declare_signature(namings, literal.body.span, &literal.signature)
}

/// Adds a receiver, if there is one.
pub fn declare_receiver<'a>(
    namings: &mut Vec<Naming<'a>>,
    block: Span,
    receiver: &'a Option<Vec<Param>>,
) -> Result<(), AllocError>
    ensures { OnOk result (Adds namings.old.items namings.new.items (receiver_declared block (option_map
        (λ ps. parameters_syntax ps.items) receiver.now))) }
{
    match receiver {
        Some(params) => declare_parameters(namings, block, params),
        None => Ok(()),
    }
}

/// Adds a local type, whose scope begins at its own name.
pub fn declare_type<'a>(
    namings: &mut Vec<Naming<'a>>,
    block: Span,
    name: &'a Identifier,
) -> Result<(), AllocError>
    ensures { OnOk result (Adds namings.old.items namings.new.items (type_declared block
        (identifier_syntax name.now))) }
{
    let local = LocalName {
        name: name.text.as_str(),
        number: name.span.start,
        kind: DeclKeyword::Type,
        block,
        from: name.span.start,
        is_short: false,
    };
    declare(namings, local)
}

/// The block of type parameters: it begins behind the name of their function or type, and ends with the bytes of that.
pub fn behind_name(name: &Identifier, whole: Span) -> Span
    ensures { result ≡ behind_name (identifier_syntax name.now) whole }
{
    Span {
        start: name.span.end,
        end: whole.end,
    }
}

/// Adds a type parameter, a local type whose scope is the whole block.
fn declare_type_parameter<'a>(
    namings: &mut Vec<Naming<'a>>,
    block: Span,
    name: BareName<'a>,
) -> Result<(), AllocError>
    ensures { OnOk result (Adds namings.old.items namings.new.items (type_parameters_declared block
        (bare_view name.entry ∷ []))) }
{
    let local = LocalName {
        name: name.text,
        number: name.span.start,
        kind: DeclKeyword::Type,
        block,
        from: block.start,
        is_short: false,
    };
    declare(namings, local)
}

/// Adds the type parameters that a receiver's type names.
pub fn declare_bare_names<'a>(
    namings: &mut Vec<Naming<'a>>,
    block: Span,
    names: &[BareName<'a>],
) -> Result<(), AllocError>
    ensures { OnOk result (Adds namings.old.items namings.new.items (type_parameters_declared block
        (map bare_view names.now))) }
{
    for name in names {
        declare_type_parameter(namings, block, *name)?;
    }
    Ok(())
}

fn bare(name: &Identifier) -> BareName<'_>
    ensures { bare_view result ≡ identifier_syntax name.now }
{
    BareName {
        text: name.text.as_str(),
        span: name.span,
    }
}

/// Adds the type parameter that a list of them names there.
fn declare_named<'a>(
    namings: &mut Vec<Naming<'a>>,
    block: Span,
    param: &'a Param,
) -> Result<(), AllocError>
    ensures { OnOk result (Adds namings.old.items namings.new.items (type_parameters_declared block
        (parameters_named (parameter_and param.now no_parameter)))) }
{
    match param {
        Param::Named(name, _, _) => declare_type_parameter(namings, block, bare(name)),
        Param::Unnamed(_, _) => Ok(()),
        Param::NameAlone(name) => declare_type_parameter(namings, block, bare(name)),
    }
}

/// Adds type parameters with that block.
pub fn declare_type_parameters<'a>(
    namings: &mut Vec<Naming<'a>>,
    block: Span,
    params: &'a [Param],
) -> Result<(), AllocError>
    ensures { OnOk result (Adds namings.old.items namings.new.items (type_parameters_declared block
        (parameters_named (parameters_syntax params.now)))) }
{
    for param in params {
        declare_named(namings, block, param)?;
    }
    Ok(())
}

/// Where the last of these types ends, or else the offset.
fn end_of_last(end: u32, types: &[Expr]) -> u32
    ensures { result ≡ end_of_last end (expressions_syntax types.now) }
{
    match types.last() {
        Some(last) => last.span.end,
        None => end,
    }
}

/// Adds the name of a type switch, if it has one, as each clause declares it anew, after its list of types.
pub fn declare_guard<'a>(
    namings: &mut Vec<Naming<'a>>,
    guard: Option<&'a Identifier>,
    clause: Span,
    types: &[Expr],
) -> Result<(), AllocError>
    ensures { OnOk result (Adds namings.old.items namings.new.items (guard_declared (option_map
        (λ n. identifier_syntax n.now) guard.entry) clause (expressions_syntax types.now))) }
{
    match guard {
        Some(name) => {
            let local = LocalName {
                name: name.text.as_str(),
                number: clause.start,
                kind: DeclKeyword::Var,
                block: clause,
                from: end_of_last(clause.start, types),
                is_short: false,
            };
            declare(namings, local)
        }
        None => Ok(()),
    }
}
