//! The marks of a whole file.

ghost use Rattle.std.specs.Prelude.{◌≡◌, [], ◌∷◌, false, OnOk, IfOk, map, option_map};
ghost use Rattle.meaning.specs.Mentions.{part_of, expression_marks, declared_elsewhere, receiver_marks, type_parameters_marks, function_types_marks, function_marks, outer_specs_marks, top_level_marks, statements_marks, marks_by, is_dot, import_marks, file_marks};
ghost use Rattle.meaning.specs.OuterBlocks.{specs_of};
ghost use Rattle.marks.specs.WalkViews.{AddsBy};
ghost use Rattle.mentions.specs.MarkViews.{Adds, marks_view};
ghost use Rattle.scopes.specs.Views.{bare_view};
ghost use Rattle.tree.specs.declared.edition.Edition.TheVariants.{Second};
ghost use Rattle.tree.specs.Syntax.{no_spec};
ghost use Rattle.tree.specs.View.{expression_syntax, parameters_syntax, block_syntax, function_syntax, identifier_syntax, import_spec_syntax, import_syntax, specs_syntax, statements_syntax, spec_and, top_level_syntax, file_syntax};

use crate::by_edition::{Told, Walk};
use crate::by_fields::imports_all;
use crate::walk::{expression, expressions, optional, parameters, signature, statements};
use bumpalo::Bump;
use mentions::Marks;
use mentions::mark::{BodyPlace, LiteralUse, Mark};
use mentions::parts::{declare_text, declared_parameters, part_of};
use scopes::{BareName, named_in_types};
use std::alloc::{AllocError, Global};
use tree::{
    Block, Edition, Expr, File, Func, Identifier, ImportDecl, ImportSpec, Param, Spec, Stmt,
    TopLevelDecl,
};

/// The marks of a file, in the order in which its statements do what they say; in the first edition without what
/// conditions find out. In the second edition fields are marked where some field keeps what it holds. What marks refer
/// to stands in the arena.
///
/// # Errors
///
/// Memory was refused.
pub fn file_marks<'m, 'a>(
    alloc: Global,
    arena: &'m Bump,
    edition: Edition,
    some_keep: bool,
    file: &'a File,
) -> Result<Vec<Mark<'m, 'a>>, AllocError>
    ensures { IfOk result (λ marks. marks_view marks.items ≡ marks_by edition some_keep
        (file_marks (file_syntax file.now))) }
{
    let mut walk = Walk {
        told: Told { edition, some_keep },
        marks: Marks {
            arena,
            list: Vec::new(alloc),
        },
    };
    all_imports(&mut walk, &file.imports)?;
    for declaration in &file.declarations {
        top_level(alloc, &mut walk, declaration)?;
    }
    Ok(walk.marks.list)
}

/// Whether an import brings all names of its package, without its name before them.
fn is_dot(name: &Option<Identifier>) -> bool
    ensures { result ≡ is_dot (option_map identifier_syntax name.now) }
{
    match name {
        Some(name) => name.text.as_str() == ".",
        None => false,
    }
}

/// An import that brings such names.
fn one_import<'m, 'a>(walk: &mut Walk<'m, 'a>, spec: &'a ImportSpec) -> Result<(), AllocError>
    ensures { OnOk result (AddsBy walk.old walk.new (import_marks (import_spec_syntax spec.now ∷ []))) }
{
    if is_dot(&spec.name) {
        imports_all(walk, spec.span.start)
    } else {
        Ok(())
    }
}

/// The specs of an import declaration that bring such names.
fn imports<'m, 'a>(walk: &mut Walk<'m, 'a>, specs: &'a [ImportSpec]) -> Result<(), AllocError>
    ensures { OnOk result (AddsBy walk.old walk.new (import_marks (map import_spec_syntax specs.now))) }
{
    for spec in specs {
        one_import(walk, spec)?;
    }
    Ok(())
}

/// Those of all import declarations of the file.
fn all_imports<'m, 'a>(
    walk: &mut Walk<'m, 'a>,
    declarations: &'a [ImportDecl],
) -> Result<(), AllocError>
    ensures { OnOk result (AddsBy walk.old walk.new (import_marks (specs_of
        (map import_syntax declarations.now)))) }
{
    for declaration in declarations {
        imports(walk, &declaration.specs)?;
    }
    Ok(())
}

/// The marks of an expression that stands nowhere as a whole, as if its site were at offset 0; in its literals with
/// what conditions find out, and with those of fields.
///
/// # Errors
///
/// Memory was refused.
pub fn expression_marks<'m, 'a>(
    alloc: Global,
    arena: &'m Bump,
    value: &'a Expr,
) -> Result<Vec<Mark<'m, 'a>>, AllocError>
    ensures { IfOk result (λ marks. marks_view marks.items ≡ expression_marks
        (part_of 0) (expression_syntax value.now)) }
{
    let mut walk = Walk {
        told: Told {
            edition: Edition::Second,
            some_keep: true,
        },
        marks: Marks {
            arena,
            list: Vec::new(alloc),
        },
    };
    expression(&mut walk, part_of(0), value)?;
    Ok(walk.marks.list)
}

/// The marks of statements, with what conditions find out, and without those of fields.
///
/// # Errors
///
/// Memory was refused.
pub fn statement_marks<'m, 'a>(
    alloc: Global,
    arena: &'m Bump,
    list: &'a [Stmt],
) -> Result<Vec<Mark<'m, 'a>>, AllocError>
    ensures { IfOk result (λ marks. marks_view marks.items ≡ marks_by Second false
        (statements_marks (statements_syntax list.now))) }
{
    let mut walk = Walk {
        told: Told {
            edition: Edition::Second,
            some_keep: false,
        },
        marks: Marks {
            arena,
            list: Vec::new(alloc),
        },
    };
    statements(&mut walk, list)?;
    Ok(walk.marks.list)
}

fn top_level<'m, 'a>(
    alloc: Global,
    walk: &mut Walk<'m, 'a>,
    declaration: &'a TopLevelDecl,
) -> Result<(), AllocError>
    ensures { OnOk result (AddsBy walk.old walk.new (top_level_marks
        (top_level_syntax declaration.now))) }
{
    match declaration {
        TopLevelDecl::Func(declared) => function(alloc, walk, declared, &declared.body),
        TopLevelDecl::Decl(declared) => outer_specs(walk, &declared.specs),
    }
}

/// A function or method; the types of one without a block stand in no body.
fn function<'m, 'a>(
    alloc: Global,
    walk: &mut Walk<'m, 'a>,
    function: &'a Func,
    body: &'a Option<Block>,
) -> Result<(), AllocError>
    ensures { OnOk result (AddsBy walk.old walk.new (function_marks (function_syntax function.now)
        (option_map block_syntax body.now))) }
{
    match body {
        Some(block) => {
            let place = walk.marks.keep_body(BodyPlace {
                at: function.span.start,
                name: Some(&function.name),
                receiver: function.receiver.as_deref(),
                signature: &function.signature,
                statements: &block.statements,
                braces: block.span,
                literal: LiteralUse::Other,
            })?;
            walk.marks.push(Mark::Opens(place))?;
            function_types(alloc, walk, function)?;
            statements(walk, &block.statements)?;
            walk.marks.push(Mark::Closes)?;
            Ok(())
        }
        None => function_types(alloc, walk, function),
    }
}

fn function_types<'m, 'a>(
    alloc: Global,
    walk: &mut Walk<'m, 'a>,
    function: &'a Func,
) -> Result<(), AllocError>
    ensures { OnOk result (AddsBy walk.old walk.new (function_types_marks
        (function_syntax function.now))) }
{
    receiver(alloc, walk, function.span.start, &function.receiver)?;
    type_parameters(walk, function.span.start, &function.type_params)?;
    signature(walk, function.span.start, &function.signature)
}

/// The type parameters that a receiver's type names, and the marks of that type.
fn receiver<'m, 'a>(
    alloc: Global,
    walk: &mut Walk<'m, 'a>,
    site: u32,
    receiver: &'a Option<Vec<Param>>,
) -> Result<(), AllocError>
    ensures { OnOk result (AddsBy walk.old walk.new (receiver_marks site (option_map
        (λ ps. parameters_syntax ps.items) receiver.now))) }
{
    match receiver {
        Some(params) => {
            let named = named_in_types(alloc, params)?;
            declare_bare_names(&mut walk.marks, site, &named)?;
            parameters(walk, true, site, params)
        }
        None => Ok(()),
    }
}

fn declare_bare_names<'m, 'a>(
    marks: &mut Marks<'m, 'a>,
    site: u32,
    names: &[BareName<'a>],
) -> Result<(), AllocError>
    ensures { OnOk result (Adds marks.old.list.items marks.new.list.items (declared_elsewhere site
        (map bare_view names.now))) }
{
    for name in names {
        declare_text(marks, site, name.text, name.span)?;
    }
    Ok(())
}

/// Type parameters, and then their constraints.
fn type_parameters<'m, 'a>(
    walk: &mut Walk<'m, 'a>,
    site: u32,
    params: &'a [Param],
) -> Result<(), AllocError>
    ensures { OnOk result (AddsBy walk.old walk.new (type_parameters_marks site
        (parameters_syntax params.now))) }
{
    declared_parameters(&mut walk.marks, site, params)?;
    parameters(walk, false, site, params)
}

/// The marks of a declaration outside all functions: no statement, and no local of a body.
fn outer_specs<'m, 'a>(walk: &mut Walk<'m, 'a>, list: &'a [Spec]) -> Result<(), AllocError>
    ensures { OnOk result (AddsBy walk.old walk.new (outer_specs_marks (specs_syntax list.now))) }
{
    for item in list {
        outer_spec(walk, item)?;
    }
    Ok(())
}

fn outer_spec<'m, 'a>(walk: &mut Walk<'m, 'a>, spec: &'a Spec) -> Result<(), AllocError>
    ensures { OnOk result (AddsBy walk.old walk.new (outer_specs_marks
        (spec_and spec.now no_spec))) }
{
    match spec {
        Spec::Value(_, kind, values, span) => {
            optional(walk, span.start, kind)?;
            expressions(walk, part_of(span.start), values)
        }
        Spec::Type(_, params, _, kind, span) => {
            type_parameters(walk, span.start, params)?;
            expression(walk, part_of(span.start), kind)
        }
    }
}
