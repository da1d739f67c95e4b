//! The locals that the marks of a file declare.

ghost use Rattle.std.specs.Prelude.{◌≡◌, OnOk, map, option_map};
ghost use Rattle.meaning.specs.Tracked.{declared_by, row_typed, item_local, parameter_role, parameter_locals, receiver_locals, only_cancel, result_locals, receiver_items, signature_locals, body_locals, role_typed, declared_local, locals_there};
ghost use Rattle.facts.specs.FactViews.{tracked_type_view, item_view};
ghost use Rattle.tracked.specs.LocalViews.{local_role_view, AddsLocals};
ghost use Rattle.mentions.specs.MarkViews.{form_view, role_view, mention_view, body_view, mark_view};
ghost use Rattle.tracked_rows.specs.RowViews.{known_view};
ghost use Rattle.tree.specs.View.{identifier_syntax, parameters_syntax, signature_syntax};

use crate::local::{Local, LocalRole};
use crate::table::Locals;
use facts::{Item, TrackedType, item_type, parameter_items, tracked_type};
use mentions::{BodyPlace, Mark, Mention, Role, RowForm};
use std::alloc::{AllocError, Global};
use tracked_rows::{Known, meaning};
use tree::{BLANK, Identifier, Param, Signature};

/// Adds the local that a parameter or a result declares, if it has a name.
fn add_item<'a>(
    body: BodyPlace<'a>,
    role: LocalRole,
    typed: Option<TrackedType>,
    name: Option<&'a Identifier>,
    locals: &mut Locals<'a>,
) -> Result<(), AllocError>
    ensures { OnOk result (AddsLocals locals.old locals.new (item_local (body_view body.entry) (local_role_view role)
        (option_map tracked_type_view typed) (option_map (λ n. identifier_syntax n.now) name.entry))) }
{
    match name {
        Some(name) => {
            if name.text.as_str() == BLANK {
                return Ok(());
            }
            locals.add(Local {
                number: name.span.start,
                name: name.text.as_str(),
                at: name.span.start,
                role,
                typed,
                body: body.at,
            })
        }
        None => Ok(()),
    }
}

/// The role of a parameter, which is another one where `...` stands before its type.
fn parameter_role(role: LocalRole, item: &Item<'_>) -> LocalRole
    ensures { local_role_view result ≡ parameter_role (local_role_view role) (item_view item.now) }
{
    if item.is_variadic {
        LocalRole::Variadic
    } else {
        role
    }
}

/// A result is no parameter, so that a type of groups says nothing of it.
fn only_cancel(typed: Option<TrackedType>) -> Option<TrackedType>
    ensures { option_map tracked_type_view result ≡ only_cancel (option_map tracked_type_view typed) }
{
    match typed {
        Some(TrackedType::Cancel(cancel)) => Some(TrackedType::Cancel(cancel)),
        _ => None,
    }
}

fn add_parameters<'a>(
    known: Known<'_, 'a>,
    body: BodyPlace<'a>,
    items: &[Item<'a>],
    locals: &mut Locals<'a>,
) -> Result<(), AllocError>
    ensures { OnOk result (AddsLocals locals.old locals.new (parameter_locals (known_view known.entry)
        (body_view body.entry) 0 (map item_view items.now))) }
{
    for (position, item) in items.iter().enumerate() {
        let role = parameter_role(LocalRole::Parameter(position), item);
        let typed = item_type(known.names, known.file, item);
        add_item(body, role, typed, item.name, locals)?;
    }
    Ok(())
}

fn add_receivers<'a>(
    known: Known<'_, 'a>,
    body: BodyPlace<'a>,
    items: &[Item<'a>],
    locals: &mut Locals<'a>,
) -> Result<(), AllocError>
    ensures { OnOk result (AddsLocals locals.old locals.new (receiver_locals (known_view known.entry)
        (body_view body.entry) (map item_view items.now))) }
{
    for item in items {
        let role = parameter_role(LocalRole::Receiver, item);
        let typed = item_type(known.names, known.file, item);
        add_item(body, role, typed, item.name, locals)?;
    }
    Ok(())
}

fn add_results<'a>(
    known: Known<'_, 'a>,
    body: BodyPlace<'a>,
    items: &[Item<'a>],
    locals: &mut Locals<'a>,
) -> Result<(), AllocError>
    ensures { OnOk result (AddsLocals locals.old locals.new (result_locals (known_view known.entry)
        (body_view body.entry) (map item_view items.now))) }
{
    for item in items {
        let typed = only_cancel(item_type(known.names, known.file, item));
        add_item(body, LocalRole::Result, typed, item.name, locals)?;
    }
    Ok(())
}

fn add_receiver<'a>(
    alloc: Global,
    known: Known<'_, 'a>,
    body: BodyPlace<'a>,
    receiver: Option<&'a [Param]>,
    locals: &mut Locals<'a>,
) -> Result<(), AllocError>
    ensures { OnOk result (AddsLocals locals.old locals.new (receiver_locals (known_view known.entry)
        (body_view body.entry) (receiver_items (option_map (λ ps. parameters_syntax ps.now) receiver.entry)))) }
{
    match receiver {
        Some(params) => {
            let items = parameter_items(alloc, params)?;
            add_receivers(known, body, &items, locals)
        }
        None => Ok(()),
    }
}

fn add_signature<'a>(
    alloc: Global,
    known: Known<'_, 'a>,
    body: BodyPlace<'a>,
    signature: &'a Signature,
    locals: &mut Locals<'a>,
) -> Result<(), AllocError>
    ensures { OnOk result (AddsLocals locals.old locals.new (signature_locals (known_view known.entry)
        (body_view body.entry) (signature_syntax signature.now))) }
{
    let params = parameter_items(alloc, &signature.params)?;
    let results = parameter_items(alloc, &signature.results)?;
    add_parameters(known, body, &params, locals)?;
    add_results(known, body, &results, locals)
}

/// Adds the locals of a body's signature.
fn add_body<'a>(
    alloc: Global,
    known: Known<'_, 'a>,
    body: BodyPlace<'a>,
    locals: &mut Locals<'a>,
) -> Result<(), AllocError>
    ensures { OnOk result (AddsLocals locals.old locals.new (body_locals (known_view known.entry)
        (body_view body.entry))) }
{
    add_receiver(alloc, known, body, body.receiver, locals)?;
    add_signature(alloc, known, body, body.signature, locals)
}

/// The type of a variable or constant by that of its spec.
fn row_typed(known: Known<'_, '_>, form: RowForm<'_>) -> Option<TrackedType>
    ensures { option_map tracked_type_view result ≡ row_typed (known_view known.entry)
        (form_view form.entry) }
{
    match form {
        RowForm::Declares(_, _, Some(kind)) => {
            only_cancel(tracked_type(known.names, known.file, kind))
        }
        _ => None,
    }
}

fn role_typed(known: Known<'_, '_>, role: Role<'_, '_>) -> Option<TrackedType>
    ensures { option_map tracked_type_view result ≡ role_typed (known_view known.entry) (role_view role.entry) }
{
    match role {
        Role::Left(_, row) => row_typed(known, row.form),
        _ => None,
    }
}

/// The local that a mention declares.
pub fn declared_by(known: Known<'_, '_>, mention: Mention<'_, '_>) -> Option<u32>
    ensures { result ≡ declared_by (known_view known.entry) (mention_view mention.entry) }
{
    // Most mentions declare nothing, whatever they mean.
    let number = mention.declares?;
    match meaning(known, mention.named.at) {
        None => Some(number),
        Some(_) => None,
    }
}

/// Adds the local that a mention declares in these bodies.
fn add_declared<'a>(
    known: Known<'_, 'a>,
    bodies: &[BodyPlace<'a>],
    mention: Mention<'_, 'a>,
    locals: &mut Locals<'a>,
) -> Result<(), AllocError>
    ensures { OnOk result (AddsLocals locals.old locals.new (declared_local (known_view known.entry)
        (mention_view mention.entry) (map body_view bodies.now)
        (declared_by (known_view known.entry) (mention_view mention.entry)))) }
{
    match (bodies.first(), declared_by(known, mention)) {
        (Some(body), Some(number)) => locals.add(Local {
            number,
            name: mention.named.name,
            at: mention.named.at,
            role: LocalRole::InBlock,
            typed: role_typed(known, mention.role),
            body: body.at,
        }),
        _ => Ok(()),
    }
}

/// Adds the locals that a mark in these bodies declares.
///
/// # Errors
///
/// Memory was refused.
pub fn add_locals<'a>(
    alloc: Global,
    known: Known<'_, 'a>,
    bodies: &[BodyPlace<'a>],
    mark: Mark<'_, 'a>,
    locals: &mut Locals<'a>,
) -> Result<(), AllocError>
    ensures { OnOk result (AddsLocals locals.old locals.new (locals_there (known_view known.entry)
        (map body_view bodies.now) (mark_view mark.entry))) }
{
    match mark {
        Mark::Mentions(mention) => add_declared(known, bodies, mention, locals),
        Mark::Opens(body) => add_body(alloc, known, *body, locals),
        _ => Ok(()),
    }
}
