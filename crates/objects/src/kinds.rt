//! Which locals are objects of a body, new or outer ones.

ghost use Rattle.std.specs.Prelude.{◌≡◌, IfOk, map, option_map};
ghost use Rattle.meaning.specs.Objects.{outer_if, kind_by_role, points_in};
ghost use Rattle.mentions.specs.MarkViews.{body_view};
ghost use Rattle.objects.specs.ObjectViews.{kind_of_unbound, kind_there};
ghost use Rattle.tracked.specs.LocalViews.{local_view, local_role_view, object_kind_view};

use crate::pointers::points_in;
use mentions::BodyPlace;
use std::alloc::{AllocError, Global};
use tracked::{Local, LocalRole, ObjectKind};

/// A parameter or receiver whose type is written with `*` is an object that others hold.
fn outer_if(
    alloc: Global,
    body: BodyPlace<'_>,
    number: u32,
) -> Result<Option<ObjectKind>, AllocError>
    ensures { IfOk result (λ kind. option_map object_kind_view kind
        ≡ outer_if (points_in (body_view body.entry) number)) }
{
    let points = points_in(alloc, body, number)?;
    if points {
        Ok(Some(ObjectKind::Outer))
    } else {
        Ok(None)
    }
}

/// By its role in the body that declares it.
fn kind_by_role(
    alloc: Global,
    role: LocalRole,
    body: BodyPlace<'_>,
    number: u32,
) -> Result<Option<ObjectKind>, AllocError>
    ensures { IfOk result (λ kind. option_map object_kind_view kind ≡ kind_by_role (local_role_view role)
        (points_in (body_view body.entry) number)) }
{
    match role {
        LocalRole::Parameter(_) => outer_if(alloc, body, number),
        LocalRole::Receiver => outer_if(alloc, body, number),
        LocalRole::Variadic => Ok(None),
        LocalRole::Result => Ok(Some(ObjectKind::New)),
        LocalRole::InBlock => Ok(Some(ObjectKind::New)),
    }
}

/// What a local, if it is bound in its declaration alone, is to the body.
pub fn object_kind(
    alloc: Global,
    unbound: Option<Local<'_>>,
    body: BodyPlace<'_>,
) -> Result<Option<ObjectKind>, AllocError>
    ensures { IfOk result (λ kind. option_map object_kind_view kind ≡ kind_of_unbound (body_view body.entry)
        (option_map local_view unbound.entry)) }
{
    match unbound {
        Some(local) => {
            if local.body == body.at {
                kind_by_role(alloc, local.role, body, local.number)
            } else {
                Ok(None)
            }
        }
        None => Ok(None),
    }
}

/// The same of the innermost of these bodies.
pub fn kind_there(
    alloc: Global,
    unbound: Option<Local<'_>>,
    bodies: &[BodyPlace<'_>],
) -> Result<Option<ObjectKind>, AllocError>
    ensures { IfOk result (λ kind. option_map object_kind_view kind ≡ kind_there (map body_view bodies.now)
        (option_map local_view unbound.entry)) }
{
    match bodies.first() {
        Some(body) => object_kind(alloc, unbound, *body),
        None => Ok(None),
    }
}
