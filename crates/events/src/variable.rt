//! A variable of a body.

ghost use Rattle.std.specs.Prelude.{◌≡◌};
ghost use Rattle.facts.specs.FactViews.{kind_view};
ghost use Rattle.tracked.specs.LocalViews.{local_role_view, local_view};
ghost use Rattle.meaning.specs.BodyEvents.{role_in_own, first_in};
ghost use Rattle.events.specs.VariableViews.{variable_role_view, variable_view, own_variable, captured_variable};

use crate::sightings::Sighting;
use facts::VariableKind;
use tracked::{Local, LocalRole};

/// How a variable of a body stands to it.
#[derive(Clone, Copy)]
pub enum VariableRole {
    /// A parameter of the body, with its position.
    OwnParameter(usize),
    OwnReceiver,
    DeclaredInBody,
    /// Declared in a body around it.
    Captured,
}

/// A tracked variable of a body.
#[derive(Clone, Copy)]
pub struct Variable<'a> {
    pub number: u32,
    pub name: &'a str,
    pub kind: VariableKind,
    pub role: VariableRole,
    /// The offset of its first occurrence in the body.
    pub first: u32,
}

/// The role of a local in the body that declares it.
fn own_role(role: LocalRole) -> VariableRole
    ensures { variable_role_view result ≡ role_in_own (local_role_view role) }
{
    match role {
        LocalRole::Parameter(position) => VariableRole::OwnParameter(position),
        LocalRole::Receiver => VariableRole::OwnReceiver,
        _ => VariableRole::DeclaredInBody,
    }
}

/// Where a local occurs first in a body, by the least offset of a mention of it there.
fn first_in(role: VariableRole, local: Local<'_>, first: Option<u32>) -> u32
    ensures { result ≡ first_in (variable_role_view role) (local_view local.entry) first }
{
    match (role, first) {
        (VariableRole::DeclaredInBody, Some(first)) => first,
        (VariableRole::Captured, Some(first)) => first,
        _ => local.at,
    }
}

/// The local as a variable of the body that declares it.
pub fn own_variable<'a>(
    local: Local<'a>,
    kind: VariableKind,
    sighting: Option<Sighting>,
) -> Variable<'a>
    ensures { variable_view result ≡ own_variable (local_view local.entry) (kind_view kind) sighting }
{
    let role = own_role(local.role);
    let first = match sighting {
        Some(sighting) => Some(sighting.first),
        None => None,
    };
    Variable {
        number: local.number,
        name: local.name,
        kind,
        role,
        first: first_in(role, local, first),
    }
}

/// The local as a variable of another body, in which it occurs first there.
pub fn captured_variable<'a>(local: Local<'a>, kind: VariableKind, first: u32) -> Variable<'a>
    ensures { variable_view result ≡ captured_variable (local_view local.entry) (kind_view kind) first }
{
    Variable {
        number: local.number,
        name: local.name,
        kind,
        role: VariableRole::Captured,
        first,
    }
}
