//! The parameters of which it may be known that functions call them.

ghost use Rattle.std.specs.Prelude.{◌≡◌, ◌++◌, ℕ, List, IfOk, OnOk, Some, map, option_map};
ghost use Rattle.facts.specs.FactViews.{facts_view, facts_by_name};
ghost use Rattle.bodies.specs.Bodies.{TellsBody, TellBodies};
ghost use Rattle.calls_flags.specs.Claims.{claim_view, claimed_as, variable_claims, claims_with, body_claims, bodies_claims, all_claims, function_name};
ghost use Rattle.calls_flags.specs.FilesBodies.{TellAll};
ghost use Rattle.meaning.specs.BodyEvents.{unfollowed_faults, variables_of};
ghost use Rattle.meaning.specs.Mentions.{BodyPlace as MeantBody};
ghost use Rattle.meaning.specs.Uses.{Seen};
ghost use Rattle.mentions.specs.MarkViews.{body_view};
ghost use Rattle.meaning_packages.specs.CallsFlags.{FileWithCredits};
ghost use Rattle.path_faults.specs.FoundFaults.{each_from};
ghost use Rattle.events.specs.VariableViews.{variable_view};

use crate::file_bodies::FileBodies;
use bodies::Body;
use called_parameters::FunctionParameter;
use events::{Variable, VariableRole};
use facts::{FunctionFacts, Table, VariableKind};
use mentions::BodyPlace;
use names::INIT;
use std::alloc::{AllocError, Global};
use tree::BLANK;

/// A cancel parameter with a name, of a function with a block and with not too many variables.
#[derive(Clone, Copy)]
pub struct Claim<'a> {
    /// The number of the function's file.
    pub file: usize,
    /// The place of its body in the list of the file's bodies.
    pub body: usize,
    /// The place of the parameter's variable in the list of the body's variables.
    pub place: usize,
    pub parameter: FunctionParameter<'a>,
}

/// A function of which claims are made: the number of its file, the place of its body in the list of the file's, its
/// name, and its facts.
#[derive(Drop)]
struct Claimant<'f, 'a> {
    file: usize,
    body: usize,
    name: &'a str,
    facts: &'f FunctionFacts,
}

/// The name of a function, which is no method and neither `init` nor `_`.
pub fn function_name(body: BodyPlace<'_>) -> Option<&str>
    ensures { option_map (λ name. name.now) result ≡ function_name (body_view body.entry) }
{
    match (body.name, body.receiver) {
        (Some(name), None) => {
            let text = name.text.as_str();
            if text != BLANK && text != INIT {
                Some(text)
            } else {
                None
            }
        }
        _ => None,
    }
}

/// The position of a cancel variable that is a parameter.
fn claimed_as(variable: Variable<'_>) -> Option<usize>
    ensures { result ≡ claimed_as (variable_view variable.entry).kind (variable_view variable.entry).role }
{
    match (variable.kind, variable.role) {
        (VariableKind::Cancel, VariableRole::OwnParameter(position)) => Some(position),
        _ => None,
    }
}

/// Adds the claim of the variable at that place in the list, if it is a cancel parameter.
fn add_variable<'a>(
    function: &Claimant<'_, 'a>,
    place: usize,
    variable: Variable<'a>,
    claims: &mut Vec<Claim<'a>>,
) -> Result<(), AllocError>
    ensures { OnOk result (map claim_view claims.new.items ≡ map claim_view claims.old.items ++ variable_claims
        (Some (facts_view function.now.facts.now)) function.now.file function.now.body function.now.name.now place
        (variable_view variable.entry)) }
{
    let Some(position) = claimed_as(variable) else {
        return Ok(());
    };
    if function.facts.takes_kind(VariableKind::Cancel, position) {
        let parameter = FunctionParameter {
            name: function.name,
            position,
        };
        claims.push(Claim {
            file: function.file,
            body: function.body,
            place,
            parameter,
        })?;
    }
    Ok(())
}

/// Adds the claims of these variables.
fn add_variables<'a>(
    function: &Claimant<'_, 'a>,
    variables: &[Variable<'a>],
    claims: &mut Vec<Claim<'a>>,
) -> Result<(), AllocError>
    ensures { OnOk result (map claim_view claims.new.items ≡ map claim_view claims.old.items
        ++ each_from (variable_claims (Some (facts_view function.now.facts.now)) function.now.file function.now.body
        function.now.name.now) 0 (map variable_view variables.now)) }
{
    for (place, variable) in variables.iter().enumerate() {
        add_variable(function, place, *variable, claims)?;
    }
    Ok(())
}

/// Adds the claims of a function with that body, unless its paths are not followed.
fn add_function<'a>(
    function: &Claimant<'_, 'a>,
    body: &Body<'_, 'a>,
    claims: &mut Vec<Claim<'a>>,
) -> Result<(), AllocError>
    ensures { OnOk result ((file : ℕ) (seen : Seen) (b : MeantBody) → TellsBody file seen b body.now
        → map claim_view claims.new.items ≡ map claim_view claims.old.items ++ claims_with
        (Some (facts_view function.now.facts.now)) function.now.file function.now.body function.now.name.now
        (unfollowed_faults seen b) (variables_of seen b.at)) }
{
    if body.is_unfollowed {
        return Ok(());
    }
    add_variables(function, &body.variables, claims)
}

/// Adds the claims of the body at that place in the list of its file's bodies.
fn add_body<'a>(
    table: &Table<'a>,
    place: usize,
    body: &Body<'_, 'a>,
    claims: &mut Vec<Claim<'a>>,
) -> Result<(), AllocError>
    ensures { OnOk result ((file : ℕ) (seen : Seen) (b : MeantBody) → TellsBody file seen b body.now
        → map claim_view claims.new.items ≡ map claim_view claims.old.items ++ body_claims
        (facts_by_name table.now) seen file place b) }
{
    let Some(name) = function_name(body.place) else {
        return Ok(());
    };
    let Some(facts) = table.facts(name) else {
        return Ok(());
    };
    let function = Claimant {
        file: body.file,
        body: place,
        name,
        facts,
    };
    add_function(&function, body, claims)
}

/// Adds the claims of a file's functions.
fn add_bodies<'a>(
    table: &Table<'a>,
    bodies: &[Body<'_, 'a>],
    claims: &mut Vec<Claim<'a>>,
) -> Result<(), AllocError>
    ensures { OnOk result ((file : ℕ) (seen : Seen) → TellBodies file seen bodies.now
        → map claim_view claims.new.items ≡ map claim_view claims.old.items ++ bodies_claims
        (facts_by_name table.now) file seen) }
{
    for (place, body) in bodies.iter().enumerate() {
        add_body(table, place, body, claims)?;
    }
    Ok(())
}

/// All cancel parameters of which it may be known that their functions call them, where the functions of the package
/// have these facts.
///
/// # Errors
///
/// Memory was refused.
pub fn find_claims<'a>(
    alloc: Global,
    table: &Table<'a>,
    files: &[FileBodies<'_, 'a>],
) -> Result<Vec<Claim<'a>>, AllocError>
    ensures { IfOk result (λ claims. (fs : List FileWithCredits) → TellAll fs files.now
        → map claim_view claims.items ≡ all_claims (facts_by_name table.now) fs) }
{
    let mut claims = Vec::new(alloc);
    for file in files {
        add_bodies(table, &file.bodies, &mut claims)?;
    }
    Ok(claims)
}
