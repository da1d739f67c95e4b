//! Faults that go by the variables of bodies: of `recover`, and of `goto`.

ghost use Rattle.std.specs.Prelude.{◌≡◌, ◌&&◌, OnOk, map, if◌then◌else◌, []};
ghost use Rattle.std.specs.List.{list_any};
ghost use Rattle.events.specs.ToldViews.{faults_by_variables, faults_of_jumps, recover_there};
ghost use Rattle.events.specs.VariableViews.{ordered_in, SeesBodies};
ghost use Rattle.meaning.specs.BodyEvents.{forbids_recover, jump_faults};
ghost use Rattle.meaning.specs.Jumps.{jumps_in};
ghost use Rattle.meaning.specs.OuterBlocks.{has_any};
ghost use Rattle.mentions.specs.MarkViews.{body_view, mark_view, mention_view};
ghost use Rattle.tracked.specs.LocalViews.{seen_view};
ghost use Rattle.uses.specs.OutcomeViews.{is_recover, AddsFaults};

use crate::found::Variables;
use body_parts::jumps_in;
use kept::Kept;
use mentions::{BodyPlace, Mark, Mention};
use std::alloc::{AllocError, Global};
use tracked::Seen;
use tree::Edition;
use uses::{UseCode, UseFault, add_fault, is_recover};

/// A file that was looked at, the variables of its bodies, and what is kept in it; nothing, where no field keeps.
#[derive(Clone, Copy)]
pub struct SeenBodies<'s, 'k, 'm, 'a> {
    pub seen: &'s Seen<'k, 'm, 'a>,
    pub variables: &'s Variables<'a>,
    pub kept: &'s Option<Kept<'a>>,
}

/// Whether one of these bodies has a variable.
fn any_has_variables(variables: &Variables<'_>, bodies: &[BodyPlace<'_>]) -> bool
    ensures { result ≡ list_any (λ b. has_any (ordered_in variables.now b.at)) (map body_view bodies.now) }
{
    for body in bodies {
        if variables.has_any(body.at) {
            return true;
        }
    }
    false
}

/// Whether `recover` is a fault in these bodies: in the second edition only where one of them has a variable.
fn forbids_recover(file: SeenBodies<'_, '_, '_, '_>, bodies: &[BodyPlace<'_>]) -> bool
    requires { SeesBodies file.seen.now file.variables.now }
    ensures { result ≡ forbids_recover (seen_view file.entry.seen.now).known.edition (seen_view file.entry.seen.now)
        (map body_view bodies.now) }
{
    match file.seen.known.edition {
        Edition::First => true,
        Edition::Second => any_has_variables(file.variables, bodies),
    }
}

/// Whether it is a mention of `recover`, and a fault.
fn is_forbidden(
    file: SeenBodies<'_, '_, '_, '_>,
    bodies: &[BodyPlace<'_>],
    mention: &Mention<'_, '_>,
) -> bool
    requires { SeesBodies file.seen.now file.variables.now }
    ensures { result ≡ (is_recover (seen_view file.entry.seen.now).known (mention_view mention.now)
        && forbids_recover (seen_view file.entry.seen.now).known.edition (seen_view file.entry.seen.now)
        (map body_view bodies.now)) }
{
    is_recover(file.seen.known, *mention) && forbids_recover(file, bodies)
}

/// Adds the fault of a mention of `recover`, if it is one, and a fault.
fn add_recover<'a>(
    file: SeenBodies<'_, '_, '_, 'a>,
    bodies: &[BodyPlace<'a>],
    mention: &Mention<'_, 'a>,
    faults: &mut Vec<UseFault<'a>>,
) -> Result<(), AllocError>
    requires { SeesBodies file.seen.now file.variables.now }
    ensures { OnOk result (AddsFaults faults.old.items faults.new.items (recover_there
        (seen_view file.entry.seen.now) (map body_view bodies.now) (mention_view mention.now))) }
{
    if is_forbidden(file, bodies, mention) {
        return add_fault(faults, mention.named.at, UseCode::RecoverUsed, "-");
    }
    Ok(())
}

/// Adds the faults of `goto`s at these offsets.
fn add_all<'a>(jumps: &[u32], faults: &mut Vec<UseFault<'a>>) -> Result<(), AllocError>
    ensures { OnOk result (AddsFaults faults.old.items faults.new.items (faults_of_jumps jumps.now)) }
{
    for at in jumps {
        add_fault(faults, *at, UseCode::GotoUsed, "-")?;
    }
    Ok(())
}

/// Adds the faults of a body's `goto`s, if it has variables.
///
/// # Errors
///
/// Memory was refused.
pub fn add_jumps<'a>(
    alloc: Global,
    has_variables: bool,
    body: BodyPlace<'a>,
    faults: &mut Vec<UseFault<'a>>,
) -> Result<(), AllocError>
    ensures { OnOk result (AddsFaults faults.old.items faults.new.items (if has_variables
        then faults_of_jumps (jumps_in (body_view body.entry).statements) else [])) }
{
    if !has_variables {
        return Ok(());
    }
    let jumps = jumps_in(alloc, body.statements)?;
    add_all(&jumps, faults)
}

/// The same by the variables of the bodies of its file.
fn add_jumps_in<'a>(
    alloc: Global,
    file: SeenBodies<'_, '_, '_, 'a>,
    body: BodyPlace<'a>,
    faults: &mut Vec<UseFault<'a>>,
) -> Result<(), AllocError>
    requires { SeesBodies file.seen.now file.variables.now }
    ensures { OnOk result (AddsFaults faults.old.items faults.new.items (jump_faults
        (seen_view file.entry.seen.now) (body_view body.entry))) }
{
    add_jumps(alloc, file.variables.has_any(body.at), body, faults)
}

/// Adds the faults of a mark in these bodies that go by variables.
///
/// # Errors
///
/// Memory was refused.
pub fn add_by_variables<'m, 'a>(
    alloc: Global,
    file: SeenBodies<'_, '_, 'm, 'a>,
    bodies: &[BodyPlace<'a>],
    mark: &Mark<'m, 'a>,
    faults: &mut Vec<UseFault<'a>>,
) -> Result<(), AllocError>
    requires { SeesBodies file.seen.now file.variables.now }
    ensures { OnOk result (AddsFaults faults.old.items faults.new.items (faults_by_variables
        (seen_view file.entry.seen.now) (map body_view bodies.now) (mark_view mark.now))) }
{
    match mark {
        Mark::Mentions(mention) => add_recover(file, bodies, mention, faults),
        Mark::Opens(body) => add_jumps_in(alloc, file, **body, faults),
        _ => Ok(()),
    }
}
