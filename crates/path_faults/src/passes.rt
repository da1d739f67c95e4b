//! The faults of a body's passes.

ghost use Rattle.std.specs.Prelude.{◌≡◌, ◌↔◌, Contains, IfOk, OnOk, map};
ghost use Rattle.tracked_rows.specs.EventViews.{event_view, variable_view as variable_at_view};
ghost use Rattle.events.specs.ToldViews.{TellsFile};
ghost use Rattle.meaning.specs.BodyEvents.{events_at};
ghost use Rattle.meaning.specs.Uses.{Seen};
ghost use Rattle.meaning_packages.specs.PathFaults.{Paths, PathFault as MeantFault, IsPassFault};
ghost use Rattle.path_faults.specs.FaultViews.{fault_view, AddsFaults};
ghost use Rattle.path_faults.specs.FoundFaults.{passed_faults, passed_unless, passing_faults};
ghost use Rattle.events.specs.VariableViews.{variable_view};
ghost use Rattle.tree.specs.declared.edition.Edition.TheVariants.{First};

use crate::fault::{PathCode, PathFault, add_if};
use bodies::Promises;
use events::{Told, Variable};
use std::alloc::{AllocError, Global};
use tracked_rows::{Event, VariableAt};
use tree::Edition;

/// Adds the faults of a variable that is passed.
fn add_passed<'a>(
    variables: &[Variable<'a>],
    passed: VariableAt,
    faults: &mut Vec<PathFault<'a>>,
) -> Result<(), AllocError>
    ensures { OnOk result (AddsFaults faults.old.items faults.new.items (passed_faults
        (map variable_view variables.now) (variable_at_view passed))) }
{
    for variable in variables {
        let is_it = variable.kind.is_cancel() && variable.number == passed.number;
        add_if(is_it, passed.at, PathCode::PassedOn, variable.name, faults)?;
    }
    Ok(())
}

/// Adds the faults of a variable that is passed, unless it is known to be called.
fn add_unless<'a>(
    is_called: bool,
    variables: &[Variable<'a>],
    passed: VariableAt,
    faults: &mut Vec<PathFault<'a>>,
) -> Result<(), AllocError>
    ensures { OnOk result (AddsFaults faults.old.items faults.new.items (passed_unless is_called
        (map variable_view variables.now) (variable_at_view passed))) }
{
    if is_called {
        return Ok(());
    }
    add_passed(variables, passed, faults)
}

/// Adds the faults of an event.
fn add_passing<'a, P: Promises>(
    variables: &[Variable<'a>],
    promises: &P,
    event: &Event<'_>,
    faults: &mut Vec<PathFault<'a>>,
) -> Result<(), AllocError>
    ensures { OnOk result (AddsFaults faults.old.items faults.new.items (passing_faults
        (map variable_view variables.now) (P.promises promises.now) (event_view event.now))) }
{
    match event {
        Event::Pass {
            variable: passed,
            callee,
            position,
        }
        | Event::DeferPass {
            variable: passed,
            callee,
            position,
        } => {
            add_unless(
                promises.calls(*callee, *position),
                variables,
                *passed,
                faults,
            )
        }
        Event::Obtain { .. }
        | Event::ObtainKept { .. }
        | Event::Renew { .. }
        | Event::Keep { .. }
        | Event::CallKept { .. }
        | Event::DeferKept { .. }
        | Event::Give { .. }
        | Event::GiveField { .. }
        | Event::Clear { .. }
        | Event::Call { .. }
        | Event::DeferCall { .. }
        | Event::Lend { .. }
        | Event::Start { .. }
        | Event::Try { .. }
        | Event::Wait { .. }
        | Event::DeferWait { .. }
        | Event::Make { .. }
        | Event::DeferLiteral { .. }
        | Event::GoCall { .. }
        | Event::GoPass { .. }
        | Event::GoLiteral { .. }
        | Event::Return { .. } => Ok(()),
    }
}

/// The faults of all passes of the body at that byte offset, as the first edition asks for them.
fn first_faults<'a, P: Promises>(
    alloc: Global,
    told: &Told<'a>,
    body: u32,
    variables: &[Variable<'a>],
    promises: &P,
) -> Result<Vec<PathFault<'a>>, AllocError>
    ensures { IfOk result (λ faults. (seen : Seen) → TellsFile seen told.now
        → (b : Paths) → b.edition ≡ First → b.events ≡ events_at seen body seen.marks
        → b.variables ≡ map variable_view variables.now
        → b.promises ≡ P.promises promises.now
        → (f : MeantFault)
        → Contains (map fault_view faults.items) f ↔ IsPassFault b f) }
{
    let mut faults: Vec<PathFault<'a>> = Vec::new(alloc);
    for event in told.events.at(body) {
        add_passing(variables, promises, &event.event, &mut faults)?;
    }
    Ok(faults)
}

/// The faults of passes of the body at that byte offset, on a path or not, by the edition of its file; one may come
/// twice. The second edition has none.
///
/// # Errors
///
/// Memory was refused.
pub fn pass_faults<'a, P: Promises>(
    alloc: Global,
    told: &Told<'a>,
    body: u32,
    variables: &[Variable<'a>],
    promises: &P,
) -> Result<Vec<PathFault<'a>>, AllocError>
    ensures { IfOk result (λ faults. (seen : Seen) → TellsFile seen told.now
        → (b : Paths) → b.edition ≡ seen.known.edition → b.events ≡ events_at seen body seen.marks
        → b.variables ≡ map variable_view variables.now
        → b.promises ≡ P.promises promises.now
        → (f : MeantFault)
        → Contains (map fault_view faults.items) f ↔ IsPassFault b f) }
{
    match told.edition {
        Edition::First => first_faults(alloc, told, body, variables, promises),
        Edition::Second => Ok(Vec::new(alloc)),
    }
}
