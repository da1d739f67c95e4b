//! Faults of bodies: those of what stands in them, those of too many variables, and those for which no path is
//! followed.

ghost use Rattle.std.specs.Prelude.{◌≡◌, IfOk, OnOk, map, true, false};
ghost use Rattle.std.specs.List.{filter};
ghost use Rattle.events.specs.ToldViews.{TellsFile};
ghost use Rattle.meaning.specs.BodyEvents.{fault_after, too_many_faults, unfollowed_faults, variables_of, body_faults};
ghost use Rattle.mentions.specs.MarkViews.{body_view};
ghost use Rattle.meaning.specs.Uses.{Seen};
ghost use Rattle.uses.specs.OutcomeViews.{fault_view, AddsFaults};
ghost use Rattle.events.specs.VariableViews.{variable_view, is_of_kind, faults_view};

use crate::Told;
use crate::by_variables::add_jumps;
use crate::variable::Variable;
use meaning::{MOST_CANCELS, MOST_GROUPS};
use mentions::BodyPlace;
use std::alloc::{AllocError, Global};
use uses::{UseCode, UseFault};

/// Whether it is a cancel function, or a group.
fn is_of_kind(are_cancels: bool, variable: Variable<'_>) -> bool
    ensures { result ≡ is_of_kind are_cancels (variable_view variable.entry) }
{
    if are_cancels {
        variable.kind.is_cancel()
    } else {
        !variable.kind.is_cancel()
    }
}

/// The variable after so many cancel functions, or groups, is one too many.
fn fault_after<'a>(
    most: usize,
    are_cancels: bool,
    variables: &[Variable<'a>],
) -> Option<UseFault<'a>>
    ensures { faults_view result ≡ fault_after most (filter (is_of_kind are_cancels)
        (map variable_view variables.now)) }
{
    let mut left = most;
    for variable in variables {
        if is_of_kind(are_cancels, *variable) {
            if left == 0 {
                return Some(UseFault {
                    at: variable.first,
                    code: UseCode::TooManyVariables,
                    name: variable.name,
                });
            }
            left -= 1;
        }
    }
    None
}

/// Adds a fault, if there is one.
fn add_fault<'a>(
    fault: Option<UseFault<'a>>,
    faults: &mut Vec<UseFault<'a>>,
) -> Result<(), AllocError>
    ensures { OnOk result (AddsFaults faults.old.items faults.new.items (faults_view fault.entry)) }
{
    if let Some(fault) = fault {
        faults.push(fault)?;
    }
    Ok(())
}

fn add_too_many<'a>(
    variables: &[Variable<'a>],
    faults: &mut Vec<UseFault<'a>>,
) -> Result<(), AllocError>
    ensures { OnOk result (AddsFaults faults.old.items faults.new.items (too_many_faults
        (map variable_view variables.now))) }
{
    add_fault(fault_after(MOST_CANCELS, true, variables), faults)?;
    add_fault(fault_after(MOST_GROUPS, false, variables), faults)
}

/// The faults for which the paths of a body with these variables are not followed: that it has too many, and each
/// `goto` beside variables.
///
/// # Errors
///
/// Memory was refused.
pub fn unfollowed<'a>(
    alloc: Global,
    variables: &[Variable<'a>],
    body: BodyPlace<'a>,
) -> Result<Vec<UseFault<'a>>, AllocError>
    ensures { IfOk result (λ faults. (seen : Seen)
        → map variable_view variables.now ≡ variables_of seen body.entry.at
        → map fault_view faults.items ≡ unfollowed_faults seen (body_view body.entry)) }
{
    let mut faults: Vec<UseFault<'a>> = Vec::new(alloc);
    add_too_many(variables, &mut faults)?;
    add_jumps(alloc, !variables.is_empty(), body, &mut faults)?;
    Ok(faults)
}

/// All use faults of the body at that offset, with these variables: those of what stands in it, and in no literal in
/// it; and those of too many variables.
///
/// # Errors
///
/// Memory was refused.
pub fn body_faults<'a>(
    alloc: Global,
    told: &Told<'a>,
    variables: &[Variable<'a>],
    body: u32,
) -> Result<Vec<UseFault<'a>>, AllocError>
    ensures { IfOk result (λ faults. (seen : Seen) → TellsFile seen told.now
        → map variable_view variables.now ≡ variables_of seen body
        → map fault_view faults.items ≡ body_faults seen body) }
{
    let mut faults: Vec<UseFault<'a>> = Vec::new(alloc);
    for fault in told.faults.at(body) {
        faults.push(*fault)?;
    }
    add_too_many(variables, &mut faults)?;
    Ok(faults)
}
