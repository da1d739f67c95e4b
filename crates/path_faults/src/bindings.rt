//! Faults where a variable is bound or made again.

ghost use Rattle.std.specs.Prelude.{OnOk, map};
ghost use Rattle.tracked_rows.specs.EventViews.{variable_view as variable_at_view};
ghost use Rattle.path_faults.specs.FaultViews.{AddsFaults};
ghost use Rattle.path_faults.specs.FoundFaults.{binding_faults, making_faults};
ghost use Rattle.events.specs.VariableViews.{variable_view};

use crate::at_node::AtNode;
use crate::fault::{PathCode, PathFault, add_if};
use crate::losses::{loses_cancel, loses_group};
use bodies::Arrivals;
use std::alloc::AllocError;
use tracked_rows::VariableAt;

/// Adds the faults of a node that binds a cancel variable.
pub fn add_binding<'a, A: Arrivals, L>(
    at: &AtNode<'_, 'a, A, L>,
    bound: VariableAt,
    faults: &mut Vec<PathFault<'a>>,
) -> Result<(), AllocError>
    ensures { OnOk result (AddsFaults faults.old.items faults.new.items (binding_faults
        (map variable_view at.now.variables.now) (A.cancels at.now.arrivals.now)
        (A.pending_groups at.now.arrivals.now) at.now.node.node (variable_at_view bound))) }
{
    for (place, variable) in at.variables.iter().enumerate() {
        let is_lost = loses_cancel(at, bound.number, place, *variable);
        add_if(
            is_lost,
            bound.at,
            PathCode::Overwritten,
            variable.name,
            faults,
        )?;
    }
    Ok(())
}

/// Adds the faults of a node that makes a group.
pub fn add_making<'a, A: Arrivals, L>(
    at: &AtNode<'_, 'a, A, L>,
    made: VariableAt,
    faults: &mut Vec<PathFault<'a>>,
) -> Result<(), AllocError>
    ensures { OnOk result (AddsFaults faults.old.items faults.new.items (making_faults
        (map variable_view at.now.variables.now) (A.groups at.now.arrivals.now) at.now.node.node
        (variable_at_view made))) }
{
    for (place, variable) in at.variables.iter().enumerate() {
        let is_lost = loses_group(at, made.number, place, *variable);
        add_if(
            is_lost,
            made.at,
            PathCode::GroupOverwritten,
            variable.name,
            faults,
        )?;
    }
    Ok(())
}
