//! The groups of a body.

ghost use Rattle.std.specs.Prelude.{◌≡◌, ◌++◌, IfOk, OnOk, map};
ghost use Rattle.bodies.specs.OwnGroups.{group_number, groups_of};
ghost use Rattle.events.specs.VariableViews.{variable_view};

use events::Variable;
use facts::VariableKind;
use std::alloc::{AllocError, Global};

/// Adds the variable's number, if it is a group.
fn add_group(variable: Variable<'_>, groups: &mut Vec<u32>) -> Result<(), AllocError>
    ensures { OnOk result (groups.new.items ≡ groups.old.items ++ group_number (variable_view variable.entry).kind
        variable.entry.number) }
{
    match variable.kind {
        VariableKind::Group => groups.push(variable.number)?,
        VariableKind::Cancel => {}
    }
    Ok(())
}

/// The numbers of the groups among these variables, in their order.
///
/// # Errors
///
/// Memory was refused.
pub fn groups_of(alloc: Global, variables: &[Variable<'_>]) -> Result<Vec<u32>, AllocError>
    ensures { IfOk result (λ groups. groups.items ≡ groups_of (map variable_view variables.now)) }
{
    let mut groups = Vec::new(alloc);
    for variable in variables {
        add_group(*variable, &mut groups)?;
    }
    Ok(groups)
}
