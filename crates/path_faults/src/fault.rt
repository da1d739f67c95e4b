//! Faults of paths and of passes.

ghost use Rattle.std.specs.Prelude.{OnOk};
ghost use Rattle.path_faults.specs.FaultViews.{code_view, AddsFaults};
ghost use Rattle.path_faults.specs.FoundFaults.{fault_if};

use std::alloc::AllocError;

/// What a path or a pass of a body comes to.
#[derive(Clone, Copy)]
pub enum PathCode {
    /// A cancel variable is bound again before what it held was called.
    Overwritten,
    /// A cancel variable may not have been called at a return.
    NotCalled,
    /// A group of the body may be live at a return.
    GroupIsLive,
    /// A group is made again while it may be live.
    GroupOverwritten,
    /// The call of a cancel variable is left to a group that may be live at a return.
    LeftToLiveGroup,
    /// A cancel variable is passed to a function that is not known to call it.
    PassedOn,
}

/// A fault of a path or of a pass: the byte offset of its place, its code, and the name of the variable.
#[derive(Clone, Copy)]
pub struct PathFault<'a> {
    pub at: u32,
    pub code: PathCode,
    pub name: &'a str,
}

/// Adds a fault, if there is one.
pub fn add_if<'a>(
    is_fault: bool,
    at: u32,
    code: PathCode,
    name: &'a str,
    faults: &mut Vec<PathFault<'a>>,
) -> Result<(), AllocError>
    ensures { OnOk result (AddsFaults faults.old.items faults.new.items (fault_if is_fault at (code_view code)
        name.now)) }
{
    if is_fault {
        faults.push(PathFault { at, code, name })?;
    }
    Ok(())
}
