//! Of which group's work a way tells.

ghost use Rattle.std.specs.Prelude.{◌≡◌, option_and_then};
ghost use Rattle.bodies.specs.Bits.{cancel_class};
ghost use Rattle.bodies.specs.ClassViews.{cancel_class_view};
ghost use Rattle.path_faults.specs.FaultViews.{code_view};
ghost use Rattle.ways.specs.Ways.{pending_in, group_told};

use bodies::{CancelClass, cancel_class};
use path_faults::PathCode;

/// The group in which a variable of that class is pending.
fn pending_in(class: CancelClass) -> Option<u32>
    ensures { result ≡ pending_in (cancel_class_view class) }
{
    match class {
        CancelClass::Pending(group) => Some(group),
        CancelClass::Unset | CancelClass::Opened | CancelClass::Kept | CancelClass::Safe => None,
    }
}

/// The group in which a variable is pending whose class has that number, where it can be pending in these.
fn left_to(groups: &[u32], class: usize) -> Option<u32>
    ensures { result ≡ option_and_then pending_in (cancel_class groups.now class) }
{
    match cancel_class(class, groups) {
        Some(class) => pending_in(class),
        None => None,
    }
}

/// The group of whose work a way tells on which the variable of that number is a fault of that code.
pub fn group_told(code: PathCode, number: u32, groups: &[u32], class: usize) -> Option<u32>
    ensures { result ≡ group_told (code_view code) number (option_and_then pending_in (cancel_class groups.now class)) }
{
    match code {
        PathCode::GroupIsLive | PathCode::GroupOverwritten => Some(number),
        PathCode::LeftToLiveGroup => left_to(groups, class),
        PathCode::Overwritten | PathCode::NotCalled | PathCode::PassedOn => None,
    }
}
