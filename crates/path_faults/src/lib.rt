//! What the paths and the passes of a body come to: its faults, and whether a variable is called or settled at each
//! return. The rules are those of `meaning_packages/specs/PathFaults.antt`.
#![tactic(auto)]

mod answers;
mod at_node;
mod bindings;
mod deeds;
mod fault;
mod kinds;
mod live;
mod losses;
mod passes;
mod paths;
mod reached;
mod returns;

pub use answers::{breaks_settling, keeps_call, settles};
pub use at_node::AtNode;
pub use deeds::{Deed, deed_of, is_fault, is_return_deed};
pub use fault::{PathCode, PathFault};
pub use kinds::{is_declared, is_handed, is_handed_kept, makes_it, owes_call};
pub use live::{LiveGroups, Lives, live_groups};
pub use passes::pass_faults;
pub use paths::path_faults;
pub use reached::comes_back;
pub use returns::is_uncalled;
