//! What each mark of a file does to its tracked variables, and which uses are faults. The definitions are those of
//! `meaning/specs/Uses.antt`.
#![tactic(auto)]

mod at;
mod bindings;
mod blanks;
mod faults;
mod fields;
mod givings;
mod group_names;
mod losses;
mod mark;
mod outcomes;
mod recover;
mod sent;
mod tracked_names;
mod variables;

pub use bindings::Binding;
pub use faults::{UseCode, UseFault, add_fault};
pub use losses::lost_at;
pub use mark::mark_outcome;
pub use recover::is_recover;
pub use sent::sent_at;
