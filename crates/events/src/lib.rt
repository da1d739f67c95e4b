//! What is told of the bodies of a file: their use faults, the events at their sites, and their variables in their
//! order. The definitions are those of `meaning/specs/BodyEvents.antt`.
#![tactic(auto)]

mod bound;
mod by_variables;
mod faults;
mod file;
mod found;
mod merged;
mod order;
mod sightings;
mod told;
mod variable;

pub use faults::{body_faults, unfollowed};
pub use file::tell;
pub use found::{Variables, find_variables};
pub use told::{SiteEvent, Told};
pub use variable::{Variable, VariableRole};
