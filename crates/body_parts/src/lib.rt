//! What stands in a body: its simple statements, its headers and clauses, and its `goto`s. The definitions are those of
//! `meaning/specs/Jumps.antt`.
#![tactic(auto)]

mod jumps;
mod part;
mod walk;

pub use jumps::{jumps_in, parts_of};
pub use part::Part;
