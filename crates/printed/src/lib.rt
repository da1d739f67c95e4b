//! How a text is printed, when a write is refused, and the statuses that the program ends with.
#![tactic(auto)]

mod notes;
mod printing;
mod status;
mod writers;

pub use notes::{PROGRAM, not_given_note, tell};
pub use printing::print;
pub use status::Status;
pub use writers::{Refusals, Refused};
