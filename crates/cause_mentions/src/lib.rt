//! Which of given packages is the first that mentions cancel functions with a cause.
#![tactic(auto)]

mod kept;
mod mentioned;

pub use kept::first_kept;
