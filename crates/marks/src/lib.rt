//! The marks of a file, in the order in which its statements do what they say: its names with what their place asks of
//! them, and where bodies begin and end.
#![tactic(auto)]

mod by_edition;
mod by_fields;
mod file;
mod returns;
mod rows;
mod walk;

pub use file::{expression_marks, file_marks};
pub use returns::own_returns;
