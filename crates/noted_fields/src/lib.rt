//! Which names of fields keep cancel functions, and which names may be fields', by what is said of them.
#![tactic(auto)]

mod by_notes;
mod note;

pub use by_notes::{filled_names, kept_names, some_put};
pub use note::Note;
