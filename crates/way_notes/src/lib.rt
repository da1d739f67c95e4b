//! What is told of a way: its last binding, beginnings of work, and branches, and where it goes. The definitions are
//! those of `specs/Notes.antt` and `specs/Offsets.antt`.
#![tactic(auto)]

mod branches;
mod event_notes;
mod note;
mod notes;
mod offsets;

pub use note::{Note, Told};
pub use notes::notes_of;
pub use offsets::offsets_of;
