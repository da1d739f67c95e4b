//! What a mark does to what is kept in fields of objects: the events of `meaning/specs/Kept.antt`, in their order, and
//! what a return takes with it.
#![tactic(auto)]

mod called;
mod declared;
mod events;
mod file;
mod gives;
mod here;
mod literals;
mod returned;
mod told_names;
mod written;

pub use events::add_mark_events;
pub use file::{FileKept, find_file_kept};
pub use told_names::add_names;
