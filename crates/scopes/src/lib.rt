//! Which names stand in a file: those that functions declare, each with the block in which it can be meant, and those
//! that are used (the Go specification, "Blocks", "Declarations and scope").
#![tactic(auto)]

mod declared;
mod file;
mod names;
pub mod naming;
mod receivers;

pub use file::file_names;
pub use naming::{BareName, LocalName, Naming};
pub use receivers::named_in_types;
