//! What is kept in fields of objects: which cancel variable, object and field belong together. The definitions are
//! those of `meaning/specs/Kept.antt`.
#![tactic(auto)]

mod around;
mod gathered;
mod holder;
mod of_file;
mod own;
mod row;
mod rows;
mod sides;
mod stored;

pub use around::Around;
pub use of_file::{Kept, find_kept};
pub use own::{carried, field_value, own_cancel};
pub use row::Keep;
pub use rows::{keeps_there, stored_there};
