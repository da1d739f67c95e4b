//! The tables of packages as they are kept for those that import them, and as they are made again: what is kept, and
//! what is made of it, is in `specs/KeptTables.antt`, and that the one gives the other in `specs/KeptLaws.antt`.
#![tactic(auto)]

mod again;
mod fault;
mod fits;
mod functions_kept;

pub use again::table_again;
pub use fault::KeptFault;
pub use functions_kept::kept_functions;
