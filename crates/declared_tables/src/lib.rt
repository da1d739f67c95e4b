//! What is declared of packages that are not given, as the tables by which their callers know them. What these say is
//! in `specs/DeclaredTables.antt`.
#![tactic(auto)]

mod functions;
mod tables;

pub use functions::{add_calls, add_results, parameters_of};
pub use tables::{DeclaredTables, PackageTable};
