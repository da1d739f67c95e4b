//! Units of the go command: a package that is judged by itself, by what was kept of those that it imports, and what is
//! kept of it in turn.
#![tactic(auto)]

mod calls;
mod digests;
mod flag_files;
mod notes;
mod told_once;
mod unit_input;
mod unit_laws;
mod unit_report;

pub use calls::vet;
pub use unit_laws::kept_files_read_back;
