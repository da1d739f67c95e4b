//! The program `ctxvet` as a library: has packages read and judged, prints the report, and writes certificates.
#![tactic(auto)]

mod certify;
mod check;
mod explain;
mod notes;
mod program;
mod reports;
mod verify;

pub use folders::{Fault, Surroundings, words_fault};
pub use judge::{Counts, Report, Telling};
pub use load::{GivenPackage, Leave, ToTheEnd};
pub use program::{refuse, run, run_leaving};
pub use reports::report_of;
pub use vet_units::kept_files_read_back;
