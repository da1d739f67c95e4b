//! What a run is given: the Go files of packages that words and a list name, declared facts, the report of an earlier
//! run and certificates; and how its report is told.
#![tactic(auto)]

mod baseline_input;
mod certificate_input;
mod evidence;
mod facts_input;
mod fixes;
mod input;
mod list_input;
mod listed_packages;
mod load_fault;
mod outside;
mod packages;
mod telling;

pub use baseline_input::{BaselineRead, read_located_baseline};
pub use evidence::{Evidence, read_evidence};
pub use facts_input::{Declared, nothing_declared, read_facts};
pub use fixes::fixes_in;
pub use input::{FilesRead, Input, ListRead, Noted, edition_of_run, edition_or, read_sources};
pub use load_fault::fault_of_load;
pub use outside::known_beside_paths;
pub use packages::{FoldersAsked, NamedPackage};
pub use telling::{telling_for, telling_of};
