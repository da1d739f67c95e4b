//! The words of the command line: which packages they name, or what they ask for instead.
#![tactic(auto)]

mod command;
mod go_runs;
mod kept;
mod options;
mod values;
mod vet_asked;
mod vet_flags;
mod vet_laws;
mod vet_texts;
mod vet_told;
mod words;

pub use command::VERSION;
pub use go_runs::run_folder;
pub use vet_asked::{VetAsked, vet_words};
pub use vet_flags::VetFlag;
pub use vet_laws::own_words_are_no_call;
pub use vet_texts::{VET_FLAGS, wrong_value_text};
pub use vet_told::{UnitFlags, WrongValue};
pub use words::{Asked, CertifyWords, CheckWords, ReportWords, Sources, VerifyWords, read_words};
