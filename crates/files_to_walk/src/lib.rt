//! Which files of a package are walked, by their imports and texts: in the others nothing is to be found, as
//! `silent_files/specs/SilentPackages.antt` has it.
#![tactic(auto)]

mod functions;
mod signs;
mod skipping;
mod words;

pub use functions::signs_of_files;
pub use signs::{KnownSigns, Signs};
pub use skipping::walked_files;
