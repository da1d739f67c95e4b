//! Packages, by the bytes of their files. What a file's bytes are is said in `specs/Readings.antt`, what is loaded of
//! given packages in `specs/GivenPackages.antt`, of which packages imports are in `specs/MeantPaths.antt`, and what is
//! declared of others in `specs/LoadedBeside.antt`.
#![tactic(auto)]

mod ahead;
mod loaded;
mod meant;
mod package;
mod packages;
mod source;

pub use loaded::{Leave, LetGo, Loaded, ToTheEnd, load_beside, load_beside_by_workers};
pub use meant::MeantImport;
pub use packages::{GivenPackage, LoadFault, load, load_by_workers, release};
