//! Which packages of a list are read: of those that are listed twice one, of those that are also built with their own
//! tests that build, and no generated test program; under which path; and whether they were asked for.
#![tactic(auto)]

mod known_paths;
mod meant;
mod own_tests;
mod read_packages;
mod same;
mod suffix;

pub use meant::means_another;
pub use read_packages::{ReadPackage, packages_to_read};
pub use suffix::without_suffix;
