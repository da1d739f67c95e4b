//! Packages as they were read: their files with their trees, what they import, and the faults of a package as a whole.
//! The rules are those of `meaning_reports/specs/Loaded.antt` and `meaning_reports/specs/WholeFaults.antt`.
#![tactic(auto)]

mod dot_entries;
mod failures;
mod import_entries;
mod imported;
mod loaded_package;
mod numbered;
mod readings;
mod whole;

pub use dot_entries::add_dots;
pub use import_entries::{Marked, Picks, add_imports};
pub use imported::import_lists;
pub use loaded_package::{LoadedPackage, Reading};
pub use numbered::{NumberedTree, numbered_trees};
pub use readings::are_trees;
pub use whole::{Second, has_whole_fault, unranked, whole_faults};
