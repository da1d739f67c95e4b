//! Packages as `go list -json` lists them, read from its output: how it is cut into values is in `specs/Pieces.antt`,
//! which values are those of packages in `specs/ListedValues.antt`, and which bytes are a list, and why some are none,
//! in `specs/ListTexts.antt`.
#![tactic(auto)]

ghost use Rattle.package_list.specs.CutExamples.{CutExamples};
ghost use Rattle.package_list.specs.ListLaws.{OneAnswer};

mod blanks;
mod cut;
mod fault;
mod import_map;
mod list;
mod listed;
mod members;
mod package;
mod strings;

pub use fault::ListFault;
pub use list::read_list;
pub use package::{ListedImport, ListedPackage};

/// How short texts are cut into values, where a reader may doubt it.
pub fn texts_are_cut()
    ensures { CutExamples }
{}

/// A text lists packages in one way at most, and one that lists some, all complete, is refused for want of memory
/// alone.
pub fn one_answer()
    ensures { OneAnswer }
{}
