//! Ways to the faults of paths: for a fault of a body the shortest list of events that comes to it. What a way is says
//! `specs/Ways.antt`. Nothing is searched before somebody asks.
#![tactic(auto)]

ghost use Rattle.ways.specs.Ways.{FaultsHaveLists};

mod ends;
mod told_group;
mod trails;
mod variable;
mod way;

pub use ends::End;
pub use trails::first_end;
pub use variable::{VariableClasses, class_at_entry};
pub use way::{Asked, Way, way_to};

/// The faults of a body's paths are those to which lists come.
pub fn faults_have_lists()
    ensures { FaultsHaveLists }
{}
