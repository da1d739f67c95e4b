//! Why each diagnostic of a package stands in the report. After packages were judged, those of which something is to be
//! said are looked at once more, and each of their diagnostics gets its notes. What is said stays as it was.
#![tactic(auto)]

mod asked;
mod copies;
mod explained;
mod found;
mod known;
mod notes;
mod packages;
mod pointers;
mod told_reasons;
mod told_uses;
mod told_ways;
mod units;
mod way_of;

pub use packages::explain;
pub use units::explain_unit;
