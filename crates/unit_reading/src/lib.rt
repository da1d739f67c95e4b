//! What is read of the files that the go command names of a unit: the unit, and what is kept of the packages that it
//! imports. And which of these count.
#![tactic(auto)]

mod counting;
mod unit_file;
mod vetx_input;

pub use counting::counts_in;
pub use test_packages::without_suffix;
pub use unit_file::{UnitRead, read_unit_file};
pub use vetx_input::{JudgedBy, ToldImport, read_told};
