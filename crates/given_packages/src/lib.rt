//! What is known of the given packages before one is judged: their order by imports, which of them count as given,
//! their names, and what is declared of others. For a package that is judged by itself, what it is told of those that
//! it imports.
#![tactic(auto)]

mod counted;
mod faulty;
mod given;
mod nearby;
mod package_names;
mod told_neighbours;

pub use counted::counts_as_given;
pub use given::{Given, given_packages};
pub use nearby::Neighbours;
pub use package_names::names_of_packages;
pub use told_neighbours::{ImportedPackage, ToldNeighbours};
