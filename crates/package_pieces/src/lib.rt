//! The files of one package told of, and its bodies made and judged, by several threads that help each other. What
//! comes of it is what one thread makes.
#![tactic(auto)]

mod building;
mod by_helpers;
mod claims;
mod numbers;
mod solving;
mod telling;

pub use building::build_all;
pub use by_helpers::ByHelpers;
pub use claims::find_called_with;
pub use numbers::{BodyNumber, have_several, numbers_kept};
pub use solving::solve_all;
pub use telling::tell_all;
