//! The order of packages by their imports. The definitions are those of `specs/Ranks.antt`.
#![tactic(auto)]

pub mod given;
pub mod import_list;
pub mod ordering;
mod ranking;
pub mod ranks;
pub mod rows;

pub use given::first_places;
pub use import_list::ImportList;
pub use ordering::order;
pub use ranks::Order;
