//! How the expressions of a file are read from its tokens, each from its parts.
#![tactic(auto)]

pub mod expressions;
pub mod lone_operands;
pub mod operands;
pub mod primaries;
pub mod type_names;
