//! How the declarations and the statements of a file are read from its tokens, each from its parts.
#![tactic(auto)]

pub mod branches;
pub mod declarations;
pub mod loops;
pub mod parameter_faults;
pub mod split_parameters;
pub mod statements;
