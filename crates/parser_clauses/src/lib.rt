//! How simple statements, headers, and the statements that have clauses, `switch` and `select`, are read from a file's
//! tokens, each from its parts.
#![tactic(auto)]

pub mod headers;
pub mod selects;
pub mod simple;
pub mod switches;
