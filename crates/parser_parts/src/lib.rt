//! How the types, signatures, lists of expressions and blocks of a file are read from its tokens, each from its parts.
#![tactic(auto)]

pub mod blocks;
pub mod constraints;
pub mod fields;
pub mod indexes;
pub mod instances;
pub mod lists;
pub mod signatures;
pub mod types;
