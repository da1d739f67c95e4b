//! Nodes of the syntax tree made of their parts, each with its syntax, under the syntax's own names. A part that the
//! node keeps in a box is taken in its box, so nothing here allocates, and nothing fails.
#![tactic(auto)]

pub mod control;
pub mod expression;
pub mod statement;
pub mod types;
