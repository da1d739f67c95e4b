//! Codes in memory, and how they are put together: in which order events can come. The definitions are those of
//! `meaning/specs/Code.antt` and, of loops and labels, of `meaning/specs/StatementCode.antt`.
#![tactic(auto)]

pub mod code;
pub mod parts;

pub use code::{Code, Occurrence, Way};
