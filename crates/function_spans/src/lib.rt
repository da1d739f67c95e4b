//! Where functions stand in the text of a file, by its bytes: where a body ends, and in which function an offset is;
//! where statements end, and by which calls values are bound.
#![tactic(auto)]

mod bodies;
mod calls;
mod functions;
mod steps;

pub use bodies::{begins_with, body_end, byte_at, is_of_word};
pub use calls::bound_by;
pub use functions::{function_at, function_name, is_in_literal, receiver_type};
pub use steps::{statement_end, word_end};
