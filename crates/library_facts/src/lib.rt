//! What is known of Go's own library where its packages are not given: which of its functions call a cancel function
//! that they take, and which give one away. And what is declared of packages, beside those that are given.
#![tactic(auto)]

mod beside;
mod library;

pub use beside::{but_given, declared_among, with_library};
pub use library::{library_facts, library_text};
