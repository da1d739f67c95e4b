//! Declared facts of packages outside those that are judged, read from JSON: what is declared is in
//! `specs/DeclaredPackages.antt`, which values are those of it in `specs/DeclaredValues.antt`, and which texts, and why
//! a text is none, in `specs/DeclaredTexts.antt`.
#![tactic(auto)]

mod fault;
mod functions;
mod order;
mod outside;
mod packages;
mod read;
mod reserved;

pub use fault::DeclaredFault;
pub use outside::{DeclaredFunction, DeclaredPackage, DeclaredPackages};
pub use read::from_json;
pub use reserved::ReservedPath;
