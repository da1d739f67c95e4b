//! What a run of one package keeps for those that import it, as JSON: what is kept is in `specs/KeptUnits.antt`, which
//! values are those of it in `specs/VetxValues.antt`, and which texts, and why a text is none, in
//! `specs/VetxTexts.antt`.
#![tactic(auto)]

ghost use Rattle.vetx_json.specs.VetxLaws.{OnePackage};

mod fault;
mod functions;
mod order;
mod read;
mod vetx;
mod written;

pub use fault::VetxFault;
pub use functions::{KeptFunction, KeptUnless};
pub use read::from_json;
pub use vetx::Vetx;
pub use written::to_json;

/// A text keeps one package at most. So what is read of a text that was written is what was written.
pub fn one_package_a_text()
    ensures { OnePackage }
{}
