//! What to change in a file so that a cancel function which nothing calls is called: `defer cancel()` behind the
//! statement that obtains it. Where this may be wrong, nothing is suggested.
#![tactic(auto)]

mod edits;
mod fixes;
mod functions;
mod gifts;
mod lines;
mod names;
mod scans;
mod statements;
mod tokens;
mod uses;

pub use edits::{Edit, Fix, FixKind};
pub use fixes::suggested_fixes;
