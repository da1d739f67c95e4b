//! Which of their parameters the functions of a package are known to call, with what is told of each of its files, and
//! the bodies of each. The rules are those of `meaning_packages/specs/CallsFlags.antt`. And to the functions of which
//! packages the files hand something, by `meaning_reports/specs/UsedImports.antt`.
#![tactic(auto)]

mod claims;
mod file_bodies;
mod handed_on;
mod keeping;
mod known_calls;
mod rounds;
mod told_file;

pub use claims::{Claim, find_claims, function_name};
pub use file_bodies::{FileBodies, bodies_of_file, bodies_of_files, told_bodies};
pub use handed_on::{files_are_handed, files_hand, handed_is_used};
pub use keeping::{claim_comes_back, keeps_claim};
pub use known_calls::KnownCalls;
pub use rounds::{called_by, find_called};
pub use told_file::{Telling, ToldFile, is_walked, tell_at, tell_files};
