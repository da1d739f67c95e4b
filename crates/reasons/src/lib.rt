//! The words with which a report says why a line stands there, and the statements that branch. Nothing here knows of
//! ways: what is asked is where the next occurrence of one stands. The tables are those of `specs/Words.antt`,
//! `specs/Branches.antt` and `specs/Reasons.antt`.
#![tactic(auto)]

mod branches;
mod reasons;
mod roles;
mod silent;
mod taken;
mod words;

pub use branches::{Branch, BranchForm, branches_of};
pub use reasons::{KnownCallee, NameTold, Pointer, Reason, Told};
pub use roles::{cancel_reason, errgroup_reason, giver_reason, group_reason};
pub use taken::{place_at, word_at};
pub use words::Word;
