//! Which findings of a report are accepted: by lines of their sources, or since they stand in the report of an earlier
//! run; and which lines accept nothing. It looks at bytes of sources and at what is said of packages alone.
#![tactic(auto)]

mod acceptable;
mod baseline;
mod directive_lines;
mod findings;
mod found_packages;
mod gone_findings;
mod keys;
mod last_lines;
mod laws;
mod line_reasons;
mod lines;
mod merged;
mod stale;
mod telling;
mod verdicts;

pub use findings::{Acceptance, Finding, FoundPackage, Verdict};
pub use found_packages::{
    explained_package, explained_packages, found, plain_package, plain_packages, told,
};
pub use gone_findings::gone;
pub use laws::{
    accepted_says_all, baseline_accepts_no_more, first_edition_accepts_nothing,
    lines_accept_their_own, nothing_is_lost, yes_says_none,
};
pub use telling::Telling;
pub use verdicts::verdict_of;
