//! A report in SARIF 2.1.0, written into whatever takes bytes.
#![tactic(auto)]

mod columns;
mod fingerprints;
mod fixes;
mod help;
mod log;
mod rule_help;
mod rules;
mod sarif_rules;
mod version;

pub use log::write_sarif;
pub use rules::each_code_has_its_rule;
pub use version::VERSION;
