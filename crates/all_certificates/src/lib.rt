//! Certificates of packages that were judged: of each the least certificates of its bodies, and what is known of its
//! functions. What they are says `specs/CertifiedPackages.antt`.
#![tactic(auto)]

mod certified;
mod certifying;
mod entries;
mod files;
mod laws;
mod packages;
mod settings;

pub use certified::{Certified, certified_report_by_workers};
pub use laws::{certificates_are_in_order, certificates_read_back};
pub use settings::Settings;
