//! Judges packages that are given by the bytes of their files: loads them, and tells what is to be said of them in some
//! format, where something may be declared of others. What the report of given packages is says `specs/Reports.antt`.
#![tactic(auto)]

mod agreement;
mod certified;
mod check_fault;
mod explained;
mod first;
mod laws;
mod not_given;
mod reports;
mod verified;

pub use accepting::Telling;
pub use agreement::{
    certificates_agree, full_credits_are_believed, least_certificates_are_believed, reports_agree,
    starts_have_own_groups, what_is_believed_has_no_finding, written_certificates_are_believed,
    yes_with_full_credits_is_yes,
};
pub use all_certificates::Settings;
pub use certified::{CertifiedReport, certified_report_by_workers};
pub use check_fault::CheckFault;
pub use explained::{ExplainedReport, explained_report_by_workers};
pub use first::first_with_causes;
pub use laws::given_packages_have_one_report;
pub use not_given::NotedReport;
pub use reports::{report_by_workers, report_of};
pub use told_reports::{Counts, Report};
pub use verified::{VerifyFault, verified_report_of};
