//! What an earlier report found.

/// The versions of the reports that are read. Both say of findings the same.
pub(crate) const FIRST_VERSION: u64 = 1;

pub(crate) const SECOND_VERSION: u64 = 2;

/// One finding of an earlier report.
#[derive(Debug, Drop)]
pub struct BaselineFinding {
    /// The name of the file that it stands in, as the report has it.
    pub file: String,
    /// Its code, as `LC05`, whatever it is.
    pub code: String,
    /// The name of what it is about.
    pub name: String,
    /// Whether the report says why it was accepted.
    pub was_accepted: bool,
}

/// What an earlier report found.
#[derive(Debug, Drop)]
pub struct Baseline {
    /// The findings of all its packages, in the order of the text.
    pub findings: Vec<BaselineFinding>,
}
