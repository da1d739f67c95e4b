//! The forms of a report.

/// In which form a report is written.
#[derive(Clone, Copy, Debug, PartialEq, Eq)]
pub enum Format {
    /// A line for each diagnostic, and a line for each package.
    Text,
    /// One JSON object on one line.
    Json,
    /// SARIF 2.1.0, one JSON object on one line.
    Sarif,
}
