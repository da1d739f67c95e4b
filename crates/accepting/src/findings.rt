//! Findings as a report tells them: with their notes, and by what they are accepted.

use lexer::Source;
use report::{Diagnostic, Note};

/// By what a finding is accepted.
#[derive(Clone, Copy, Debug)]
pub enum Acceptance<'a> {
    /// By a line of its source, for this reason.
    ByLine(&'a [u8]),
    /// It stands in the report of an earlier run.
    ByBaseline,
}

/// A diagnostic with its notes, in the order in which they are to be read, the offsets of the way of which they tell
/// (those of `report::ExplainedDiagnostic`), and by what it is accepted, if it is.
#[derive(Debug, Drop)]
pub struct Finding<'a> {
    pub diagnostic: Diagnostic<'a>,
    pub notes: Vec<Note<'a>>,
    pub way: Vec<u32>,
    pub acceptance: Option<Acceptance<'a>>,
}

/// What a report tells of the package of this import path, whose files are the sources.
#[derive(Debug, Drop)]
pub struct FoundPackage<'a> {
    pub path: &'a str,
    pub sources: &'a [Source],
    /// The fields in which it keeps cancel functions, which its verdict tells of.
    pub keeping: Vec<&'a str>,
    pub findings: Vec<Finding<'a>>,
}

/// What a report says of a package as a whole.
#[derive(Clone, Copy, Debug, PartialEq, Eq)]
pub enum Verdict {
    /// It has no finding.
    Yes,
    /// It has findings, and each is accepted.
    Accepted,
    /// It has a finding that is not accepted.
    No,
}
