//! How a report is told.

use baseline_json::BaselineFinding;
use report::{Format, Wording};
use suggested_fixes::Fix;

/// How a report is told. By the wording of the first edition of the rules nothing is accepted.
#[derive(Clone, Copy, Debug)]
pub struct Telling<'t> {
    pub format: Format,
    pub wording: Wording,
    /// Accepted findings are told too, each with its reason.
    pub tells_accepted: bool,
    /// Lines that accept nothing are told, as findings.
    pub tells_stale: bool,
    /// Verdicts of packages without findings are left out, and the lines that go with them.
    pub is_quiet: bool,
    /// The paths of the packages that were not asked for: nothing is told of them.
    pub unasked: &'t [String],
    /// The findings of an earlier run, which are accepted.
    pub baseline: &'t [BaselineFinding],
    /// What may be changed in the files of all packages. A finding is told with the first of these that is for it.
    pub fixes: &'t [Fix],
}
