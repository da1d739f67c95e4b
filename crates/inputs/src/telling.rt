//! How a report is told, by the words of a run.

ghost use Rattle.std.specs.Prelude.{◌≡◌};
ghost use Rattle.inputs.specs.Tellings.{wording_of, IsTellingOf, IsToldSo};

use crate::input::{FilesRead, edition_of_run};
use accepting::Telling;
use baseline_json::BaselineFinding;
use command_line::{ReportWords, Sources};
use report::Wording;
use suggested_fixes::Fix;
use tree::Edition;

/// The words in which findings are told by this edition of the rules.
pub fn wording_of(edition: Edition) -> Wording
    ensures { result ≡ wording_of edition }
{
    match edition {
        Edition::First => Wording::First,
        Edition::Second => Wording::Second,
    }
}

/// How the report of packages that are judged by this edition is told, where these findings of an earlier run are
/// accepted, packages of these paths were not asked for, and this may be changed in files. Lines that accept nothing
/// are told by a check alone.
pub fn telling_of<'t>(
    edition: Edition,
    words: ReportWords,
    is_check: bool,
    known: &'t [BaselineFinding],
    unasked: &'t [String],
    fixes: &'t [Fix],
) -> Telling<'t>
    ensures { IsTellingOf edition words is_check known.now unasked.now result }
{
    Telling {
        format: words.format,
        wording: wording_of(edition),
        tells_accepted: words.accepted,
        tells_stale: is_check,
        is_quiet: words.quiet,
        unasked,
        baseline: known,
        fixes,
    }
}

/// How the report of these sources is told, where these files were read for it.
pub fn telling_for<'t>(
    sources: &Sources<'_>,
    words: ReportWords,
    is_check: bool,
    files: &'t FilesRead<'_>,
) -> Telling<'t>
    ensures { IsToldSo sources.now words files.now is_check result }
{
    telling_of(
        edition_of_run(sources),
        words,
        is_check,
        &files.baseline.findings,
        &files.list.unasked,
        &files.fixes,
    )
}
