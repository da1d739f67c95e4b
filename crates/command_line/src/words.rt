//! What the words of the command line ask for.

ghost use Rattle.std.specs.Prelude.{◌≡◌, ◌↔◌, Any, Contains, IfOk, IfSome, IsTrue, codes, map};
ghost use Rattle.command_line.specs.Words.{option_texts, AreReport, AreSources, AsksForHelp, IsAsked, Named};
ghost use Rattle.command_line.specs.KeptWords.{named_of, AreCheckWords, IsAskedBy};

use crate::command::understood;
use crate::kept::{Kept, kept_words};
use crate::values::{at_most_one, edition_by, format_by, is_asked_by, workers_by};
use clap::Error;
use clap::error::ErrorKind;
use report::Format;
use std::alloc::{AllocError, Global};
use std::convert::AsStr;
use tree::Edition;
use workers::Workers;

/// The commands of the program.
pub const CHECK_WORD: &str = "check";

pub const VERIFY_WORD: &str = "verify";

/// What is read for a report: the file of declared facts, the earlier report whose findings are accepted, and the list
/// of packages, each if one is named, and the words of packages, `PATH=DIR` each. All packages are judged by this
/// edition of the rules, if one is named, and perhaps without what is known of Go's library.
#[derive(Debug, Drop)]
pub struct Sources<'a> {
    pub facts: Option<&'a str>,
    pub baseline: Option<&'a str>,
    pub list: Option<&'a str>,
    pub edition: Option<Edition>,
    pub without_library: bool,
    pub packages: Vec<&'a str>,
}

/// How a report is told: its form, whether accepted findings are told too, and whether lines of packages without
/// findings are left out.
#[derive(Clone, Copy, Debug)]
pub struct ReportWords {
    pub format: Format,
    pub accepted: bool,
    pub quiet: bool,
}

/// How many workers check the packages, how their report is told, and what is read for it.
#[derive(Debug, Drop)]
pub struct CheckWords<'a> {
    pub workers: Workers,
    pub report: ReportWords,
    pub sources: Sources<'a>,
}

/// The same, and the file for their certificates.
#[derive(Debug, Drop)]
pub struct CertifyWords<'a> {
    pub workers: Workers,
    pub report: ReportWords,
    pub file: &'a str,
    pub sources: Sources<'a>,
}

/// How the report is told, the file that has the certificates of the packages, and what is read besides.
#[derive(Debug, Drop)]
pub struct VerifyWords<'a> {
    pub report: ReportWords,
    pub file: &'a str,
    pub sources: Sources<'a>,
}

/// What the words ask for.
#[derive(Debug, Drop)]
pub enum Asked<'a> {
    /// To check packages.
    Check(CheckWords<'a>),
    /// To check packages, and to tell why each finding stands there.
    Explain(CheckWords<'a>),
    /// To check packages, and to write certificates to the file.
    Certify(CertifyWords<'a>),
    /// To judge packages by the certificates in the file.
    Verify(VerifyWords<'a>),
    /// Help or the version: this text, for standard output.
    Help(String),
    /// Nothing that the program understands: this text says why, for standard error.
    Wrong(String),
}

/// What the words, those after the program's name, ask for.
///
/// # Errors
///
/// Memory was refused.
pub fn read_words<'a, S: AsStr>(alloc: Global, words: &'a [S]) -> Result<Asked<'a>, AllocError>
    ensures { IfOk result (λ asked. IsAsked (map S.text words.now) asked) }
{
    match understood(alloc, words) {
        Ok(()) => asked_command(alloc, words),
        Err(error) => explained(alloc, &error, words),
    }
}

/// The command that the words, which the library understands, ask for.
fn asked_command<'a, S: AsStr>(alloc: Global, words: &'a [S]) -> Result<Asked<'a>, AllocError>
    ensures { IfOk result (λ asked. IsAsked (map S.text words.now) asked) }
{
    match words.split_first() {
        Some((command, rest)) => {
            let kept = kept_words(alloc, rest)?;
            Ok(asked_of(alloc, command.as_str(), kept))
        }
        None => Ok(Asked::Wrong(String::new(alloc))),
    }
}

/// What a command with these words behind it asks for.
fn asked_of<'a>(alloc: Global, command: &str, kept: Kept<'a>) -> Asked<'a>
    ensures { IsAskedBy command.now (named_of kept.entry) result }
{
    match understood_command(command, kept) {
        Some(asked) => asked,
        None => Asked::Wrong(String::new(alloc)),
    }
}

/// What a command with these words behind it asks for, if it is understood.
fn understood_command<'a>(command: &str, kept: Kept<'a>) -> Option<Asked<'a>>
    ensures { IfSome result (IsAskedBy command.now (named_of kept.entry)) }
{
    if command == CHECK_WORD {
        understood_check(kept)
    } else if command == VERIFY_WORD {
        understood_verify(kept)
    } else {
        None
    }
}

/// What `check` with these words behind it asks for, if it is understood.
fn understood_check<'a>(kept: Kept<'a>) -> Option<Asked<'a>>
    ensures { IfSome result (IsAskedBy (codes "check") (named_of kept.entry)) }
{
    let file = at_most_one(&kept.files)?;
    let why = at_most_one(&kept.whys)?;
    let asked = CheckWords {
        workers: workers_by(at_most_one(&kept.numbers)?)?,
        report: report_by(&kept)?,
        sources: sources_by(kept)?,
    };
    check_of(asked, file, why)
}

/// What `check` with these words asks for, where it may have a file for certificates, or a word `--why`, and not both.
fn check_of<'a>(
    asked: CheckWords<'a>,
    file: Option<&'a str>,
    why: Option<&str>,
) -> Option<Asked<'a>>
    ensures { IfSome result (λ told. (named : Named)
        → AreCheckWords named asked.entry
        → named.files ≡ option_texts file.entry
        → named.whys ≡ option_texts why.entry
        → IsAskedBy (codes "check") named told) }
{
    match (file, why) {
        (None, None) => Some(Asked::Check(asked)),
        (None, Some(_)) => Some(Asked::Explain(asked)),
        (Some(file), None) => Some(Asked::Certify(CertifyWords {
            workers: asked.workers,
            report: asked.report,
            file,
            sources: asked.sources,
        })),
        (Some(_), Some(_)) => None,
    }
}

/// What `verify` with these words behind it asks for, if it is understood: it has a file of certificates, and neither
/// workers nor a baseline, and tells no reasons.
fn understood_verify<'a>(kept: Kept<'a>) -> Option<Asked<'a>>
    ensures { IfSome result (IsAskedBy (codes "verify") (named_of kept.entry)) }
{
    let file = at_most_one(&kept.files)??;
    let number = at_most_one(&kept.numbers)?;
    let why = at_most_one(&kept.whys)?;
    let baseline = at_most_one(&kept.baselines)?;
    if number.is_none() && why.is_none() && baseline.is_none() {
        return Some(Asked::Verify(VerifyWords {
            report: report_by(&kept)?,
            file,
            sources: sources_by(kept)?,
        }));
    }
    None
}

/// How the report is told by these words, if they are understood.
fn report_by(kept: &Kept) -> Option<ReportWords>
    ensures { IfSome result (AreReport (named_of kept.now)) }
{
    Some(ReportWords {
        format: format_by(at_most_one(&kept.formats)?)?,
        accepted: is_asked_by(&kept.accepted)?,
        quiet: is_asked_by(&kept.quiet)?,
    })
}

/// What is read for the report by these words, if they are understood.
fn sources_by<'a>(kept: Kept<'a>) -> Option<Sources<'a>>
    ensures { IfSome result (AreSources (named_of kept.entry)) }
{
    Some(Sources {
        facts: at_most_one(&kept.facts)?,
        baseline: at_most_one(&kept.baselines)?,
        list: at_most_one(&kept.lists)?,
        edition: edition_by(at_most_one(&kept.editions)?)?,
        without_library: is_asked_by(&kept.without_library)?,
        packages: kept.packages,
    })
}

/// What the library answers in place of a package. Its help goes to standard output only where one of the
/// words asks for it.
fn explained<'a, S: AsStr>(
    alloc: Global,
    error: &Error,
    words: &'a [S],
) -> Result<Asked<'a>, AllocError>
    ensures { IfOk result (λ asked. IsAsked (map S.text words.now) asked) }
{
    if error.kind() == ErrorKind::OutOfMemory {
        return Err(AllocError);
    }
    let text = format!(in alloc; "{error}")?;
    if !error.use_stderr() && asks_for_help(words) {
        Ok(Asked::Help(text))
    } else {
        Ok(Asked::Wrong(text))
    }
}

/// Whether one of the words asks for help or the version.
fn asks_for_help<S: AsStr>(words: &[S]) -> bool
    ensures { IsTrue result → AsksForHelp (map S.text words.now) }
{
    is_given(words, "-h")
        || is_given(words, "--help")
        || is_given(words, "help")
        || is_given(words, "-V")
        || is_given(words, "--version")
}

/// Whether this is one of the words.
fn is_given<S: AsStr>(words: &[S], word: &str) -> bool
    ensures is { IsTrue result ↔ Any (λ given. S.text given ≡ word.now) words.now }
    ensures given { IsTrue result → Contains (map S.text words.now) word.now }
{
    words.iter().any(|given| given.as_str() == word)
}
