//! What the flags of a unit tell, word by word.

ghost use Rattle.std.specs.Prelude.{◌≡◌, option_map};
ghost use Rattle.command_line.specs.VetViews.{flags_of, told_of};
ghost use Rattle.command_line.specs.VetWords.{after_flag, after_word, nothing_told, tell, with_value};

use crate::vet_flags::{VetFlag, edition_of, flag_in, number_of, truth_of};
use tree::Edition;

/// What the flags of a unit tell: by which edition of the rules its package is judged, if one is named; the file of
/// declared facts, if one is named; the earlier report whose findings are accepted, if one is named; how many lines are
/// shown around each place, or none; whether the report is JSON, whether test files are read, whether the report says
/// why each finding stands there, whether accepted findings are told too, whether lines of packages without findings
/// are left out, whether the fields that keep are told, and whether what is known of Go's library is left out.
#[derive(Clone, Copy, Debug)]
pub struct UnitFlags<'a> {
    pub edition: Option<Edition>,
    pub facts: Option<&'a str>,
    pub baseline: Option<&'a str>,
    pub lines: Option<usize>,
    pub is_json: bool,
    pub with_tests: bool,
    pub with_reasons: bool,
    pub accepted: bool,
    pub quiet: bool,
    pub tells_keeping: bool,
    pub without_library: bool,
}

/// A value that its flag can't have.
#[derive(Clone, Copy, Debug)]
pub struct WrongValue<'a> {
    pub flag: VetFlag,
    pub value: &'a str,
}

/// What was told so far, and the first wrong value.
#[derive(Clone, Copy)]
pub struct ToldFlags<'a> {
    pub flags: UnitFlags<'a>,
    pub wrong: Option<WrongValue<'a>>,
}

impl<'a> ToldFlags<'a> {
    /// Nothing was told so far.
    pub fn none() -> ToldFlags<'a>
        ensures { told_of result ≡ nothing_told }
    {
        ToldFlags {
            flags: UnitFlags {
                edition: None,
                facts: None,
                baseline: None,
                lines: None,
                is_json: false,
                with_tests: false,
                with_reasons: false,
                accepted: false,
                quiet: false,
                tells_keeping: false,
                without_library: false,
            },
            wrong: None,
        }
    }
}

/// The flags with this value of one of them, where it can have that.
fn with_value<'a>(flag: VetFlag, text: &'a str, flags: UnitFlags<'a>) -> Option<UnitFlags<'a>>
    ensures { option_map flags_of result ≡ with_value flag text.now (flags_of flags.entry) }
{
    let mut told = flags;
    match flag {
        VetFlag::EditionNumber => told.edition = Some(edition_of(text)?),
        VetFlag::Facts => told.facts = Some(text),
        VetFlag::Baseline => told.baseline = Some(text),
        VetFlag::Lines => told.lines = Some(number_of(text)?),
        VetFlag::Json => told.is_json = truth_of(text)?,
        VetFlag::Tests => told.with_tests = truth_of(text)?,
        VetFlag::Reasons => told.with_reasons = truth_of(text)?,
        VetFlag::Accepted => told.accepted = truth_of(text)?,
        VetFlag::Quiet => told.quiet = truth_of(text)?,
        VetFlag::Keeping => told.tells_keeping = truth_of(text)?,
        VetFlag::WithoutLibrary => told.without_library = truth_of(text)?,
    }
    Some(told)
}

/// What is told with this value of the flag too.
fn tell<'a>(flag: VetFlag, text: &'a str, told: ToldFlags<'a>) -> ToldFlags<'a>
    ensures { told_of result ≡ tell flag text.now (told_of told.entry) }
{
    let ToldFlags { flags, wrong } = told;
    match with_value(flag, text, flags) {
        Some(flags) => ToldFlags { flags, wrong },
        None => ToldFlags {
            flags,
            wrong: wrong.or(Some(WrongValue { flag, value: text })),
        },
    }
}

/// The flag that waits for its value, and what is told, behind a word that is this flag.
fn after_flag<'a>(
    flag: VetFlag,
    value: Option<&'a str>,
    told: ToldFlags<'a>,
) -> (Option<VetFlag>, ToldFlags<'a>)
    ensures { (result.0, told_of result.1)
        ≡ after_flag flag (option_map (λ text. text.now) value.entry) (told_of told.entry) }
{
    match value {
        Some(text) => (None, tell(flag, text, told)),
        None if flag.has_value() => (Some(flag), told),
        None => (None, tell(flag, "true", told)),
    }
}

/// The same behind a word that is a flag, or the value of the flag that waits for it.
pub fn after_word<'a>(
    awaited: Option<VetFlag>,
    word: &'a str,
    told: ToldFlags<'a>,
) -> Option<(Option<VetFlag>, ToldFlags<'a>)>
    ensures { option_map (λ next. (next.0, told_of next.1)) result
        ≡ after_word awaited word.now (told_of told.entry) }
{
    match awaited {
        Some(flag) => Some((None, tell(flag, word, told))),
        None => {
            let (flag, value) = flag_in(word)?;
            Some(after_flag(flag, value, told))
        }
    }
}
