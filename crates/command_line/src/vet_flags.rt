//! The flags of a unit, the words that have them, and what their values say.

ghost use Rattle.std.specs.Prelude.{◌≡◌, option_map};
ghost use Rattle.command_line.specs.VetWords.{behind_dashes, edition_of, flag_in, flag_named, flag_of, has_value, is_no, is_yes, number_of, truth_of};

use tree::Edition;

/// A flag of a unit.
#[derive(Clone, Copy, Debug, PartialEq, Eq)]
pub enum VetFlag {
    /// `-edition`: by which edition of the rules the package is judged.
    EditionNumber,
    /// `-facts`: the file of declared facts.
    Facts,
    /// `-json`: whether the report is JSON.
    Json,
    /// `-c`: how many lines are shown around each place.
    Lines,
    /// `-tests`: whether test files are read.
    Tests,
    /// `-why`: whether the report says why each finding stands there.
    Reasons,
    /// `-accepted`: whether accepted findings are told too.
    Accepted,
    /// `-baseline`: the report of an earlier run, whose findings are accepted.
    Baseline,
    /// `-quiet`: whether lines of packages without findings are left out.
    Quiet,
    /// `-keeping`: whether the fields in which a yes keeps cancel functions are told.
    Keeping,
    /// `-no-std-facts`: whether what is known of Go's library is left out.
    WithoutLibrary,
}

impl VetFlag {
    /// Whether it tells a value, and not whether something is so.
    pub fn has_value(self) -> bool
        ensures { result ≡ has_value self }
    {
        match self {
            VetFlag::EditionNumber | VetFlag::Facts | VetFlag::Lines | VetFlag::Baseline => true,
            VetFlag::Json
            | VetFlag::Tests
            | VetFlag::Reasons
            | VetFlag::Accepted
            | VetFlag::Quiet
            | VetFlag::Keeping
            | VetFlag::WithoutLibrary => false,
        }
    }
}

/// The flag that the word is, with its value, where that stands in the word.
pub fn flag_in(word: &str) -> Option<(VetFlag, Option<&str>)>
    ensures { option_map (λ read. (read.0, option_map (λ value. value.now) read.1)) result ≡ flag_in word.now }
{
    flag_of(behind_dashes(word)?)
}

/// What stands in the word behind its dashes, where it begins with one or two.
fn behind_dashes(word: &str) -> Option<&str>
    ensures { option_map (λ text. text.now) result ≡ behind_dashes word.now }
{
    match word.strip_prefix("--") {
        Some(text) => Some(text),
        None => word.strip_prefix("-"),
    }
}

/// The flag whose name stands before the first `=`, and what stands behind that.
fn flag_of(text: &str) -> Option<(VetFlag, Option<&str>)>
    ensures { option_map (λ read. (read.0, option_map (λ value. value.now) read.1)) result ≡ flag_of text.now }
{
    match text.split_once('=') {
        Some((name, value)) => Some((flag_named(name)?, Some(value))),
        None => Some((flag_named(text)?, None)),
    }
}

/// The flag of this name.
fn flag_named(name: &str) -> Option<VetFlag>
    ensures { result ≡ flag_named name.now }
{
    if name == "edition" {
        Some(VetFlag::EditionNumber)
    } else if name == "facts" {
        Some(VetFlag::Facts)
    } else if name == "json" {
        Some(VetFlag::Json)
    } else if name == "c" {
        Some(VetFlag::Lines)
    } else if name == "tests" {
        Some(VetFlag::Tests)
    } else if name == "why" {
        Some(VetFlag::Reasons)
    } else if name == "accepted" {
        Some(VetFlag::Accepted)
    } else if name == "baseline" {
        Some(VetFlag::Baseline)
    } else if name == "quiet" {
        Some(VetFlag::Quiet)
    } else if name == "keeping" {
        Some(VetFlag::Keeping)
    } else if name == "no-std-facts" {
        Some(VetFlag::WithoutLibrary)
    } else {
        None
    }
}

/// The number that the text says.
pub fn number_of(text: &str) -> Option<usize>
    ensures { result ≡ number_of text.now }
{
    match text.parse::<usize>() {
        Ok(number) => Some(number),
        Err(_) => None,
    }
}

/// The edition whose number the text says.
pub fn edition_of(text: &str) -> Option<Edition>
    ensures { result ≡ edition_of text.now }
{
    match number_of(text)? {
        1 => Some(Edition::First),
        2 => Some(Edition::Second),
        _ => None,
    }
}

/// Whether something is so, as Go writes that.
pub fn truth_of(text: &str) -> Option<bool>
    ensures { result ≡ truth_of text.now }
{
    if is_yes(text) {
        Some(true)
    } else if is_no(text) {
        Some(false)
    } else {
        None
    }
}

fn is_yes(text: &str) -> bool
    ensures { result ≡ is_yes text.now }
{
    text == "true" || text == "1" || text == "t" || text == "T" || text == "TRUE" || text == "True"
}

fn is_no(text: &str) -> bool
    ensures { result ≡ is_no text.now }
{
    text == "false"
        || text == "0"
        || text == "f"
        || text == "F"
        || text == "FALSE"
        || text == "False"
}
