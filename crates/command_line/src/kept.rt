//! What is kept of the words behind a command.

ghost use Rattle.std.specs.Prelude.{◌≡◌, ◌++◌, false, ℕ, List, ◌∷◌, codes, IfOk, OnOk, map};
ghost use Rattle.std.specs.Str.{bytes_eq};
ghost use Rattle.command_line.specs.Words.{named_after, named_by, texts_of, with_switch, with_value, Named};
ghost use Rattle.command_line.specs.KeptWords.{ends_options, AreKept, IsKeptSo};

use crate::options::{Switch, ValueOption, option_in, option_of, switch_of};
use std::alloc::{AllocError, Global};
use std::convert::AsStr;

/// Behind this word no word is an option.
const ESCAPE: &str = "--";

/// The values of each option, the words of each option that has none, and the words of packages.
#[derive(Drop)]
pub struct Kept<'a> {
    pub files: Vec<&'a str>,
    pub facts: Vec<&'a str>,
    pub baselines: Vec<&'a str>,
    pub lists: Vec<&'a str>,
    pub formats: Vec<&'a str>,
    pub editions: Vec<&'a str>,
    pub numbers: Vec<&'a str>,
    pub whys: Vec<&'a str>,
    pub accepted: Vec<&'a str>,
    pub quiet: Vec<&'a str>,
    pub without_library: Vec<&'a str>,
    pub packages: Vec<&'a str>,
}

/// What these words, those behind a command, name.
///
/// # Errors
///
/// Memory was refused.
pub fn kept_words<'a, S: AsStr>(alloc: Global, words: &'a [S]) -> Result<Kept<'a>, AllocError>
    ensures { IfOk result (AreKept (map S.text words.now)) }
{
    let mut kept = Kept {
        files: Vec::new(alloc),
        facts: Vec::new(alloc),
        baselines: Vec::new(alloc),
        lists: Vec::new(alloc),
        formats: Vec::new(alloc),
        editions: Vec::new(alloc),
        numbers: Vec::new(alloc),
        whys: Vec::new(alloc),
        accepted: Vec::new(alloc),
        quiet: Vec::new(alloc),
        without_library: Vec::new(alloc),
        packages: Vec::new(alloc),
    };
    let mut awaited = None;
    for (place, word) in words.iter().enumerate() {
        let word = word.as_str();
        if ends_options(awaited, word) {
            let (_, rest) = words.split_at(place + 1);
            add_all(rest, &mut kept.packages)?;
            return Ok(kept);
        }
        awaited = keep_next(awaited, word, &mut kept)?;
    }
    Ok(kept)
}

/// Whether behind this word no word is an option. The value of an option is no such word.
fn ends_options(awaited: Option<ValueOption>, word: &str) -> bool
    ensures { result ≡ ends_options awaited word.now }
{
    match awaited {
        Some(_) => false,
        None => word == ESCAPE,
    }
}

/// Keeps the next word. The option before it may wait for it.
fn keep_next<'a>(
    awaited: Option<ValueOption>,
    word: &'a str,
    kept: &mut Kept<'a>,
) -> Result<Option<ValueOption>, AllocError>
    ensures { IfOk result (λ next. ends_options awaited word.now ≡ false → (words : List (List ℕ)) (all : Named)
        → IsKeptSo kept.old (named_after awaited (word.now ∷ words)) all
        → IsKeptSo kept.new (named_after next words) all) }
{
    match awaited {
        Some(option) => {
            keep_value(option, word, kept)?;
            Ok(None)
        }
        None => keep_word(word, kept),
    }
}

/// Keeps the word of a package, an option without a value, or the value that stands in a word with its option. It gives
/// the option whose value is the next word.
fn keep_word<'a>(word: &'a str, kept: &mut Kept<'a>) -> Result<Option<ValueOption>, AllocError>
    ensures { IfOk result (λ next. bytes_eq word.now (codes "--") ≡ false → (words : List (List ℕ)) (all : Named)
        → IsKeptSo kept.old (named_by (word.now ∷ words)) all
        → IsKeptSo kept.new (named_after next words) all) }
{
    if let Some(option) = option_of(word) {
        return Ok(Some(option));
    }
    if let Some(switch) = switch_of(word) {
        keep_switch(switch, word, kept)?;
        return Ok(None);
    }
    if let Some((option, value)) = option_in(word) {
        keep_value(option, value, kept)?;
        return Ok(None);
    }
    kept.packages.push(word)?;
    Ok(None)
}

/// Keeps this word, which is the option.
fn keep_switch<'a>(switch: Switch, word: &'a str, kept: &mut Kept<'a>) -> Result<(), AllocError>
    ensures { OnOk result ((left all : Named)
        → IsKeptSo kept.old (with_switch switch word.now left) all
        → IsKeptSo kept.new left all) }
{
    match switch {
        Switch::Reasons => Ok(kept.whys.push(word)?),
        Switch::Accepted => Ok(kept.accepted.push(word)?),
        Switch::Quiet => Ok(kept.quiet.push(word)?),
        Switch::WithoutLibrary => Ok(kept.without_library.push(word)?),
    }
}

/// Keeps this value of the option.
fn keep_value<'a>(
    option: ValueOption,
    value: &'a str,
    kept: &mut Kept<'a>,
) -> Result<(), AllocError>
    ensures { OnOk result ((left all : Named)
        → IsKeptSo kept.old (with_value option value.now left) all
        → IsKeptSo kept.new left all) }
{
    match option {
        ValueOption::Certificates => Ok(kept.files.push(value)?),
        ValueOption::Facts => Ok(kept.facts.push(value)?),
        ValueOption::Baseline => Ok(kept.baselines.push(value)?),
        ValueOption::PackageList => Ok(kept.lists.push(value)?),
        ValueOption::ReportFormat => Ok(kept.formats.push(value)?),
        ValueOption::EditionNumber => Ok(kept.editions.push(value)?),
        ValueOption::WorkerCount => Ok(kept.numbers.push(value)?),
    }
}

/// Adds all of these words.
fn add_all<'a, S: AsStr>(words: &'a [S], kept: &mut Vec<&'a str>) -> Result<(), AllocError>
    ensures { OnOk result (texts_of kept.new.items ≡ texts_of kept.old.items ++ map S.text words.now) }
{
    for word in words {
        kept.push(word.as_str())?;
    }
    Ok(())
}
