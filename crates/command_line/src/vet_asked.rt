//! The words with which the go command calls its vet tool.

ghost use Rattle.std.specs.Prelude.{◌≡◌, None, map, option_map};
ghost use Rattle.command_line.specs.VetViews.{call_of, told_of};
ghost use Rattle.command_line.specs.VetWords.{call_told, is_only, is_unit_file, unit_call, unit_with, vet_call};

use crate::go_runs::wrong_in;
use crate::vet_told::{ToldFlags, UnitFlags, WrongValue, after_word};
use std::convert::AsStr;

/// What the go command asks for.
#[derive(Clone, Copy, Debug)]
pub enum VetAsked<'a> {
    /// Which flags there are.
    Flags,
    /// Which program it is.
    Version,
    /// To judge the package of the unit in this file.
    Unit {
        flags: UnitFlags<'a>,
        file: &'a str,
    },
    /// The unit in this file, but a flag can't have its value.
    Wrong {
        wrong: WrongValue<'a>,
        file: &'a str,
    },
}

/// What the words, those after the program's name, ask for, where the go command could have written them.
pub fn vet_words<'a, S: AsStr>(words: &'a [S]) -> Option<VetAsked<'a>>
    ensures { option_map call_of result ≡ vet_call (map S.text words.now) }
{
    if is_only("-flags", words) {
        Some(VetAsked::Flags)
    } else if is_only("-V=full", words) {
        Some(VetAsked::Version)
    } else {
        unit_words(words)
    }
}

/// Whether there is one word, and it is this one.
fn is_only<S: AsStr>(word: &str, words: &[S]) -> bool
    ensures { result ≡ is_only word.now (map S.text words.now) }
{
    match words.split_first() {
        Some((first, rest)) => rest.is_empty() && first.as_str() == word,
        None => false,
    }
}

/// The unit that the words ask for, where they are flags and then its file.
fn unit_words<'a, S: AsStr>(words: &'a [S]) -> Option<VetAsked<'a>>
    ensures { option_map call_of result ≡ unit_call (map S.text words.now) }
{
    let mut told = ToldFlags::none();
    let mut awaited = None;
    for (place, word) in words.iter().enumerate() {
        let word = word.as_str();
        let Some((waits, more)) = after_word(awaited, word, told) else {
            let (_, rest) = words.split_at(place + 1);
            return unit_with(told, word, rest);
        };
        awaited = waits;
        told = more;
    }
    None
}

/// The unit of this file, which is the last word.
fn unit_with<'a, S: AsStr>(told: ToldFlags<'a>, word: &'a str, rest: &[S]) -> Option<VetAsked<'a>>
    ensures { option_map call_of result
        ≡ option_map (λ u. call_told u.0 u.1)
        (unit_with (told_of told.entry) word.now (map S.text rest.now)) }
{
    if !rest.is_empty() || !is_unit_file(word) {
        return None;
    }
    match wrong_in(told, word) {
        Some(wrong) => Some(VetAsked::Wrong { wrong, file: word }),
        None => Some(VetAsked::Unit {
            flags: told.flags,
            file: word,
        }),
    }
}

/// Whether the word names the file of a unit.
fn is_unit_file(word: &str) -> bool
    ensures { result ≡ is_unit_file word.now }
{
    let bytes = word.as_bytes();
    bytes.ends_with(b".cfg") && !bytes.starts_with(b"-")
}
