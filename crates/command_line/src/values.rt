//! What the values of options ask for.

ghost use Rattle.std.specs.Prelude.{◌≡◌, IfSome};
ghost use Rattle.command_line.specs.Words.{edition_number, format_text, option_texts, texts_of, AreEdition, AreFormat, AreSwitch, AreWorkers, IsNumber};
ghost use Rattle.workers.specs.Counts.{count_of};

use report::Format;
use tree::Edition;
use workers::Workers;

/// The words of the formats.
pub const TEXT_WORD: &str = "text";

pub const JSON_WORD: &str = "json";

pub const SARIF_WORD: &str = "sarif";

/// The workers of this number, or one worker where there is none.
pub fn workers_by(number: Option<&str>) -> Option<Workers>
    ensures { IfSome result (λ workers. AreWorkers (option_texts number.entry) (count_of workers)) }
{
    match number {
        Some(number) => workers_of(number),
        None => Some(Workers::one()),
    }
}

/// So many workers as the word says.
fn workers_of(number: &str) -> Option<Workers>
    ensures { IfSome result (λ workers. IsNumber number.now (count_of workers)) }
{
    match number.parse::<usize>() {
        Ok(count) => Workers::new(count),
        Err(_) => None,
    }
}

/// The edition of this number, or none where there is no number.
pub fn edition_by(number: Option<&str>) -> Option<Option<Edition>>
    ensures { IfSome result (AreEdition (option_texts number.entry)) }
{
    match number {
        Some(number) => Some(Some(edition_of(number)?)),
        None => Some(None),
    }
}

/// The edition whose number the word says.
fn edition_of(number: &str) -> Option<Edition>
    ensures { IfSome result (λ edition. IsNumber number.now (edition_number edition)) }
{
    match number.parse::<usize>() {
        Ok(1) => Some(Edition::First),
        Ok(2) => Some(Edition::Second),
        Ok(_) => None,
        Err(_) => None,
    }
}

/// The word, if there is one, where there are not more.
pub fn at_most_one<'a>(words: &[&'a str]) -> Option<Option<&'a str>>
    ensures { IfSome result (λ word. texts_of words.now ≡ option_texts word) }
{
    match words.split_first() {
        Some((word, rest)) if rest.is_empty() => Some(Some(*word)),
        Some(_) => None,
        None => Some(None),
    }
}

/// Whether these words, those of an option without a value, ask for it, where they are not more than one.
pub fn is_asked_by(words: &[&str]) -> Option<bool>
    ensures { IfSome result (AreSwitch (texts_of words.now)) }
{
    Some(at_most_one(words)?.is_some())
}

/// The format of this word, or that of a text where there is none.
pub fn format_by(word: Option<&str>) -> Option<Format>
    ensures { IfSome result (AreFormat (option_texts word.entry)) }
{
    match word {
        Some(word) => format_of(word),
        None => Some(Format::Text),
    }
}

/// The format that has this word.
fn format_of(word: &str) -> Option<Format>
    ensures { IfSome result (λ format. word.now ≡ format_text format) }
{
    if word == TEXT_WORD {
        Some(Format::Text)
    } else if word == JSON_WORD {
        Some(Format::Json)
    } else if word == SARIF_WORD {
        Some(Format::Sarif)
    } else {
        None
    }
}
