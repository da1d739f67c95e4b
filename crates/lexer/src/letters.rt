//! Letters and digits (the Go specification, "Letters and digits").

ghost use Rattle.std.specs.Prelude.{◌≡◌};
ghost use Rattle.lexer.specs.Letters.{is_letter, is_digit, is_ascii_letter, is_ascii_letter_or_digit};

use unicode::properties::GeneralCategory;

/// Whether `byte` is an ASCII letter or `_`.
pub fn is_ascii_letter(byte: u8) -> bool
    ensures { result ≡ is_ascii_letter byte }
{
    byte.is_ascii_alphabetic() || byte == b'_'
}

/// Whether `byte` is an ASCII letter, `_` or an ASCII digit.
pub fn is_ascii_letter_or_digit(byte: u8) -> bool
    ensures { result ≡ is_ascii_letter_or_digit byte }
{
    is_ascii_letter(byte) || byte.is_ascii_digit()
}

/// Whether `c` is a letter: `_` or a character of a category of letters.
#[tactic(auto, unfolding(crate::specs::Letters::is_letter))]
pub fn is_letter(c: char) -> bool
    ensures { result ≡ is_letter c }
{
    if c.is_ascii() {
        c.is_ascii_alphabetic() || c == '_'
    } else {
        matches!(
            GeneralCategory::for_char(c),
            GeneralCategory::UppercaseLetter
                | GeneralCategory::LowercaseLetter
                | GeneralCategory::TitlecaseLetter
                | GeneralCategory::ModifierLetter
                | GeneralCategory::OtherLetter
        )
    }
}

/// Whether `c` is a digit, of ASCII or any other script.
#[tactic(auto, unfolding(crate::specs::Letters::is_digit))]
pub fn is_digit(c: char) -> bool
    ensures { result ≡ is_digit c }
{
    if c.is_ascii() {
        c.is_ascii_digit()
    } else {
        GeneralCategory::for_char(c) == GeneralCategory::DecimalNumber
    }
}
