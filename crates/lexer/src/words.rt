//! Words: a letter, and then letters and digits. Each identifier and each keyword is one
//! (the Go specification, "Identifiers").

ghost use Rattle.std.specs.Prelude.{◌≡◌, ◌≤◌, ◌<◌, ◌&&◌, ◌||◌, ℕ, length, take, slice_index, IsTrue, IsFalse};
ghost use Rattle.lexer.specs.Letters.{is_letter, is_digit, is_ascii_letter_or_digit};
ghost use Rattle.lexer.specs.Pieces.{IsWord};

use crate::letters::{is_ascii_letter, is_ascii_letter_or_digit, is_digit, is_letter};
use crate::pieces::byte_at;
use crate::source::MOST_BYTES;

/// Whether `c` goes on with a word: a letter does, and a digit after its first character.
fn continues_word(c: char, after: bool) -> bool
    ensures { result ≡ (is_letter c || (after && is_digit c)) }
{
    is_letter(c) || (after && is_digit(c))
}

/// The size of the word of ASCII letters and digits at the start of a text, whose first byte is a letter.
pub fn ascii_word_size(text: &[u8]) -> usize
    requires { 0 < length text.now }
    ensures in_range { result ≤ length text.now }
    ensures nonempty { 0 < result }
    ensures word { (i : ℕ) → 0 < i → i < result → IsTrue (is_ascii_letter_or_digit (slice_index text.now i)) }
    ensures stops { result < length text.now → IsFalse (is_ascii_letter_or_digit (slice_index text.now result)) }
{
    let mut size = 1;
    while size < text.len() && is_ascii_letter_or_digit(text[size]) {
        size += 1;
    }
    size
}

/// The size of the word at the start of a text, by its characters, or 0 where it begins with no letter.
fn any_word_size(text: &str) -> usize
    requires { length text.now ≤ MOST_BYTES }
    ensures in_range { result ≤ length text.now }
    ensures word { 0 < result → IsWord (take result text.now) }
    ensures longest { (n : ℕ) → n ≤ length text.now → IsWord (take n text.now) → n ≤ result }
{
    let mut size = 0;
    for c in text.chars() {
        if !continues_word(c, size > 0) {
            return size;
        }
        size += c.len_utf8();
    }
    size
}

/// The size of the word at the start of a text, or 0 where it begins with no letter.
/// Where ASCII stands after its ASCII letters and digits, those are the word, and nothing is decoded.
pub fn word_size(text: &str) -> usize
    requires { length text.now ≤ MOST_BYTES }
    ensures in_range { result ≤ length text.now }
    ensures word { 0 < result → IsWord (take result text.now) }
    ensures longest { (n : ℕ) → n ≤ length text.now → IsWord (take n text.now) → n ≤ result }
{
    let bytes = text.as_bytes();
    let first = byte_at(bytes, 0);
    if is_ascii_letter(first) {
        let size = ascii_word_size(bytes);
        if byte_at(bytes, size).is_ascii() {
            return size;
        }
    } else if first.is_ascii() {
        return 0;
    }
    any_word_size(text)
}
