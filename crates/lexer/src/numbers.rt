//! Numbers: integer, floating-point and imaginary literals, by where they end
//! (the Go specification, "Integer literals" to "Imaginary literals").

ghost use Rattle.std.specs.Prelude.{◌≡◌, ◌-◌, ◌≤◌, ◌<◌, ℕ, length, slice_index, IsTrue, IsFalse};
ghost use Rattle.lexer.specs.Pieces.{starts_number, is_hexadecimal, goes_on};

use crate::letters::is_ascii_letter_or_digit;
use crate::pieces::byte_at;

/// Whether a number begins with these two bytes.
pub fn starts_number(first: u8, second: u8) -> bool
    ensures { result ≡ starts_number first second }
{
    first.is_ascii_digit() || (first == b'.' && second.is_ascii_digit())
}

/// Whether the number at the start of a text begins `0x` or `0X`.
fn is_hexadecimal(text: &[u8]) -> bool
    ensures { result ≡ is_hexadecimal text.now }
{
    let second = byte_at(text, 1);
    byte_at(text, 0) == b'0' && (second == b'x' || second == b'X')
}

/// Whether `byte` goes on with a number in which `previous` stands before it.
/// A sign does only after an exponent's letter: `p` in a hexadecimal number, else `e`.
fn goes_on(hexadecimal: bool, previous: u8, byte: u8) -> bool
    ensures { result ≡ goes_on hexadecimal previous byte }
{
    if byte == b'+' || byte == b'-' {
        if hexadecimal {
            previous == b'p' || previous == b'P'
        } else {
            previous == b'e' || previous == b'E'
        }
    } else {
        is_ascii_letter_or_digit(byte) || byte == b'.'
    }
}

/// The size of the number at the start of a text.
pub fn number_size(text: &[u8]) -> usize
    requires { 0 < length text.now }
    ensures in_range { result ≤ length text.now }
    ensures nonempty { 0 < result }
    ensures number { (i : ℕ) → 0 < i → i < result →
        IsTrue (goes_on (is_hexadecimal text.now) (slice_index text.now (i - 1)) (slice_index text.now i)) }
    ensures stops { result < length text.now →
        IsFalse (goes_on (is_hexadecimal text.now) (slice_index text.now (result - 1)) (slice_index text.now result)) }
{
    let hexadecimal = is_hexadecimal(text);
    let mut size = 1;
    while size < text.len() && goes_on(hexadecimal, text[size - 1], text[size]) {
        size += 1;
    }
    size
}
