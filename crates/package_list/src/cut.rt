//! A text, cut into values.

ghost use Rattle.std.specs.Prelude.{◌≡◌, ◌<◌, ◌≤◌, ◌^◌, ◌∷◌, [], length, suc, IfNone, IfSome};
ghost use Rattle.package_list.specs.Pieces.{bracketed_size, opened_after, piece_size, pieces, place_after};
ghost use Rattle.package_list.specs.StringSizes.{is_outside, string_size};
ghost use Rattle.package_list.specs.declared.cut.Place.TheVariants.{InString, Outside};

use crate::blanks::{after_blanks, is_plain, plain_size};

/// Where a byte stands.
#[derive(Clone, Copy, Debug, Drop, PartialEq, Eq)]
pub enum Place {
    /// In no string.
    Outside,
    /// In a string.
    InString,
    /// In a string, behind a backslash that takes it.
    Taken,
}

/// Where the byte after this one stands.
fn place_after(place: Place, byte: u8) -> Place
    ensures { result ≡ place_after place byte }
{
    match place {
        Place::Outside => if byte == b'"' {
            Place::InString
        } else {
            Place::Outside
        },
        Place::InString => if byte == b'"' {
            Place::Outside
        } else if byte == b'\\' {
            Place::Taken
        } else {
            Place::InString
        },
        Place::Taken => Place::InString,
    }
}

/// How many brackets are open after this byte, which stands in no string.
fn opened_after(opened: usize, byte: u8) -> usize
    requires { suc opened < 2 ^ 64 }
    ensures value { result ≡ opened_after Outside opened byte }
    ensures most { result ≤ suc opened }
{
    if byte == b'{' || byte == b'[' {
        opened + 1
    } else if byte == b'}' || byte == b']' {
        opened.saturating_sub(1)
    } else {
        opened
    }
}

/// Whether no string is open.
fn is_outside(place: Place) -> bool
    ensures { result ≡ is_outside place }
{
    match place {
        Place::Outside => true,
        Place::InString | Place::Taken => false,
    }
}

/// How many bytes a text that begins in a string has up to the quote that ends the string, with it.
fn string_size(bytes: &[u8]) -> usize
    ensures value { result ≡ string_size InString bytes.now }
    ensures fits { result ≤ length bytes.now }
{
    let mut place = Place::InString;
    for (index, byte) in bytes.iter().enumerate() {
        place = place_after(place, *byte);
        if is_outside(place) {
            return index + 1;
        }
    }
    bytes.len()
}

/// How many bytes a text has up to the first after which neither a bracket nor a string is open. A string is passed at
/// once: most of a list are strings.
fn bracketed_size(bytes: &[u8]) -> usize
    ensures value { result ≡ bracketed_size Outside 0 bytes.now }
    ensures fits { result ≤ length bytes.now }
{
    let mut opened = 0;
    let mut index = 0;
    while index < bytes.len() {
        let byte = bytes[index];
        index += 1;
        if byte == b'"' {
            let (_, behind) = bytes.split_at(index);
            index += string_size(behind);
        } else {
            opened = opened_after(opened, byte);
        }
        if opened == 0 {
            return index;
        }
    }
    bytes.len()
}

/// How many bytes the value has with which a text begins.
fn piece_size(bytes: &[u8]) -> usize
    ensures value { result ≡ piece_size bytes.now }
    ensures fits { result ≤ length bytes.now }
{
    if bytes.is_empty() {
        return 0;
    }
    if is_plain(bytes[0]) {
        plain_size(bytes)
    } else {
        bracketed_size(bytes)
    }
}

/// A value, and what follows it.
#[derive(Clone, Copy, Drop)]
pub struct Cut<'a> {
    pub piece: &'a [u8],
    pub rest: &'a [u8],
}

/// The first value of a text; `None` where there is none.
pub(crate) fn first_piece(bytes: &[u8]) -> Option<Cut<'_>>
    ensures some { IfSome result (λ cut. pieces bytes.now ≡ cut.piece.now ∷ pieces cut.rest.now) }
    ensures shorter { IfSome result (λ cut. length cut.rest.now < length bytes.now) }
    ensures none { IfNone result (pieces bytes.now ≡ []) }
{
    let text = after_blanks(bytes);
    if text.is_empty() {
        return None;
    }
    let (piece, rest) = text.split_at(piece_size(text));
    Some(Cut { piece, rest })
}
