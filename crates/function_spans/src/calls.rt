//! By which call a value is bound.

ghost use Rattle.std.specs.Prelude.{◌≡◌, drop, option_map};
ghost use Rattle.function_spans.specs.Bodies.{at_start};
ghost use Rattle.function_spans.specs.Calls.{bound_by, is_binding, is_called, is_of_name, name_called, name_of, solid_from, value_from};

use crate::bodies::{Scan, after, at_start, byte_at, is_of_word};
use crate::functions::is_outside;
use crate::steps::{ends_simple, is_blank};

/// Whether the byte is the `=` behind what is bound.
fn is_binding(scan: Scan, byte: u8) -> bool
    ensures { result ≡ is_binding scan byte }
{
    is_outside(scan) && byte == b'='
}

/// The text behind the `=` of the value whose name stands at this offset.
fn value_text(text: &[u8], offset: usize) -> &[u8]
    ensures { result.now ≡ value_from at_start (drop offset text.now) }
{
    let mut scan = at_start();
    let mut at = offset;
    'bytes: while at < text.len() {
        let (_, rest) = text.split_at(at);
        if is_binding(scan, text[at]) {
            let (_, value) = text.split_at(at + 1);
            return value;
        }
        if ends_simple(scan, text[at]) {
            return &[];
        }
        scan = after(scan, rest);
        at += 1;
    }
    &[]
}

/// The text from its first byte on that is no white space.
fn solid_text(text: &[u8]) -> &[u8]
    ensures { result.now ≡ solid_from text.now }
{
    let mut at = 0;
    'bytes: while at < text.len() {
        if !is_blank(text[at]) {
            let (_, rest) = text.split_at(at);
            return rest;
        }
        at += 1;
    }
    &[]
}

/// Whether the byte is one of words with dots between.
fn is_of_name(byte: u8) -> bool
    ensures { result ≡ is_of_name byte }
{
    is_of_word(byte) || byte == b'.'
}

/// The words with dots between that begin the text.
fn name_of(text: &[u8]) -> &[u8]
    ensures { result.now ≡ name_of text.now }
{
    let mut size = 0;
    'bytes: while size < text.len() {
        if !is_of_name(text[size]) {
            break 'bytes;
        }
        size += 1;
    }
    let (name, _) = text.split_at(size);
    name
}

/// Whether a name is called behind which this byte stands.
fn is_called(behind: u8) -> bool
    ensures { result ≡ is_called behind }
{
    behind == b'(' || behind == b'['
}

/// The name that the text calls, if it begins with one.
fn name_called(text: &[u8]) -> Option<&[u8]>
    ensures { option_map (λ name. name.now) result ≡ name_called text.now }
{
    let name = name_of(text);
    if is_of_word(byte_at(text, 0)) && is_called(byte_at(text, name.len())) {
        Some(name)
    } else {
        None
    }
}

/// The name of the call by which the value is bound whose name stands at this offset, as it stands in the text.
pub fn bound_by(text: &[u8], offset: usize) -> Option<&[u8]>
    ensures { option_map (λ name. name.now) result ≡ bound_by text.now offset }
{
    name_called(solid_text(value_text(text, offset)))
}
