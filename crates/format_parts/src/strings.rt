//! Texts whose bytes are spelled: in a JSON string, and in a URI. A run of bytes that stand for themselves is put in
//! one go.

ghost use Rattle.std.specs.Prelude.{◌≡◌, ◌<◌, ◌≤◌, length, take, IfOk};
ghost use Rattle.std.specs.Char.{digit_char};
ghost use Rattle.json.specs.Print.{escape_letter, escape_byte};
ghost use Rattle.report.specs.Writing.{refusals_after, IsWritten};
ghost use Rattle.format_parts.specs.FileUris.{is_kept, uri_byte};
ghost use Rattle.format_parts.specs.Pieces.{PutsFront, byte_text, spelled, stands};

use percent_encoding::percent_encode_byte;
use report::{Sink, WriteFault, put_all};

/// How the bytes of a text are spelled.
#[derive(Clone, Copy)]
pub enum Spelling {
    /// In a JSON string: quotes, backslashes and control codes are escaped (RFC 8259, section 7).
    InString,
    /// In the path of a URI: all bytes but the unreserved ones and the slash are escaped (RFC 3986, section 2).
    InUri,
}

/// Puts the bytes in this spelling.
///
/// # Errors
///
/// A put failed or took nothing. A beginning of the text is taken then, and not all of it.
pub fn put_spelled<S: Sink>(
    spelling: Spelling,
    bytes: &[u8],
    sink: &mut S,
) -> Result<(), WriteFault>
    ensures taken { IsWritten (spelled spelling bytes.now) (S.taken sink.old) (S.taken sink.new) result }
    ensures refusals { S.refusals sink.new ≡ refusals_after (S.refusals sink.old) result }
{
    let mut rest = bytes;
    while !rest.is_empty() {
        let after = put_front(spelling, rest, sink)?;
        rest = after;
    }
    Ok(())
}

/// Puts a front of bytes that are there: the run that stands for itself, or else one byte. The rest is answered.
fn put_front<'a, S: Sink>(
    spelling: Spelling,
    bytes: &'a [u8],
    sink: &mut S,
) -> Result<&'a [u8], WriteFault>
    requires { 0 < length bytes.now }
    ensures taken { PutsFront spelling bytes.now (S.taken sink.old) (S.taken sink.new) result }
    ensures shorter { IfOk result (λ rest. length rest.now < length bytes.now) }
    ensures refusals { S.refusals sink.new ≡ refusals_after (S.refusals sink.old) result }
{
    let count = plain_front(spelling, bytes);
    if count == 0 {
        put_first(spelling, bytes, sink)
    } else {
        put_run(spelling, bytes, count, sink)
    }
}

/// Puts the first byte.
fn put_first<'a, S: Sink>(
    spelling: Spelling,
    bytes: &'a [u8],
    sink: &mut S,
) -> Result<&'a [u8], WriteFault>
    requires { 0 < length bytes.now }
    ensures taken { PutsFront spelling bytes.now (S.taken sink.old) (S.taken sink.new) result }
    ensures shorter { IfOk result (λ rest. length rest.now < length bytes.now) }
    ensures refusals { S.refusals sink.new ≡ refusals_after (S.refusals sink.old) result }
{
    let (_, rest) = bytes.split_at(1);
    put_byte(spelling, bytes[0], sink)?;
    Ok(rest)
}

/// Puts this many bytes at the front, which stand for themselves.
fn put_run<'a, S: Sink>(
    spelling: Spelling,
    bytes: &'a [u8],
    count: usize,
    sink: &mut S,
) -> Result<&'a [u8], WriteFault>
    requires within { (0 < count) × (count ≤ length bytes.now) }
    requires plain { spelled spelling (take count bytes.now) ≡ take count bytes.now }
    ensures taken { PutsFront spelling bytes.now (S.taken sink.old) (S.taken sink.new) result }
    ensures shorter { IfOk result (λ rest. length rest.now < length bytes.now) }
    ensures refusals { S.refusals sink.new ≡ refusals_after (S.refusals sink.old) result }
{
    let (plain, rest) = bytes.split_at(count);
    put_all(plain, sink)?;
    Ok(rest)
}

/// How many bytes at the front stand for themselves.
fn plain_front(spelling: Spelling, bytes: &[u8]) -> usize
    ensures within { result ≤ length bytes.now }
    ensures plain { spelled spelling (take result bytes.now) ≡ take result bytes.now }
{
    for (index, &byte) in bytes.iter().enumerate() {
        if !is_plain(spelling, byte) {
            return index;
        }
    }
    bytes.len()
}

/// Whether the byte stands for itself.
fn is_plain(spelling: Spelling, byte: u8) -> bool
    ensures { result ≡ stands spelling byte }
{
    match spelling {
        Spelling::InString => byte >= b' ' && byte != b'"' && byte != b'\\',
        Spelling::InUri => is_kept(byte),
    }
}

fn put_byte<S: Sink>(spelling: Spelling, byte: u8, sink: &mut S) -> Result<(), WriteFault>
    ensures taken { IsWritten (byte_text spelling byte) (S.taken sink.old) (S.taken sink.new) result }
    ensures refusals { S.refusals sink.new ≡ refusals_after (S.refusals sink.old) result }
{
    match spelling {
        Spelling::InString => put_escape(byte, sink),
        Spelling::InUri => put_uri_byte(byte, sink),
    }
}

/// Puts what stands in a JSON string for a byte.
fn put_escape<S: Sink>(byte: u8, sink: &mut S) -> Result<(), WriteFault>
    ensures taken { IsWritten (escape_byte byte) (S.taken sink.old) (S.taken sink.new) result }
    ensures refusals { S.refusals sink.new ≡ refusals_after (S.refusals sink.old) result }
{
    let letter = escape_letter(byte);
    if letter > 0 {
        put_all(&[b'\\', letter], sink)
    } else if byte < b' ' {
        put_all(
            &[b'\\', b'u', b'0', b'0', hex(byte / 16), hex(byte % 16)],
            sink,
        )
    } else {
        put_all(&[byte], sink)
    }
}

/// The letter of a byte's short escape, or 0 where it has none.
fn escape_letter(byte: u8) -> u8
    ensures { result ≡ escape_letter byte }
{
    match byte {
        b'"' | b'\\' => byte,
        8 => b'b',
        12 => b'f',
        b'\n' => b'n',
        b'\r' => b'r',
        b'\t' => b't',
        _ => 0,
    }
}

fn hex(digit: u8) -> u8
    requires { digit < 16 }
    ensures { result ≡ digit_char digit }
{
    if digit < 10 {
        b'0' + digit
    } else {
        b'a' - 10 + digit
    }
}

/// Puts what stands in the path of a URI for a byte.
fn put_uri_byte<S: Sink>(byte: u8, sink: &mut S) -> Result<(), WriteFault>
    ensures taken { IsWritten (uri_byte byte) (S.taken sink.old) (S.taken sink.new) result }
    ensures refusals { S.refusals sink.new ≡ refusals_after (S.refusals sink.old) result }
{
    if is_kept(byte) {
        put_all(&[byte], sink)
    } else {
        put_all(percent_encode_byte(byte).as_bytes(), sink)
    }
}

/// Whether the byte stands for itself in a path.
fn is_kept(byte: u8) -> bool
    ensures { result ≡ is_kept byte }
{
    byte.is_ascii_alphanumeric()
        || byte == b'-'
        || byte == b'.'
        || byte == b'_'
        || byte == b'~'
        || byte == b'/'
}
