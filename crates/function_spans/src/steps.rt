//! Where a statement or a word ends that begins at an offset of a text.

ghost use Rattle.std.specs.Prelude.{◌≡◌, ◌<◌};
ghost use Rattle.lexer.specs.Pieces.{is_white_space};
ghost use Rattle.function_spans.specs.Steps.{begins_header, end_with, ends_clause, ends_header, ends_simple, ends_step, in_literal_after, is_blank, is_of_comment, is_solid, opens_block, opens_comment, statement_end, word_end};

use crate::bodies::{Scan, Within, after, at_start, begins_with, byte_at, closes, is_code};
use crate::functions::{behind, is_func, is_outside, is_white_space, word_of};

/// Whether the text begins with the keyword of a statement with a block, or of a clause.
fn begins_header(text: &[u8]) -> bool
    ensures { result ≡ begins_header text.now }
{
    begins_with(b"if", text)
        || (begins_with(b"for", text)
            || (begins_with(b"switch", text)
                || (begins_with(b"select", text)
                    || (begins_with(b"case", text) || begins_with(b"default", text)))))
}

/// Whether the next byte stands in a function literal outside of brackets, or in its head, by whether this one does.
fn in_literal_after(scan: Scan, in_literal: bool, text: &[u8]) -> bool
    ensures { result ≡ in_literal_after scan in_literal text.now }
{
    (scan.depth == 0 && is_func(scan, text))
        || (in_literal && !(is_code(scan.within) && (byte_at(text, 0) == b'}' && scan.depth == 1)))
}

/// Whether the byte opens a block, by the one before it.
fn opens_block(scan: Scan, in_literal: bool, before: u8, byte: u8) -> bool
    ensures { result ≡ opens_block scan in_literal before byte }
{
    byte == b'{' && (is_white_space(before) && !(scan.is_type || in_literal))
}

/// Whether the colon of a clause begins the text.
fn ends_clause(text: &[u8]) -> bool
    ensures { result ≡ ends_clause text.now }
{
    byte_at(text, 0) == b':' && byte_at(text, 1) != b'='
}

/// Whether a header ends before the text.
fn ends_header(scan: Scan, in_literal: bool, before: u8, text: &[u8]) -> bool
    ensures { result ≡ ends_header scan in_literal before text.now }
{
    is_outside(scan)
        && (opens_block(scan, in_literal, before, byte_at(text, 0)) || ends_clause(text))
}

/// Whether a statement without a block ends before the byte.
pub fn ends_simple(scan: Scan, byte: u8) -> bool
    ensures { result ≡ ends_simple scan byte }
{
    scan.depth == 0 && (byte == b'\n' || (is_code(scan.within) && (byte == b';' || closes(byte))))
}

/// Whether a header, or another statement, ends before the text.
fn ends_step(is_header: bool, scan: Scan, in_literal: bool, before: u8, text: &[u8]) -> bool
    ensures { result ≡ ends_step is_header scan in_literal before text.now }
{
    if is_header {
        ends_header(scan, in_literal, before, text)
    } else {
        ends_simple(scan, byte_at(text, 0))
    }
}

/// Whether the byte is white space, or ends a line.
pub fn is_blank(byte: u8) -> bool
    ensures { result ≡ is_blank byte }
{
    is_white_space(byte) || byte == b'\n'
}

fn is_of_comment(within: Within) -> bool
    ensures { result ≡ is_of_comment within }
{
    match within {
        Within::LineComment | Within::CommentOpens | Within::Comment | Within::CommentCloses =>
            true,
        Within::Code | Within::Quoted(_) | Within::Escaped(_) => false,
    }
}

fn opens_comment(text: &[u8]) -> bool
    ensures { result ≡ opens_comment text.now }
{
    byte_at(text, 0) == b'/' && (byte_at(text, 1) == b'/' || byte_at(text, 1) == b'*')
}

/// Whether the byte at the text's start is neither white space nor of a comment.
fn is_solid(scan: Scan, text: &[u8]) -> bool
    ensures { result ≡ is_solid scan text.now }
{
    !is_of_comment(scan.within) && !(is_blank(byte_at(text, 0)) || opens_comment(text))
}

/// The end so far, with the byte at this offset, which begins the text.
fn end_with(scan: Scan, at: usize, end: usize, text: &[u8]) -> usize
    requires { at < usize.MAX }
    ensures { result ≡ end_with scan at end text.now }
{
    if is_solid(scan, text) { at + 1 } else { end }
}

/// Where the statement ends, or its header, that begins at this offset of the text.
pub fn statement_end(text: &[u8], offset: usize) -> usize
    ensures { result ≡ statement_end text.now offset }
{
    let is_header = begins_header(behind(text, offset));
    let mut scan = at_start();
    let mut in_literal = false;
    let mut before = 0;
    let mut end = offset;
    let mut at = offset;
    'bytes: while at < text.len() {
        let (_, rest) = text.split_at(at);
        if ends_step(is_header, scan, in_literal, before, rest) {
            return end;
        }
        end = end_with(scan, at, end, rest);
        in_literal = in_literal_after(scan, in_literal, rest);
        scan = after(scan, rest);
        before = text[at];
        at += 1;
    }
    end
}

/// Where the word ends that begins at this offset of the text.
pub fn word_end(text: &[u8], offset: usize) -> usize
    ensures { result ≡ word_end text.now offset }
{
    offset.saturating_add(word_of(behind(text, offset)).len())
}
