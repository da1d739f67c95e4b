//! The lines of a text.

use crate::tokens::bytes_between;
use memchr::memchr;

fn is_blank(byte: u8) -> bool {
    byte == b' ' || byte == b'\t'
}

/// Where the blanks at the end of a text begin.
fn blanks_from(bytes: &[u8]) -> usize {
    let mut end = bytes.len();
    'bytes: while end > 0 && is_blank(bytes[end - 1]) {
        end -= 1;
    }
    end
}

/// The white space before an offset, if nothing else stands there on its line.
pub fn indentation(bytes: &[u8], offset: u32) -> Option<&[u8]> {
    let offset = offset as usize;
    let front = bytes_between(bytes, 0, offset);
    let start = blanks_from(front);
    let is_line = start == 0 || front.get(start.saturating_sub(1)) == Some(&b'\n');
    if is_line {
        Some(bytes_between(front, start, front.len()))
    } else {
        None
    }
}

/// Where the next line begins, if nothing but a comment of one line stands behind the offset.
pub fn next_line(bytes: &[u8], offset: u32) -> Option<u32> {
    let start = offset as usize;
    let rest = bytes_between(bytes, start, bytes.len());
    let size = memchr(b'\n', rest)?;
    if !is_end(bytes_between(rest, 0, size)) {
        return None;
    }
    u32::try_from(start.saturating_add(size).saturating_add(1)).ok()
}

/// Whether this is the end of a line: blanks, and maybe a comment that ends there.
fn is_end(bytes: &[u8]) -> bool {
    for (index, &byte) in bytes.iter().enumerate() {
        if !is_blank(byte) {
            return bytes_between(bytes, index, bytes.len()).starts_with(b"//");
        }
    }
    true
}
