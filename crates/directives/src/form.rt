//! What a directive accepts, by what stands behind its mark.

ghost use Rattle.std.specs.Prelude.{◌≡◌, option_map};
ghost use Rattle.std.specs.List.{after_first, before_first};
ghost use Rattle.directives.specs.Directives.{accepts_view};
ghost use Rattle.directives.specs.Forms.{accepted, accepted_by, accepted_for, are_codes, is_code, is_space, is_white_space, names_code, trimmed, without_end, without_start};

use crate::found::Accepts;
use crate::place::is_blank;
use memchr::memchr;

/// Whether these codes name the one of this number, as `LC05`.
pub fn names_code(codes: &[u8], number: &str) -> bool
    ensures { result ≡ names_code codes.now number.now }
{
    codes
        .split(|byte| *byte == b',')
        .any(|piece| piece == number.as_bytes())
}

/// The codes that a directive accepts, and the reason, if this stands behind its mark.
pub(crate) fn accepted(behind: &[u8]) -> Option<Accepts<'_>>
    ensures { option_map accepts_view result ≡ accepted behind.now }
{
    match behind {
        [b' ', form @ ..] => accepted_by(form),
        _ => None,
    }
}

/// The same by what stands behind the blank behind its mark.
fn accepted_by(form: &[u8]) -> Option<Accepts<'_>>
    ensures { option_map accepts_view result ≡ accepted_by form.now }
{
    let (codes, rest) = cut_at_blank(form);
    accepted_for(codes, trimmed(rest))
}

/// These codes for this reason, where both are in their form.
fn accepted_for<'a>(codes: &'a [u8], reason: &'a [u8]) -> Option<Accepts<'a>>
    ensures { option_map accepts_view result ≡ accepted_for codes.now reason.now }
{
    if are_codes(codes) && !reason.is_empty() {
        Some(Accepts { codes, reason })
    } else {
        None
    }
}

/// What stands before the first blank, and what stands behind it.
fn cut_at_blank(form: &[u8]) -> (&[u8], &[u8])
    ensures before { result.0.now ≡ before_first is_space form.now }
    ensures behind { result.1.now ≡ after_first is_space form.now }
{
    match memchr(b' ', form) {
        Some(end) => (&form[..end], &form[end + 1..]),
        None => (form, &[]),
    }
}

/// Whether these are codes with single commas between them.
fn are_codes(text: &[u8]) -> bool
    ensures { result ≡ are_codes text.now }
{
    text.split(|byte| *byte == b',').all(|piece| is_code(piece))
}

/// Whether it is `LC` and two digits.
fn is_code(piece: &[u8]) -> bool
    ensures { result ≡ is_code piece.now }
{
    piece.len() == 4
        && piece.starts_with(b"LC")
        && (piece[2].is_ascii_digit() && piece[3].is_ascii_digit())
}

/// The bytes without white space at their two ends.
fn trimmed(bytes: &[u8]) -> &[u8]
    ensures { result.now ≡ trimmed bytes.now }
{
    without_end(without_start(bytes))
}

/// The bytes without white space at their start.
fn without_start(bytes: &[u8]) -> &[u8]
    ensures { result.now ≡ without_start bytes.now }
{
    let mut start = 0;
    'bytes: while start < bytes.len() && is_white_space(bytes[start]) {
        start += 1;
    }
    &bytes[start..]
}

/// The bytes without white space at their end.
fn without_end(bytes: &[u8]) -> &[u8]
    ensures { result.now ≡ without_end bytes.now }
{
    let mut end = bytes.len();
    'bytes: while end > 0 && is_white_space(bytes[end - 1]) {
        end -= 1;
    }
    &bytes[..end]
}

/// Whether the byte may stand around a reason.
fn is_white_space(byte: u8) -> bool
    ensures { result ≡ is_white_space byte }
{
    is_blank(byte) || byte == b'\r'
}
