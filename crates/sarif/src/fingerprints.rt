//! Sums of what stands at a place, by which a finding is known again.

ghost use Rattle.std.specs.Prelude.{◌≡◌, take};
ghost use Rattle.sarif.specs.Fingerprints.{is_white, next_sum, sum_at, sum_from};

use format_parts::behind;

/// How many bytes are summed.
pub const MOST_BYTES: usize = 100;

/// By what the sum of the bytes before a byte is multiplied.
pub const FACTOR: usize = 257;

/// Each sum is below this prime, the largest one below 2^54.
pub const PRIME: usize = 18_014_398_509_481_951;

/// The sum of what stands at the offset.
pub fn sum_at(text: &[u8], offset: u32) -> usize
    ensures { result ≡ sum_at text.now offset }
{
    sum_of(first_bytes(behind(text, offset as usize)))
}

/// The first bytes of a text, of which a sum is made.
fn first_bytes(text: &[u8]) -> &[u8]
    ensures { result.now ≡ take MOST_BYTES text.now }
{
    if text.len() <= MOST_BYTES {
        return text;
    }
    let (front, _) = text.split_at(MOST_BYTES);
    front
}

fn sum_of(bytes: &[u8]) -> usize
    ensures { result ≡ sum_from 0 bytes.now }
{
    let mut sum = 0;
    for &byte in bytes {
        sum = next_sum(sum, byte);
    }
    sum
}

/// What a byte makes of the sum of those before it.
fn next_sum(sum: usize, byte: u8) -> usize
    ensures { result ≡ next_sum sum byte }
{
    if is_white(byte) {
        sum
    } else {
        (sum % PRIME * FACTOR + byte as usize) % PRIME
    }
}

fn is_white(byte: u8) -> bool
    ensures { result ≡ is_white byte }
{
    (byte == b' ' || byte == b'\t') || (byte == b'\n' || byte == b'\r')
}
