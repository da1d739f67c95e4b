//! Blanks, and runs of other bytes.

ghost use Rattle.std.specs.Prelude.{◌≡◌, ◌≤◌, length};
ghost use Rattle.package_list.specs.Pieces.{after_blanks, is_blank, is_plain, plain_size};

/// Whether a byte may stand between values.
fn is_blank(byte: u8) -> bool
    ensures { result ≡ is_blank byte }
{
    byte == b' ' || byte == b'\t' || byte == b'\n' || byte == b'\r'
}

/// Whether a byte may stand in a number or a word.
pub(crate) fn is_plain(byte: u8) -> bool
    ensures { result ≡ is_plain byte }
{
    match byte {
        b' ' | b'\t' | b'\n' | b'\r' | b'{' | b'}' | b'[' | b']' | b'"' | b',' | b':' => false,
        _ => true,
    }
}

/// The text behind the blanks that it begins with.
pub(crate) fn after_blanks(bytes: &[u8]) -> &[u8]
    ensures value { result.now ≡ after_blanks bytes.now }
    ensures no_longer { length result.now ≤ length bytes.now }
{
    for (index, byte) in bytes.iter().enumerate() {
        if !is_blank(*byte) {
            let (_, text) = bytes.split_at(index);
            return text;
        }
    }
    &[]
}

/// How many bytes the number or the word has with which a text begins.
pub(crate) fn plain_size(bytes: &[u8]) -> usize
    ensures value { result ≡ plain_size bytes.now }
    ensures fits { result ≤ length bytes.now }
{
    for (index, byte) in bytes.iter().enumerate() {
        if !is_plain(*byte) {
            return index;
        }
    }
    bytes.len()
}
