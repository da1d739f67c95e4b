//! Where the body of a function ends, by the bytes of its text.

ghost use Rattle.std.specs.Prelude.{◌≡◌, ◌+◌, ◌<◌, ◌≤◌, drop, length, slice_index};
ghost use Rattle.function_spans.specs.declared.bodies.Within.TheVariants.{Code, Quoted};
ghost use Rattle.function_spans.specs.Bodies.{after, after_slash, at_start, begins_type, begins_with, body_end, closes, depth_after, ends, is_code, is_of_word, is_quote, is_type_after, opens, size_from, within_after};

/// In what a byte of a text stands.
#[derive(Clone, Copy)]
pub enum Within {
    Code,
    LineComment,
    /// It is the asterisk that opens a comment.
    CommentOpens,
    Comment,
    /// It is the slash that closes a comment.
    CommentCloses,
    /// In a string or rune that begins with this quote.
    Quoted(u8),
    /// Behind a backslash there.
    Escaped(u8),
}

/// What is known at a byte behind the `func` of a function.
#[derive(Clone, Copy)]
pub struct Scan {
    pub within: Within,
    /// How many brackets are open.
    pub depth: usize,
    /// The byte before it is one of a word.
    pub in_word: bool,
    /// The next brace outside of brackets, or the one that is open there, is that of a type.
    pub is_type: bool,
}

fn is_quote(byte: u8) -> bool
    ensures { result ≡ is_quote byte }
{
    byte == b'"' || (byte == b'\'' || byte == b'`')
}

fn opens(byte: u8) -> bool
    ensures { result ≡ opens byte }
{
    byte == b'{' || (byte == b'(' || byte == b'[')
}

pub fn closes(byte: u8) -> bool
    ensures { result ≡ closes byte }
{
    byte == b'}' || (byte == b')' || byte == b']')
}

/// Whether it is a byte of a keyword or identifier.
pub fn is_of_word(byte: u8) -> bool
    ensures { result ≡ is_of_word byte }
{
    (byte.is_ascii_alphabetic() || byte.is_ascii_digit()) || (byte == b'_' || byte >= 128)
}

/// The byte at a place, or 0 behind the text's end.
pub fn byte_at(text: &[u8], at: usize) -> u8
    ensures { result ≡ slice_index text.now at }
{
    if at < text.len() { text[at] } else { 0 }
}

/// Whether the text begins with this word, and not with a longer one.
pub fn begins_with(word: &[u8], text: &[u8]) -> bool
    ensures { result ≡ begins_with word.now text.now }
{
    text.starts_with(word) && !is_of_word(byte_at(text, word.len()))
}

/// Whether it begins with the keyword of a type that has braces.
fn begins_type(text: &[u8]) -> bool
    ensures { result ≡ begins_type text.now }
{
    begins_with(b"struct", text) || begins_with(b"interface", text)
}

/// In what the byte behind a slash stands.
fn after_slash(next: u8) -> Within
    ensures { result ≡ after_slash next }
{
    match next {
        b'/' => Within::LineComment,
        b'*' => Within::CommentOpens,
        _ => Within::Code,
    }
}

/// In what the byte behind one of code stands.
fn after_code(byte: u8, next: u8) -> Within
    ensures { result ≡ within_after Code byte next }
{
    if is_quote(byte) {
        Within::Quoted(byte)
    } else if byte == b'/' {
        after_slash(next)
    } else {
        Within::Code
    }
}

/// In what the byte behind one in quotes stands.
fn after_quoted(quote: u8, byte: u8, next: u8) -> Within
    ensures { result ≡ within_after (Quoted quote) byte next }
{
    if byte == quote {
        Within::Code
    } else if byte == b'\\' && quote != b'`' {
        Within::Escaped(quote)
    } else {
        Within::Quoted(quote)
    }
}

/// In what the next byte stands.
fn within_after(within: Within, byte: u8, next: u8) -> Within
    ensures { result ≡ within_after within byte next }
{
    match within {
        Within::Code => after_code(byte, next),
        Within::LineComment if byte == b'\n' => Within::Code,
        Within::LineComment => Within::LineComment,
        Within::Comment if byte == b'*' && next == b'/' => Within::CommentCloses,
        Within::CommentOpens | Within::Comment => Within::Comment,
        Within::CommentCloses => Within::Code,
        Within::Quoted(quote) => after_quoted(quote, byte, next),
        Within::Escaped(quote) => Within::Quoted(quote),
    }
}

pub fn is_code(within: Within) -> bool
    ensures { result ≡ is_code within }
{
    matches!(within, Within::Code)
}

/// How many brackets are open behind a byte of code.
fn depth_after(depth: usize, byte: u8) -> usize
    requires { depth < usize.MAX }
    ensures { result ≡ depth_after depth byte }
{
    if opens(byte) {
        depth + 1
    } else if closes(byte) {
        depth.saturating_sub(1)
    } else {
        depth
    }
}

/// Whether a brace is that of a type, behind the byte of code at the text's start.
fn is_type_after(scan: Scan, text: &[u8]) -> bool
    ensures { result ≡ is_type_after scan text.now }
{
    let byte = byte_at(text, 0);
    if scan.depth == 0 && (is_of_word(byte) && !scan.in_word) {
        begins_type(text)
    } else {
        scan.is_type && !(byte == b'}' && scan.depth == 1)
    }
}

/// What is known behind the byte at the text's start.
pub fn after(scan: Scan, text: &[u8]) -> Scan
    requires { scan.depth < usize.MAX }
    ensures { result ≡ after scan text.now }
{
    let byte = byte_at(text, 0);
    let within = within_after(scan.within, byte, byte_at(text, 1));
    if !is_code(scan.within) {
        return Scan {
            within,
            in_word: false,
            ..scan
        };
    }
    Scan {
        within,
        depth: depth_after(scan.depth, byte),
        in_word: is_of_word(byte),
        is_type: is_type_after(scan, text),
    }
}

/// Whether the byte closes the body.
pub fn ends(scan: Scan, byte: u8) -> bool
    ensures { result ≡ ends scan byte }
{
    is_code(scan.within) && (byte == b'}' && (scan.depth == 1 && !scan.is_type))
}

/// What is known at a text's start, before any bracket.
pub fn at_start() -> Scan
    ensures { result ≡ at_start }
{
    Scan {
        within: Within::Code,
        depth: 0,
        in_word: false,
        is_type: false,
    }
}

/// How many bytes of the text, which begins with a function's `func`, stand before the one that closes its body.
pub fn body_size(text: &[u8]) -> usize
    ensures is { result ≡ size_from at_start text.now }
    ensures within { result ≤ length text.now }
{
    let mut scan = at_start();
    let mut size = 0;
    'bytes: while size < text.len() {
        let (_, rest) = text.split_at(size);
        if ends(scan, text[size]) {
            return size;
        }
        scan = after(scan, rest);
        size += 1;
    }
    size
}

/// Where the body of the function ends whose `func` stands at this offset of the text.
pub fn body_end(text: &[u8], function: usize) -> usize
    ensures { result ≡ body_end text.now function }
{
    if function >= text.len() {
        return function;
    }
    let (_, rest) = text.split_at(function);
    function + body_size(rest)
}
