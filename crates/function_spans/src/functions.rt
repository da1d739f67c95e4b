//! In which function of a file an offset stands, by the bytes of the file's text.

ghost use Rattle.std.specs.Prelude.{◌≡◌, [], drop};
ghost use Rattle.function_spans.specs.Bodies.{at_start};
ghost use Rattle.lexer.specs.Pieces.{is_white_space};
ghost use Rattle.function_spans.specs.Functions.{begins_literal, begins_name, begins_type_name, comes_before_type, declares, ends_head, function_at, function_name, has_body, is_before_name, is_behind_heads, is_func, is_in_literal, is_named, is_outside, last_word, later_word, literal_holds, named_text, open_behind, open_with, opens_body, receiver_type, solid_after, word_of};

use crate::bodies::{
    Scan, after, at_start, begins_with, body_size, byte_at, closes, ends, is_code, is_of_word,
};

/// Whether the next byte stands outside of brackets, comments and quotes.
pub fn is_outside(scan: Scan) -> bool
    ensures { result ≡ is_outside scan }
{
    is_code(scan.within) && scan.depth == 0
}

/// Whether the word `func` begins there.
pub fn is_func(scan: Scan, text: &[u8]) -> bool
    ensures { result ≡ is_func scan text.now }
{
    (is_code(scan.within) && !scan.in_word) && begins_with(b"func", text)
}

/// Whether it is the brace of a body.
fn opens_body(scan: Scan, byte: u8) -> bool
    ensures { result ≡ opens_body scan byte }
{
    is_outside(scan) && (byte == b'{' && !scan.is_type)
}

/// Whether the byte stands in no head, outside of brackets.
fn is_behind_heads(byte: u8) -> bool
    ensures { result ≡ is_behind_heads byte }
{
    closes(byte) || (byte == b',' || (byte == b';' || (byte == b':' || byte == b'=')))
}

/// Whether the head of a function ends there, without a body.
fn ends_head(scan: Scan, byte: u8) -> bool
    ensures { result ≡ ends_head scan byte }
{
    scan.depth == 0 && (byte == b'\n' || (is_code(scan.within) && is_behind_heads(byte)))
}

/// Whether the function, whose `func` begins the text, has a body.
fn has_body(text: &[u8]) -> bool
    ensures { result ≡ has_body text.now }
{
    let mut scan = at_start();
    let mut size = 0;
    'bytes: while size < text.len() {
        let (_, rest) = text.split_at(size);
        if opens_body(scan, text[size]) {
            return true;
        }
        if ends_head(scan, text[size]) {
            return false;
        }
        scan = after(scan, rest);
        size += 1;
    }
    false
}

pub fn is_white_space(byte: u8) -> bool
    ensures { result ≡ is_white_space byte }
{
    (byte == b' ' || byte == b'\t') || byte == b'\r'
}

/// Whether the byte may stand between `func` and a name: white space, a receiver's bracket, the slash of a comment.
fn is_before_name(byte: u8) -> bool
    ensures { result ≡ is_before_name byte }
{
    is_white_space(byte) || (byte == b'(' || byte == b'/')
}

/// Whether the byte is the first one of a name.
fn begins_name(scan: Scan, byte: u8) -> bool
    ensures { result ≡ begins_name scan byte }
{
    is_outside(scan) && !is_before_name(byte)
}

/// The text from the name on, of the function whose `func` begins the text.
fn named_text(text: &[u8]) -> &[u8]
    ensures { result.now ≡ named_text text.now }
{
    let mut scan = at_start();
    let mut at = 4;
    'bytes: while at < text.len() {
        let (_, rest) = text.split_at(at);
        if begins_name(scan, text[at]) {
            return rest;
        }
        scan = after(scan, rest);
        at += 1;
    }
    &[]
}

/// The word that begins the text; none where it begins with another byte.
pub fn word_of(text: &[u8]) -> &[u8]
    ensures { result.now ≡ word_of text.now }
{
    let mut size = 0;
    'bytes: while size < text.len() {
        if !is_of_word(text[size]) {
            break 'bytes;
        }
        size += 1;
    }
    let (word, _) = text.split_at(size);
    word
}

/// Whether the text begins with a name, and a bracket stands behind that.
fn is_named(named: &[u8]) -> bool
    ensures { result ≡ is_named named.now }
{
    let behind = byte_at(named, word_of(named).len());
    is_of_word(byte_at(named, 0)) && (behind == b'(' || behind == b'[')
}

/// Whether a function is declared there, by its `func`.
fn declares(scan: Scan, text: &[u8]) -> bool
    ensures { result ≡ declares scan text.now }
{
    (scan.depth == 0 && is_func(scan, text))
        && (is_white_space(byte_at(text, 4)) && (is_named(named_text(text)) && has_body(text)))
}

/// The name of the function whose `func` stands at this offset of the text.
pub fn function_name(text: &[u8], function: usize) -> &[u8]
    ensures { result.now ≡ function_name text.now function }
{
    word_of(named_text(behind(text, function)))
}

/// Whether the byte is the first one of a word in the brackets of a receiver, and in no further brackets.
fn begins_type_name(scan: Scan, byte: u8) -> bool
    ensures { result ≡ begins_type_name scan byte }
{
    (is_code(scan.within) && scan.depth == 1) && (is_of_word(byte) && !scan.in_word)
}

/// The word there, if it is one of those; else the one that was found before.
fn later_word<'t>(scan: Scan, found: &'t [u8], text: &'t [u8]) -> &'t [u8]
    ensures { result.now ≡ later_word scan found.now text.now }
{
    if begins_type_name(scan, byte_at(text, 0)) {
        word_of(text)
    } else {
        found
    }
}

/// The type of the receiver of the method whose `func` begins the text; none of a function.
fn last_word(text: &[u8]) -> &[u8]
    ensures { result.now ≡ last_word at_start [] (drop 4 text.now) }
{
    let mut scan = at_start();
    let mut found: &[u8] = &[];
    let mut at = 4;
    'bytes: while at < text.len() {
        let (_, rest) = text.split_at(at);
        if begins_name(scan, text[at]) {
            return found;
        }
        found = later_word(scan, found, rest);
        scan = after(scan, rest);
        at += 1;
    }
    found
}

/// The type of the receiver of the method whose `func` stands at this offset of the text; none of a function.
pub fn receiver_type(text: &[u8], function: usize) -> &[u8]
    ensures { result.now ≡ receiver_type text.now function }
{
    last_word(behind(text, function))
}

/// What stands behind so many bytes of a text.
pub fn behind(text: &[u8], count: usize) -> &[u8]
    ensures { result.now ≡ drop count text.now }
{
    if count > text.len() {
        return &[];
    }
    let (_, rest) = text.split_at(count);
    rest
}

/// Where the `func` stands of the function that is open behind the byte at this offset, if one is.
fn open_behind(scan: Scan, at: usize, around: Option<usize>, text: &[u8]) -> Option<usize>
    ensures { result ≡ open_behind scan at around text.now }
{
    if declares(scan, text) {
        Some(at)
    } else if ends(scan, byte_at(text, 0)) {
        None
    } else {
        around
    }
}

/// Where that of the function stands in which this byte itself stands, if one does.
fn open_with(scan: Scan, at: usize, around: Option<usize>, text: &[u8]) -> Option<usize>
    ensures { result ≡ open_with scan at around text.now }
{
    if declares(scan, text) {
        Some(at)
    } else {
        around
    }
}

/// Where the `func` stands of the function or method, declared in this text, in which an offset stands.
pub fn function_at(text: &[u8], offset: usize) -> Option<usize>
    ensures { result ≡ function_at text.now offset }
{
    let mut scan = at_start();
    let mut around = None;
    let mut at = 0;
    'bytes: while at < text.len() {
        let (_, rest) = text.split_at(at);
        if at == offset {
            return open_with(scan, at, around, rest);
        }
        around = open_behind(scan, at, around, rest);
        scan = after(scan, rest);
        at += 1;
    }
    around
}

/// The last byte that is no white space, with one byte more.
fn solid_after(before: u8, byte: u8) -> u8
    ensures { result ≡ solid_after before byte }
{
    if is_white_space(byte) { before } else { byte }
}

/// Whether the type of elements, or of a result, may stand behind the byte.
fn comes_before_type(before: u8) -> bool
    ensures { result ≡ comes_before_type before }
{
    before == b']' || before == b')'
}

/// Whether a function literal begins there, by the last byte before that is no white space.
fn begins_literal(scan: Scan, before: u8, text: &[u8]) -> bool
    ensures { result ≡ begins_literal scan before text.now }
{
    (is_func(scan, text) && !comes_before_type(before)) && has_body(text)
}

/// Whether a literal begins there in which the byte behind so many stands.
fn literal_holds(scan: Scan, before: u8, left: usize, text: &[u8]) -> bool
    ensures { result ≡ literal_holds scan before left text.now }
{
    begins_literal(scan, before, text) && left <= body_size(text)
}

/// Whether the offset stands in a literal of the function whose `func` stands there.
pub fn is_in_literal(text: &[u8], function: usize, offset: usize) -> bool
    ensures { result ≡ is_in_literal text.now function offset }
{
    if function >= text.len() {
        return false;
    }
    let (_, whole) = text.split_at(function);
    let mut scan = after(at_start(), whole);
    let mut before = text[function];
    let mut at = function + 1;
    'bytes: while at < text.len() {
        let (_, rest) = text.split_at(at);
        if literal_holds(scan, before, offset.saturating_sub(at), rest) {
            return true;
        }
        if offset <= at {
            return false;
        }
        before = solid_after(before, text[at]);
        scan = after(scan, rest);
        at += 1;
    }
    false
}
