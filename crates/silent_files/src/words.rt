//! Whether one of some words stands in a source as a name (the Go specification, "Identifiers").

ghost use Rattle.lexer.specs.declared.fault.LexFault.TheVariants.{OutOfMemory};
ghost use Rattle.std.specs.Prelude.{◌≡◌, ◌≢◌, IfOk, true, false, slice_range};
ghost use Rattle.std.specs.List.{list_any};
ghost use Rattle.std.specs.Str.{bytes_eq};
ghost use Rattle.silent_files.specs.NamedWords.{LacksEach};
ghost use Rattle.silent_files.specs.WordsSought.{bytes_of, NamesOne, NoneOccurs, is_identifier, is_one_of};

use lexer::{LexFault, Source, Token, TokenKind, lex};
use memchr::memmem;
use std::alloc::{AllocError, Global};

/// Whether the bytes of one of the words stand in the text.
fn occur(text: &[u8], mut words: &[&str]) -> bool
    ensures { result ≡ false → NoneOccurs (bytes_of words.entry.now) text.now }
{
    while let [word, others @ ..] = words {
        if memmem::find(text, word.as_bytes()).is_some() {
            return true;
        }
        words = others;
    }
    false
}

/// The bytes of a token, as far as the text has them.
fn spelling(text: &[u8], token: Token) -> &[u8]
    ensures { result.now ≡ slice_range text.now token.start token.end }
{
    let start = token.start as usize;
    let end = (token.end as usize).min(text.len());
    if start < end { &text[start..end] } else { &[] }
}

/// Whether one of the words is spelled so.
fn are_spelled(spelling: &[u8], mut words: &[&str]) -> bool
    ensures { result ≡ list_any (bytes_eq spelling.now) (bytes_of words.entry.now) }
{
    while let [word, others @ ..] = words {
        if spelling == word.as_bytes() {
            return true;
        }
        words = others;
    }
    false
}

/// Whether the token is an identifier.
fn is_identifier(kind: TokenKind) -> bool
    ensures { result ≡ is_identifier kind }
{
    matches!(kind, TokenKind::Identifier)
}

/// Whether one of the tokens is one of the words.
fn is_among(text: &[u8], mut tokens: &[Token], words: &[&str]) -> bool
    ensures { result ≡ list_any (is_one_of text.now (bytes_of words.now)) tokens.entry.now }
{
    while let [token, others @ ..] = tokens {
        if is_identifier(token.kind) && are_spelled(spelling(text, *token), words) {
            return true;
        }
        tokens = others;
    }
    false
}

/// Whether it says that memory was refused, and nothing of the text.
fn is_refusal(fault: LexFault) -> bool
    ensures { result ≡ false → fault ≢ OutOfMemory }
{
    matches!(fault, LexFault::OutOfMemory)
}

/// Whether the bytes of one of the words stand in the source, maybe in a comment or as part of a longer word. Where
/// they don't, no name of it is one of the words.
pub fn occurs_one(source: &Source, words: &[&str]) -> bool
    ensures { result ≡ false → LacksEach (bytes_of words.now) source.now.bytes.items }
{
    occur(&source.bytes, words)
}

/// Whether one of the words stands in the source as a name: it is an identifier token of it. A source with a fault has
/// no tokens, and so no names. The source is cut into tokens only where the bytes of one of the words stand in it.
///
/// # Errors
///
/// Memory was refused.
pub fn names_one(alloc: Global, source: &Source, words: &[&str]) -> Result<bool, AllocError>
    ensures lacks { IfOk result (λ is. is ≡ false → LacksEach (bytes_of words.now) source.now.bytes.items) }
    ensures names { IfOk result (λ is. is ≡ true → NamesOne (bytes_of words.now) source.now.bytes.items) }
{
    if !occurs_one(source, words) {
        return Ok(false);
    }
    match lex(alloc, source) {
        Ok(tokens) => Ok(is_among(&source.bytes, &tokens, words)),
        Err(fault) => if is_refusal(fault) {
            Err(AllocError)
        } else {
            Ok(false)
        },
    }
}
