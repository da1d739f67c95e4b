//! Names and the bytes that they are written in (the Go specification, "Identifiers", "Qualified identifiers").

ghost use Rattle.std.specs.Prelude.{◌≡◌, IfOk, true, ◌+◌, ◌-◌, map, option_map, slice_range, string_bytes};
ghost use Rattle.std.specs.Str.{is_utf8};
ghost use Rattle.lexer.specs.declared.token.TokenKind.TheVariants.{Identifier as identifier_kind};
ghost use Rattle.meaning.specs.Cursor.{is_next, start_at};
ghost use Rattle.tree.specs.View.{identifier_syntax, type_name_syntax};
ghost use Rattle.parser_base.specs.Gives.{Gives};
ghost use Rattle.parser_base.specs.Places.{cursor, seen, parts_of, go_text};
ghost use Rattle.tree_reader.specs.Reader.{is_string, read_type_name};
ghost use Rattle.tree_reader.specs.Reading.{stands, behind, word_between, read_identifier, read_optional_identifier, read_identifiers};

use crate::cursor::{Read, SourceTokens, TokenPlace};
use lexer::TokenKind;
use std::alloc::{AllocError, Global};
use tree::{Identifier, NameText, TypeName};

/// The bytes from one offset up to another, as far as the text has them.
fn bytes_between(text: &[u8], start: usize, end: usize) -> &[u8]
    ensures { result.now ≡ slice_range text.now start end }
{
    let end = end.min(text.len());
    if start < end { &text[start..end] } else { &[] }
}

/// Those bytes as text.
fn text_between(text: &[u8], start: usize, end: usize) -> &str
    requires { is_utf8 (slice_range text.now start end) ≡ true }
    ensures { result.now ≡ slice_range text.now start end }
{
    unsafe { str::from_utf8_unchecked(bytes_between(text, start, end)) }
}

/// The text of the next token, a name.
///
/// # Errors
///
/// Out of memory.
pub fn word(source: SourceTokens<'_>, place: TokenPlace) -> Result<NameText, AllocError>
    requires { stands identifier_kind (cursor source place) ≡ true }
    ensures { IfOk result (λ s. s ≡ word_between (go_text source.entry) (cursor source.entry place) (behind
        (cursor source.entry place))) }
{
    let start = source.start(place) as usize;
    let end = source.behind(place).end as usize;
    NameText::of(source.alloc, text_between(source.text, start, end))
}

/// What stands between the quotes of the next token, a string.
///
/// # Errors
///
/// Out of memory.
pub fn quoted(source: SourceTokens<'_>, place: TokenPlace) -> Result<String, AllocError>
    requires { is_next is_string (cursor source place) ≡ true }
    ensures { IfOk result (λ s. string_bytes s ≡ slice_range source.entry.text.now (start_at (cursor source.entry
        place) + 1) ((behind (cursor source.entry place)).end - 1)) }
{
    let start = source.start(place) as usize + 1;
    let end = source.behind(place).end.saturating_sub(1) as usize;
    String::from_str(source.alloc, text_between(source.text, start, end))
}

/// A name, and the place after it.
///
/// # Errors
///
/// Where another token stands, and out of memory.
#[tactic(auto, unfolding(tree_reader::specs::Reading::read_identifier, tree_reader::specs::Reading::take))]
pub fn identifier(source: SourceTokens<'_>, place: TokenPlace) -> Read<Identifier>
    ensures { Gives (seen source.entry identifier_syntax) result (read_identifier (go_text source.entry) (cursor
        source.entry place)) }
{
    if !source.stands(place, TokenKind::Identifier) {
        return Err(source.unexpected(place));
    }
    let text = word(source, place)?;
    let end = source.behind(place);
    let span = source.span_to(place, end);
    Ok((Identifier { text, span }, end))
}

/// A name, if one stands here.
///
/// # Errors
///
/// Out of memory.
#[tactic(auto, unfolding(tree_reader::specs::Reading::read_optional_identifier))]
pub fn optional_identifier(source: SourceTokens<'_>, place: TokenPlace) -> Read<Option<Identifier>>
    ensures { Gives (seen source.entry (option_map identifier_syntax)) result (read_optional_identifier
        (go_text source.entry) (cursor source.entry place)) }
{
    if source.stands(place, TokenKind::Identifier) {
        let (name, end) = identifier(source, place)?;
        return Ok((Some(name), end));
    }
    Ok((None, place))
}

/// Names with commas between.
///
/// # Errors
///
/// Where another token stands, and out of memory.
pub fn identifiers(source: SourceTokens<'_>, place: TokenPlace) -> Read<Vec<Identifier>>
    ensures { Gives (seen source.entry (λ ns. map identifier_syntax ns.items)) result (read_identifiers
        (go_text source.entry) (cursor source.entry place)) }
{
    let mut names = Vec::new(source.alloc);
    let (first, mut rest) = identifier(source, place)?;
    // Most lists have one name.
    names.reserve_exact(1)?;
    names.push(first)?;
    for _ in 0..source.steps(rest) {
        if !source.stands(rest, TokenKind::Comma) {
            return Ok((names, rest));
        }
        let next = source.behind(rest);
        let (name, after) = identifier(source, next)?;
        names.push(name)?;
        rest = after;
    }
    Err(source.unexpected(rest))
}

/// The name of a type, perhaps of another package's.
///
/// # Errors
///
/// Where another token stands, and out of memory.
#[tactic(auto, unfolding(tree_reader::specs::Reader::read_type_name))]
pub fn type_name(source: SourceTokens<'_>, place: TokenPlace) -> Read<TypeName>
    ensures { Gives (seen source.entry type_name_syntax) result (read_type_name (go_text source.entry) (parts_of
        source.entry)
        (cursor source.entry place)) }
{
    let (first, after_first) = identifier(source, place)?;
    if !source.stands(after_first, TokenKind::Dot) {
        let span = source.span_to(place, after_first);
        let name = TypeName {
            package: None,
            name: first,
            span,
        };
        return Ok((name, after_first));
    }
    let (second, end) = identifier(source, source.behind(after_first))?;
    let span = source.span_to(place, end);
    let name = TypeName {
        package: Some(first),
        name: second,
        span,
    };
    Ok((name, end))
}
