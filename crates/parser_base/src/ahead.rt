//! What the tokens that come tell of brackets behind a new type's name: the length of an array or type parameters (the
//! Go specification, "Type parameter declarations").

ghost use Rattle.std.specs.Prelude.{◌≡◌, ◌<◌, true, drop};
ghost use Rattle.lexer.specs.declared.token.TokenKind.TheVariants.{LeftBracket};
ghost use Rattle.meaning.specs.Cursor.{first_is};
ghost use Rattle.meaning.specs.TypeParameters.{begins_parameters, has_separator, is_no_index, type_follows};
ghost use Rattle.parser_base.specs.Ahead.{nesting_past};
ghost use Rattle.parser_base.specs.Places.{cursor};
ghost use Rattle.tree_reader.specs.Reading.{stands};

use crate::cursor::{SourceTokens, TokenPlace};
use crate::kinds::{closes, is_no_index, only_begins_type, separates};
use lexer::TokenKind;

/// In how many brackets the token behind one of this kind stands, which itself stands in so many.
pub fn nesting_past(kind: TokenKind, nesting: usize) -> usize
    requires { nesting < usize.MAX }
    ensures { result ≡ nesting_past kind nesting }
{
    match kind {
        TokenKind::LeftParenthesis => nesting + 1,
        TokenKind::LeftBracket => nesting + 1,
        TokenKind::LeftBrace => nesting + 1,
        TokenKind::RightParenthesis => nesting.saturating_sub(1),
        TokenKind::RightBracket => nesting.saturating_sub(1),
        TokenKind::RightBrace => nesting.saturating_sub(1),
        _ => nesting,
    }
}

/// Whether a comma or `~` stands outside all brackets from here on, up to where the bracket around this place closes.
pub fn has_separator(source: SourceTokens<'_>, place: TokenPlace) -> bool
    ensures { result ≡ has_separator 0 (cursor source.entry place).left }
{
    let mut nesting = 0usize;
    let mut at = place.at;
    while at < source.tokens.len() {
        let kind = source.tokens[at].kind;
        if nesting == 0 {
            if separates(kind) {
                return true;
            }
            if closes(kind) {
                return false;
            }
        }
        nesting = nesting_past(kind, nesting);
        at += 1;
    }
    false
}

/// Whether past lengths in brackets a token stands that begins a type, and with which no expression goes on.
fn type_follows(source: SourceTokens<'_>, place: TokenPlace) -> bool
    ensures { result ≡ type_follows 0 (cursor source.entry place).left }
{
    let mut nesting = 0usize;
    let mut at = place.at;
    while at < source.tokens.len() {
        let kind = source.tokens[at].kind;
        if nesting == 0 {
            match kind {
                TokenKind::LeftBracket => if begins_type_at(source, at + 1) {
                    return true;
                },
                _ => return only_begins_type(kind),
            }
        }
        nesting = nesting_past(kind, nesting);
        at += 1;
    }
    false
}

/// Whether a bracket before the token with this index begins a type, and no index.
fn begins_type_at(source: SourceTokens<'_>, at: usize) -> bool
    ensures { result ≡ first_is is_no_index (drop at source.entry.tokens.now) }
{
    match source.tokens.get(at) {
        Some(first) => is_no_index(first.kind),
        None => false,
    }
}

/// Whether by the tokens alone type parameters stand here, at an opening bracket.
#[tactic(auto, unfolding(meaning::specs::TypeParameters::begins_parameters))]
pub fn begins_parameters(source: SourceTokens<'_>, place: TokenPlace) -> bool
    requires { stands LeftBracket (cursor source place) ≡ true }
    ensures { result ≡ begins_parameters (cursor source.entry place).left }
{
    let name = source.behind(place);
    if !source.has_name(name) {
        return false;
    }
    let rest = source.behind(name);
    has_separator(source, rest) || type_follows(source, rest)
}
