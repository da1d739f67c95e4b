//! Which words are keywords (the Go specification, "Keywords").

ghost use Rattle.std.specs.Prelude.{◌≡◌, map};
ghost use Rattle.lexer.specs.Spelling.{keywords};
ghost use Rattle.lexer.specs.Dispatch.{kind_in, keyword_of};

use crate::pieces::byte_at;
use crate::token::TokenKind;

/// The keywords in the order of the alphabet, each with its kind.
pub static KEYWORDS: [(&[u8], TokenKind); 25] = [
    (b"break", TokenKind::BreakKeyword),
    (b"case", TokenKind::CaseKeyword),
    (b"chan", TokenKind::ChanKeyword),
    (b"const", TokenKind::ConstKeyword),
    (b"continue", TokenKind::ContinueKeyword),
    (b"default", TokenKind::DefaultKeyword),
    (b"defer", TokenKind::DeferKeyword),
    (b"else", TokenKind::ElseKeyword),
    (b"fallthrough", TokenKind::FallthroughKeyword),
    (b"for", TokenKind::ForKeyword),
    (b"func", TokenKind::FuncKeyword),
    (b"go", TokenKind::GoKeyword),
    (b"goto", TokenKind::GotoKeyword),
    (b"if", TokenKind::IfKeyword),
    (b"import", TokenKind::ImportKeyword),
    (b"interface", TokenKind::InterfaceKeyword),
    (b"map", TokenKind::MapKeyword),
    (b"package", TokenKind::PackageKeyword),
    (b"range", TokenKind::RangeKeyword),
    (b"return", TokenKind::ReturnKeyword),
    (b"select", TokenKind::SelectKeyword),
    (b"struct", TokenKind::StructKeyword),
    (b"switch", TokenKind::SwitchKeyword),
    (b"type", TokenKind::TypeKeyword),
    (b"var", TokenKind::VarKeyword),
];

/// Where the keywords of each letter begin among them, from `a` to `z`, and at last where those of `z` end.
static STARTS: [usize; 27] = [
    0, 0, 1, 5, 7, 8, 11, 13, 13, 16, 16, 16, 16, 17, 17, 17, 18, 18, 20, 23, 24, 24, 25, 25, 25,
    25, 25,
];

/// The table.
fn keywords() -> &'static [(&'static [u8], TokenKind)]
    ensures { map (λ row. (row.0.now, row.1)) result.now ≡ keywords }
{
    &KEYWORDS
}

/// The kind of a word: that of the row that spells it, or an identifier.
fn kind_in(mut rows: &[(&[u8], TokenKind)], word: &[u8]) -> TokenKind
    ensures { result ≡ kind_in (map (λ row. (row.0.now, row.1)) rows.entry.now) word.now }
{
    while let [row, others @ ..] = rows {
        if row.0 == word {
            return row.1;
        }
        rows = others;
    }
    TokenKind::Identifier
}

/// The keyword that the word is, or an identifier. Only those of its first letter are compared.
pub fn word_kind(word: &[u8]) -> TokenKind
    ensures { result ≡ keyword_of word.now }
{
    let first = byte_at(word, 0);
    if !first.is_ascii_lowercase() {
        return TokenKind::Identifier;
    }
    let letter = (first - b'a') as usize;
    let (_, rest) = keywords().split_at(STARTS[letter]);
    let (rows, _) = rest.split_at(STARTS[letter + 1] - STARTS[letter]);
    kind_in(rows, word)
}
