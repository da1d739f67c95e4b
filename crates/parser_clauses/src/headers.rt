//! Headers of `if` and `switch` (the Go specification, "If statements", "Switch statements").

ghost use Rattle.std.specs.Prelude.{◌≡◌};
ghost use Rattle.parser_base.specs.Gives.{Gives};
ghost use Rattle.parser_base.specs.Parts.{ReadsExpressions};
ghost use Rattle.parser_base.specs.Places.{cursor, seen, parts_of, go_text};
ghost use Rattle.parser_clauses.specs.Headers.{header_syntax};
ghost use Rattle.tree_reader.specs.Reader.{read_header};

use crate::simple::{as_part, simple};
use lexer::TokenKind;
use parser_base::cursor::{Read, SourceTokens, TokenPlace};
use parser_base::parts::Wanted;
use tree::{Expr, Stmt};

/// What was read of a header: a statement and its semicolon, or what stands there without one.
pub struct Header {
    pub init: Option<Box<Stmt>>,
    pub has_semicolon: bool,
    pub first: Option<Stmt>,
}

/// The first part of a header.
///
/// # Errors
///
/// Where another token stands, where it is too deep, and out of memory.
#[tactic(auto, unfolding(tree_reader::specs::Reader::read_header))]
pub fn read_header<F: Fn(Wanted, TokenPlace) -> Read<Expr>>(
    source: SourceTokens<'_>,
    parts: &F,
    place: TokenPlace,
) -> Read<Header>
    requires { ReadsExpressions source (F.pre parts.now) (F.post parts.now) }
    ensures { Gives (seen source.entry header_syntax) result (read_header (go_text source.entry) (parts_of source.entry)
        source.entry.below (cursor source.entry place)) }
{
    if source.stands(place, TokenKind::Semicolon) {
        let header = Header {
            init: None,
            has_semicolon: true,
            first: None,
        };
        return Ok((header, source.behind_semicolon(place)));
    }
    let (first, rest) = simple(source, parts, true, place)?;
    if source.stands(rest, TokenKind::Semicolon) {
        let init = as_part(source, first)?;
        let header = Header {
            init,
            has_semicolon: true,
            first: None,
        };
        return Ok((header, source.behind_semicolon(rest)));
    }
    let header = Header {
        init: None,
        has_semicolon: false,
        first: Some(first),
    };
    Ok((header, rest))
}
