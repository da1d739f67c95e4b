//! The tree of a whole text.

ghost use Rattle.lexer.specs.Tokens.{IsTokens};
ghost use Rattle.parser.specs.Parsed.{IsParsed};

use crate::fault::ParseFault;
use crate::files::file;
use crate::node::{node, statement_node};
use lexer::Token;
use meaning::MOST_DEPTH;
use parser_base::cursor::{SourceTokens, TokenPlace};
use parser_base::parts::Wanted;
use std::alloc::Global;
use tree::{Edition, File};

/// The tree of a text as an edition reads it, from the tokens that `lexer::lex` gives.
///
/// # Errors
///
/// The first place where the tokens go on as no file does, or where a form stands that is left out; a tree that is
/// deeper than `MOST_DEPTH`; `OutOfMemory` where the tree finds no memory.
pub fn parse(
    alloc: Global,
    edition: Edition,
    text: &[u8],
    tokens: &[Token],
) -> Result<File, ParseFault>
    requires { IsTokens text.now tokens.now }
    ensures { IsParsed edition text.now result }
{
    let source = SourceTokens {
        alloc,
        edition,
        text,
        tokens,
        below: MOST_DEPTH,
    };
    let parts = |wanted: Wanted, place: TokenPlace| node(source, wanted, place);
    let statements = |place: TokenPlace| statement_node(source, place);
    match file(source, &parts, &statements, TokenPlace { at: 0, end: 0 }) {
        Ok((tree, _)) => Ok(tree),
        Err(fault) => Err(fault),
    }
}
