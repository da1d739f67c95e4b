//! The tokens of the pieces, with the semicolons that the ends of lines insert
//! (the Go specification, "Semicolons").

ghost use Rattle.std.specs.Prelude.{◌≡◌, ◌++◌, IfOk, OnOk};
ghost use Rattle.lexer.specs.Semicolons.{ends_statement, semicolon, tokens_at, due_after};

use crate::pieces::PieceKind;
use crate::token::{Token, TokenKind};
use std::alloc::AllocError;

/// Whether a semicolon is due where a line ends with a token of this kind.
fn ends_statement(kind: TokenKind) -> bool
    ensures { result ≡ ends_statement kind }
{
    match kind {
        TokenKind::Identifier
        | TokenKind::Number
        | TokenKind::InterpretedString
        | TokenKind::RawString
        | TokenKind::Rune
        | TokenKind::BreakKeyword
        | TokenKind::ContinueKeyword
        | TokenKind::FallthroughKeyword
        | TokenKind::ReturnKeyword
        | TokenKind::Increment
        | TokenKind::Decrement
        | TokenKind::RightParenthesis
        | TokenKind::RightBracket
        | TokenKind::RightBrace => true,
        _ => false,
    }
}

/// Appends the semicolon that is due where a line ends, if one is: at the end of the token before.
pub fn end_line(tokens: &mut Vec<Token>, due: Option<u32>) -> Result<(), AllocError>
    ensures { OnOk result (tokens.new.items ≡ tokens.old.items ++ semicolon due) }
{
    if let Some(end) = due {
        tokens.push(Token {
            kind: TokenKind::Semicolon,
            start: end,
            end,
        })?;
    }
    Ok(())
}

/// Appends what a piece from `start` to `end` adds to the tokens.
/// `due` is the end of a token that wants a semicolon if its line ends; returned is what is due after the piece.
pub fn add_tokens_of(
    tokens: &mut Vec<Token>,
    piece: PieceKind,
    start: u32,
    end: u32,
    due: Option<u32>,
) -> Result<Option<u32>, AllocError>
    ensures tokens { OnOk result (tokens.new.items ≡ tokens.old.items ++ tokens_at piece start end due) }
    ensures due { IfOk result (λ d. d ≡ due_after piece end due) }
{
    match piece {
        PieceKind::TokenOf(kind) => {
            tokens.push(Token { kind, start, end })?;
            if ends_statement(kind) {
                Ok(Some(end))
            } else {
                Ok(None)
            }
        }
        PieceKind::Newline | PieceKind::LineComment | PieceKind::GeneralCommentWithNewline => {
            end_line(tokens, due)?;
            Ok(None)
        }
        PieceKind::WhiteSpace | PieceKind::GeneralComment => Ok(due),
    }
}
