//! Operators and punctuation (the Go specification, "Operators and punctuation").

ghost use Rattle.std.specs.Prelude.{◌≡◌};
ghost use Rattle.lexer.specs.Dispatch.{maybe_assign, maybe_doubled, maybe_third, less_operator, greater_operator, ampersand_operator, dot_operator, operator_of};

use crate::pieces::{Piece, token_piece};
use crate::token::TokenKind;

/// One operator `alone`, or `assigning` where `=` follows.
fn maybe_assign(next: u8, alone: TokenKind, assigning: TokenKind) -> Piece
    ensures { result ≡ maybe_assign next alone assigning }
{
    if next == b'=' {
        token_piece(assigning, 2)
    } else {
        token_piece(alone, 1)
    }
}

/// As `maybe_assign`, or `doubled` where the byte `twin` follows.
fn maybe_doubled(
    next: u8,
    twin: u8,
    alone: TokenKind,
    assigning: TokenKind,
    doubled: TokenKind,
) -> Piece
    ensures { result ≡ maybe_doubled next twin alone assigning doubled }
{
    if next == twin {
        token_piece(doubled, 2)
    } else {
        maybe_assign(next, alone, assigning)
    }
}

/// One operator `alone` of two bytes, or `assigning` where `=` is the third.
fn maybe_third(third: u8, alone: TokenKind, assigning: TokenKind) -> Piece
    ensures { result ≡ maybe_third third alone assigning }
{
    if third == b'=' {
        token_piece(assigning, 3)
    } else {
        token_piece(alone, 2)
    }
}

/// `<`, `<=`, `<-`, `<<` or `<<=`, where `<` is the first byte.
fn less_operator(second: u8, third: u8) -> Piece
    ensures { result ≡ less_operator second third }
{
    if second == b'<' {
        maybe_third(third, TokenKind::ShiftLeft, TokenKind::ShiftLeftAssign)
    } else {
        maybe_doubled(
            second,
            b'-',
            TokenKind::LessThan,
            TokenKind::LessOrEqual,
            TokenKind::Arrow,
        )
    }
}

/// `>`, `>=`, `>>` or `>>=`, where `>` is the first byte.
fn greater_operator(second: u8, third: u8) -> Piece
    ensures { result ≡ greater_operator second third }
{
    if second == b'>' {
        maybe_third(third, TokenKind::ShiftRight, TokenKind::ShiftRightAssign)
    } else {
        maybe_assign(second, TokenKind::GreaterThan, TokenKind::GreaterOrEqual)
    }
}

/// `&`, `&=`, `&&`, `&^` or `&^=`, where `&` is the first byte.
fn ampersand_operator(second: u8, third: u8) -> Piece
    ensures { result ≡ ampersand_operator second third }
{
    if second == b'^' {
        maybe_third(third, TokenKind::AndNot, TokenKind::AndNotAssign)
    } else {
        maybe_doubled(
            second,
            b'&',
            TokenKind::Ampersand,
            TokenKind::AmpersandAssign,
            TokenKind::LogicalAnd,
        )
    }
}

/// `.` or `...`, where `.` is the first byte.
fn dot_operator(second: u8, third: u8) -> Piece
    ensures { result ≡ dot_operator second third }
{
    if second == b'.' && third == b'.' {
        token_piece(TokenKind::Ellipsis, 3)
    } else {
        token_piece(TokenKind::Dot, 1)
    }
}

/// The longest operator that begins with these three bytes (0 where the text has ended),
/// or `None` where none does.
#[tactic(auto, unfolding(crate::specs::Dispatch::operator_of))]
pub fn operator(first: u8, second: u8, third: u8) -> Option<Piece>
    ensures { result ≡ operator_of first second third }
{
    match first {
        b'+' => Some(maybe_doubled(
            second,
            b'+',
            TokenKind::Plus,
            TokenKind::PlusAssign,
            TokenKind::Increment,
        )),
        b'-' => Some(maybe_doubled(
            second,
            b'-',
            TokenKind::Minus,
            TokenKind::MinusAssign,
            TokenKind::Decrement,
        )),
        b'*' => Some(maybe_assign(second, TokenKind::Star, TokenKind::StarAssign)),
        b'/' => Some(maybe_assign(second, TokenKind::Slash, TokenKind::SlashAssign)),
        b'%' => Some(maybe_assign(second, TokenKind::Percent, TokenKind::PercentAssign)),
        b'&' => Some(ampersand_operator(second, third)),
        b'|' => Some(maybe_doubled(
            second,
            b'|',
            TokenKind::Pipe,
            TokenKind::PipeAssign,
            TokenKind::LogicalOr,
        )),
        b'^' => Some(maybe_assign(second, TokenKind::Caret, TokenKind::CaretAssign)),
        b'<' => Some(less_operator(second, third)),
        b'>' => Some(greater_operator(second, third)),
        b'=' => Some(maybe_assign(second, TokenKind::Assign, TokenKind::EqualEqual)),
        b'!' => Some(maybe_assign(second, TokenKind::Bang, TokenKind::NotEqual)),
        b':' => Some(maybe_assign(second, TokenKind::Colon, TokenKind::Define)),
        b'.' => Some(dot_operator(second, third)),
        b'~' => Some(token_piece(TokenKind::Tilde, 1)),
        b'(' => Some(token_piece(TokenKind::LeftParenthesis, 1)),
        b')' => Some(token_piece(TokenKind::RightParenthesis, 1)),
        b'[' => Some(token_piece(TokenKind::LeftBracket, 1)),
        b']' => Some(token_piece(TokenKind::RightBracket, 1)),
        b'{' => Some(token_piece(TokenKind::LeftBrace, 1)),
        b'}' => Some(token_piece(TokenKind::RightBrace, 1)),
        b',' => Some(token_piece(TokenKind::Comma, 1)),
        b';' => Some(token_piece(TokenKind::Semicolon, 1)),
        _ => None,
    }
}
