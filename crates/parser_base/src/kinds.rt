//! What kinds of tokens stand for.

ghost use Rattle.std.specs.Prelude.{◌≡◌};
ghost use Rattle.meaning.specs.Cursor.{is_closing};
ghost use Rattle.meaning.specs.OperatorTokens.{can_begin_type};
ghost use Rattle.meaning.specs.TypeParameters.{separates, closes, only_begins_type, is_no_index, is_identifier};
ghost use Rattle.meaning.specs.WellFormed.{operator_level};
ghost use Rattle.tree_reader.specs.Reader.{unary_operator, binary_operator, assigning_operator, literal_kind, declaration_keyword, is_string, is_end, ends_statements, follows_embedded, joins_terms};

use lexer::TokenKind;
use tree::{BasicLitKind, BinaryOperator, DeclKeyword, UnaryOperator};

/// The operator that stands before an operand.
pub fn unary_operator(kind: TokenKind) -> Option<UnaryOperator>
    ensures { result ≡ unary_operator kind }
{
    match kind {
        TokenKind::Plus => Some(UnaryOperator::Plus),
        TokenKind::Minus => Some(UnaryOperator::Negate),
        TokenKind::Bang => Some(UnaryOperator::Not),
        TokenKind::Caret => Some(UnaryOperator::Complement),
        TokenKind::Ampersand => Some(UnaryOperator::Address),
        TokenKind::Arrow => Some(UnaryOperator::Receive),
        _ => None,
    }
}

/// The operator that stands between two operands.
pub fn binary_operator(kind: TokenKind) -> Option<BinaryOperator>
    ensures { result ≡ binary_operator kind }
{
    match kind {
        TokenKind::LogicalOr => Some(BinaryOperator::LogicalOr),
        TokenKind::LogicalAnd => Some(BinaryOperator::LogicalAnd),
        TokenKind::EqualEqual => Some(BinaryOperator::Equal),
        TokenKind::NotEqual => Some(BinaryOperator::NotEqual),
        TokenKind::LessThan => Some(BinaryOperator::Less),
        TokenKind::LessOrEqual => Some(BinaryOperator::LessOrEqual),
        TokenKind::GreaterThan => Some(BinaryOperator::Greater),
        TokenKind::GreaterOrEqual => Some(BinaryOperator::GreaterOrEqual),
        TokenKind::Plus => Some(BinaryOperator::Add),
        TokenKind::Minus => Some(BinaryOperator::Subtract),
        TokenKind::Pipe => Some(BinaryOperator::Or),
        TokenKind::Caret => Some(BinaryOperator::Xor),
        TokenKind::Star => Some(BinaryOperator::Multiply),
        TokenKind::Slash => Some(BinaryOperator::Divide),
        TokenKind::Percent => Some(BinaryOperator::Remainder),
        TokenKind::ShiftLeft => Some(BinaryOperator::ShiftLeft),
        TokenKind::ShiftRight => Some(BinaryOperator::ShiftRight),
        TokenKind::Ampersand => Some(BinaryOperator::And),
        TokenKind::AndNot => Some(BinaryOperator::AndNot),
        _ => None,
    }
}

/// The level of a unary expression, above those of all operators between two operands.
pub const UNARY_LEVEL: u32 = 6;

/// The level of a primary expression, above all others.
pub const PRIMARY_LEVEL: u32 = 7;

/// How tight an operator between two operands binds.
pub fn operator_level(operator: BinaryOperator) -> u32
    ensures { result ≡ operator_level operator }
{
    match operator {
        BinaryOperator::LogicalOr => 1,
        BinaryOperator::LogicalAnd => 2,
        BinaryOperator::Equal
        | BinaryOperator::NotEqual
        | BinaryOperator::Less
        | BinaryOperator::LessOrEqual
        | BinaryOperator::Greater
        | BinaryOperator::GreaterOrEqual => 3,
        BinaryOperator::Add | BinaryOperator::Subtract | BinaryOperator::Or | BinaryOperator::Xor =>
            4,
        _ => 5,
    }
}

/// The operator of an assignment such as `+=`.
pub fn assigning_operator(kind: TokenKind) -> Option<BinaryOperator>
    ensures { result ≡ assigning_operator kind }
{
    match kind {
        TokenKind::PlusAssign => Some(BinaryOperator::Add),
        TokenKind::MinusAssign => Some(BinaryOperator::Subtract),
        TokenKind::PipeAssign => Some(BinaryOperator::Or),
        TokenKind::CaretAssign => Some(BinaryOperator::Xor),
        TokenKind::StarAssign => Some(BinaryOperator::Multiply),
        TokenKind::SlashAssign => Some(BinaryOperator::Divide),
        TokenKind::PercentAssign => Some(BinaryOperator::Remainder),
        TokenKind::ShiftLeftAssign => Some(BinaryOperator::ShiftLeft),
        TokenKind::ShiftRightAssign => Some(BinaryOperator::ShiftRight),
        TokenKind::AmpersandAssign => Some(BinaryOperator::And),
        TokenKind::AndNotAssign => Some(BinaryOperator::AndNot),
        _ => None,
    }
}

/// The literal that is one token.
pub fn literal_kind(kind: TokenKind) -> Option<BasicLitKind>
    ensures { result ≡ literal_kind kind }
{
    match kind {
        TokenKind::Number => Some(BasicLitKind::Number),
        TokenKind::Rune => Some(BasicLitKind::Rune),
        TokenKind::InterpretedString => Some(BasicLitKind::InterpretedString),
        TokenKind::RawString => Some(BasicLitKind::RawString),
        _ => None,
    }
}

/// The word that a declaration begins with.
pub fn declaration_keyword(kind: TokenKind) -> Option<DeclKeyword>
    ensures { result ≡ declaration_keyword kind }
{
    match kind {
        TokenKind::ConstKeyword => Some(DeclKeyword::Const),
        TokenKind::VarKeyword => Some(DeclKeyword::Var),
        TokenKind::TypeKeyword => Some(DeclKeyword::Type),
        _ => None,
    }
}

/// Whether a type can begin with such a token.
pub fn can_begin_type(kind: TokenKind) -> bool
    ensures { result ≡ can_begin_type kind }
{
    matches!(
        kind,
        TokenKind::Identifier
            | TokenKind::Star
            | TokenKind::LeftParenthesis
            | TokenKind::LeftBracket
            | TokenKind::MapKeyword
            | TokenKind::ChanKeyword
            | TokenKind::Arrow
            | TokenKind::FuncKeyword
            | TokenKind::StructKeyword
            | TokenKind::InterfaceKeyword
    )
}

/// Whether it is a string's token.
pub fn is_string(kind: TokenKind) -> bool
    ensures { result ≡ is_string kind }
{
    matches!(kind, TokenKind::InterpretedString | TokenKind::RawString)
}

/// Whether a statement that could go on with an expression ends before such a token.
pub fn is_end(kind: TokenKind) -> bool
    ensures { result ≡ is_end kind }
{
    matches!(
        kind,
        TokenKind::Semicolon | TokenKind::RightParenthesis | TokenKind::RightBrace
    )
}

/// Whether the statements of a block or a clause end before such a token.
pub fn ends_statements(kind: TokenKind) -> bool
    ensures { result ≡ ends_statements kind }
{
    matches!(
        kind,
        TokenKind::RightBrace | TokenKind::CaseKeyword | TokenKind::DefaultKeyword
    )
}

/// Whether such a token can follow the name of an embedded type.
pub fn follows_embedded(kind: TokenKind) -> bool
    ensures { result ≡ follows_embedded kind }
{
    matches!(
        kind,
        TokenKind::Dot
            | TokenKind::Semicolon
            | TokenKind::RightParenthesis
            | TokenKind::RightBrace
            | TokenKind::InterpretedString
            | TokenKind::RawString
    )
}

/// Whether a semicolon may be missing before such a token.
pub fn is_closing(kind: TokenKind) -> bool
    ensures { result ≡ is_closing kind }
{
    matches!(kind, TokenKind::RightParenthesis | TokenKind::RightBrace)
}

/// Whether it is a name's token.
pub fn is_identifier(kind: TokenKind) -> bool
    ensures { result ≡ is_identifier kind }
{
    matches!(kind, TokenKind::Identifier)
}

/// Whether a bracket before such a token begins a type, and no index.
pub fn is_no_index(kind: TokenKind) -> bool
    ensures { result ≡ is_no_index kind }
{
    matches!(kind, TokenKind::RightBracket | TokenKind::Ellipsis)
}

/// Whether a constraint goes on with such a token behind a type's name.
pub fn joins_terms(kind: TokenKind) -> bool
    ensures { result ≡ joins_terms kind }
{
    matches!(kind, TokenKind::LeftBracket | TokenKind::Pipe)
}

/// Whether no expression has such a token outside all brackets, but type parameters do.
pub fn separates(kind: TokenKind) -> bool
    ensures { result ≡ separates kind }
{
    matches!(kind, TokenKind::Comma | TokenKind::Tilde)
}

/// Whether it closes a bracket or a brace.
pub fn closes(kind: TokenKind) -> bool
    ensures { result ≡ closes kind }
{
    matches!(
        kind,
        TokenKind::RightParenthesis | TokenKind::RightBracket | TokenKind::RightBrace
    )
}

/// Whether a type can begin with such a token, and no expression goes on with it.
pub fn only_begins_type(kind: TokenKind) -> bool
    ensures { result ≡ only_begins_type kind }
{
    matches!(
        kind,
        TokenKind::Identifier
            | TokenKind::ChanKeyword
            | TokenKind::FuncKeyword
            | TokenKind::InterfaceKeyword
            | TokenKind::MapKeyword
            | TokenKind::StructKeyword
            | TokenKind::Arrow
    )
}
