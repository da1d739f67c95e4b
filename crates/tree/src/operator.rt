//! Operators, and what else a node's kind has besides its parts (the Go specification, "Operators", "Literals",
//! "Channel types", "Declarations and scope").

/// An operator between two operands. The operators of one group bind alike, and each group binds tighter than
/// the one before it.
#[derive(Clone, Copy, Debug, PartialEq, Eq)]
pub enum BinaryOperator {
    LogicalOr,

    LogicalAnd,

    Equal,
    NotEqual,
    Less,
    LessOrEqual,
    Greater,
    GreaterOrEqual,

    Add,
    Subtract,
    Or,
    Xor,

    Multiply,
    Divide,
    Remainder,
    ShiftLeft,
    ShiftRight,
    And,
    AndNot,
}

/// An operator before its operand, but for `*`, which stands before types too.
#[derive(Clone, Copy, Debug, PartialEq, Eq)]
pub enum UnaryOperator {
    /// `+`
    Plus,
    /// `-`
    Negate,
    /// `!`
    Not,
    /// `^`
    Complement,
    /// `&`
    Address,
    /// `<-`
    Receive,
    /// `~`, among the terms of a constraint.
    Tilde,
}

/// What a literal of one token is.
#[derive(Clone, Copy, Debug, PartialEq, Eq)]
pub enum BasicLitKind {
    Number,
    Rune,
    InterpretedString,
    RawString,
}

/// The directions of a channel type: `chan T`, `chan<- T` and `<-chan T`.
#[derive(Clone, Copy, Debug, PartialEq, Eq)]
pub enum ChanDirection {
    Both,
    Send,
    Receive,
}

/// The word that a declaration begins with.
#[derive(Clone, Copy, Debug, PartialEq, Eq)]
pub enum DeclKeyword {
    Const,
    Var,
    Type,
}
