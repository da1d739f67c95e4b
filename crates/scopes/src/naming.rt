//! A name as it stands in a file.

use tree::{DeclKeyword, Span};

/// Where a name that a function declares can be meant: in the rest of a block.
#[derive(Clone, Copy)]
pub struct Scope {
    /// The bytes of the block.
    pub block: Span,
    /// The offset at which the scope begins.
    pub from: u32,
}

/// A name as it is written in one place.
#[derive(Clone, Copy)]
pub struct BareName<'a> {
    pub text: &'a str,
    /// The bytes of the name.
    pub span: Span,
}

/// A name that a function declares.
#[derive(Clone, Copy)]
pub struct LocalName<'a> {
    pub name: &'a str,
    /// The offset of the name that declares it; in a clause of a type switch, that of the clause's keyword.
    pub number: u32,
    /// A constant, a variable or a type.
    pub kind: DeclKeyword,
    /// The bytes of the block that it is declared in.
    pub block: Span,
    /// The offset at which its scope begins.
    pub from: u32,
    /// Whether `:=` declares it, which assigns where the block has declared the name before.
    pub is_short: bool,
}

/// A name in a text.
#[derive(Clone, Copy)]
pub enum Naming<'a> {
    /// A use, with the offset at which it begins.
    Use(&'a str, u32),
    /// A declaration in a function.
    Declaration(LocalName<'a>),
}
