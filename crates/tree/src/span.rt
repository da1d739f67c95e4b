//! Places in a file, and the names that stand there.

use crate::name_text::NameText;

/// The bytes of a node: the offset of its first byte, and of the byte after its last one.
#[derive(Clone, Copy, Debug, PartialEq, Eq)]
pub struct Span {
    pub start: u32,
    pub end: u32,
}

/// A name that declares nothing (the Go specification, "Blank identifier").
pub const BLANK: &str = "_";

/// A name as it is written in one place (the Go specification, "Identifiers").
#[derive(Drop)]
pub struct Identifier {
    pub text: NameText,
    pub span: Span,
}

/// The name of a type, perhaps of another package's: `name` or `package.name` (the Go specification, "Type
/// identifiers", "Qualified identifiers").
#[derive(Drop)]
pub struct TypeName {
    pub package: Option<Identifier>,
    pub name: Identifier,
    pub span: Span,
}
