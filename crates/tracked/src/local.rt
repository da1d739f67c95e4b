//! What is known of a local.

use facts::TrackedType;

/// How a local is declared.
#[derive(Clone, Copy)]
pub enum LocalRole {
    /// A parameter, with its position.
    Parameter(usize),
    Receiver,
    Variadic,
    Result,
    InBlock,
}

/// A local of a file.
#[derive(Clone, Copy)]
pub struct Local<'a> {
    pub number: u32,
    pub name: &'a str,
    /// The offset of the name that declares it.
    pub at: u32,
    pub role: LocalRole,
    /// The type that it is declared with, if that is tracked.
    pub typed: Option<TrackedType>,
    /// The body that declares it, by the offset of its `func`.
    pub body: u32,
}

/// A local, and what the marks of the file do to it.
#[derive(Clone, Copy)]
pub struct SeenLocal<'a> {
    pub local: Local<'a>,
    /// Some row obtains it.
    pub is_obtained: bool,
    /// Some row makes it.
    pub is_made: bool,
    /// Some literal in the body that declares it mentions it.
    pub is_in_literal: bool,
}
