//! Notes below diagnostics, which say why these stand where they stand.

ghost use Rattle.std.specs.Prelude.{◌≡◌, ◌↔◌, [], IsTrue};

use crate::codes::DiagnosticCode;
use crate::diagnostics::Diagnostic;
use lexer::Source;

/// What a note says.
#[derive(Clone, Copy, Debug)]
pub enum NoteText<'a> {
    /// These words.
    Words(&'static str),
    /// A name between words.
    Named(&'static str, &'a str, &'static str),
    /// Another diagnostic, by its code and its name: `CODE NAME TEXT`.
    Finding(DiagnosticCode, &'a str),
}

/// A note: the number of its file among these sources, from 0, the byte offset in it, and what is said of that place.
#[derive(Clone, Copy, Debug)]
pub struct Note<'a> {
    pub sources: &'a [Source],
    pub file: usize,
    pub offset: u32,
    pub text: NoteText<'a>,
}

/// A diagnostic and its notes, in the order in which they are to be read, and where in its file the way goes of which
/// they tell: the byte offsets of its statements, in the order of the text, each once; none where they tell of none.
#[derive(Debug, Drop)]
pub struct ExplainedDiagnostic<'a> {
    pub diagnostic: Diagnostic<'a>,
    pub notes: Vec<Note<'a>>,
    pub way: Vec<u32>,
}

/// What is said of the package of this import path, whose files are the sources, and why.
#[derive(Debug, Drop)]
pub struct ExplainedPackage<'a> {
    pub path: &'a str,
    pub sources: &'a [Source],
    /// The fields in which it keeps cancel functions, which its verdict tells of.
    pub keeping: Vec<&'a str>,
    pub diagnostics: Vec<ExplainedDiagnostic<'a>>,
}

impl ExplainedPackage<'_> {
    /// Whether the package is `yes`: there is nothing to say of it.
    pub fn is_yes(&self) -> bool
        ensures { IsTrue result ↔ (self.now.diagnostics.items ≡ []) }
    {
        self.diagnostics.is_empty()
    }
}
