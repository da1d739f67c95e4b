//! Findings, their order, and what is said of one package.

ghost use Rattle.std.specs.Prelude.{◌≡◌, ◌↔◌, ℕ, List, [], map, Contains, IsTrue};
ghost use Rattle.std.specs.List.{AllPairs};
ghost use Rattle.report.specs.Entries.{Entry, entry_of, Precedes, texts_of, TextPrecedes};

use crate::codes::DiagnosticCode;
use lexer::Source;

/// One finding: the number of its file from 0, the byte offset in it, what it says, and of which name (`-` where it
/// speaks of none). Diagnostics are ordered by these, in this order.
#[derive(Clone, Copy, Debug, PartialEq, Eq, PartialOrd, Ord)]
pub struct Diagnostic<'a> {
    pub file: usize,
    pub offset: u32,
    pub code: DiagnosticCode,
    pub name: &'a str,
}

/// The diagnostics in their order, each once, however often it was found.
pub fn in_order<'a>(diagnostics: Vec<Diagnostic<'a>>) -> Vec<Diagnostic<'a>>
    ensures sorted { AllPairs Precedes (map entry_of result.items) }
    ensures same { (x : Entry)
        → Contains (map entry_of result.items) x ↔ Contains (map entry_of diagnostics.entry.items) x }
{
    let mut ordered = diagnostics;
    ordered.sort_unstable();
    ordered.dedup();
    ordered
}

/// The names in the order of their bytes, each once.
pub fn names_in_order<'a>(names: Vec<&'a str>) -> Vec<&'a str>
    ensures sorted { AllPairs TextPrecedes (texts_of result.items) }
    ensures same { (name : List ℕ)
        → Contains (texts_of result.items) name ↔ Contains (texts_of names.entry.items) name }
{
    let mut each = names;
    each.sort_unstable();
    each.dedup();
    each
}

/// What is said of the package of this import path, whose files are the sources.
#[derive(Debug, Drop)]
pub struct PackageReport<'a> {
    pub path: &'a str,
    pub sources: &'a [Source],
    /// The fields in which it keeps cancel functions, which its verdict tells of.
    pub keeping: Vec<&'a str>,
    pub diagnostics: Vec<Diagnostic<'a>>,
}

impl PackageReport<'_> {
    /// Whether the package is `yes`: there is nothing to say of it.
    pub fn is_yes(&self) -> bool
        ensures { IsTrue result ↔ (self.now.diagnostics.items ≡ []) }
    {
        self.diagnostics.is_empty()
    }
}
