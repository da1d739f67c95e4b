//! The directives of sources by their lines.

ghost use Rattle.std.specs.Prelude.{◌≡◌, ℕ, IfOk, OnOk, None, IsTrue, map, option_map};
ghost use Rattle.std.specs.Option.{option_or};
ghost use Rattle.directives.specs.Directives.{directive_view};
ghost use Rattle.accepting.specs.ByLines.{all_directives, in_source, on_line};
ghost use Rattle.accepting.specs.LinesKept.{lines_of, line_or};

use directives::{Directive, directives_in};
use indexmap::IndexMap;
use lexer::Source;
use std::alloc::{AllocError, Global};

/// A line of a source: the source's number from 0, and the line's from 1.
#[derive(Clone, Copy, PartialEq, Eq, Hash)]
pub(crate) struct SourceLine {
    pub(crate) file: usize,
    pub(crate) line: usize,
}

/// The directives of sources, of each line the first one.
#[derive(Drop)]
pub(crate) struct DirectiveLines<'a> {
    directives: IndexMap<SourceLine, Directive<'a>>,
}

impl<'a> DirectiveLines<'a> {
    /// Whether there is no directive.
    pub(crate) fn is_empty(&self) -> bool
        ensures { IsTrue result → (file line : ℕ) → lines_of self.now file line ≡ None }
    {
        self.directives.is_empty()
    }

    /// The directive on a line, if there is one.
    pub(crate) fn on_line(&self, file: usize, line: usize) -> Option<Directive<'a>>
        ensures { option_map directive_view result ≡ lines_of self.now file line }
    {
        self.directives.get(&SourceLine { file, line }).copied()
    }

    /// Adds a directive of a source, unless one stands on its line.
    fn add(&mut self, file: usize, directive: Directive<'a>) -> Result<(), AllocError>
        ensures { OnOk result ((other line : ℕ) → lines_of self.new other line
            ≡ option_or (lines_of self.old other line)
            (line_or (in_source file (directive_view directive.entry)) other line None)) }
    {
        let line = SourceLine {
            file,
            line: directive.line,
        };
        if !self.directives.contains_key(&line) {
            self.directives.insert(line, directive)?;
        }
        Ok(())
    }

    /// Adds the directives of a source.
    fn add_all(&mut self, file: usize, directives: &[Directive<'a>]) -> Result<(), AllocError>
        ensures { OnOk result ((other line : ℕ) → lines_of self.new other line
            ≡ option_or (lines_of self.old other line)
            (on_line (map (in_source file) (map directive_view directives.now)) other line)) }
    {
        for directive in directives {
            self.add(file, *directive)?;
        }
        Ok(())
    }
}

/// The directives of these sources.
///
/// # Errors
///
/// Memory was refused.
pub(crate) fn directive_lines<'a>(
    alloc: Global,
    sources: &'a [Source],
) -> Result<DirectiveLines<'a>, AllocError>
    ensures { IfOk result (λ lines. (file line : ℕ) → lines_of lines file line
        ≡ on_line (all_directives sources.now) file line) }
{
    let mut lines = DirectiveLines {
        directives: IndexMap::new(alloc),
    };
    for (file, source) in sources.iter().enumerate() {
        let found = directives_in(alloc, &source.bytes)?;
        lines.add_all(file, &found)?;
    }
    Ok(lines)
}
