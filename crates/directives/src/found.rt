//! The directives of a text.

ghost use Rattle.std.specs.Prelude.{◌≡◌, ◌+◌, ◌≤◌, ◌++◌, [], IfOk, OnOk, length, map, option_map};
ghost use Rattle.std.specs.List.{cons_option};
ghost use Rattle.directives.specs.Directives.{directive_at, directive_on, directive_view, directives_of};
ghost use Rattle.directives.specs.Marks.{mark};

use crate::form::accepted;
use crate::place::{MARK, are_blank, place_in};
use memchr::memchr;
use memchr::memmem::Finder;
use std::alloc::{AllocError, Global};

/// The codes and the reason of a directive in its form.
#[derive(Clone, Copy, Debug)]
pub struct Accepts<'a> {
    /// The codes with single commas between them, as `LC05,LC07`.
    pub codes: &'a [u8],
    /// Why they are accepted: a text that is not empty, without white space at its two ends.
    pub reason: &'a [u8],
}

/// A directive `//ctxvet:accept`.
#[derive(Clone, Copy, Debug)]
pub struct Directive<'a> {
    /// The line on which it stands, from 1.
    pub line: usize,
    /// The offset of its first byte in the text, in bytes from 0.
    pub offset: usize,
    /// Whether nothing but blanks and tabs stands before it on its line.
    pub is_alone: bool,
    /// What it accepts: nothing, where it is not in its form.
    pub accepts: Option<Accepts<'a>>,
}

/// All directives of a text, in their order, at most one a line.
///
/// # Errors
///
/// Memory was refused.
pub fn directives_in<'a>(alloc: Global, text: &'a [u8]) -> Result<Vec<Directive<'a>>, AllocError>
    ensures { IfOk result (λ found. map directive_view found.items ≡ directives_of text.now) }
{
    let finder = Finder::new(MARK);
    match finder.find(text) {
        Some(_) => directives_by_line(alloc, &finder, text),
        None => Ok(Vec::new(alloc)),
    }
}

/// The same, line by line.
fn directives_by_line<'a>(
    alloc: Global,
    finder: &Finder<'_>,
    text: &'a [u8],
) -> Result<Vec<Directive<'a>>, AllocError>
    requires { finder.now ≡ mark }
    ensures { IfOk result (λ found. map directive_view found.items ≡ directives_of text.now) }
{
    let mut found = Vec::new(alloc);
    let mut rest = text;
    let mut number = 1;
    let mut start = 0;
    'lines: while let Some(end) = memchr(b'\n', rest) {
        let (line, _) = rest.split_at(end);
        add(&mut found, directive_on(finder, number, start, line))?;
        let (_, after) = rest.split_at(end + 1);
        rest = after;
        number += 1;
        start += end + 1;
    }
    add(&mut found, directive_on(finder, number, start, rest))?;
    Ok(found)
}

/// Adds a directive, if there is one.
fn add<'a>(found: &mut Vec<Directive<'a>>, one: Option<Directive<'a>>) -> Result<(), AllocError>
    ensures { OnOk result (map directive_view found.new.items
        ≡ map directive_view found.old.items ++ cons_option (option_map directive_view one.entry) []) }
{
    if let Some(directive) = one {
        found.push(directive)?;
    }
    Ok(())
}

/// The directive of a line that has this number and begins at this offset, if it has one.
fn directive_on<'a>(
    finder: &Finder<'_>,
    number: usize,
    start: usize,
    line: &'a [u8],
) -> Option<Directive<'a>>
    requires finder { finder.now ≡ mark }
    requires fits { start + length line.now ≤ usize.MAX }
    ensures { option_map directive_view result ≡ directive_on number start line.now }
{
    let place = place_in(finder, line)?;
    Some(directive_at(number, start, line, place))
}

/// The directive at a place of such a line.
fn directive_at<'a>(number: usize, start: usize, line: &'a [u8], place: usize) -> Directive<'a>
    requires fits { place + length mark ≤ length line.now }
    requires offset { start + length line.now ≤ usize.MAX }
    ensures { directive_view result ≡ directive_at number start line.now place }
{
    let (before, _) = line.split_at(place);
    let (_, behind) = line.split_at(place + MARK.len());
    Directive {
        line: number,
        offset: start + place,
        is_alone: are_blank(before),
        accepts: accepted(behind),
    }
}
