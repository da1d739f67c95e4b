//! Where the names of findings end, and what stands behind a place.

ghost use Rattle.std.specs.Prelude.{◌≡◌, ◌++◌, drop, slice_get};
ghost use Rattle.report.specs.Entries.{entry_of};
ghost use Rattle.report.specs.ReportText.{bytes_of};
ghost use Rattle.format_parts.specs.NameEnds.{name_before, name_end, name_stands, told_end};

use function_spans::begins_with;
use lexer::{Place, Source};
use report::{Diagnostic, Wording};

/// Where something stands: its place, and where it ends, if that is told.
#[derive(Clone, Copy)]
pub struct Region {
    pub start: Place,
    pub end: Option<Place>,
}

/// The offset behind the name of a diagnostic, where the name stands at its place. By the first edition of the rules
/// there is none.
pub fn told_end<'a>(
    wording: Wording,
    sources: &'a [Source],
    diagnostic: &'a Diagnostic<'a>,
) -> Option<usize>
    ensures { result ≡ told_end wording (slice_get sources.now diagnostic.now.file) (entry_of diagnostic.now) }
{
    match wording {
        Wording::First => None,
        Wording::Second => {
            let text = bytes_of(sources, diagnostic.file);
            name_end(diagnostic.name, text, diagnostic.offset)
        }
    }
}

/// The bytes of a source; none where it is not there.
pub fn bytes_of(sources: &[Source], file: usize) -> &[u8]
    ensures { result.now ≡ bytes_of (slice_get sources.now file) }
{
    match sources.get(file) {
        Some(source) => &source.bytes,
        None => &[],
    }
}

/// What stands behind so many bytes of a text.
pub fn behind(text: &[u8], count: usize) -> &[u8]
    ensures { result.now ≡ drop count text.now }
{
    if count > text.len() {
        return &[];
    }
    let (_, rest) = text.split_at(count);
    rest
}

/// The offset behind a name that stands at this one.
fn name_end(name: &str, text: &[u8], offset: u32) -> Option<usize>
    ensures { result ≡ name_end name.now text.now offset }
{
    if name_stands(name, text, offset as usize) {
        Some(offset as usize + name.len())
    } else {
        None
    }
}

/// Whether the name stands at the offset.
fn name_stands(name: &str, text: &[u8], offset: usize) -> bool
    ensures { result ≡ name_stands name.now text.now offset }
{
    name != "-" && begins_with(name.as_bytes(), behind(text, offset))
}

/// The name in a message and the space behind it; neither is there where the diagnostic speaks of none.
pub fn name_parts(name: &str) -> (&str, &'static str)
    ensures { result.0.now ++ result.1.now ≡ name_before name.now }
{
    if name == "-" { ("", "") } else { (name, " ") }
}
