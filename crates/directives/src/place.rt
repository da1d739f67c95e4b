//! Where a directive stands in a line.

ghost use Rattle.std.specs.Prelude.{◌≡◌, ◌+◌, ◌<◌, ◌≤◌, IfSome, length};
ghost use Rattle.std.specs.List.{list_all};
ghost use Rattle.directives.specs.Marks.{is_blank, is_free, mark, place_in};

use memchr::memmem::Finder;

/// The bytes with which a directive begins.
pub(crate) const MARK: &[u8] = b"//ctxvet:accept";

/// The place of the directive of a line, in bytes from the line's start, if it has one.
pub(crate) fn place_in(finder: &Finder<'_>, line: &[u8]) -> Option<usize>
    requires { finder.now ≡ mark }
    ensures place { result ≡ place_in line.now }
    ensures fits { IfSome result (λ place. place + length mark ≤ length line.now) }
{
    let mut passed = 0;
    'places: while let Some(further) = finder.find(&line[passed..]) {
        let place = passed + further;
        if is_free(line, place) {
            return Some(place);
        }
        passed = place + 1;
    }
    None
}

/// Whether the place is the line's start, or straight behind a blank or a tab.
fn is_free(line: &[u8], place: usize) -> bool
    requires { place < length line.now }
    ensures { result ≡ is_free line.now place }
{
    place == 0 || is_blank(line[place - 1])
}

/// Whether these are blanks and tabs, and nothing else.
pub(crate) fn are_blank(bytes: &[u8]) -> bool
    ensures { result ≡ list_all is_blank bytes.now }
{
    bytes.iter().all(|byte| is_blank(*byte))
}

/// Whether the byte is a blank or a tab.
pub(crate) fn is_blank(byte: u8) -> bool
    ensures { result ≡ is_blank byte }
{
    byte == b' ' || byte == b'\t'
}
