//! Lines and columns of a source. A line ends with byte 10. A column counts bytes, so a byte order mark
//! counts three.

ghost use Rattle.std.specs.Prelude.{◌≡◌, ◌≤◌, length};
ghost use Rattle.lexer.specs.Place.{line_of, column_of};

use crate::source::{Place, Source};

/// The place of the byte at `offset`, which is at most the length of the source.
pub fn place(source: &Source, offset: usize) -> Place
    requires { offset ≤ length source.now.bytes.items }
    ensures line { result.line ≡ line_of source.now.bytes.items offset }
    ensures column { result.column ≡ column_of source.now.bytes.items offset }
{
    place_after(&source.bytes, 0, Place { line: 1, column: 1 }, offset)
}

/// The place of the byte at `offset`, counted on from the place of the byte at `from`, which is no later.
pub fn place_after(bytes: &[u8], from: usize, place: Place, offset: usize) -> Place
    requires order { (from ≤ offset) × (offset ≤ length bytes.now) }
    requires line { place.line ≡ line_of bytes.now from }
    requires column { place.column ≡ column_of bytes.now from }
    ensures line { result.line ≡ line_of bytes.now offset }
    ensures column { result.column ≡ column_of bytes.now offset }
{
    let Place {
        mut line,
        mut column,
    } = place;
    for at in from..offset {
        if bytes[at] == b'\n' {
            line += 1;
            column = 1;
        } else {
            column += 1;
        }
    }
    Place { line, column }
}
