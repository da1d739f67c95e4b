//! Places whose columns count code points, found in one go along each source.

ghost use Rattle.std.specs.Prelude.{◌≡◌, ◌≤◌, length, slice_get};
ghost use Rattle.lexer.specs.Place.{line_of};
ghost use Rattle.report.specs.ReportText.{bytes_of};
ghost use Rattle.sarif.specs.CodePoints.{begins_code_point, code_point_column};
ghost use Rattle.sarif.specs.Pieces.{IsAtPlace};

use lexer::{Place, Source};
use report::{Cursor, first_byte};

/// The cursor at another byte, where one past the end of a source is taken as its end. The columns of both count code
/// points. From a byte before it in the same source it goes on, so diagnostics in their order read each source but
/// once, however many stand on one line. A source that is not there has no bytes.
pub fn moved_in_code_points(
    cursor: Cursor,
    sources: &[Source],
    file: usize,
    offset: usize,
) -> Cursor
    requires { IsAtPlace sources.now cursor }
    ensures at { IsAtPlace sources.now result }
    ensures line { result.place.line ≡ line_of (bytes_of (slice_get sources.now file)) offset }
    ensures column { result.place.column ≡ code_point_column (bytes_of (slice_get sources.now file)) offset }
{
    let Some(source) = sources.get(file) else {
        return first_byte(file);
    };
    let offset = offset.min(source.bytes.len());
    let from = if cursor.file == file && cursor.offset <= offset {
        cursor
    } else {
        first_byte(file)
    };
    Cursor {
        file,
        offset,
        place: place_in_code_points(&source.bytes, from.offset, from.place, offset),
    }
}

/// The place of the byte at `offset`, counted on from the place of the byte at `from`, which is no later. The columns
/// of both places count code points.
fn place_in_code_points(bytes: &[u8], from: usize, place: Place, offset: usize) -> Place
    requires order { (from ≤ offset) × (offset ≤ length bytes.now) }
    requires line { place.line ≡ line_of bytes.now from }
    requires column { place.column ≡ code_point_column bytes.now from }
    ensures line { result.line ≡ line_of bytes.now offset }
    ensures column { result.column ≡ code_point_column bytes.now offset }
{
    let Place {
        mut line,
        mut column,
    } = place;
    for at in from..offset {
        let byte = bytes[at];
        if byte == b'\n' {
            line += 1;
            column = 1;
        } else if begins_code_point(byte) {
            column += 1;
        }
    }
    Place { line, column }
}

fn begins_code_point(byte: u8) -> bool
    ensures { result ≡ begins_code_point byte }
{
    byte < 0x80 || byte >= 0xC0
}
