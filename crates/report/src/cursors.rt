//! Places in the sources, found in one go along each.

ghost use Rattle.std.specs.Prelude.{◌≡◌, slice_get};
ghost use Rattle.lexer.specs.Place.{line_of, column_of};
ghost use Rattle.report.specs.ReportText.{bytes_of};
ghost use Rattle.report.specs.Cursors.{IsAt};

use lexer::{Place, Source, place_after};

/// A byte of a source, by the source's number and the byte's offset, and its place.
#[derive(Clone, Copy)]
pub struct Cursor {
    pub file: usize,
    pub offset: usize,
    pub place: Place,
}

/// The first byte of a source.
pub fn first_byte(file: usize) -> Cursor
    ensures start { (result.file ≡ file) × (result.offset ≡ 0) }
    ensures place { (result.place.line ≡ 1) × (result.place.column ≡ 1) }
{
    Cursor {
        file,
        offset: 0,
        place: Place { line: 1, column: 1 },
    }
}

/// The cursor at another byte, where one past the end of a source is taken as its end. From a byte before it in the
/// same source it goes on, so diagnostics in their order read each source but once. A source that is not there has no
/// bytes.
pub fn moved(cursor: Cursor, sources: &[Source], file: usize, offset: usize) -> Cursor
    requires { IsAt sources.now cursor }
    ensures at { IsAt sources.now result }
    ensures line { result.place.line ≡ line_of (bytes_of (slice_get sources.now file)) offset }
    ensures column { result.place.column ≡ column_of (bytes_of (slice_get sources.now file)) offset }
{
    let Some(source) = sources.get(file) else {
        return first_byte(file);
    };
    let offset = offset.min(source.bytes.len());
    let from = if cursor.file == file && cursor.offset <= offset {
        cursor
    } else {
        first_byte(file)
    };
    Cursor {
        file,
        offset,
        place: place_after(&source.bytes, from.offset, from.place, offset),
    }
}
