//! To which line a finding is said.

ghost use Rattle.std.specs.Prelude.{◌≡◌, slice_get};
ghost use Rattle.accepting.specs.ByLines.{last_line, line_at};
ghost use Rattle.report.specs.Cursors.{IsAt};
ghost use Rattle.report.specs.Entries.{entry_of};
ghost use Rattle.report.specs.ReportText.{bytes_of};

use function_spans::body_end;
use lexer::Source;
use report::{Cursor, Diagnostic, DiagnosticCode, moved};

/// The bytes of a source: none, where there is no such source.
fn bytes_of(sources: &[Source], file: usize) -> &[u8]
    ensures { result.now ≡ bytes_of (slice_get sources.now file) }
{
    match sources.get(file) {
        Some(source) => &source.bytes,
        None => &[],
    }
}

/// The last line of a finding, at whose first line the cursor stands.
pub(crate) fn last_line(sources: &[Source], cursor: Cursor, said: Diagnostic<'_>) -> usize
    requires at { IsAt sources.now cursor }
    requires line { cursor.place.line ≡ line_at sources.now (entry_of said) }
    ensures { result ≡ last_line sources.now (entry_of said.entry) }
{
    match said.code {
        DiagnosticCode::NoCertificate => {
            let end = body_end(bytes_of(sources, said.file), said.offset as usize);
            moved(cursor, sources, said.file, end).place.line
        }
        _ => cursor.place.line,
    }
}
