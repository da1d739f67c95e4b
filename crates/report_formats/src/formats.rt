//! The forms of a report.

ghost use Rattle.std.specs.Prelude.{◌≡◌, map};
ghost use Rattle.accepting.specs.Findings.{found_view};
ghost use Rattle.report.specs.Writing.{refusals_after, IsWritten};
ghost use Rattle.report_formats.specs.Formats.{text_of};

use crate::report_lines::write_text;
use accepting::{FoundPackage, Telling};
use format_parts::style_of;
use report::{Format, Sink, WriteFault};
use report_json::write_json;
use sarif::write_sarif;

/// Writes the report of these packages, in which all that is accepted is found, in the form that is asked for, and
/// nothing else; with the notes of findings, or without. Lines and columns count from 1; columns count bytes, and in
/// SARIF code points. For each note its file is read up to its place, and in JSON of version 2 that of each finding. No
/// memory is taken.
///
/// # Errors
///
/// A put failed or took nothing. A beginning of the text is taken then, and not all of it.
pub fn write_report<S: Sink>(
    telling: Telling<'_>,
    with_reasons: bool,
    packages: &[FoundPackage],
    sink: &mut S,
) -> Result<(), WriteFault>
    ensures taken { IsWritten (text_of telling.entry with_reasons (map found_view packages.now))
        (S.taken sink.old) (S.taken sink.new) result }
    ensures refusals { S.refusals sink.new ≡ refusals_after (S.refusals sink.old) result }
{
    let style = style_of(telling, with_reasons);
    match telling.format {
        Format::Text => write_text(style, packages, sink),
        Format::Json => write_json(style, telling.fixes, packages, sink),
        Format::Sarif => write_sarif(style, telling.fixes, packages, sink),
    }
}
