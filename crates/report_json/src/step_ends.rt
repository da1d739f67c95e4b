//! Where steps of ways end.

ghost use Rattle.std.specs.Prelude.{◌≡◌};
ghost use Rattle.report.specs.Notes.{source_of};
ghost use Rattle.report_json.specs.StepEnds.{byte_place, is_of_statement, step_end, step_end_place};

use crate::causes::binds;
use crate::note_kinds::taken_by;
use format_parts::bytes_of;
use function_spans::{statement_end, word_end};
use lexer::Place;
use report::{Note, NoteText, Wording, first_byte, moved};

/// Whether the note tells a branch, or where work is started.
fn is_of_statement(text: NoteText<'_>) -> bool
    ensures { result ≡ is_of_statement text.entry }
{
    match text {
        NoteText::Words(words) => taken_by(words).is_some() || words == "work is started",
        NoteText::Named(_, _, _) | NoteText::Finding(_, _) => false,
    }
}

/// The offset behind the step of which a note tells, if it tells of one.
fn step_end<'a>(note: &'a Note<'a>) -> Option<usize>
    ensures { result ≡ step_end note.now }
{
    let text = bytes_of(note.sources, note.file);
    if binds(note.text) {
        Some(word_end(text, note.offset as usize))
    } else if is_of_statement(note.text) {
        Some(statement_end(text, note.offset as usize))
    } else {
        None
    }
}

/// The place of an offset in the file of a note. The column counts bytes.
fn place_at<'a>(note: &'a Note<'a>, offset: usize) -> Place
    ensures { result ≡ byte_place (source_of note.now) offset }
{
    moved(first_byte(note.file), note.sources, note.file, offset).place
}

/// Where the step ends of which a note tells, by the second edition of the rules. The column counts bytes.
pub fn step_end_place<'a>(wording: Wording, note: &'a Note<'a>) -> Option<Place>
    ensures { result ≡ step_end_place wording note.now }
{
    match wording {
        Wording::First => None,
        Wording::Second => match step_end(note) {
            Some(end) => Some(place_at(note, end)),
            None => None,
        },
    }
}
