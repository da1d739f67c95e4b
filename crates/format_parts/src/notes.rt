//! What notes say, and where they stand.

ghost use Rattle.std.specs.Prelude.{◌≡◌, ◌++◌};
ghost use Rattle.report.specs.Notes.{note_words, source_of};
ghost use Rattle.format_parts.specs.Pieces.{IsBytePlace};

use lexer::Place;
use report::{Note, NoteText, Wording, first_byte, moved};

/// The text of a note in five parts, of which some may be empty.
pub fn text_parts<'a>(
    wording: Wording,
    text: NoteText<'a>,
) -> (&'a str, &'a str, &'a str, &'a str, &'a str)
    ensures { result.0.now ++ (result.1.now ++ (result.2.now ++ (result.3.now ++ result.4.now)))
        ≡ note_words wording text.entry }
{
    match text {
        NoteText::Words(words) => (words, "", "", "", ""),
        NoteText::Named(before, name, after) => (before, name, after, "", ""),
        NoteText::Finding(code, name) => (code.number(), " ", name, " ", code.words(wording)),
    }
}

/// The place of a note, whose column counts bytes.
pub fn note_place<'a>(note: &'a Note<'a>) -> Place
    ensures { IsBytePlace (source_of note.now) note.now.offset result }
{
    let offset = note.offset as usize;
    moved(first_byte(note.file), note.sources, note.file, offset).place
}
