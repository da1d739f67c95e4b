//! How often a way has come to a loop.

ghost use Rattle.std.specs.Prelude.{◌≡◌, ◌+◌, ◌<◌, ◌&&◌, true, if◌then◌else◌};
ghost use Rattle.report.specs.Writing.{refusals_after, IsWritten};
ghost use Rattle.format_parts.specs.Pieces.{members_listed};
ghost use Rattle.report_json.specs.Turns.{is_at, is_loop, told_turn, turn_members, turn_of};

use crate::note_kinds::is_either;
use format_parts::FormatPiece::{Number, Plain};
use format_parts::{name_of, put_each};
use report::{Note, NoteText, Sink, Wording, WriteFault};

/// Whether the note is one of a loop.
fn is_loop(text: NoteText<'_>) -> bool
    ensures { result ≡ is_loop text.entry }
{
    match text {
        NoteText::Words(words) => is_either(words, "the loop goes on", "the loop ends"),
        NoteText::Named(_, _, _) | NoteText::Finding(_, _) => false,
    }
}

/// Whether two notes stand at one place: in files of one name, at one offset.
pub fn is_at<'a>(place: &'a Note<'a>, other: &'a Note<'a>) -> bool
    ensures { result ≡ is_at place.now other.now }
{
    place.offset == other.offset
        && name_of(place.sources, place.file) == name_of(other.sources, other.file)
}

/// Whether the other note is one of a loop at the place of this one.
fn is_turn<'a>(note: &'a Note<'a>, other: &'a Note<'a>) -> bool
    ensures { result ≡ (is_loop other.now.text && is_at note.now other.now) }
{
    is_loop(other.text) && is_at(note, other)
}

/// The turn behind another note.
fn turn_behind<'a>(turn: usize, note: &'a Note<'a>, other: &'a Note<'a>) -> usize
    requires { turn < usize.MAX }
    ensures { result ≡ (if is_loop other.now.text && is_at note.now other.now then turn + 1 else turn) }
{
    if is_turn(note, other) { turn + 1 } else { turn }
}

/// The turn that a note tells, by the notes before it.
fn turn_of<'a>(before: &'a [Note<'a>], note: &'a Note<'a>) -> usize
    ensures { result ≡ turn_of before.now note.now }
{
    let mut turn = 1;
    for other in before {
        turn = turn_behind(turn, note, other);
    }
    turn
}

/// The same, where it is told: by the second edition of the rules, with notes of loops.
pub fn told_turn<'a>(wording: Wording, before: &'a [Note<'a>], note: &'a Note<'a>) -> Option<usize>
    ensures { result ≡ told_turn wording before.now note.now }
{
    match wording {
        Wording::Second if is_loop(note.text) => Some(turn_of(before, note)),
        _ => None,
    }
}

/// Writes the turn that a note tells, if it does.
pub fn write_turn<S: Sink>(turn: Option<usize>, sink: &mut S) -> Result<(), WriteFault>
    ensures taken { IsWritten (members_listed true (turn_members turn)) (S.taken sink.old) (S.taken sink.new) result }
    ensures refusals { S.refusals sink.new ≡ refusals_after (S.refusals sink.old) result }
{
    let Some(turn) = turn else {
        return Ok(());
    };
    put_each(&[Plain(",\"turn\":"), Number(turn)], sink)
}
