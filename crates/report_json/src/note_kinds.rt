//! Of which kind notes are.

ghost use Rattle.std.specs.Prelude.{◌≡◌, true};
ghost use Rattle.report_json.specs.NoteKinds.{is_either, kind_text, taken_by, taken_in, taken_members, words_kind};
ghost use Rattle.format_parts.specs.Pieces.{members_listed};

use report::NoteText;

/// The kind of a note, as a word.
pub fn kind_text(text: NoteText<'_>) -> &'static str
    ensures { result.now ≡ kind_text text.entry }
{
    match text {
        NoteText::Words(words) => words_kind(words),
        NoteText::Named(_, _, _) => "note",
        NoteText::Finding(_, _) => "finding",
    }
}

/// The kind of a note that says these words.
fn words_kind(words: &str) -> &'static str
    ensures { result.now ≡ words_kind words.now }
{
    if words == "cancel is obtained" {
        "obtained"
    } else if words == "group is made" {
        "made"
    } else if words == "work is started" {
        "started"
    } else if is_either(words, "the condition holds", "the condition does not hold") {
        "condition"
    } else if is_either(words, "the loop goes on", "the loop ends") {
        "loop"
    } else if is_either(words, "this clause is entered", "no clause is entered") {
        "clause"
    } else {
        "note"
    }
}

/// Whether the text is one of two.
pub fn is_either(text: &str, one: &str, other: &str) -> bool
    ensures { result ≡ is_either text.now one.now other.now }
{
    text == one || text == other
}

/// What is told of whether a branch is taken, where the note is one.
pub fn taken_text(text: NoteText<'_>) -> &'static str
    ensures { result.now ≡ members_listed true (taken_members (taken_in text.entry)) }
{
    match text {
        NoteText::Words(words) => words_taken(words),
        NoteText::Named(_, _, _) | NoteText::Finding(_, _) => "",
    }
}

/// The same of a note that says these words.
fn words_taken(words: &str) -> &'static str
    ensures { result.now ≡ members_listed true (taken_members (taken_by words.now)) }
{
    let Some(is_taken) = taken_by(words) else {
        return "";
    };
    if is_taken {
        ",\"taken\":true"
    } else {
        ",\"taken\":false"
    }
}

/// Whether a branch is taken, by the words of its note.
pub fn taken_by(words: &str) -> Option<bool>
    ensures { result ≡ taken_by words.now }
{
    if words == "the condition holds" {
        Some(true)
    } else if words == "the condition does not hold" {
        Some(false)
    } else if words == "the loop goes on" {
        Some(true)
    } else if words == "the loop ends" {
        Some(false)
    } else if words == "this clause is entered" {
        Some(true)
    } else if words == "no clause is entered" {
        Some(false)
    } else {
        None
    }
}
