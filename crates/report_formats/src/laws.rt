//! How notes are told from the lines of a report.

ghost use Rattle.std.specs.Prelude.{◌≡◌, take, codes};
ghost use Rattle.report.specs.declared.codes.Wording.{Wording as Words};
ghost use Rattle.report.specs.declared.notes.Note.{Note as OneNote};
ghost use Rattle.report_formats.specs.ReportLines.{note_line};

/// The line of a note begins with a tab.
pub fn each_note_begins_with_a_tab()
    ensures { (wording : Words) → (note : OneNote) → take 1 (note_line wording note) ≡ codes "\t" }
{}
