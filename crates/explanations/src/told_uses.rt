//! Why the uses of names in a package's files are told.

ghost use Rattle.std.specs.Prelude.{◌≡◌, ℕ, false, IfOk, List, map, option_map};
ghost use Rattle.explanations.specs.Found.{shown};
ghost use Rattle.explanations.specs.KeptUses.{asked_in, asked_view, file_reasons, known_at, reason_at, reason_by, reasons_from, uses_view, HaveReasons};
ghost use Rattle.explanations.specs.Uses.{reason_in, reason_note};
ghost use Rattle.meaning_reports.specs.Loaded.{LoadedPackage as MeantPackage, Tables, means_in};
ghost use Rattle.names.specs.Answers.{declared_at};
ghost use Rattle.one_package.specs.Judgments.{TellsAround};
ghost use Rattle.one_package.specs.ToldPackages.{IsToldPackage};
ghost use Rattle.report.specs.Entries.{entry_of};
ghost use Rattle.report.specs.Notes.{note_text};
ghost use Rattle.tracked_rows.specs.RowViews.{known_view};
ghost use Rattle.tree.specs.View.{file_syntax};
ghost use Rattle.use_reasons.specs.ReasonViews.{reason_view, text_view};
ghost use Rattle.whole_packages.specs.LoadedViews.{TellsPackage};

use crate::asked::{asked_by, asked_in, place_of};
use crate::told_reasons::Telling;
use lexer::Source;
use report::{Diagnostic, Note, NoteText};
use std::alloc::{AllocError, Global};
use tracked_rows::{Fields, Known};
use tree::File;
use use_reasons::{AskedUse, ReasonText, UseReason, use_reasons};

/// The uses of a file that are asked of, and for each of them why it is told.
#[derive(Drop)]
pub struct FileUses<'a> {
    pub asked: Vec<AskedUse>,
    pub reasons: Vec<Option<UseReason<'a>>>,
}

/// Why these uses of the file are told, one by one. Where there are none, the file is not looked at.
fn reasons_of<'a>(
    alloc: Global,
    known: Known<'_, 'a>,
    tree: &'a File,
    asked: &[AskedUse],
) -> Result<Vec<Option<UseReason<'a>>>, AllocError>
    ensures { IfOk result (λ reasons. map (option_map reason_view) reasons.items
        ≡ map (reason_in (known_view known.entry) (file_syntax tree.now)) (map asked_view asked.now)) }
{
    if asked.is_empty() {
        return Ok(Vec::new(alloc));
    }
    use_reasons(alloc, &known, tree, asked)
}

/// Why the uses of the file of that number are told of which these diagnostics tell.
fn file_uses<'a>(
    alloc: Global,
    known: Known<'_, 'a>,
    number: usize,
    tree: &'a File,
    diagnostics: &[Diagnostic<'_>],
) -> Result<FileUses<'a>, AllocError>
    ensures { IfOk result (λ uses. uses_view uses ≡ file_reasons (known_at known.entry number) (file_syntax tree.now)
        (asked_in number diagnostics.now)) }
{
    let asked = asked_in(alloc, number, diagnostics)?;
    let there = Known {
        file: number,
        ..known
    };
    let reasons = reasons_of(alloc, there, tree, &asked)?;
    Ok(FileUses { asked, reasons })
}

/// Why the uses of which these diagnostics tell are told, for each of these files.
fn files_uses<'a>(
    alloc: Global,
    known: Known<'_, 'a>,
    trees: &'a [File],
    diagnostics: &[Diagnostic<'_>],
) -> Result<Vec<FileUses<'a>>, AllocError>
    ensures { IfOk result (λ uses. map uses_view uses.items
        ≡ reasons_from (known_at known.entry) diagnostics.now 0 (map file_syntax trees.now)) }
{
    let mut uses = Vec::new(alloc);
    for (number, tree) in trees.iter().enumerate() {
        uses.push(file_uses(alloc, known, number, tree, diagnostics)?)?;
    }
    Ok(uses)
}

/// Why the uses of which these diagnostics tell are told, for each file of a package that was told of.
///
/// # Errors
///
/// Memory was refused.
pub fn package_uses<'a>(
    alloc: Global,
    telling: Telling<'_, 'a>,
    diagnostics: &[Diagnostic<'_>],
) -> Result<Vec<FileUses<'a>>, AllocError>
    ensures { IfOk result (λ uses. (ps : List MeantPackage) (tables : Tables) (p : MeantPackage)
        → TellsPackage p telling.entry.loaded.now → TellsAround ps tables p telling.entry.around
        → ((file at : ℕ) → declared_at telling.entry.names.now file at ≡ means_in ps p file at)
        → IsToldPackage ps tables p false telling.entry.told.now
        → HaveReasons ps tables p diagnostics.now (map uses_view uses.items)) }
{
    let loaded = telling.loaded;
    let known = Known {
        edition: loaded.edition,
        file: 0,
        names: telling.names,
        table: &telling.told.signatures,
        imported: telling.around.signatures,
        fields: Fields::These {
            keeping: &telling.told.fields.keeping,
            filled: &telling.told.fields.filled,
        },
        object_lefts: &[],
    };
    files_uses(alloc, known, &loaded.trees, diagnostics)
}

/// The reason at that place, if there is one.
fn reason_at<'a>(reasons: &[Option<UseReason<'a>>], place: Option<usize>) -> Option<UseReason<'a>>
    ensures { option_map reason_view result ≡ reason_at place (map (option_map reason_view) reasons.now) }
{
    match place {
        Some(place) => match reasons.get(place) {
            Some(reason) => *reason,
            None => None,
        },
        None => None,
    }
}

/// Why the use is told of which the diagnostic tells, by what is known of the uses of each file.
fn reason_by<'a>(uses: &[FileUses<'a>], diagnostic: Diagnostic<'_>) -> Option<UseReason<'a>>
    ensures { option_map reason_view result ≡ reason_by (map uses_view uses.now) (entry_of diagnostic.entry) }
{
    match asked_by(diagnostic) {
        Some(asked) => match uses.get(diagnostic.file) {
            Some(file) => reason_at(&file.reasons, place_of(&file.asked, asked)),
            None => None,
        },
        None => None,
    }
}

fn text_of<'a>(text: ReasonText<'a>) -> NoteText<'a>
    ensures { note_text result ≡ text_view text.entry }
{
    match text {
        ReasonText::Words(words) => NoteText::Words(words),
        ReasonText::Named(before, name, after) => NoteText::Named(before, name, after),
    }
}

/// What is told of the use of which the diagnostic tells, if anything is, by what is known of the uses of each file.
pub fn use_note<'a>(
    sources: &'a [Source],
    uses: &[FileUses<'a>],
    diagnostic: Diagnostic<'_>,
) -> Option<Note<'a>>
    ensures { option_map shown result ≡ option_map (reason_note sources.now diagnostic.entry.file)
        (reason_by (map uses_view uses.now) (entry_of diagnostic.entry)) }
{
    match reason_by(uses, diagnostic) {
        Some(reason) => Some(Note {
            sources,
            file: diagnostic.file,
            offset: reason.at,
            text: text_of(reason.text),
        }),
        None => None,
    }
}
