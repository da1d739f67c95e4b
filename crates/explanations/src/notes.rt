//! The notes of each diagnostic of a package.

ghost use Rattle.std.specs.Prelude.{◌≡◌, IfOk, is_some, map, option_map, option_to_list, true};
ghost use Rattle.explanations.specs.Found.{AreNotesByWays, HasWayNotes, path_code_of, shown};
ghost use Rattle.explanations.specs.KeptUses.{uses_view, AreNotesByUses, HasUseNote};
ghost use Rattle.explanations.specs.Uses.{asked_of};
ghost use Rattle.report.specs.Notes.{plain_of};
ghost use Rattle.explanations.specs.ToldViews.{ways_view};

use crate::asked::is_of_use;
use crate::pointers::{first_finding, first_of_name, on_the_ring};
use crate::told_uses::{FileUses, use_note};
use crate::way_of::{is_of_path, way_notes, way_offsets};
use body_ways::ToldFault;
use given_packages::Given;
use lexer::Source;
use one_package::Judged;
use report::{Diagnostic, DiagnosticCode, ExplainedDiagnostic, Note, PackageReport};
use std::alloc::{AllocError, Global};
use whole_packages::LoadedPackage;

/// All packages with what was judged of them, place by place.
#[derive(Clone, Copy)]
pub struct AllJudged<'k, 'a> {
    pub given: &'k Given<'a>,
    pub judged: &'k [Judged<'a>],
}

impl<'k, 'a> AllJudged<'k, 'a> {
    /// The report of the first package of that path.
    fn report_of(self, path: &str) -> Option<&'k PackageReport<'a>> {
        match self.given.places.get(path) {
            Some(place) => match self.judged.get(*place) {
                Some(one) => Some(&one.report),
                None => None,
            },
            None => None,
        }
    }
}

/// By what the diagnostics of a package are explained.
#[derive(Drop)]
pub struct Reasons<'a> {
    /// The faults of the paths of its files, with the notes of their ways.
    pub ways: Vec<Vec<ToldFault<'a>>>,
    /// Why uses in its files are told.
    pub uses: Vec<FileUses<'a>>,
}

/// Where the other part of a finding is looked for.
#[derive(Clone, Copy)]
pub struct Elsewhere<'k, 'a> {
    /// The package itself.
    pub loaded: Option<&'a LoadedPackage>,
    /// All packages with what was judged of them, if that is known: of those that a package imports which is judged by
    /// itself no finding is.
    pub all: Option<AllJudged<'k, 'a>>,
}

impl<'k, 'a> Elsewhere<'k, 'a> {
    /// The report of the first package of that path, if it is known.
    fn report_of(self, path: &str) -> Option<&'k PackageReport<'a>> {
        match self.all {
            Some(all) => all.report_of(path),
            None => None,
        }
    }
}

/// A package whose diagnostics are explained.
#[derive(Drop)]
pub struct Explaining<'k, 'a> {
    pub elsewhere: Elsewhere<'k, 'a>,
    pub sources: &'a [Source],
    pub reasons: Reasons<'a>,
}

/// One note, or none.
fn one_or_none<'a>(alloc: Global, note: Option<Note<'a>>) -> Result<Vec<Note<'a>>, AllocError>
    ensures { IfOk result (λ notes. map shown notes.items ≡ option_to_list (option_map shown note.entry)) }
{
    let mut notes = Vec::new(alloc);
    if let Some(note) = note {
        notes.push(note)?;
    }
    Ok(notes)
}

impl<'a> Explaining<'_, 'a> {
    /// The first finding of the import that is not yes.
    fn of_import(&self, path: &str) -> Option<Note<'a>> {
        match self.elsewhere.report_of(path) {
            Some(report) => first_finding(report),
            None => None,
        }
    }

    /// How the ring goes on from the import that has no rank.
    fn of_ring(&self, path: &str) -> Option<Note<'a>> {
        match self.elsewhere.report_of(path) {
            Some(report) => on_the_ring(report),
            None => None,
        }
    }

    /// The first function of that name.
    fn of_function(&self, alloc: Global, name: &str) -> Result<Option<Note<'a>>, AllocError> {
        match self.elsewhere.loaded {
            Some(loaded) => first_of_name(alloc, loaded, name),
            None => Ok(None),
        }
    }

    /// The note of a diagnostic that points to the other part of what was found.
    fn other_note(
        &self,
        alloc: Global,
        diagnostic: Diagnostic<'a>,
    ) -> Result<Option<Note<'a>>, AllocError> {
        match diagnostic.code {
            DiagnosticCode::ImportIsNotYes => Ok(self.of_import(diagnostic.name)),
            DiagnosticCode::ImportHasNoRank => Ok(self.of_ring(diagnostic.name)),
            DiagnosticCode::TwoFunctions => self.of_function(alloc, diagnostic.name),
            _ => Ok(None),
        }
    }
}

impl<'a> Explaining<'_, 'a> {
    /// The notes of a diagnostic.
    fn notes_of(
        &self,
        alloc: Global,
        diagnostic: Diagnostic<'a>,
    ) -> Result<Vec<Note<'a>>, AllocError>
        ensures ways { IfOk result (λ notes. is_some (path_code_of diagnostic.entry.code) ≡ true
            → HasWayNotes self.now.sources.now (ways_view self.now.reasons.ways.items) diagnostic.entry notes.items) }
        ensures uses { IfOk result (λ notes. is_some (asked_of diagnostic.entry.code) ≡ true
            → HasUseNote self.now.sources.now (map uses_view self.now.reasons.uses.items) diagnostic.entry
            notes.items) }
    {
        if is_of_path(diagnostic) {
            return way_notes(alloc, self.sources, &self.reasons.ways, diagnostic);
        }
        if is_of_use(diagnostic) {
            let note = use_note(self.sources, &self.reasons.uses, diagnostic);
            return one_or_none(alloc, note);
        }
        one_or_none(alloc, self.other_note(alloc, diagnostic)?)
    }

    /// Each of these diagnostics with its notes and its way.
    ///
    /// # Errors
    ///
    /// Memory was refused.
    pub fn explained(
        &self,
        alloc: Global,
        diagnostics: &[Diagnostic<'a>],
    ) -> Result<Vec<ExplainedDiagnostic<'a>>, AllocError>
        ensures plain { IfOk result (λ explained. plain_of explained.items ≡ diagnostics.now) }
        ensures ways { IfOk result (λ explained. AreNotesByWays self.now.sources.now
            (ways_view self.now.reasons.ways.items) explained.items) }
        ensures uses { IfOk result (λ explained. AreNotesByUses self.now.sources.now
            (map uses_view self.now.reasons.uses.items) explained.items) }
    {
        let mut explained: Vec<ExplainedDiagnostic<'a>> = Vec::new(alloc);
        for diagnostic in diagnostics {
            let notes = self.notes_of(alloc, *diagnostic)?;
            let way = way_offsets(alloc, &self.reasons.ways, *diagnostic)?;
            explained.push(ExplainedDiagnostic {
                diagnostic: *diagnostic,
                notes,
                way,
            })?;
        }
        Ok(explained)
    }
}
