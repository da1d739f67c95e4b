//! The way to the fault of a path that a diagnostic tells of.

ghost use Rattle.std.specs.Prelude.{◌≡◌, IfOk, is_some, map, option_map};
ghost use Rattle.body_ways.specs.ToldViews.{told_fault_view};
ghost use Rattle.explanations.specs.Found.{any_of_path, code_number, fault_of, first_told, is_same_fault, notes_by_ways, notes_told, offsets_by_ways, offsets_told, path_code_of, shown, way_note};
ghost use Rattle.explanations.specs.ToldViews.{told_views, ways_view};
ghost use Rattle.path_faults.specs.FaultViews.{code_view, fault_view};
ghost use Rattle.report.specs.Entries.{entry_of};
ghost use Rattle.way_notes.specs.NoteViews.{note_view};

use body_ways::ToldFault;
use lexer::Source;
use path_faults::{PathCode, PathFault};
use report::{Diagnostic, DiagnosticCode, Note, NoteText};
use std::alloc::{AllocError, Global};
use way_notes::Note as WayNote;

/// The code of a path's fault by that of its diagnostic. A diagnostic of anything else has none.
fn path_code_of(code: DiagnosticCode) -> Option<PathCode>
    ensures { option_map code_view result ≡ path_code_of code }
{
    match code {
        DiagnosticCode::Unreadable(_) => None,
        DiagnosticCode::LeftOut(_) => None,
        DiagnosticCode::Discarded => None,
        DiagnosticCode::Overwritten => Some(PathCode::Overwritten),
        DiagnosticCode::NotCalled => Some(PathCode::NotCalled),
        DiagnosticCode::CancelMisused => None,
        DiagnosticCode::GroupIsLive => Some(PathCode::GroupIsLive),
        DiagnosticCode::GroupOverwritten => Some(PathCode::GroupOverwritten),
        DiagnosticCode::GroupMisused => None,
        DiagnosticCode::LeftToLiveGroup => Some(PathCode::LeftToLiveGroup),
        DiagnosticCode::BoundAgain => None,
        DiagnosticCode::TooMany => None,
        DiagnosticCode::ImportIsNotYes => None,
        DiagnosticCode::ImportHasNoRank => None,
        DiagnosticCode::TwoFunctions => None,
        DiagnosticCode::NoCertificate => None,
        DiagnosticCode::AcceptsNothing => None,
    }
}

/// Whether the diagnostic tells of the fault of a path.
pub fn is_of_path(diagnostic: Diagnostic<'_>) -> bool
    ensures { result ≡ is_some (path_code_of diagnostic.entry.code) }
{
    path_code_of(diagnostic.code).is_some()
}

/// Whether one of them tells of the fault of a path.
pub fn any_of_path(diagnostics: &[Diagnostic<'_>]) -> bool
    ensures { result ≡ any_of_path diagnostics.now }
{
    for diagnostic in diagnostics {
        if is_of_path(*diagnostic) {
            return true;
        }
    }
    false
}

/// The fault of a path of which the diagnostic tells, if it tells of one.
fn fault_of(diagnostic: Diagnostic<'_>) -> Option<PathFault<'_>>
    ensures { option_map fault_view result ≡ fault_of (entry_of diagnostic.entry) }
{
    match path_code_of(diagnostic.code) {
        Some(code) => Some(PathFault {
            at: diagnostic.offset,
            code,
            name: diagnostic.name,
        }),
        None => None,
    }
}

/// A number for each code.
fn code_number(code: PathCode) -> u8
    ensures { result ≡ code_number (code_view code) }
{
    match code {
        PathCode::Overwritten => 0,
        PathCode::NotCalled => 1,
        PathCode::GroupIsLive => 2,
        PathCode::GroupOverwritten => 3,
        PathCode::LeftToLiveGroup => 4,
        PathCode::PassedOn => 5,
    }
}

fn is_same_fault(fault: PathFault<'_>, other: PathFault<'_>) -> bool
    ensures { result ≡ is_same_fault (fault_view fault.entry) (fault_view other.entry) }
{
    fault.at == other.at
        && code_number(fault.code) == code_number(other.code)
        && fault.name == other.name
}

/// The first of these that tells of the fault.
fn first_told<'f, 'a>(told: &'f [ToldFault<'a>], fault: PathFault<'_>) -> Option<&'f ToldFault<'a>>
    ensures { option_map (λ t. told_fault_view t.now) result
        ≡ first_told (fault_view fault.entry) (told_views told.now) }
{
    for one in told {
        if is_same_fault(one.fault, fault) {
            return Some(one);
        }
    }
    None
}

/// The notes of a way in the file of that number.
fn notes_of<'a>(
    alloc: Global,
    sources: &'a [Source],
    file: usize,
    told: &[WayNote],
) -> Result<Vec<Note<'a>>, AllocError>
    ensures { IfOk result (λ notes. map shown notes.items
        ≡ map (way_note sources.now file) (map note_view told.now)) }
{
    let mut notes = Vec::new(alloc);
    for note in told {
        notes.push(Note {
            sources,
            file,
            offset: note.at,
            text: NoteText::Words(note.word.text()),
        })?;
    }
    Ok(notes)
}

/// The offsets of a way.
fn copied(alloc: Global, offsets: &[u32]) -> Result<Vec<u32>, AllocError>
    ensures { IfOk result (λ copy. copy.items ≡ offsets.now) }
{
    let mut copy = Vec::new(alloc);
    copy.extend_from_slice(offsets)?;
    Ok(copy)
}

/// The offsets of the way to the fault, by what is told of the paths of its file.
fn offsets_in<'a>(
    alloc: Global,
    told: &[ToldFault<'a>],
    fault: PathFault<'_>,
) -> Result<Vec<u32>, AllocError>
    ensures { IfOk result (λ offsets. offsets.items
        ≡ offsets_told (first_told (fault_view fault.entry) (told_views told.now))) }
{
    match first_told(told, fault) {
        Some(one) => copied(alloc, &one.offsets),
        None => Ok(Vec::new(alloc)),
    }
}

/// The notes of the way to the fault, by what is told of the paths of its file.
fn notes_in<'a>(
    alloc: Global,
    sources: &'a [Source],
    file: usize,
    told: &[ToldFault<'a>],
    fault: PathFault<'_>,
) -> Result<Vec<Note<'a>>, AllocError>
    ensures { IfOk result (λ notes. map shown notes.items
        ≡ notes_told sources.now file (first_told (fault_view fault.entry) (told_views told.now))) }
{
    match first_told(told, fault) {
        Some(one) => notes_of(alloc, sources, file, &one.notes),
        None => Ok(Vec::new(alloc)),
    }
}

/// The notes of the way to the fault of which the diagnostic tells, by what is told of the paths of each file.
///
/// # Errors
///
/// Memory was refused.
pub fn way_notes<'a>(
    alloc: Global,
    sources: &'a [Source],
    ways: &[Vec<ToldFault<'a>>],
    diagnostic: Diagnostic<'_>,
) -> Result<Vec<Note<'a>>, AllocError>
    ensures { IfOk result (λ notes. map shown notes.items
        ≡ notes_by_ways sources.now (ways_view ways.now) (entry_of diagnostic.entry)) }
{
    let Some(fault) = fault_of(diagnostic) else {
        return Ok(Vec::new(alloc));
    };
    match ways.get(diagnostic.file) {
        Some(told) => notes_in(alloc, sources, diagnostic.file, told, fault),
        None => Ok(Vec::new(alloc)),
    }
}

/// The offsets of the way to the fault of which the diagnostic tells, by what is told of the paths of each file; none
/// where it tells of none.
///
/// # Errors
///
/// Memory was refused.
pub fn way_offsets<'a>(
    alloc: Global,
    ways: &[Vec<ToldFault<'a>>],
    diagnostic: Diagnostic<'_>,
) -> Result<Vec<u32>, AllocError>
    ensures { IfOk result (λ offsets. offsets.items
        ≡ offsets_by_ways (ways_view ways.now) (entry_of diagnostic.entry)) }
{
    let Some(fault) = fault_of(diagnostic) else {
        return Ok(Vec::new(alloc));
    };
    match ways.get(diagnostic.file) {
        Some(told) => offsets_in(alloc, told, fault),
        None => Ok(Vec::new(alloc)),
    }
}
