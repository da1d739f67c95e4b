//! Notes on standard error, which change no answer.

use inputs::{FilesRead, Noted};
use judge::Counts;
use printed::{PROGRAM, not_given_note, tell};
use std::alloc::{AllocError, Global};
use std::io::Write;

/// What notes tell: of what was read, which given packages count as not given, and how much the report tells.
#[derive(Clone, Copy)]
pub struct Notes<'n> {
    pub read: &'n Noted,
    pub not_given: &'n [String],
    pub counts: Counts,
}

/// Notes which folders have no Go file, of which given packages something is declared, and which count as not given;
/// where a list of packages was read, how many are yes and how many findings there are; and how many findings of an
/// earlier run are gone. Where standard error fails, or memory is refused for a note, nobody is left to be told.
pub fn note<E: Write>(alloc: Global, files: &FilesRead<'_>, notes: Notes<'_>, err: &mut E) {
    for folder in &notes.read.empty {
        tell(
            format!(in alloc; "{PROGRAM}: note: no Go files in {folder}\n"),
            err,
        );
    }
    for path in &notes.read.passed_over {
        tell(
            format!(in alloc;
                "{PROGRAM}: note: facts of a given package are passed over: {path}\n"
            ),
            err,
        );
    }
    for path in notes.not_given {
        tell(not_given_note(alloc, path), err);
    }
    if files.list.file.is_some() {
        tell(counted(alloc, notes.counts), err);
    }
    if notes.counts.gone > 0 {
        tell(gone(alloc, notes.counts.gone), err);
    }
    let _ = err.flush();
}

/// How many packages were judged, how many are yes, accepted and no, and how many findings there are in all.
fn counted(alloc: Global, counts: Counts) -> Result<String, AllocError> {
    let Counts {
        packages,
        yes,
        accepted,
        findings,
        accepted_findings,
        ..
    } = counts;
    let no = packages.saturating_sub(yes).saturating_sub(accepted);
    if accepted_findings == 0 {
        return format!(in alloc;
            "{PROGRAM}: note: {packages} packages: {yes} yes, {no} no; {findings} findings\n"
        );
    }
    format!(in alloc;
        "{PROGRAM}: note: {packages} packages: {yes} yes, {accepted} accepted, {no} no; {findings} findings, \
        {accepted_findings} accepted\n"
    )
}

/// How many findings of an earlier run have none of this run.
fn gone(alloc: Global, count: usize) -> Result<String, AllocError> {
    format!(in alloc; "{PROGRAM}: note: {count} findings of the baseline are gone\n")
}
