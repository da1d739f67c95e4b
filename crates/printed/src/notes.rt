//! Notes on standard error, which change no answer.

use folders::escaped;
use std::alloc::{AllocError, Global};
use std::io::Write;

/// The program's name, with which the lines of its notes and faults begin.
pub const PROGRAM: &str = "ctxvet";

/// Writes a note as one piece, so that none stands within a line of another process. Where standard error fails, or
/// memory was refused for the note, nobody is left to be told.
pub fn tell<E: Write>(note: Result<String, AllocError>, err: &mut E) {
    if let Ok(line) = note {
        let _ = err.write_all(line.as_bytes());
    }
}

/// The note of a package that is given, or judged by itself, and counts as not given for those that import it.
///
/// # Errors
///
/// Memory was refused.
pub fn not_given_note(alloc: Global, path: &str) -> Result<String, AllocError> {
    let path = escaped(alloc, path)?;
    format!(in alloc; "{PROGRAM}: note: {path} has faults as a whole and counts as not given\n")
}
