//! Notes of a unit on standard error, which change no answer.

use crate::unit_report::JudgedUnit;
use command_line::UnitFlags;
use printed::{PROGRAM, not_given_note, tell};
use std::alloc::{AllocError, Global};
use std::io::Write;
use unit_config::Unit;

/// Notes that facts of the unit's own package are passed over, which packages that it imports count as not given, and
/// where that is asked for, in which fields a yes keeps cancel functions. Of a unit of which nothing is printed nothing
/// is noted either.
pub fn note<E: Write>(
    alloc: Global,
    flags: &UnitFlags<'_>,
    unit: &Unit,
    judged: &JudgedUnit,
    err: &mut E,
) {
    if unit.is_silent {
        return;
    }
    let path = judged.kept.path.as_str();
    if judged.passes_over {
        tell(
            format!(in alloc;
                "{PROGRAM}: note: facts of a given package are passed over: {path}\n"
            ),
            err,
        );
    }
    for import in &judged.not_given {
        tell(not_given_note(alloc, import), err);
    }
    if flags.tells_keeping && !judged.keeping.is_empty() {
        tell(keeping_note(alloc, &judged.keeping, path), err);
    }
    let _ = err.flush();
}

/// The note of the fields in which the package of this path keeps cancel functions, in the words of the line that
/// `check` has before its yes.
fn keeping_note(alloc: Global, fields: &[String], path: &str) -> Result<String, AllocError> {
    let names = listed(alloc, fields)?;
    format!(in alloc; "{PROGRAM}: note: keeping {names}: {path}\n")
}

/// These names, with `, ` between them.
fn listed(alloc: Global, names: &[String]) -> Result<String, AllocError> {
    let mut list = String::new(alloc);
    for name in names {
        if !list.is_empty() {
            list.push_str(", ")?;
        }
        list.push_str(name.as_str())?;
    }
    Ok(list)
}
