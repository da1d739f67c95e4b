//! Files without a tree.

ghost use Rattle.std.specs.Prelude.{◌≡◌, ◌++◌, OnOk, map};
ghost use Rattle.whole_packages.specs.WholeEntries.{failure, failure_entries, failures_from};
ghost use Rattle.report.specs.Entries.{entry_of};

use crate::loaded_package::Reading;
use report::{Diagnostic, DiagnosticCode};
use std::alloc::AllocError;

/// What a diagnostic has in place of a name where it speaks of none.
pub const NO_NAME: &str = "-";

fn add_failure(
    file: usize,
    offset: u32,
    code: DiagnosticCode,
    diagnostics: &mut Vec<Diagnostic<'_>>,
) -> Result<(), AllocError>
    ensures { OnOk result (map entry_of diagnostics.new.items ≡ map entry_of diagnostics.old.items
        ++ failure file offset code) }
{
    diagnostics.push(Diagnostic {
        file,
        offset,
        code,
        name: NO_NAME,
    })?;
    Ok(())
}

fn add_reading(
    file: usize,
    reading: Reading,
    diagnostics: &mut Vec<Diagnostic<'_>>,
) -> Result<(), AllocError>
    ensures { OnOk result (map entry_of diagnostics.new.items ≡ map entry_of diagnostics.old.items
        ++ failure_entries file reading) }
{
    match reading {
        Reading::Tree => Ok(()),
        Reading::NoTokens(at, why) => add_failure(
            file,
            at,
            DiagnosticCode::Unreadable(why),
            diagnostics,
        ),
        Reading::NoTree(at, why) => add_failure(
            file,
            at,
            DiagnosticCode::LeftOut(why),
            diagnostics,
        ),
    }
}

/// Adds what is to be said of the files that have no tree.
pub fn add_failures(
    readings: &[Reading],
    diagnostics: &mut Vec<Diagnostic<'_>>,
) -> Result<(), AllocError>
    ensures { OnOk result (map entry_of diagnostics.new.items ≡ map entry_of diagnostics.old.items
        ++ failures_from 0 readings.now) }
{
    for (file, reading) in readings.iter().enumerate() {
        add_reading(file, *reading, diagnostics)?;
    }
    Ok(())
}
