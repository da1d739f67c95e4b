//! Faults of a file's bodies as diagnostics.

ghost use Rattle.std.specs.Prelude.{◌≡◌, ◌++◌, OnOk, map};
ghost use Rattle.findings.specs.FoundEntries.{use_entries, path_entries};
ghost use Rattle.path_faults.specs.FaultViews.{fault_view as path_fault_view, code_view as path_code_view};
ghost use Rattle.report.specs.Entries.{entry_of};
ghost use Rattle.uses.specs.OutcomeViews.{fault_view, code_view};
ghost use Rattle.meaning_reports.specs.PackageReports.{use_code, path_code};

use path_faults::{PathCode, PathFault};
use report::{Diagnostic, DiagnosticCode, TreeFault};
use std::alloc::AllocError;
use uses::{UseCode, UseFault};

fn use_code(code: UseCode) -> DiagnosticCode
    ensures { result ≡ use_code (code_view code) }
{
    match code {
        UseCode::RecoverUsed => DiagnosticCode::LeftOut(TreeFault::Recover),
        UseCode::GotoUsed => DiagnosticCode::LeftOut(TreeFault::Goto),
        UseCode::CancelDiscarded => DiagnosticCode::Discarded,
        UseCode::CancelUsedOtherwise => DiagnosticCode::CancelMisused,
        UseCode::GroupUsedOtherwise => DiagnosticCode::GroupMisused,
        UseCode::BoundAgain => DiagnosticCode::BoundAgain,
        UseCode::TooManyVariables => DiagnosticCode::TooMany,
    }
}

fn path_code(code: PathCode) -> DiagnosticCode
    ensures { result ≡ path_code (path_code_view code) }
{
    match code {
        PathCode::Overwritten => DiagnosticCode::Overwritten,
        PathCode::NotCalled => DiagnosticCode::NotCalled,
        PathCode::GroupIsLive => DiagnosticCode::GroupIsLive,
        PathCode::GroupOverwritten => DiagnosticCode::GroupOverwritten,
        PathCode::LeftToLiveGroup => DiagnosticCode::LeftToLiveGroup,
        PathCode::PassedOn => DiagnosticCode::CancelMisused,
    }
}

/// Adds these use faults of the file of that number.
///
/// # Errors
///
/// Memory was refused.
pub fn add_use_faults<'a>(
    file: usize,
    faults: &[UseFault<'a>],
    diagnostics: &mut Vec<Diagnostic<'a>>,
) -> Result<(), AllocError>
    ensures { OnOk result (map entry_of diagnostics.new.items ≡ map entry_of diagnostics.old.items
        ++ use_entries file (map fault_view faults.now)) }
{
    for fault in faults {
        diagnostics.push(Diagnostic {
            file,
            offset: fault.at,
            code: use_code(fault.code),
            name: fault.name,
        })?;
    }
    Ok(())
}

/// Adds these faults of paths and passes of the file of that number.
pub fn add_path_faults<'a>(
    file: usize,
    faults: &[PathFault<'a>],
    diagnostics: &mut Vec<Diagnostic<'a>>,
) -> Result<(), AllocError>
    ensures { OnOk result (map entry_of diagnostics.new.items ≡ map entry_of diagnostics.old.items
        ++ path_entries file (map path_fault_view faults.now)) }
{
    for fault in faults {
        diagnostics.push(Diagnostic {
            file,
            offset: fault.at,
            code: path_code(fault.code),
            name: fault.name,
        })?;
    }
    Ok(())
}
