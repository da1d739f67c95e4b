//! The uses of names of which diagnostics tell.

ghost use Rattle.std.specs.Prelude.{◌≡◌, IfOk, is_some, map, option_map};
ghost use Rattle.explanations.specs.KeptUses.{any_of_use, asked_in, asked_there, asked_view, is_same_of, is_same_use, place_from};
ghost use Rattle.explanations.specs.Uses.{asked_by, asked_of};
ghost use Rattle.report.specs.Entries.{entry_of};
ghost use Rattle.use_reasons.specs.ReasonViews.{of_view};

use report::{Diagnostic, DiagnosticCode};
use std::alloc::{AllocError, Global};
use use_reasons::{AskedOf, AskedUse};

/// What is asked of the use that a diagnostic of that code tells of.
fn asked_of(code: DiagnosticCode) -> Option<AskedOf>
    ensures { option_map of_view result ≡ asked_of code }
{
    match code {
        DiagnosticCode::Unreadable(_) => None,
        DiagnosticCode::LeftOut(_) => None,
        DiagnosticCode::Discarded => None,
        DiagnosticCode::Overwritten => None,
        DiagnosticCode::NotCalled => None,
        DiagnosticCode::CancelMisused => Some(AskedOf::OfCancel),
        DiagnosticCode::GroupIsLive => None,
        DiagnosticCode::GroupOverwritten => None,
        DiagnosticCode::GroupMisused => Some(AskedOf::OfGroup),
        DiagnosticCode::LeftToLiveGroup => None,
        DiagnosticCode::BoundAgain => Some(AskedOf::BoundAgain),
        DiagnosticCode::TooMany => None,
        DiagnosticCode::ImportIsNotYes => None,
        DiagnosticCode::ImportHasNoRank => None,
        DiagnosticCode::TwoFunctions => None,
        DiagnosticCode::NoCertificate => None,
        DiagnosticCode::AcceptsNothing => None,
    }
}

/// Whether the diagnostic tells of a use.
pub fn is_of_use(diagnostic: Diagnostic<'_>) -> bool
    ensures { result ≡ is_some (asked_of diagnostic.entry.code) }
{
    asked_of(diagnostic.code).is_some()
}

/// Whether one of them tells of a use.
pub fn any_asked(diagnostics: &[Diagnostic<'_>]) -> bool
    ensures { result ≡ any_of_use diagnostics.now }
{
    for diagnostic in diagnostics {
        if is_of_use(*diagnostic) {
            return true;
        }
    }
    false
}

/// The use of which the diagnostic tells, if it tells of one.
pub fn asked_by(diagnostic: Diagnostic<'_>) -> Option<AskedUse>
    ensures { option_map asked_view result ≡ asked_by (entry_of diagnostic.entry) }
{
    match asked_of(diagnostic.code) {
        Some(of) => Some(AskedUse {
            at: diagnostic.offset,
            of,
        }),
        None => None,
    }
}

/// The use of which the diagnostic tells, if that is in the file of that number.
fn asked_there(file: usize, diagnostic: Diagnostic<'_>) -> Option<AskedUse>
    ensures { option_map asked_view result ≡ asked_there file diagnostic.entry }
{
    if diagnostic.file == file {
        asked_by(diagnostic)
    } else {
        None
    }
}

/// The uses of the file of that number of which these diagnostics tell.
///
/// # Errors
///
/// Memory was refused.
pub fn asked_in(
    alloc: Global,
    file: usize,
    diagnostics: &[Diagnostic<'_>],
) -> Result<Vec<AskedUse>, AllocError>
    ensures { IfOk result (λ asked. map asked_view asked.items ≡ asked_in file diagnostics.now) }
{
    let mut asked = Vec::new(alloc);
    for diagnostic in diagnostics {
        if let Some(one) = asked_there(file, *diagnostic) {
            asked.push(one)?;
        }
    }
    Ok(asked)
}

/// Whether of a use the same is asked.
fn is_same_of(of: AskedOf, other: AskedOf) -> bool
    ensures { result ≡ is_same_of (of_view of) (of_view other) }
{
    match (of, other) {
        (AskedOf::OfCancel, AskedOf::OfCancel) => true,
        (AskedOf::OfCancel, AskedOf::OfGroup) => false,
        (AskedOf::OfCancel, AskedOf::BoundAgain) => false,
        (AskedOf::OfGroup, AskedOf::OfCancel) => false,
        (AskedOf::OfGroup, AskedOf::OfGroup) => true,
        (AskedOf::OfGroup, AskedOf::BoundAgain) => false,
        (AskedOf::BoundAgain, AskedOf::OfCancel) => false,
        (AskedOf::BoundAgain, AskedOf::OfGroup) => false,
        (AskedOf::BoundAgain, AskedOf::BoundAgain) => true,
    }
}

fn is_same_use(asked: AskedUse, other: AskedUse) -> bool
    ensures { result ≡ is_same_use (asked_view asked) (asked_view other) }
{
    asked.at == other.at && is_same_of(asked.of, other.of)
}

/// The place of the first of these that is this use.
pub fn place_of(asked: &[AskedUse], wanted: AskedUse) -> Option<usize>
    ensures { result ≡ place_from (asked_view wanted) 0 (map asked_view asked.now) }
{
    for (place, one) in asked.iter().enumerate() {
        if is_same_use(*one, wanted) {
            return Some(place);
        }
    }
    None
}
