//! Which codes can be accepted.

ghost use Rattle.std.specs.Prelude.{◌≡◌};
ghost use Rattle.accepting.specs.ByLines.{is_acceptable};

use report::DiagnosticCode;

/// Whether findings with this code can be accepted: those of uses and paths, LC03 to LC13.
pub fn is_acceptable(code: DiagnosticCode) -> bool
    ensures { result ≡ is_acceptable code }
{
    match code {
        DiagnosticCode::Discarded
        | DiagnosticCode::Overwritten
        | DiagnosticCode::NotCalled
        | DiagnosticCode::CancelMisused
        | DiagnosticCode::GroupIsLive
        | DiagnosticCode::GroupOverwritten
        | DiagnosticCode::GroupMisused
        | DiagnosticCode::LeftToLiveGroup
        | DiagnosticCode::BoundAgain
        | DiagnosticCode::TooMany
        | DiagnosticCode::ImportIsNotYes => true,
        _ => false,
    }
}
