//! The rules of SARIF, one for each number of a code.

ghost use Rattle.std.specs.Prelude.{◌≡◌, Some, option_map, slice_get};
ghost use Rattle.report.specs.Codes.{code_number};
ghost use Rattle.report.specs.declared.codes.DiagnosticCode.{DiagnosticCode as Code};
ghost use Rattle.report.specs.declared.codes.Wording.TheVariants.{Second};
ghost use Rattle.sarif.specs.SarifCodes.{level, rule_codes, rule_index, rule_text, tells_way, topic};

use report::{DiagnosticCode, TextFault, TreeFault, Wording};

/// A code for each rule, in the order of their numbers. By the first edition of the rules no line accepts anything.
static FIRST_CODES: [DiagnosticCode; 16] = [
    DiagnosticCode::Unreadable(TextFault::NotUtf8),
    DiagnosticCode::LeftOut(TreeFault::UnexpectedToken),
    DiagnosticCode::Discarded,
    DiagnosticCode::Overwritten,
    DiagnosticCode::NotCalled,
    DiagnosticCode::CancelMisused,
    DiagnosticCode::GroupIsLive,
    DiagnosticCode::GroupOverwritten,
    DiagnosticCode::GroupMisused,
    DiagnosticCode::LeftToLiveGroup,
    DiagnosticCode::BoundAgain,
    DiagnosticCode::TooMany,
    DiagnosticCode::ImportIsNotYes,
    DiagnosticCode::ImportHasNoRank,
    DiagnosticCode::TwoFunctions,
    DiagnosticCode::NoCertificate,
];

static SECOND_CODES: [DiagnosticCode; 17] = [
    DiagnosticCode::Unreadable(TextFault::NotUtf8),
    DiagnosticCode::LeftOut(TreeFault::UnexpectedToken),
    DiagnosticCode::Discarded,
    DiagnosticCode::Overwritten,
    DiagnosticCode::NotCalled,
    DiagnosticCode::CancelMisused,
    DiagnosticCode::GroupIsLive,
    DiagnosticCode::GroupOverwritten,
    DiagnosticCode::GroupMisused,
    DiagnosticCode::LeftToLiveGroup,
    DiagnosticCode::BoundAgain,
    DiagnosticCode::TooMany,
    DiagnosticCode::ImportIsNotYes,
    DiagnosticCode::ImportHasNoRank,
    DiagnosticCode::TwoFunctions,
    DiagnosticCode::NoCertificate,
    DiagnosticCode::AcceptsNothing,
];

/// The codes of the rules.
pub fn rule_codes(wording: Wording) -> &'static [DiagnosticCode]
    ensures { result.now ≡ rule_codes wording }
{
    match wording {
        Wording::First => &FIRST_CODES,
        Wording::Second => &SECOND_CODES,
    }
}

/// The place of a code's rule among the rules, from 0.
pub fn rule_index(code: DiagnosticCode) -> usize
    ensures { result ≡ rule_index code }
{
    match code {
        DiagnosticCode::Unreadable(_) => 0,
        DiagnosticCode::LeftOut(_) => 1,
        DiagnosticCode::Discarded => 2,
        DiagnosticCode::Overwritten => 3,
        DiagnosticCode::NotCalled => 4,
        DiagnosticCode::CancelMisused => 5,
        DiagnosticCode::GroupIsLive => 6,
        DiagnosticCode::GroupOverwritten => 7,
        DiagnosticCode::GroupMisused => 8,
        DiagnosticCode::LeftToLiveGroup => 9,
        DiagnosticCode::BoundAgain => 10,
        DiagnosticCode::TooMany => 11,
        DiagnosticCode::ImportIsNotYes => 12,
        DiagnosticCode::ImportHasNoRank => 13,
        DiagnosticCode::TwoFunctions => 14,
        DiagnosticCode::NoCertificate => 15,
        DiagnosticCode::AcceptsNothing => 16,
    }
}

/// What the rule of a code says.
pub fn rule_text(wording: Wording, code: DiagnosticCode) -> &'static str
    ensures { result.now ≡ rule_text wording code }
{
    match code {
        DiagnosticCode::Unreadable(_) => "file has no tokens",
        DiagnosticCode::LeftOut(_) => "no tree, or a form that is left out",
        code => code.words(wording),
    }
}

/// How grave a code is: a fault of the body is an error, and what could not be followed a warning.
pub fn level(code: DiagnosticCode) -> &'static str
    ensures { result.now ≡ level code }
{
    match code {
        DiagnosticCode::Discarded
        | DiagnosticCode::Overwritten
        | DiagnosticCode::NotCalled
        | DiagnosticCode::GroupIsLive
        | DiagnosticCode::GroupOverwritten
        | DiagnosticCode::LeftToLiveGroup => "error",
        _ => "warning",
    }
}

/// What a code is about.
pub fn topic(code: DiagnosticCode) -> &'static str
    ensures { result.now ≡ topic code }
{
    match code {
        DiagnosticCode::NotCalled
        | DiagnosticCode::Discarded
        | DiagnosticCode::Overwritten
        | DiagnosticCode::CancelMisused
        | DiagnosticCode::LeftToLiveGroup => "context",
        DiagnosticCode::GroupIsLive
        | DiagnosticCode::GroupOverwritten
        | DiagnosticCode::GroupMisused => "errgroup",
        _ => "ctxvet",
    }
}

/// Whether the notes of such a diagnostic are the places of a way through a body.
pub fn tells_way(code: DiagnosticCode) -> bool
    ensures { result ≡ tells_way code }
{
    matches!(
        code,
        DiagnosticCode::NotCalled
            | DiagnosticCode::Overwritten
            | DiagnosticCode::GroupIsLive
            | DiagnosticCode::GroupOverwritten
            | DiagnosticCode::LeftToLiveGroup
    )
}

/// The rule at the place of a code's rule has the code's number, where the report has that code.
pub fn each_code_has_its_rule()
    ensures { (code : Code)
        → option_map code_number (slice_get (rule_codes Second) (rule_index code)) ≡ Some (code_number code) }
{}
