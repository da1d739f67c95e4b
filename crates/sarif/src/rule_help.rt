//! What is said of the rule of a code beside its text.

ghost use Rattle.std.specs.Prelude.{◌≡◌};
ghost use Rattle.sarif.specs.RuleHelp.{help_markdown, help_text, meaning};

use crate::help;
use report::DiagnosticCode;

/// What its findings say, in a sentence.
pub fn meaning(code: DiagnosticCode) -> &'static str
    ensures { result.now ≡ meaning code }
{
    match code {
        DiagnosticCode::Unreadable(_) => help::LC01_MEANING,
        DiagnosticCode::LeftOut(_) => help::LC02_MEANING,
        DiagnosticCode::Discarded => help::LC03_MEANING,
        DiagnosticCode::Overwritten => help::LC04_MEANING,
        DiagnosticCode::NotCalled => help::LC05_MEANING,
        DiagnosticCode::CancelMisused => help::LC06_MEANING,
        DiagnosticCode::GroupIsLive => help::LC07_MEANING,
        DiagnosticCode::GroupOverwritten => help::LC08_MEANING,
        DiagnosticCode::GroupMisused => help::LC09_MEANING,
        DiagnosticCode::LeftToLiveGroup => help::LC10_MEANING,
        DiagnosticCode::BoundAgain => help::LC11_MEANING,
        DiagnosticCode::TooMany => help::LC12_MEANING,
        DiagnosticCode::ImportIsNotYes => help::LC13_MEANING,
        DiagnosticCode::ImportHasNoRank => help::LC14_MEANING,
        DiagnosticCode::TwoFunctions => help::LC15_MEANING,
        DiagnosticCode::NoCertificate => help::LC16_MEANING,
        DiagnosticCode::AcceptsNothing => help::LC18_MEANING,
    }
}

/// The same at length, and the usual repair.
pub fn help_text(code: DiagnosticCode) -> &'static str
    ensures { result.now ≡ help_text code }
{
    match code {
        DiagnosticCode::Unreadable(_) => help::LC01_TEXT,
        DiagnosticCode::LeftOut(_) => help::LC02_TEXT,
        DiagnosticCode::Discarded => help::LC03_TEXT,
        DiagnosticCode::Overwritten => help::LC04_TEXT,
        DiagnosticCode::NotCalled => help::LC05_TEXT,
        DiagnosticCode::CancelMisused => help::LC06_TEXT,
        DiagnosticCode::GroupIsLive => help::LC07_TEXT,
        DiagnosticCode::GroupOverwritten => help::LC08_TEXT,
        DiagnosticCode::GroupMisused => help::LC09_TEXT,
        DiagnosticCode::LeftToLiveGroup => help::LC10_TEXT,
        DiagnosticCode::BoundAgain => help::LC11_TEXT,
        DiagnosticCode::TooMany => help::LC12_TEXT,
        DiagnosticCode::ImportIsNotYes => help::LC13_TEXT,
        DiagnosticCode::ImportHasNoRank => help::LC14_TEXT,
        DiagnosticCode::TwoFunctions => help::LC15_TEXT,
        DiagnosticCode::NoCertificate => help::LC16_TEXT,
        DiagnosticCode::AcceptsNothing => help::LC18_TEXT,
    }
}

/// The same in Markdown.
pub fn help_markdown(code: DiagnosticCode) -> &'static str
    ensures { result.now ≡ help_markdown code }
{
    match code {
        DiagnosticCode::Unreadable(_) => help::LC01_MARKDOWN,
        DiagnosticCode::LeftOut(_) => help::LC02_MARKDOWN,
        DiagnosticCode::Discarded => help::LC03_MARKDOWN,
        DiagnosticCode::Overwritten => help::LC04_MARKDOWN,
        DiagnosticCode::NotCalled => help::LC05_MARKDOWN,
        DiagnosticCode::CancelMisused => help::LC06_MARKDOWN,
        DiagnosticCode::GroupIsLive => help::LC07_MARKDOWN,
        DiagnosticCode::GroupOverwritten => help::LC08_MARKDOWN,
        DiagnosticCode::GroupMisused => help::LC09_MARKDOWN,
        DiagnosticCode::LeftToLiveGroup => help::LC10_MARKDOWN,
        DiagnosticCode::BoundAgain => help::LC11_MARKDOWN,
        DiagnosticCode::TooMany => help::LC12_MARKDOWN,
        DiagnosticCode::ImportIsNotYes => help::LC13_MARKDOWN,
        DiagnosticCode::ImportHasNoRank => help::LC14_MARKDOWN,
        DiagnosticCode::TwoFunctions => help::LC15_MARKDOWN,
        DiagnosticCode::NoCertificate => help::LC16_MARKDOWN,
        DiagnosticCode::AcceptsNothing => help::LC18_MARKDOWN,
    }
}
