//! What of a report is told, and in which words.

ghost use Rattle.std.specs.Prelude.{◌≡◌};
ghost use Rattle.accepting.specs.Findings.{accepted_view, finding_view};
ghost use Rattle.format_parts.specs.Told.{is_told, notes_told, reason_text, style_of};

use accepting::{Acceptance, Finding, Telling};
use report::{Note, Wording};

/// What of a report is told, and in which words.
#[derive(Clone, Copy, Debug)]
pub struct Style {
    pub wording: Wording,
    /// Findings that are accepted are told too, where the form has no other place for them.
    pub tells_accepted: bool,
    /// Of a package that is yes nothing is told, where the form is a text.
    pub is_quiet: bool,
    /// In JSON each finding has a list of its notes, be it empty.
    pub with_reasons: bool,
}

/// The style of a report that is told so, with the notes of findings or without.
pub fn style_of(telling: Telling<'_>, with_reasons: bool) -> Style
    ensures { result ≡ style_of telling.entry with_reasons }
{
    Style {
        wording: telling.wording,
        tells_accepted: telling.tells_accepted,
        is_quiet: telling.is_quiet,
        with_reasons,
    }
}

/// Whether the finding is told.
pub fn is_told(style: Style, finding: &Finding) -> bool
    ensures { result ≡ is_told style (finding_view finding.now) }
{
    style.tells_accepted || finding.acceptance.is_none()
}

/// The notes of the finding, if these are told.
pub fn notes_told<'f, 'a>(style: Style, finding: &'f Finding<'a>) -> &'f [Note<'a>]
    ensures { result.now ≡ notes_told style (finding_view finding.now) }
{
    if is_told(style, finding) {
        &finding.notes
    } else {
        &[]
    }
}

/// The reason for which a finding is accepted.
pub fn reason_text<'a>(acceptance: Acceptance<'a>) -> &'a [u8]
    ensures { result.now ≡ reason_text (accepted_view acceptance.entry) }
{
    match acceptance {
        Acceptance::ByLine(reason) => reason,
        Acceptance::ByBaseline => b"baseline",
    }
}
