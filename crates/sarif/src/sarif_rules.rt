//! What a SARIF log says of the program, and of its rules.

ghost use Rattle.std.specs.Prelude.{◌≡◌, ◌++◌, false, true, map};
ghost use Rattle.report.specs.Writing.{refusals_after, IsWritten};
ghost use Rattle.report.specs.declared.codes.Wording.TheVariants.{Second};
ghost use Rattle.format_parts.specs.Pieces.{listed, members_listed};
ghost use Rattle.sarif.specs.SarifText.{detail_members, information_members, kind_members, rule_value, tool_members};
ghost use Rattle.serde_json.specs.Written.{comma_if, compact_text};

use crate::rule_help::{help_markdown, help_text, meaning};
use crate::rules::{level, rule_text, topic};
use crate::version::{INFORMATION_URI, VERSION};
use format_parts::FormatPiece::{Plain, Spelled};
use format_parts::Spelling::InString;
use format_parts::{comma, put_each};
use report::{DiagnosticCode, Sink, Wording, WriteFault, put_all};

/// Writes which program found the results.
pub fn write_tool<S: Sink>(wording: Wording, sink: &mut S) -> Result<(), WriteFault>
    ensures taken { IsWritten (members_listed true (tool_members wording))
        (S.taken sink.old) (S.taken sink.new) result }
    ensures refusals { S.refusals sink.new ≡ refusals_after (S.refusals sink.old) result }
{
    match wording {
        Wording::First => Ok(()),
        Wording::Second => write_version(sink),
    }
}

/// Writes the version of the program, and where more stands about it, if that is set.
fn write_version<S: Sink>(sink: &mut S) -> Result<(), WriteFault>
    ensures taken { IsWritten (members_listed true (tool_members Second))
        (S.taken sink.old) (S.taken sink.new) result }
    ensures refusals { S.refusals sink.new ≡ refusals_after (S.refusals sink.old) result }
{
    put_each(
        &[
            Plain(",\"version\":\""),
            Spelled(InString, VERSION),
            Plain("\",\"semanticVersion\":\""),
            Spelled(InString, VERSION),
            Plain("\""),
        ],
        sink,
    )?;
    write_information(INFORMATION_URI, sink)
}

/// Writes where more stands about the program, if that is set.
fn write_information<S: Sink>(uri: &str, sink: &mut S) -> Result<(), WriteFault>
    ensures taken { IsWritten (members_listed true (information_members uri.now))
        (S.taken sink.old) (S.taken sink.new) result }
    ensures refusals { S.refusals sink.new ≡ refusals_after (S.refusals sink.old) result }
{
    if uri.is_empty() {
        return Ok(());
    }
    put_each(
        &[
            Plain(",\"informationUri\":\""),
            Spelled(InString, uri),
            Plain("\""),
        ],
        sink,
    )
}

/// Of which kind the run is.
pub fn run_kind(wording: Wording) -> &'static str
    ensures { result.now ≡ members_listed true (kind_members wording) }
{
    match wording {
        Wording::First => "",
        Wording::Second => ",\"automationDetails\":{\"id\":\"ctxvet/\"}",
    }
}

/// Writes a rule for each of these codes.
pub fn write_rules<S: Sink>(
    wording: Wording,
    codes: &[DiagnosticCode],
    sink: &mut S,
) -> Result<(), WriteFault>
    ensures taken { IsWritten (listed false (map (rule_value wording) codes.now))
        (S.taken sink.old) (S.taken sink.new) result }
    ensures refusals { S.refusals sink.new ≡ refusals_after (S.refusals sink.old) result }
{
    let mut is_later = false;
    for code in codes {
        write_rule(wording, *code, is_later, sink)?;
        is_later = true;
    }
    Ok(())
}

fn write_rule<S: Sink>(
    wording: Wording,
    code: DiagnosticCode,
    is_later: bool,
    sink: &mut S,
) -> Result<(), WriteFault>
    ensures taken { IsWritten (comma_if is_later ++ compact_text (rule_value wording code))
        (S.taken sink.old) (S.taken sink.new) result }
    ensures refusals { S.refusals sink.new ≡ refusals_after (S.refusals sink.old) result }
{
    put_each(
        &[
            Plain(comma(is_later)),
            Plain("{\"id\":\""),
            Spelled(InString, code.number()),
            Plain("\",\"shortDescription\":{\"text\":\""),
            Spelled(InString, rule_text(wording, code)),
            Plain("\"}"),
        ],
        sink,
    )?;
    write_details(wording, code, sink)?;
    put_all(b"}", sink)
}

/// Writes what is said of a rule beside its text.
fn write_details<S: Sink>(
    wording: Wording,
    code: DiagnosticCode,
    sink: &mut S,
) -> Result<(), WriteFault>
    ensures taken { IsWritten (members_listed true (detail_members wording code))
        (S.taken sink.old) (S.taken sink.new) result }
    ensures refusals { S.refusals sink.new ≡ refusals_after (S.refusals sink.old) result }
{
    match wording {
        Wording::First => Ok(()),
        Wording::Second => write_help(code, sink),
    }
}

/// Writes the help for a code, how grave it is, and what it is about.
fn write_help<S: Sink>(code: DiagnosticCode, sink: &mut S) -> Result<(), WriteFault>
    ensures taken { IsWritten (members_listed true (detail_members Second code))
        (S.taken sink.old) (S.taken sink.new) result }
    ensures refusals { S.refusals sink.new ≡ refusals_after (S.refusals sink.old) result }
{
    put_each(
        &[
            Plain(",\"fullDescription\":{\"text\":\""),
            Spelled(InString, meaning(code)),
            Plain("\"},\"help\":{\"text\":\""),
            Spelled(InString, help_text(code)),
            Plain("\",\"markdown\":\""),
            Spelled(InString, help_markdown(code)),
            Plain("\"},\"defaultConfiguration\":{\"level\":\""),
            Spelled(InString, level(code)),
            Plain("\"},\"properties\":{\"tags\":[\"go\",\""),
            Spelled(InString, topic(code)),
            Plain("\"]}"),
        ],
        sink,
    )
}
