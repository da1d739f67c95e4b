//! The report of a text.

ghost use Rattle.std.specs.Prelude.{◌≡◌, IfErr, IfOk, map, option_map};
ghost use Rattle.baseline_json.specs.BaselineRead.{report_with};
ghost use Rattle.baseline_json.specs.BaselineTexts.{IsBaselineFault, IsBaselineText};
ghost use Rattle.baseline_json.specs.BaselineValues.{entries_of, entry_of, is_known};

use crate::baseline::{Baseline, BaselineFinding, FIRST_VERSION, SECOND_VERSION};
use crate::fault::BaselineFault;
use crate::packages::read_packages;
use json::Reader;
use json_reading::{ReadItem, ReadMember, Stop, pass_value, read_number, read_object, read_whole};
use std::alloc::Global;

/// What was read of the members of a report: of each `None` where it is missing or unfit.
#[derive(Drop)]
struct ReportMembers {
    findings: Option<Vec<BaselineFinding>>,
    version: Option<u64>,
}

impl ReadMember for ReportMembers {
    ghost use Rattle.std.specs.Prelude.{map, option_map};
    ghost use Rattle.baseline_json.specs.BaselineRead.{HasReportMembers};
    ghost use Rattle.baseline_json.specs.BaselineValues.{entry_of};

    ghost holds = { λ _ read. HasReportMembers (option_map (λ list. map entry_of list.items) read.findings)
        read.version };

    fn read_member(
        &mut self,
        alloc: Global,
        key: &str,
        reader: &mut Reader<'_>,
        depth: usize,
    ) -> Result<(), Stop> {
        if key == "packages" {
            self.findings = read_packages(alloc, reader, depth)?;
        } else if key == "version" {
            self.version = read_number(reader, depth)?;
        } else {
            pass_value(reader, depth)?;
        }
        Ok(())
    }
}

/// Whether reports of this version are read.
fn is_known(version: u64) -> bool
    ensures { result ≡ is_known version }
{
    version == FIRST_VERSION || version == SECOND_VERSION
}

/// The report of an object with such members.
#[tactic(auto, unfolding(crate::specs::BaselineRead::report_with))]
fn report_with(members: ReportMembers) -> Option<Baseline>
    ensures { option_map entries_of result
        ≡ report_with members.version (option_map (λ list. map entry_of list.items) members.findings) }
{
    if is_known(members.version?) {
        Some(Baseline {
            findings: members.findings?,
        })
    } else {
        None
    }
}

/// The report that a value is.
#[derive(Clone, Copy, Drop)]
struct Report;

impl ReadItem for Report {
    ghost use Rattle.std.specs.Prelude.{◌≡◌, None, Some};
    ghost use Rattle.baseline_json.specs.BaselineValues.{entries_of, report_in};

    type Item = Baseline;

    ghost is_item = { λ _ value found. report_in value ≡ Some (entries_of found) };

    ghost is_none = { λ _ value. report_in value ≡ None };

    fn read_item(
        &self,
        alloc: Global,
        reader: &mut Reader<'_>,
        depth: usize,
    ) -> Result<Option<Baseline>, Stop> {
        let mut members = ReportMembers {
            findings: None,
            version: None,
        };
        if read_object(alloc, &mut members, reader, depth)? {
            Ok(report_with(members))
        } else {
            Ok(None)
        }
    }
}

/// What the report found that a text is, in the order of the text: a report as `ctxvet check --format json` writes it.
/// Of the report `packages` and `version` count, of a package its `diagnostics`, and of a finding `file`, `code`,
/// `name` and `accepted`; other keys are passed over, and of equal keys the last counts. The text is gone over once.
///
/// # Errors
///
/// The text is no JSON, or it nests deeper than 127: this is `BaselineFault::NotJson`. It is JSON of no report: this is
/// `BaselineFault::WrongShape`. It is so where the text is no object, its `version` is not the whole number 1 or 2, its
/// `packages` are no list of objects with a list as `diagnostics`, or one of these is no object with strings as `file`,
/// `code` and `name`, or has an `accepted` that is no string. Or memory was refused. This is the order in which it is
/// looked for them.
pub fn from_json(alloc: Global, text: &str) -> Result<Baseline, BaselineFault>
    ensures entries { IfOk result (λ baseline. IsBaselineText text.now (entries_of baseline)) }
    ensures fault { IfErr result (IsBaselineFault text.now) }
{
    match read_whole(alloc, &Report, text)? {
        Some(baseline) => Ok(baseline),
        None => Err(BaselineFault::WrongShape),
    }
}
