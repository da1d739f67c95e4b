//! Packages, whose findings go into one list.

ghost use Rattle.std.specs.Prelude.{◌≡◌, IfErr, IfOk, map, option_map};
ghost use Rattle.json_reading.specs.Standing.{value_at, Stops};
ghost use Rattle.baseline_json.specs.BaselineRead.{both_lists, ReadsIn};
ghost use Rattle.baseline_json.specs.BaselineValues.{entry_of, package_in, packages_in};

use crate::baseline::BaselineFinding;
use crate::findings::read_findings;
use json::Reader;
use json_reading::{AddItem, ReadMember, Stop, add_list, pass_value, read_object};
use std::alloc::{AllocError, Global};

/// What was read of the members of a package: `None` where there are no findings.
#[derive(Drop)]
struct PackageMembers {
    findings: Option<Vec<BaselineFinding>>,
}

impl ReadMember for PackageMembers {
    ghost use Rattle.std.specs.Prelude.{◌≡◌, codes, map, option_map};
    ghost use Rattle.serde_json.specs.Find.{get_member};
    ghost use Rattle.baseline_json.specs.BaselineValues.{entry_of, findings_under};

    ghost holds = { λ _ read ms. option_map (λ list. map entry_of list.items) read.findings
        ≡ findings_under (get_member (codes "diagnostics") ms) };

    fn read_member(
        &mut self,
        alloc: Global,
        key: &str,
        reader: &mut Reader<'_>,
        depth: usize,
    ) -> Result<(), Stop> {
        if key == "diagnostics" {
            self.findings = read_findings(alloc, reader, depth)?;
        } else {
            pass_value(reader, depth)?;
        }
        Ok(())
    }
}

/// Reads the next value as a package, of which the findings are kept; `None` where it is none.
fn read_package(
    alloc: Global,
    reader: &mut Reader<'_>,
    depth: usize,
) -> Result<Option<Vec<BaselineFinding>>, Stop>
    ensures ok { IfOk result (λ found. ReadsIn package_in (value_at depth reader.old) reader.new
        (option_map (λ list. map entry_of list.items) found)) }
    ensures err { IfErr result (Stops (value_at depth reader.old)) }
{
    let mut members = PackageMembers { findings: None };
    if read_object(alloc, &mut members, reader, depth)? {
        Ok(members.findings)
    } else {
        Ok(None)
    }
}

/// Findings and then others, where both are there.
fn both_lists(
    first: Option<Vec<BaselineFinding>>,
    second: Option<Vec<BaselineFinding>>,
) -> Result<Option<Vec<BaselineFinding>>, AllocError>
    ensures { IfOk result (λ both. option_map (λ list. map entry_of list.items) both
        ≡ both_lists (option_map (λ list. map entry_of list.items) first)
        (option_map (λ list. map entry_of list.items) second)) }
{
    let Some(mut findings) = first else {
        return Ok(None);
    };
    let Some(mut others) = second else {
        return Ok(None);
    };
    findings.append(&mut others)?;
    Ok(Some(findings))
}

/// The findings of the packages that were read, package by package; `None` once one of them was no package.
#[derive(Drop)]
struct AllFindings {
    found: Option<Vec<BaselineFinding>>,
}

impl AddItem for AllFindings {
    ghost use Rattle.std.specs.Prelude.{◌≡◌, map, option_map};
    ghost use Rattle.serde_json.specs.View.{items_of};
    ghost use Rattle.baseline_json.specs.BaselineValues.{entry_of, packages_of};

    ghost holds = { λ all values. option_map (λ list. map entry_of list.items) all.found
        ≡ packages_of (items_of values) };

    fn add_item(
        &mut self,
        alloc: Global,
        reader: &mut Reader<'_>,
        depth: usize,
    ) -> Result<(), Stop> {
        let findings = read_package(alloc, reader, depth)?;
        self.found = both_lists(self.found.take(), findings)?;
        Ok(())
    }
}

/// Reads the next value as a list of packages, of which the findings are kept; `None` where it is none.
pub(crate) fn read_packages(
    alloc: Global,
    reader: &mut Reader<'_>,
    depth: usize,
) -> Result<Option<Vec<BaselineFinding>>, Stop>
    ensures ok { IfOk result (λ found. ReadsIn packages_in (value_at depth reader.old) reader.new
        (option_map (λ list. map entry_of list.items) found)) }
    ensures err { IfErr result (Stops (value_at depth reader.old)) }
{
    let mut all = AllFindings {
        found: Some(Vec::new(alloc)),
    };
    if add_list(alloc, &mut all, reader, depth)? {
        Ok(all.found)
    } else {
        Ok(None)
    }
}
