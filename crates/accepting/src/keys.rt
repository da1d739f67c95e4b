//! Keys of findings, and how many of each are left.

ghost use Rattle.std.specs.Prelude.{◌≡◌, IfOk, OnOk, nat_lt, slice_get};
ghost use Rattle.baseline_json.specs.BaselineValues.{entry_of};
ghost use Rattle.report.specs.ReportText.{name_of};
ghost use Rattle.accepting.specs.ByBaseline.{Key, key_in, key_of};
ghost use Rattle.accepting.specs.Findings.{finding_view};
ghost use Rattle.accepting.specs.KeptKeys.{key_view, left_after, left_of, one_less, one_more};

use crate::findings::Finding;
use baseline_json::BaselineFinding;
use indexmap::IndexMap;
use lexer::Source;
use std::alloc::{AllocError, Global};

/// By what a finding is found in the report of an earlier run: the name of its file, its code, and its name.
#[derive(Clone, Copy, PartialEq, Eq, Hash)]
pub struct FindingKey<'k> {
    pub file: &'k str,
    pub code: &'k str,
    pub name: &'k str,
}

/// That of a finding of an earlier run.
pub fn key_in(finding: &BaselineFinding) -> FindingKey<'_>
    ensures { key_view result ≡ key_in (entry_of finding.now) }
{
    FindingKey {
        file: finding.file.as_str(),
        code: finding.code.as_str(),
        name: finding.name.as_str(),
    }
}

/// The name of a source of this number. One that is not there has the name `-`.
fn name_of(sources: &[Source], file: usize) -> &str
    ensures { result.now ≡ name_of (slice_get sources.now file) }
{
    match sources.get(file) {
        Some(source) => source.name.as_str(),
        None => "-",
    }
}

/// That of a finding of a package with these sources.
pub fn key_of<'a>(sources: &'a [Source], finding: &Finding<'a>) -> FindingKey<'a>
    ensures { key_view result ≡ key_of sources.now (finding_view finding.now) }
{
    let said = finding.diagnostic;
    FindingKey {
        file: name_of(sources, said.file),
        code: said.code.number(),
        name: said.name,
    }
}

/// How many findings of each key are left.
#[derive(Drop)]
pub struct KeyCounts<'k> {
    counts: IndexMap<FindingKey<'k>, usize>,
}

impl<'k> KeyCounts<'k> {
    /// None of any key.
    pub fn new(alloc: Global) -> Self
        ensures { (key : Key) → left_of result key ≡ 0 }
    {
        KeyCounts {
            counts: IndexMap::new(alloc),
        }
    }

    /// How many of this key are left.
    fn left(&self, key: FindingKey<'_>) -> usize
        ensures { result ≡ left_of self.now (key_view key.entry) }
    {
        match self.counts.get(&key) {
            Some(left) => *left,
            None => 0,
        }
    }

    /// One more of this key, where a `usize` can count it.
    ///
    /// # Errors
    ///
    /// Memory was refused.
    pub fn add(&mut self, key: FindingKey<'k>) -> Result<(), AllocError>
        ensures { OnOk result ((k : Key) → left_of self.new k ≡ left_after one_more self.old (key_view key.entry) k) }
    {
        let left = self.left(key);
        self.counts.insert(key, left.saturating_add(1))?;
        Ok(())
    }

    /// One less of this key, if one is left; gives whether one was.
    ///
    /// # Errors
    ///
    /// Memory was refused.
    pub fn take(&mut self, key: FindingKey<'k>) -> Result<bool, AllocError>
        ensures was { IfOk result (λ was. was ≡ nat_lt 0 (left_of self.old (key_view key.entry))) }
        ensures left { OnOk result ((k : Key)
            → left_of self.new k ≡ left_after one_less self.old (key_view key.entry) k) }
    {
        let left = self.left(key);
        if left == 0 {
            return Ok(false);
        }
        self.counts.insert(key, left - 1)?;
        Ok(true)
    }
}
