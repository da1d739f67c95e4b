//! One package, judged by results of those that it imports.

ghost use Rattle.std.specs.Prelude.{◌≡◌, IfOk, Contains, map};
ghost use Rattle.imports.specs.Views.{text_views};
ghost use Rattle.one_package.specs.Results.{KnowsImports};
ghost use Rattle.package_workers.specs.Jobs.{IsJob};
ghost use Rattle.package_workers.specs.Naming.{Names};
ghost use Rattle.package_workers.specs.Results.{judged_of, Kept};

use crate::jobs::Job;
use crate::naming::Naming;
use crate::results::PackageResult;
use declared_json::DeclaredPackages;
use given_packages::Given;
use one_package::{FileRules, Judges, KnownImports, judge_package};
use package_pieces::ByHelpers;
use std::alloc::{AllocError, Global};
use std::sync::Wait;
use std::thread::Threads;
use workers::{Free, Helpers, PieceFault};

/// By what workers judge.
#[derive(Drop)]
pub struct Judging<'g, 'a, R> {
    pub given: &'g Given<'a>,
    /// What is declared of packages that are not given.
    pub outside: &'a DeclaredPackages,
    pub rules: &'g R,
}

/// What is known of a package's imports by results of these, and by what is declared of those that were not given.
fn known_of<'a, 'k, B: Naming>(
    alloc: Global,
    given: &'k Given<'a>,
    paths: &[&'a str],
    imported: &'k [PackageResult<'a, B>],
) -> Result<KnownImports<'a, 'k>, AllocError>
    ensures known { IfOk result (KnowsImports given.now (text_views paths.now) (map judged_of imported.now)) }
    ensures right { IfOk result (λ known. (k : Kept) → Contains imported.now k → B.told k.place k.judged) }
{
    let mut known = KnownImports::new(alloc);
    for one in imported {
        known.add(one.judged())?;
    }
    known.add_outside(given, paths)?;
    Ok(known)
}

/// Judges a package by results of its imports, by these helpers.
///
/// # Errors
///
/// Memory was refused, or else a thread could not be started.
pub fn judge<'a, R: FileRules, B: Naming, T: Threads + Wait>(
    alloc: Global,
    helpers: &Helpers<'_, T, Free>,
    judging: &Judging<'_, 'a, R>,
    job: &Job<'_, 'a, B>,
) -> Result<PackageResult<'a, B>, PieceFault>
    requires named { Names R.rules R.certificates judging.now B.packages B.rank B.told }
    requires job { IsJob B.packages judging.now.given.now.packages.now judging.now.given.now.lists.items job.now }
    ensures { IfOk result (λ r. r.place ≡ job.now.place) }
{
    judging.rules.are_determined();
    let imports = known_of(alloc, judging.given, &job.list.imports, &job.imported)?;
    let hands = ByHelpers { helpers };
    let by = Judges {
        rules: &*judging.rules,
        hands: &hands,
    };
    let judged = judge_package(alloc, judging.given, job.loaded, &imports, &by)?;
    Ok(PackageResult::new(alloc, job.place, judged)?)
}
