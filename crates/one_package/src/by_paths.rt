//! The files of a package by the paths of their bodies.

ghost use Rattle.std.specs.Prelude.{◌≡◌, ℕ, Bool, false, List, IfOk, Some, slice_get};
ghost use Rattle.one_package.specs.Certified.{no_certificates};
ghost use Rattle.one_package.specs.Judgments.{TellsAround};
ghost use Rattle.one_package.specs.ToldPackages.{AreJudgedBodies, IsToldPackage};
ghost use Rattle.meaning_reports.specs.Loaded.{LoadedPackage as MeantPackage, Tables};
ghost use Rattle.meaning_reports.specs.PackageReports.{by_paths};
ghost use Rattle.meaning_reports.specs.WholeFaults.{HasNoWholeFault};

use crate::file_rules::{FileRules, FoundFiles};
use crate::hands::Hands;
use crate::judged::Around;
use crate::told_package::{PackageBodies, ToldPackage, package_bodies};
use called_parameters::Called;
use calls_flags::{FileBodies, KnownCalls};
use report::Diagnostic;
use std::alloc::Global;
use whole_packages::LoadedPackage;

/// The bodies of a package's files, what is to be said of the files by the paths of these, in no order, and which of
/// their parameters its functions are known to call.
#[derive(Drop)]
pub struct JudgedBodies<'e, 'a> {
    pub files: Vec<FileBodies<'e, 'a>>,
    pub diagnostics: Vec<Diagnostic<'a>>,
    pub called: Called<'a>,
}

/// Makes the bodies of a package that was told of, and judges its files by the paths of these.
///
/// # Errors
///
/// Memory was refused, or what else keeps these hands from it.
pub fn judge_bodies<'e, 'a, H: Hands>(
    alloc: Global,
    hands: &H,
    told: &'e ToldPackage<'a>,
    around: Around<'_, 'a>,
) -> Result<JudgedBodies<'e, 'a>, H::Fault>
    ensures { IfOk result (λ bodies. (ps : List MeantPackage) (tables : Tables) (i : ℕ) (p : MeantPackage)
        (all : Bool) (is : IsToldPackage ps tables p all told.now)
        → slice_get ps i ≡ Some p → TellsAround ps tables p around.entry
        → HasNoWholeFault ps i
        → AreJudgedBodies ps tables i p is.walked bodies) }
{
    let PackageBodies { files, called } = package_bodies(alloc, hands, told, around.calls)?;
    let calls = KnownCalls {
        own: &called,
        imported: around.calls,
    };
    let diagnostics = hands.faults(alloc, &files, calls)?;
    Ok(JudgedBodies {
        files,
        diagnostics,
        called,
    })
}

/// Files are judged by the paths of their bodies: what is said are use faults, and faults of paths and passes.
#[derive(Clone, Copy)]
pub struct ByPaths;

impl FileRules for ByPaths {
    ghost rules = { λ all. by_paths };

    ghost certificates = { λ all. no_certificates };

    ghost tells_all = { λ all. false };

    fn find<'a, H: Hands>(
        &self,
        alloc: Global,
        hands: &H,
        _loaded: &'a LoadedPackage,
        told: &ToldPackage<'a>,
        around: Around<'_, 'a>,
    ) -> Result<FoundFiles<'a>, H::Fault> {
        let JudgedBodies {
            diagnostics,
            called,
            ..
        } = judge_bodies(alloc, hands, told, around)?;
        Ok(FoundFiles {
            diagnostics,
            called,
            certificates: Vec::new(alloc),
        })
    }

    fn tells_all(&self) -> bool {
        false
    }

    fn are_determined(&self) {}
}
