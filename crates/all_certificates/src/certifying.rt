//! The files of a package by the paths of their bodies, each of which gets its certificate.

ghost use Rattle.std.specs.Prelude.{true};
ghost use Rattle.all_certificates.specs.CertifiedPackages.{are_of_bodies};
ghost use Rattle.meaning_reports.specs.PackageReports.{by_paths};

use crate::files::CertifyingBodies;
use calls_flags::KnownCalls;
use one_package::{Around, FileRules, FoundFiles, Hands, JudgedBodies, ToldPackage, judge_bodies};
use std::alloc::Global;
use whole_packages::LoadedPackage;

/// Files are judged by the paths of their bodies. Each body gets its least certificate while it is there, also where
/// nothing is to be found in it: so all files have to be told of.
#[derive(Clone, Copy)]
pub struct Certifying;

impl FileRules for Certifying {
    ghost rules = { λ all. by_paths };

    ghost certificates = { λ all. are_of_bodies };

    ghost tells_all = { λ all. true };

    fn find<'a, H: Hands>(
        &self,
        alloc: Global,
        hands: &H,
        _loaded: &'a LoadedPackage,
        told: &ToldPackage<'a>,
        around: Around<'_, 'a>,
    ) -> Result<FoundFiles<'a>, H::Fault> {
        let JudgedBodies {
            files,
            diagnostics,
            called,
        } = judge_bodies(alloc, hands, told, around)?;
        let calls = KnownCalls {
            own: &called,
            imported: around.calls,
        };
        let certifying = CertifyingBodies {
            files: &files,
            calls,
        };
        let certificates = hands.work(alloc, &certifying)?;
        Ok(FoundFiles {
            diagnostics,
            called,
            certificates,
        })
    }

    fn tells_all(&self) -> bool {
        true
    }

    fn are_determined(&self) {}
}
