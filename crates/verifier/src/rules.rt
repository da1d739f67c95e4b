//! The rules of `verify` for the files of a package.

ghost use Rattle.std.specs.Prelude.{true};
ghost use Rattle.one_package.specs.Certified.{no_certificates};
ghost use Rattle.verifier.specs.GivenViews.{given_by};
ghost use Rattle.verifier.specs.Rules.{by_certificates};

use crate::bare_files::bare_files;
use crate::by_certificates::ByCertificates;
use crate::claimed::find_claimed;
use crate::given::given_package;
use crate::said::find_said;
use calls_flags::KnownCalls;
use one_package::{Around, FileRules, FoundFiles, Hands, ToldPackage};
use std::alloc::Global;
use whole_packages::LoadedPackage;

impl FileRules for ByCertificates<'_> {
    ghost rules = { λ by. by_certificates (given_by by) };

    ghost certificates = { λ by. no_certificates };

    ghost tells_all = { λ by. true };

    /// One thread looks at the certificates of a package: it has to search for nothing.
    fn find<'a, H: Hands>(
        &self,
        alloc: Global,
        _hands: &H,
        loaded: &'a LoadedPackage,
        told: &ToldPackage<'a>,
        around: Around<'_, 'a>,
    ) -> Result<FoundFiles<'a>, H::Fault> {
        let given = given_package(alloc, self.of(loaded.path.as_str()))?;
        let files = bare_files(alloc, &told.files)?;
        let called = find_claimed(alloc, &told.signatures, &given, &files)?;
        let calls = KnownCalls {
            own: &called,
            imported: around.calls,
        };
        let diagnostics = find_said(alloc, &given, calls, &files)?;
        Ok(FoundFiles {
            diagnostics,
            called,
            certificates: Vec::new(alloc),
        })
    }

    /// Each body has to have its certificate.
    fn tells_all(&self) -> bool {
        true
    }

    fn are_determined(&self) {}
}
