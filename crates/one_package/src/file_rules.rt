//! By what the files of a package are judged.

ghost use Rattle.std.specs.Prelude.{◌≡◌, ℕ, Bool, List, IfOk, Some, map, slice_get};
ghost use Rattle.one_package.specs.Certified.{CertificateRule};
ghost use Rattle.one_package.specs.Judgments.{TellsAround};
ghost use Rattle.one_package.specs.ToldPackages.{AreFoundFiles, IsToldPackage};
ghost use Rattle.called_parameters.specs.Called.{is_called};
ghost use Rattle.certificate_json.specs.Certificates.{body_of};
ghost use Rattle.whole_packages.specs.LoadedViews.{TellsPackage};
ghost use Rattle.meaning_reports.specs.Loaded.{LoadedPackage as MeantPackage, Tables};
ghost use Rattle.meaning_reports.specs.OneReport.{AreDetermined};
ghost use Rattle.meaning_reports.specs.PackageReports.{Rules};
ghost use Rattle.meaning_reports.specs.WholeFaults.{HasNoWholeFault};

use crate::hands::Hands;
use crate::judged::Around;
use crate::told_package::ToldPackage;
use called_parameters::Called;
use certificate_json::Body;
use report::Diagnostic;
use std::alloc::Global;
use whole_packages::LoadedPackage;

/// What is to be said of the files of a package, in no order, and which of their parameters its functions are known to
/// call.
#[derive(Drop)]
pub struct FoundFiles<'a> {
    pub diagnostics: Vec<Diagnostic<'a>>,
    pub called: Called<'a>,
    /// Certificates of the bodies, by rules that make some.
    pub certificates: Vec<Body>,
}

/// By what the files of a package are judged that has no fault as a whole.
pub trait FileRules {
    /// The rules, with what is declared of packages that are not given.
    ghost rules: { Self → Tables → Rules };

    ghost certificates: { Self → CertificateRule };

    /// Whether they have to be told of all files, and not only of those in which something may be found.
    ghost tells_all: { Self → Bool };

    /// Finds what is to be said of the files of such a package, which was told of, and which of their parameters its
    /// functions are known to call. Rules that make certificates of the bodies make them here, where the bodies are.
    /// These hands do it.
    ///
    /// # Errors
    ///
    /// Memory was refused, or what else keeps these hands from it.
    fn find<'a, H: Hands>(
        &self,
        alloc: Global,
        hands: &H,
        loaded: &'a LoadedPackage,
        told: &ToldPackage<'a>,
        around: Around<'_, 'a>,
    ) -> Result<FoundFiles<'a>, H::Fault>
        ensures files { IfOk result (λ found. (declared : Tables) (ps : List MeantPackage) (tables : Tables) (i : ℕ)
            (p : MeantPackage) → slice_get ps i ≡ Some p → TellsPackage p loaded.now
            → TellsAround ps tables p around.entry
            → IsToldPackage ps tables p (tells_all self.now) told.now
            → HasNoWholeFault ps i
            → AreFoundFiles (rules self.now declared) ps tables i p found) }
        ensures certified { IfOk result (λ found. (ps : List MeantPackage) (tables : Tables) (i : ℕ)
            (p : MeantPackage) → slice_get ps i ≡ Some p → TellsPackage p loaded.now
            → TellsAround ps tables p around.entry
            → IsToldPackage ps tables p (tells_all self.now) told.now
            → HasNoWholeFault ps i
            → certificates self.now ps tables p (is_called found.called) (map body_of found.certificates.items)) };

    /// Whether they have to be told of all files.
    fn tells_all(&self) -> bool
        ensures { result ≡ tells_all self.now };

    /// What is known of the packages that a package imports determines its flags by these rules, and what is declared
    /// by them is what they were given. It does nothing.
    fn are_determined(&self)
        ensures flags { (declared : Tables) → AreDetermined (rules self.now declared).are_flags }
        ensures declared { (declared : Tables) → (rules self.now declared).declared ≡ declared };
}

/// Who judges packages, and by what rules.
#[derive(Drop)]
pub struct Judges<'j, R, H> {
    pub rules: &'j R,
    pub hands: &'j H,
}
