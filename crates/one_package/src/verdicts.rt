//! Whether a package is yes.

ghost use Rattle.std.specs.Prelude.{◌≡◌};
ghost use Rattle.one_package.specs.Judgments.{is_yes};

use report::PackageReport;

/// Whether nothing is to be said of the package.
pub fn is_yes(report: &PackageReport) -> bool
    ensures { result ≡ is_yes report.now }
{
    report.is_yes()
}
