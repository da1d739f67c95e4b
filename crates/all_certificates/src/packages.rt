//! What is said of packages that were judged, and their certificates.

ghost use Rattle.std.specs.Prelude.{◌≡◌, ◌++◌, ◌∷◌, [], IfOk, OnOk, map};
ghost use Rattle.all_certificates.specs.KeptCertificates.{AddsPackage, AreFactsAt, AreMadeFrom};
ghost use Rattle.all_packages.specs.Reports.{report_in};
ghost use Rattle.certificate_json.specs.Certificates.{package_of, packages_of};
ghost use Rattle.table_json.specs.Tables.{entries_of};
ghost use Rattle.table_json.specs.declared.table.Version.TheVariants.{Newer};

use certificate_json::{Certificates, Package};
use one_package::Judged;
use plain_tables::package_table;
use report::PackageReport;
use std::alloc::{AllocError, Global};
use table_json::{Table, Version};
use whole_packages::LoadedPackage;

/// What is known of the functions of the package of that place, which was judged so.
fn facts_at(
    alloc: Global,
    packages: &[LoadedPackage],
    place: usize,
    judged: &Judged<'_>,
) -> Result<Table, AllocError>
    ensures { IfOk result (λ facts. AreFactsAt packages.now place judged.now (entries_of facts)) }
{
    match packages.get(place) {
        Some(loaded) => package_table(alloc, loaded, judged),
        None => Ok(Table {
            functions: Vec::new(alloc),
        }),
    }
}

/// Adds what is said of a package that was judged, and its certificates. Its place is the number of those before it.
fn add_package<'a>(
    alloc: Global,
    packages: &[LoadedPackage],
    judged: Judged<'a>,
    reports: &mut Vec<PackageReport<'a>>,
    certified: &mut Vec<Package>,
) -> Result<(), AllocError>
    ensures reports { OnOk result (reports.new.items ≡ reports.old.items ++ (report_in judged.entry ∷ [])) }
    ensures certified { OnOk result (AddsPackage packages.now judged.entry (map package_of certified.old.items)
        (map package_of certified.new.items)) }
{
    let facts = facts_at(alloc, packages, certified.len(), &judged)?;
    let Judged {
        report,
        certificates,
        ..
    } = judged;
    let path = String::from_str(alloc, report.path)?;
    reports.push(report)?;
    certified.push(Package {
        path,
        bodies: certificates,
        facts,
    })?;
    Ok(())
}

/// What is said of packages, and their certificates, each in their order.
#[derive(Drop)]
pub struct CertifiedPackages<'a> {
    pub reports: Vec<PackageReport<'a>>,
    pub certificates: Certificates,
}

/// What is said of these packages, which were judged so, and their certificates. Those of the bodies are moved.
///
/// # Errors
///
/// Memory was refused.
pub fn certified_packages<'a>(
    alloc: Global,
    packages: &[LoadedPackage],
    judged: Vec<Judged<'a>>,
) -> Result<CertifiedPackages<'a>, AllocError>
    ensures reports { IfOk result (λ certified. certified.reports.items ≡ map report_in judged.entry.items) }
    ensures version { IfOk result (λ certified. certified.certificates.version ≡ Newer) }
    ensures certified { IfOk result (λ certified. AreMadeFrom packages.now 0 judged.entry.items
        (packages_of certified.certificates)) }
{
    let mut reports = Vec::new(alloc);
    let mut certified = Vec::new(alloc);
    for one in judged {
        add_package(alloc, packages, one, &mut reports, &mut certified)?;
    }
    Ok(CertifiedPackages {
        reports,
        certificates: Certificates {
            version: Version::Newer,
            packages: certified,
        },
    })
}
