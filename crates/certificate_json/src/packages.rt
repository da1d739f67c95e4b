//! Packages, one by one, and those of a text.

ghost use Rattle.std.specs.Prelude.{◌≡◌, IfErr, IfOk, Some, map};
ghost use Rattle.serde_json.specs.Data.{Data};
ghost use Rattle.serde_json.specs.Read.{read};
ghost use Rattle.json_reading.specs.Standing.{Judges, Refutes, RefusesText};
ghost use Rattle.table_json.specs.TableTexts.{version_of};
ghost use Rattle.table_json.specs.TableValues.{number_of};
ghost use Rattle.certificate_json.specs.Certificates.{package_of};
ghost use Rattle.certificate_json.specs.CertificateValues.{AreCertificatesIn};

use crate::bodies::BodyLists;
use crate::certificates::Package;
use crate::order::are_apart;
use json::Reader;
use json_reading::{ListOf, NoOthers, ReadItem, Stop, Under, read_made, read_versioned};
use std::alloc::Global;
use table_json::{FunctionLists, Table, Texts, Version};

/// The packages of a list, in this version.
#[derive(Clone, Copy, Drop)]
struct Packages {
    version: Version,
}

impl ReadItem for Packages {
    ghost use Rattle.json_reading.specs.Standing.{Refutes};
    ghost use Rattle.certificate_json.specs.Certificates.{package_of};
    ghost use Rattle.certificate_json.specs.CertificateValues.{IsPackageIn};

    type Item = Package;

    ghost is_item = { λ packages value kept. IsPackageIn packages.version value (package_of kept) };

    ghost is_none = { λ packages. Refutes (IsPackageIn packages.version) };

    fn read_item(
        &self,
        alloc: Global,
        reader: &mut Reader<'_>,
        depth: usize,
    ) -> Result<Option<Package>, Stop> {
        let functions = FunctionLists {
            version: self.version,
        };
        let members = Under {
            key: "bodies",
            values: &BodyLists,
            found: None,
            others: Under {
                key: "facts",
                values: &functions,
                found: None,
                others: Under {
                    key: "path",
                    values: &Texts,
                    found: None,
                    others: NoOthers { are_none: true },
                },
            },
        };
        match read_made(alloc, members, reader, depth)? {
            Some(found) => {
                let (bodies, (functions, (path, _))) = found;
                let facts = Table { functions };
                Ok(Some(Package {
                    path,
                    bodies,
                    facts,
                }))
            }
            None => Ok(None),
        }
    }
}

/// The packages of a text in this version, in the order in which they stand.
pub(crate) fn read_packages(
    alloc: Global,
    version: Version,
    text: &str,
) -> Result<Option<Vec<Package>>, Stop>
    ensures ok { IfOk result (λ found. (value : Data) × (read text.now ≡ Some value)
        × Judges (λ v packages. version_of v ≡ Some (number_of version)
        → AreCertificatesIn version v (map package_of packages.items))
        (Refutes (AreCertificatesIn version)) value found) }
    ensures err { IfErr result (RefusesText text.now) }
{
    let items = Packages { version };
    let Some(packages) = read_versioned(alloc, "packages", &ListOf { items: &items }, text)? else {
        return Ok(None);
    };
    if are_apart(alloc, &packages)? {
        Ok(Some(packages))
    } else {
        Ok(None)
    }
}
