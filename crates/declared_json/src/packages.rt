//! Packages, one by one, and those of a text.

ghost use Rattle.std.specs.Prelude.{◌≡◌, IfErr, IfOk, Some, map};
ghost use Rattle.serde_json.specs.Data.{Data};
ghost use Rattle.serde_json.specs.Read.{read};
ghost use Rattle.json_reading.specs.Standing.{Judges, Refutes, RefusesText};
ghost use Rattle.table_json.specs.TableTexts.{version_of};
ghost use Rattle.declared_json.specs.DeclaredPackages.{package_of};
ghost use Rattle.declared_json.specs.DeclaredValues.{IsOutsideValue};

use crate::functions::DeclaredLists;
use crate::order::are_apart;
use crate::outside::DeclaredPackage;
use json::Reader;
use json_reading::{ListOf, NoOthers, ReadItem, Stop, Under, read_made, read_versioned};
use std::alloc::Global;
use table_json::Texts;

/// The packages of a list.
#[derive(Clone, Copy, Drop)]
struct Packages;

impl ReadItem for Packages {
    ghost use Rattle.json_reading.specs.Standing.{Refutes};
    ghost use Rattle.declared_json.specs.DeclaredPackages.{package_of};
    ghost use Rattle.declared_json.specs.DeclaredValues.{IsPackageValue};

    type Item = DeclaredPackage;

    ghost is_item = { λ _ value kept. IsPackageValue value (package_of kept) };

    ghost is_none = { λ _. Refutes IsPackageValue };

    fn read_item(
        &self,
        alloc: Global,
        reader: &mut Reader<'_>,
        depth: usize,
    ) -> Result<Option<DeclaredPackage>, Stop> {
        let members = Under {
            key: "functions",
            values: &DeclaredLists,
            found: None,
            others: Under {
                key: "path",
                values: &Texts,
                found: None,
                others: NoOthers { are_none: true },
            },
        };
        match read_made(alloc, members, reader, depth)? {
            Some(found) => {
                let (functions, (path, _)) = found;
                Ok(Some(DeclaredPackage { path, functions }))
            }
            None => Ok(None),
        }
    }
}

/// The packages of a text, in the order in which they stand, reserved paths among them.
pub(crate) fn read_packages(alloc: Global, text: &str) -> Result<Option<Vec<DeclaredPackage>>, Stop>
    ensures ok { IfOk result (λ found. (value : Data) × (read text.now ≡ Some value)
        × Judges (λ v packages. version_of v ≡ Some 2 → IsOutsideValue v (map package_of packages.items))
        (Refutes IsOutsideValue) value found) }
    ensures err { IfErr result (RefusesText text.now) }
{
    let Some(packages) = read_versioned(alloc, "packages", &ListOf { items: &Packages }, text)?
    else {
        return Ok(None);
    };
    if are_apart(alloc, &packages)? {
        Ok(Some(packages))
    } else {
        Ok(None)
    }
}
