//! One value of a list.

ghost use Rattle.std.specs.Prelude.{◌≡◌, Bool, List, ℕ, Option, IfErr, IfOk, map, option_map, string_bytes};
ghost use Rattle.serde_json.specs.Data.{Data};
ghost use Rattle.package_list.specs.ListedValues.{import_of, package_in, package_of};
ghost use Rattle.package_list.specs.ListRead.{package_with, RefusesPiece};
ghost use Rattle.package_list.specs.ListTexts.{IsJsonOf};

use crate::members::PackageMembers;
use crate::package::{ListedImport, ListedPackage};
use crate::strings::both_lists;
use json::Reader;
use json_reading::{ReadItem, Stop, read_object, read_whole};
use std::alloc::Global;

/// The package of an object with such members.
#[tactic(auto, unfolding(crate::specs::ListRead::package_with))]
fn package_with(
    path: Option<String>,
    folder: Option<String>,
    files: Option<Vec<String>>,
    module_path: Option<Option<String>>,
    incomplete: Option<bool>,
    dep_only: Option<bool>,
    imports: Option<Vec<ListedImport>>,
) -> Option<ListedPackage>
    ensures { option_map package_of result ≡ package_with (option_map string_bytes path)
        (option_map string_bytes folder) (option_map (λ list. map string_bytes list.items) files)
        (option_map (option_map string_bytes) module_path) incomplete dep_only
        (option_map (λ list. map import_of list.items) imports) }
{
    Some(ListedPackage {
        path: path?,
        folder: folder?,
        files: files?,
        module: module_path?,
        incomplete: incomplete?,
        dep_only: dep_only?,
        imports: imports?,
    })
}

/// The package that a value is.
#[derive(Clone, Copy, Drop)]
struct Package;

impl ReadItem for Package {
    ghost use Rattle.std.specs.Prelude.{◌≡◌, None, Some};
    ghost use Rattle.package_list.specs.ListedValues.{package_in, package_of};

    type Item = ListedPackage;

    ghost is_item = { λ _ value found. package_in value ≡ Some (package_of found) };

    ghost is_none = { λ _ value. package_in value ≡ None };

    fn read_item(
        &self,
        alloc: Global,
        reader: &mut Reader<'_>,
        depth: usize,
    ) -> Result<Option<ListedPackage>, Stop> {
        let mut members = PackageMembers::new(alloc);
        if !read_object(alloc, &mut members, reader, depth)? {
            return Ok(None);
        }
        let files = both_lists(members.go_files, members.cgo_files)?;
        Ok(package_with(
            members.path,
            members.folder,
            files,
            members.module_path,
            members.incomplete,
            members.dep_only,
            members.imports,
        ))
    }
}

/// Reads one value of a list; `None` where it is that of no package. Nothing but the package is kept of it.
///
/// # Errors
///
/// It is not UTF-8 or no JSON, or memory was refused.
pub(crate) fn read_piece(alloc: Global, piece: &[u8]) -> Result<Option<ListedPackage>, Stop>
    ensures ok { IfOk result (λ found. (value : Data) × IsJsonOf piece.now value
        × (option_map package_of found ≡ package_in value)) }
    ensures err { IfErr result (RefusesPiece piece.now) }
{
    match str::from_utf8(piece) {
        Ok(text) => read_whole(alloc, &Package, text),
        Err(_) => Err(Stop::NotJson),
    }
}
