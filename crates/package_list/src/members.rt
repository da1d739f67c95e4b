//! The members of a package.

use crate::import_map::read_imports;
use crate::package::ListedImport;
use crate::strings::{read_bool, read_filled, read_module, read_strings};
use json::Reader;
use json_reading::{ReadMember, Stop, pass_value};
use std::alloc::Global;

/// What was read of the members of a package: of each `None` where it is unfit, or missing and must not be.
#[derive(Drop)]
pub(crate) struct PackageMembers {
    pub path: Option<String>,
    pub folder: Option<String>,
    pub go_files: Option<Vec<String>>,
    pub cgo_files: Option<Vec<String>>,
    /// The path of the module, where there is one.
    pub module_path: Option<Option<String>>,
    pub incomplete: Option<bool>,
    pub dep_only: Option<bool>,
    pub imports: Option<Vec<ListedImport>>,
}

impl PackageMembers {
    ghost use Rattle.serde_json.specs.Data.{no_members};
    ghost use Rattle.package_list.specs.ListRead.{HasMembers};

    /// Those of an object without members.
    pub fn new(alloc: Global) -> PackageMembers
        ensures { HasMembers result no_members }
    {
        PackageMembers {
            path: None,
            folder: None,
            go_files: Some(Vec::new(alloc)),
            cgo_files: Some(Vec::new(alloc)),
            module_path: Some(None),
            incomplete: Some(false),
            dep_only: Some(false),
            imports: Some(Vec::new(alloc)),
        }
    }
}

impl ReadMember for PackageMembers {
    ghost use Rattle.package_list.specs.ListRead.{HasMembers};

    ghost holds = { λ _. HasMembers };

    fn read_member(
        &mut self,
        alloc: Global,
        key: &str,
        reader: &mut Reader<'_>,
        depth: usize,
    ) -> Result<(), Stop> {
        if key == "ImportPath" {
            self.path = read_filled(alloc, reader, depth)?;
        } else if key == "Dir" {
            self.folder = read_filled(alloc, reader, depth)?;
        } else if key == "GoFiles" {
            self.go_files = read_strings(alloc, reader, depth)?;
        } else if key == "CgoFiles" {
            self.cgo_files = read_strings(alloc, reader, depth)?;
        } else if key == "Module" {
            self.module_path = read_module(alloc, reader, depth)?;
        } else if key == "Incomplete" {
            self.incomplete = read_bool(reader, depth)?;
        } else if key == "DepOnly" {
            self.dep_only = read_bool(reader, depth)?;
        } else if key == "ImportMap" {
            self.imports = read_imports(alloc, reader, depth)?;
        } else {
            pass_value(reader, depth)?;
        }
        Ok(())
    }
}
