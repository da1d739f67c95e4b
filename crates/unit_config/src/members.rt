//! The members of a unit.

use crate::texts::{Texts, read_texts};
use crate::values::{read_bool, read_filled, read_strings};
use json::Reader;
use json_reading::{ReadMember, Stop, pass_value};
use std::alloc::Global;

/// What was read of the members of a unit: of each `None` where it is unfit, or missing and must not be.
#[derive(Drop)]
pub(crate) struct UnitMembers {
    pub id: Option<String>,
    pub folder: Option<String>,
    pub path: Option<String>,
    pub files: Option<Vec<String>>,
    pub imports: Option<Texts>,
    pub told: Option<Texts>,
    pub is_silent: Option<bool>,
    pub output: Option<String>,
}

impl UnitMembers {
    ghost use Rattle.serde_json.specs.Data.{no_members};
    ghost use Rattle.unit_config.specs.UnitRead.{HasMembers};

    /// Those of an object without members.
    pub fn new(alloc: Global) -> UnitMembers
        ensures { HasMembers result no_members }
    {
        UnitMembers {
            id: None,
            folder: None,
            path: None,
            files: Some(Vec::new(alloc)),
            imports: Some(Texts {
                entries: Vec::new(alloc),
            }),
            told: Some(Texts {
                entries: Vec::new(alloc),
            }),
            is_silent: Some(false),
            output: None,
        }
    }
}

impl ReadMember for UnitMembers {
    ghost use Rattle.unit_config.specs.UnitRead.{HasMembers};

    ghost holds = { λ _. HasMembers };

    fn read_member(
        &mut self,
        alloc: Global,
        key: &str,
        reader: &mut Reader<'_>,
        depth: usize,
    ) -> Result<(), Stop> {
        if key == "ID" {
            self.id = read_filled(alloc, reader, depth)?;
        } else if key == "Dir" {
            self.folder = read_filled(alloc, reader, depth)?;
        } else if key == "ImportPath" {
            self.path = read_filled(alloc, reader, depth)?;
        } else if key == "GoFiles" {
            self.files = read_strings(alloc, reader, depth)?;
        } else if key == "ImportMap" {
            self.imports = read_texts(alloc, reader, depth)?;
        } else if key == "PackageVetx" {
            self.told = read_texts(alloc, reader, depth)?;
        } else if key == "VetxOnly" {
            self.is_silent = read_bool(reader, depth)?;
        } else if key == "VetxOutput" {
            self.output = read_filled(alloc, reader, depth)?;
        } else {
            pass_value(reader, depth)?;
        }
        Ok(())
    }
}
