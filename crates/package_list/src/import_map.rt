//! What import paths mean.

ghost use Rattle.std.specs.Prelude.{◌≡◌, IfErr, IfOk, map, option_map};
ghost use Rattle.json_reading.specs.Standing.{value_at, Stops};
ghost use Rattle.package_list.specs.ListedValues.{import_of, imports_under};
ghost use Rattle.package_list.specs.ListRead.{all_told, kept_text, ReadsIn};

use crate::package::ListedImport;
use crate::strings::read_string;
use json::Reader;
use json_reading::{ReadMember, Stop, read_object};
use std::alloc::{AllocError, Global};
use std::collections::BTreeMap;

/// What was read of the members of an object of strings: under each key the string, if it is one.
#[derive(Drop)]
struct ImportMembers {
    texts: BTreeMap<String, Option<String>>,
}

impl ReadMember for ImportMembers {
    ghost use Rattle.std.specs.Prelude.{◌≡◌, map};
    ghost use Rattle.package_list.specs.ListRead.{kept_text, texts_there};

    ghost holds = { λ _ read ms. map kept_text read.texts.entries ≡ texts_there ms };

    fn read_member(
        &mut self,
        alloc: Global,
        key: &str,
        reader: &mut Reader<'_>,
        depth: usize,
    ) -> Result<(), Stop> {
        let key = String::from_str(alloc, key)?;
        let text = read_string(alloc, reader, depth)?;
        if self.texts.insert(key, text).is_err() {
            return Err(Stop::OutOfMemory);
        }
        Ok(())
    }
}

/// What these say of import paths; `None` where one is no string.
fn imports_of(
    alloc: Global,
    texts: BTreeMap<String, Option<String>>,
) -> Result<Option<Vec<ListedImport>>, AllocError>
    ensures { IfOk result (λ found. option_map (λ list. map import_of list.items) found
        ≡ all_told (map kept_text texts.entries)) }
{
    let mut imports = Vec::new(alloc);
    for (written, text) in texts {
        let Some(meant) = text else {
            return Ok(None);
        };
        imports.push(ListedImport { written, meant })?;
    }
    Ok(Some(imports))
}

/// Reads the next value as what import paths mean; `None` where it says nothing of the kind.
pub(crate) fn read_imports(
    alloc: Global,
    reader: &mut Reader<'_>,
    depth: usize,
) -> Result<Option<Vec<ListedImport>>, Stop>
    ensures ok { IfOk result (λ found. ReadsIn (λ value. imports_under (Some value)) (value_at depth reader.old)
        reader.new (option_map (λ list. map import_of list.items) found)) }
    ensures err { IfErr result (Stops (value_at depth reader.old)) }
{
    let mut members = ImportMembers {
        texts: BTreeMap::new(alloc),
    };
    if !read_object(alloc, &mut members, reader, depth)? {
        return Ok(None);
    }
    Ok(imports_of(alloc, members.texts)?)
}
