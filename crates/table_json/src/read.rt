//! The table of a text.

ghost use Rattle.std.specs.Prelude.{◌≡◌, List, Some, IfErr, IfOk};
ghost use Rattle.serde_json.specs.Data.{Data};
ghost use Rattle.serde_json.specs.Read.{read};
ghost use Rattle.table_json.specs.declared.fault.TableFault.TheVariants.{OutOfMemory};
ghost use Rattle.table_json.specs.Parts.{IsTextVersionFault};
ghost use Rattle.table_json.specs.Tables.{Entry, entries_of, IsInOrder};
ghost use Rattle.table_json.specs.TableTexts.{version_of, IsTableFault, IsTableText};
ghost use Rattle.table_json.specs.TableValues.{number_of};

use crate::fault::TableFault;
use crate::functions::FunctionLists;
use crate::positions::fitting;
use crate::table::{OLDER_VERSION, Table, VERSION, Version};
use json_reading::{read_versioned, whole_number_under};
use std::alloc::Global;

/// The version of a text, one that is read. All of the text is gone over.
///
/// # Errors
///
/// The text is no JSON, or nests too deep: this is `TableFault::NotJson`. Its version is a whole number of at most 32
/// bits other than 1 and 2: this is `TableFault::WrongVersion`. Or it is missing or no such number: this is
/// `TableFault::WrongShape`. Or memory was refused.
pub fn known_version(alloc: Global, text: &str) -> Result<Version, TableFault>
    ensures ok { IfOk result (λ version. (value : Data) × (read text.now ≡ Some value)
        × (version_of value ≡ Some (number_of version))) }
    ensures err { IfErr result (IsTextVersionFault text.now) }
{
    let number = whole_number_under(alloc, "version", text)?;
    match fitting(number) {
        Some(VERSION) => Ok(Version::Newer),
        Some(OLDER_VERSION) => Ok(Version::Older),
        Some(_) => Err(TableFault::WrongVersion),
        None => Err(TableFault::WrongShape),
    }
}

/// The table of a text, in order: its functions by the bytes of their names, and the positions of each as they rise. In
/// the text the order of functions, positions and keys is free. A function without positions is kept, although a table
/// that is written has none. So what `to_json` writes of a table in order reads back as that table. A text of version 1
/// is read by the rules of that version, which has no causes. The text is gone over twice, first for its version.
///
/// # Errors
///
/// The text is no JSON; its version is missing or no whole number up to 4,294,967,295; it is another than 1 and 2; the
/// rest is no table of that version, as a key is missing or unknown, a value of another kind, a position above
/// 4,294,967,295, a function or a position comes twice, or a position stands in both `gives` and `causes`; or memory
/// was refused. This is the order in which it is looked for them. A text that is a table's is refused for want of
/// memory alone.
pub fn from_json(alloc: Global, text: &str) -> Result<Table, TableFault>
    ensures table { IfOk result (λ table. IsTableText text.now (entries_of table)) }
    ensures in_order { IfOk result (λ table. IsInOrder (entries_of table)) }
    ensures no_other { IfOk result
        (λ table. (other : List Entry) → IsTableText text.now other → other ≡ entries_of table) }
    ensures fault { IfErr result (IsTableFault text.now) }
    ensures only_memory { IfErr result
        (λ fault. (table : List Entry) → IsTableText text.now table → fault ≡ OutOfMemory) }
{
    let version = known_version(alloc, text)?;
    match read_versioned(alloc, "functions", &FunctionLists { version }, text)? {
        Some(functions) => Ok(Table { functions }),
        None => Err(TableFault::WrongShape),
    }
}
