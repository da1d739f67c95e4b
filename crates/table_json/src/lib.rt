//! Tables of facts as JSON: the text of a table, and the table of a text. What a table says is in `specs/Tables.antt`,
//! which values are those of a table in `specs/TableValues.antt`, and which texts, and why a text is none, in
//! `specs/TableTexts.antt`; what is written of a table in `specs/WrittenTables.antt`. The functions of a table stand in
//! other formats too, so what reads and writes these is offered beside.
#![tactic(auto)]

ghost use Rattle.table_json.specs.WrittenTables.{TablesInOrderAreWritten};

mod fault;
mod functions;
mod order;
mod parameters;
mod positions;
mod read;
mod table;
mod written;

pub use fault::TableFault;
pub use functions::{FunctionLists, FunctionMembers, Texts};
pub use order::are_distinct;
pub use parameters::Truths;
pub use positions::{Positions, fitting, if_fits};
pub use read::{from_json, known_version};
pub use table::{Function, OLDER_VERSION, Parameter, Table, VERSION, Version};
pub use written::{
    as_written, function_values, parameter_values, position_values, says_something, to_json,
};

/// A table that is in order, and tells something of each of its functions, is written as it stands.
pub fn tables_in_order_are_written_as_they_stand()
    ensures { TablesInOrderAreWritten }
{}
