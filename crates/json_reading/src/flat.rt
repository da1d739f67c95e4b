//! Lists whose items go into one place.

ghost use Rattle.std.specs.Prelude.{◌≡◌, [], List, IfErr, IfOk, OnOk, Some};
ghost use Rattle.serde_json.specs.Data.{Data};
ghost use Rattle.serde_json.specs.View.{items_of};
ghost use Rattle.json_reading.specs.Standing.{items_at, value_at, ReadsList, Stops};

use crate::pass::pass_rest;
use crate::start::{Start, take_start};
use crate::stop::Stop;
use json::Reader;
use std::alloc::Global;

/// What the items of a list are added to, one by one.
pub trait AddItem {
    ghost use Rattle.std.specs.Prelude.{◌≡◌, ◌++◌, ◌∷◌, [], List, IfErr, OnOk, Some};
    ghost use Rattle.serde_json.specs.Data.{Data};
    ghost use Rattle.json_reading.specs.Standing.{value_at, Stops};

    // What holds of this once these items were added.
    ghost holds: { Self → List Data → Type 0 };

    /// Reads the next value as the item after those that were added. Lists and objects may nest `depth` deep.
    ///
    /// # Errors
    ///
    /// No value stands there, or memory was refused.
    fn add_item(&mut self, alloc: Global, reader: &mut Reader<'_>, depth: usize) -> Result<(), Stop>
        ensures ok { OnOk result ((value : Data) × (value_at depth reader.old ≡ Some (value, reader.new))
            × ((added : List Data) → holds self.old added → holds self.new (added ++ value ∷ []))) }
        ensures err { IfErr result (Stops (value_at depth reader.old)) };
}

/// Adds the items that are left of a list.
fn add_items<A: AddItem>(
    alloc: Global,
    items: &mut A,
    reader: &mut Reader<'_>,
    depth: usize,
) -> Result<(), Stop>
    ensures ok { OnOk result ((added : List Data)
        × (items_at depth reader.old ≡ Some (items_of added, reader.new))
        × (A.AddItem.holds items.old [] → A.AddItem.holds items.new added)) }
    ensures err { IfErr result (Stops (items_at depth reader.old)) }
{
    'items: while !reader.take_end_array() {
        items.add_item(alloc, reader, depth)?;
    }
    Ok(())
}

/// Adds the items of the next value; `false` where it is no list.
///
/// # Errors
///
/// No value stands there, or memory was refused.
pub fn add_list<A: AddItem>(
    alloc: Global,
    items: &mut A,
    reader: &mut Reader<'_>,
    depth: usize,
) -> Result<bool, Stop>
    ensures ok { IfOk result (λ is_list. ReadsList
        (A.AddItem.holds items.old) (A.AddItem.holds items.new)
        (value_at depth reader.old) reader.new is_list) }
    ensures err { IfErr result (Stops (value_at depth reader.old)) }
{
    let begun = take_start(reader, depth)?;
    if let Start::List = begun {
        if depth > 0 {
            add_items(alloc, items, reader, depth - 1)?;
            return Ok(true);
        }
    }
    pass_rest(reader, depth, begun)?;
    Ok(false)
}
