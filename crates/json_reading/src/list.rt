//! Lists whose items are kept one by one.

ghost use Rattle.std.specs.Prelude.{IfErr, IfOk, option_map};
ghost use Rattle.json_reading.specs.Standing.{items_at, value_at, IsListOf, IsNoList, ReadsAs, ReadsItems, Stops};

use crate::pass::pass_rest;
use crate::start::{Start, take_start};
use crate::stop::Stop;
use json::Reader;
use std::alloc::Global;

/// What reads the items of a list, one by one.
pub trait ReadItem {
    ghost use Rattle.std.specs.Prelude.{IfErr, IfOk};
    ghost use Rattle.serde_json.specs.Data.{Data};
    ghost use Rattle.json_reading.specs.Standing.{value_at, ReadsAs, Stops};

    /// What an item is read as.
    type Item: Drop;

    // The value is read as this.
    ghost is_item: { Self → Data → Self.Item → Type 0 };

    // The value is no such item.
    ghost is_none: { Self → Data → Type 0 };

    /// Reads the next value, of which nothing is left then; `None` where it is no such item. Lists and objects may nest
    /// `depth` deep.
    ///
    /// # Errors
    ///
    /// No value stands there, or memory was refused.
    fn read_item(
        &self,
        alloc: Global,
        reader: &mut Reader<'_>,
        depth: usize,
    ) -> Result<Option<Self::Item>, Stop>
        ensures ok { IfOk result (ReadsAs (is_item self.now) (is_none self.now)
            (value_at depth reader.old) reader.new) }
        ensures err { IfErr result (Stops (value_at depth reader.old)) };
}

/// Reads the items that are left of a list.
fn read_items<R: ReadItem>(
    alloc: Global,
    items: &R,
    reader: &mut Reader<'_>,
    depth: usize,
) -> Result<Option<Vec<R::Item>>, Stop>
    ensures ok { IfOk result (λ found. ReadsItems (R.ReadItem.is_item items.now) (R.ReadItem.is_none items.now)
        (items_at depth reader.old) reader.new (option_map (λ list. list.items) found)) }
    ensures err { IfErr result (Stops (items_at depth reader.old)) }
{
    let mut found = Vec::new(alloc);
    let mut are_items = true;
    'items: while !reader.take_end_array() {
        match items.read_item(alloc, reader, depth)? {
            Some(item) => if found.push(item).is_err() {
                return Err(Stop::OutOfMemory);
            },
            None => are_items = false,
        }
    }
    if are_items { Ok(Some(found)) } else { Ok(None) }
}

/// Reads the next value as a list; `None` where it is none, or one of other items.
///
/// # Errors
///
/// No value stands there, or memory was refused.
pub fn read_list<R: ReadItem>(
    alloc: Global,
    items: &R,
    reader: &mut Reader<'_>,
    depth: usize,
) -> Result<Option<Vec<R::Item>>, Stop>
    ensures ok { IfOk result (λ found. ReadsAs
        (IsListOf (R.ReadItem.is_item items.now)) (IsNoList (R.ReadItem.is_none items.now))
        (value_at depth reader.old) reader.new (option_map (λ list. list.items) found)) }
    ensures err { IfErr result (Stops (value_at depth reader.old)) }
{
    let begun = take_start(reader, depth)?;
    if let Start::List = begun {
        if depth > 0 {
            return read_items(alloc, items, reader, depth - 1);
        }
    }
    pass_rest(reader, depth, begun)?;
    Ok(None)
}

/// What reads lists of such items.
#[derive(Drop)]
pub struct ListOf<'r, R> {
    pub items: &'r R,
}

impl<'r, R: ReadItem> ReadItem for ListOf<'r, R> {
    ghost use Rattle.json_reading.specs.Standing.{IsListOf, IsNoList};

    type Item = Vec<R::Item>;

    ghost is_item = { λ lists value list. IsListOf (R.is_item lists.items.now) value list.items };

    ghost is_none = { λ lists. IsNoList (R.is_none lists.items.now) };

    fn read_item(
        &self,
        alloc: Global,
        reader: &mut Reader<'_>,
        depth: usize,
    ) -> Result<Option<Vec<R::Item>>, Stop> {
        read_list(alloc, self.items, reader, depth)
    }
}
