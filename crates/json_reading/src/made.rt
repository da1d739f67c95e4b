//! Objects of which each member is read by its key, and an item is made of all.

ghost use Rattle.std.specs.Prelude.{IfErr, IfOk};
ghost use Rattle.serde_json.specs.Data.{no_members};
ghost use Rattle.json_reading.specs.Standing.{value_at, ReadsAs, Stops};
ghost use Rattle.json_reading.specs.Made.{IsNoObjectOf, IsObjectOf};

use crate::list::ReadItem;
use crate::object::{ReadMember, read_object};
use crate::pass::pass_value;
use crate::stop::Stop;
use json::Reader;
use std::alloc::Global;

/// What members are read into of which an item is made.
pub trait MakeItem: ReadMember + Drop {
    ghost use Rattle.serde_json.specs.Data.{Members};
    ghost use Rattle.json_reading.specs.Standing.{Judges};

    /// What is made.
    type Item: Drop;

    // Of these members this is made, by what was begun so.
    ghost is_made: { Self → Members → Self.Item → Type 0 };

    // Of these members none is made.
    ghost is_none: { Self → Members → Type 0 };

    /// The item of the members that were read; `None` where they are those of none.
    fn make(self, alloc: Global) -> Option<Self::Item>
        ensures { (begun : Self) (ms : Members) → Self.holds begun self ms
            → Judges (is_made begun) (is_none begun) ms result };
}

/// The member under one key, which has to be there, beside others.
#[derive(Drop)]
pub struct Under<'r, R: ReadItem, M> {
    pub key: &'r str,
    /// What reads its value.
    pub values: &'r R,
    /// What was read of it; `None` before the first one.
    pub found: Option<R::Item>,
    /// What the members under other keys are read into.
    pub others: M,
}

impl<'r, R: ReadItem, M: ReadMember> ReadMember for Under<'r, R, M> {
    ghost use Rattle.std.specs.Prelude.{◌≡◌};
    ghost use Rattle.json_reading.specs.Made.{HasUnder};

    ghost holds = { λ begun read found. (read.key.now ≡ begun.key.now) × (read.values.now ≡ begun.values.now)
        × HasUnder begun.key.now (R.is_item begun.values.now) (R.is_none begun.values.now)
        (M.holds begun.others read.others) read.found found };

    fn read_member(
        &mut self,
        alloc: Global,
        key: &str,
        reader: &mut Reader<'_>,
        depth: usize,
    ) -> Result<(), Stop> {
        if key == self.key {
            self.found = self.values.read_item(alloc, reader, depth)?;
        } else {
            self.others.read_member(alloc, key, reader, depth)?;
        }
        Ok(())
    }
}

impl<'r, R: ReadItem, M: MakeItem> MakeItem for Under<'r, R, M> {
    ghost use Rattle.json_reading.specs.Made.{IsMadeWith, IsNoneWith};

    type Item = (R::Item, M::Item);

    ghost is_made = { λ begun. IsMadeWith begun.key.now (R.is_item begun.values.now) (M.is_made begun.others) };

    ghost is_none = { λ begun. IsNoneWith begun.key.now (R.is_none begun.values.now) (M.is_none begun.others) };

    fn make(self, alloc: Global) -> Option<(R::Item, M::Item)> {
        let Under { found, others, .. } = self;
        let Some(found) = found else {
            return None;
        };
        match others.make(alloc) {
            Some(others) => Some((found, others)),
            None => None,
        }
    }
}

/// No other members.
#[derive(Clone, Copy, Drop)]
pub struct NoOthers {
    /// Whether there are none; `true` before the first one.
    pub are_none: bool,
}

impl ReadMember for NoOthers {
    ghost use Rattle.json_reading.specs.Made.{AreNone};

    ghost holds = { λ _ read. AreNone read.are_none };

    fn read_member(
        &mut self,
        _: Global,
        _: &str,
        reader: &mut Reader<'_>,
        depth: usize,
    ) -> Result<(), Stop> {
        pass_value(reader, depth)?;
        self.are_none = false;
        Ok(())
    }
}

impl MakeItem for NoOthers {
    ghost use Rattle.json_reading.specs.Made.{AreSome, IsAll};

    type Item = ();

    ghost is_made = { λ _. IsAll };

    ghost is_none = { λ _. AreSome };

    fn make(self, _: Global) -> Option<()> {
        if self.are_none { Some(()) } else { None }
    }
}

/// Reads the next value as an object of whose members an item is made; `None` where it is none.
///
/// # Errors
///
/// No value stands there, or memory was refused.
pub fn read_made<M: MakeItem>(
    alloc: Global,
    members: M,
    reader: &mut Reader<'_>,
    depth: usize,
) -> Result<Option<M::Item>, Stop>
    requires { M.holds members members no_members }
    ensures ok { IfOk result (ReadsAs (IsObjectOf (M.is_made members)) (IsNoObjectOf (M.is_none members))
        (value_at depth reader.old) reader.new) }
    ensures err { IfErr result (Stops (value_at depth reader.old)) }
{
    let mut read = members;
    if read_object(alloc, &mut read, reader, depth)? {
        Ok(read.make(alloc))
    } else {
        Ok(None)
    }
}
