//! Objects.

ghost use Rattle.std.specs.Prelude.{IfErr, IfOk, OnOk, ◌≡◌, Some};
ghost use Rattle.serde_json.specs.Data.{no_members, Members};
ghost use Rattle.json_reading.specs.Standing.{members_at, value_at, ReadsObject, Stops};

use crate::pass::pass_rest;
use crate::start::{Start, take_start};
use crate::stop::Stop;
use json::Reader;
use std::alloc::Global;

/// What the members of an object are read into, one by one.
pub trait ReadMember {
    ghost use Rattle.std.specs.Prelude.{IfErr, OnOk, ◌≡◌, Some};
    ghost use Rattle.serde_json.specs.Data.{put, Data, Members};
    ghost use Rattle.json_reading.specs.Standing.{value_at, Stops};

    // What holds of this, begun as the first, once these members were read.
    ghost holds: { Self → Self → Members → Type 0 };

    /// Reads the next value as that of this key, in place of one that came before. Lists and objects may nest `depth`
    /// deep.
    ///
    /// # Errors
    ///
    /// No value stands there, or memory was refused.
    fn read_member(
        &mut self,
        alloc: Global,
        key: &str,
        reader: &mut Reader<'_>,
        depth: usize,
    ) -> Result<(), Stop>
        ensures ok { OnOk result ((value : Data) × (value_at depth reader.old ≡ Some (value, reader.new))
            × ((begun : Self) (found : Members) → holds begun self.old found
            → holds begun self.new (put key.now value found))) }
        ensures err { IfErr result (Stops (value_at depth reader.old)) };
}

/// Reads the members that are left of an object.
fn read_members<M: ReadMember>(
    alloc: Global,
    members: &mut M,
    reader: &mut Reader<'_>,
    depth: usize,
) -> Result<(), Stop>
    ensures ok { OnOk result ((found : Members)
        × (members_at depth no_members reader.old ≡ Some (found, reader.new))
        × (M.ReadMember.holds members.old members.old no_members
        → M.ReadMember.holds members.old members.new found)) }
    ensures err { IfErr result (Stops (members_at depth no_members reader.old)) }
{
    'members: while let Some(key) = reader.next_key()? {
        members.read_member(alloc, key, reader, depth)?;
    }
    Ok(())
}

/// Reads the members of the next value; `false` where it is no object.
///
/// # Errors
///
/// No value stands there, or memory was refused.
pub fn read_object<M: ReadMember>(
    alloc: Global,
    members: &mut M,
    reader: &mut Reader<'_>,
    depth: usize,
) -> Result<bool, Stop>
    ensures ok { IfOk result (λ is_object. ReadsObject
        (M.ReadMember.holds members.old members.old) (M.ReadMember.holds members.old members.new)
        (value_at depth reader.old) reader.new is_object) }
    ensures err { IfErr result (Stops (value_at depth reader.old)) }
{
    let begun = take_start(reader, depth)?;
    if let Start::Object = begun {
        if depth > 0 {
            read_members(alloc, members, reader, depth - 1)?;
            return Ok(true);
        }
    }
    pass_rest(reader, depth, begun)?;
    Ok(false)
}
