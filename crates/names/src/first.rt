//! Maps in which the first value of a key counts.

ghost use Rattle.std.specs.Prelude.{OnOk, OnErr};
ghost use Rattle.indexmap.specs.IndexMap.{IsUnchanged};
ghost use Rattle.names.specs.Maps.{Adds, only_at};

use indexmap::IndexMap;
use std::alloc::AllocError;

/// Gives the name the value, unless it has one already.
pub fn keep_first_name<'a, V: Copy>(
    map: &mut IndexMap<&'a str, V>,
    name: &'a str,
    value: V,
) -> Result<(), AllocError>
    ensures added { OnOk result (Adds map.old map.new (only_at name.now value)) }
    ensures refused { OnErr result (IsUnchanged map.old map.new) }
{
    if !map.contains_key(name) {
        map.insert(name, value)?;
    }
    Ok(())
}
