//! Maps in which the first value of a key counts.

ghost use Rattle.std.specs.Prelude.{◌≡◌, OnOk, Some, None, if◌then◌else◌};
ghost use Rattle.indexmap.specs.IndexMap.{get};
ghost use Rattle.meaning.specs.OuterBlocks.{or_else};

use indexmap::IndexMap;
use std::alloc::AllocError;
use std::hash::Hash;

/// Gives the key the value, unless it has one already.
///
/// # Errors
///
/// Memory was refused.
pub fn keep_first<K: Eq + Hash + Copy, V: Copy>(
    map: &mut IndexMap<K, V>,
    key: K,
    value: V,
) -> Result<(), AllocError>
    ensures { OnOk result ((k : K) → get K.eq map.new k ≡ or_else (get K.eq map.old k)
        (if K.eq key k then Some value else None)) }
{
    if !map.contains_key(&key) {
        map.insert(key, value)?;
    }
    Ok(())
}
