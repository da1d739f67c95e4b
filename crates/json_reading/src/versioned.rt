//! Texts of an object with a version.

ghost use Rattle.std.specs.Prelude.{◌≡◌, IfErr, IfOk, Some};
ghost use Rattle.serde_json.specs.Data.{Data};
ghost use Rattle.serde_json.specs.Read.{read};
ghost use Rattle.json_reading.specs.Made.{IsNotVersioned, IsVersioned};
ghost use Rattle.json_reading.specs.Standing.{Judges, RefusesText};

use crate::list::ReadItem;
use crate::made::{NoOthers, Under, read_made};
use crate::pass::pass_value;
use crate::stop::Stop;
use crate::whole::read_whole;
use json::Reader;
use std::alloc::Global;

/// Any value, of which nothing is kept.
#[derive(Clone, Copy, Drop)]
struct Anything;

impl ReadItem for Anything {
    ghost use Rattle.json_reading.specs.Made.{IsAny};

    type Item = ();

    ghost is_item = { λ _. IsAny };

    ghost is_none = { λ _ _. ⊥ };

    fn read_item(
        &self,
        _: Global,
        reader: &mut Reader<'_>,
        depth: usize,
    ) -> Result<Option<()>, Stop> {
        pass_value(reader, depth)?;
        Ok(Some(()))
    }
}

/// What stands under a key beside a version.
#[derive(Drop)]
struct Versioned<'r, R> {
    key: &'r str,
    values: &'r R,
}

impl<'r, R: ReadItem> ReadItem for Versioned<'r, R> {
    ghost use Rattle.json_reading.specs.Made.{IsNotVersioned, IsVersioned};

    type Item = R::Item;

    ghost is_item = { λ whole. IsVersioned whole.key.now (R.is_item whole.values.now) };

    ghost is_none = { λ whole. IsNotVersioned whole.key.now (R.is_none whole.values.now) };

    fn read_item(
        &self,
        alloc: Global,
        reader: &mut Reader<'_>,
        depth: usize,
    ) -> Result<Option<R::Item>, Stop> {
        let members = Under {
            key: self.key,
            values: self.values,
            found: None,
            others: Under {
                key: "version",
                values: &Anything,
                found: None,
                others: NoOthers { are_none: true },
            },
        };
        match read_made(alloc, members, reader, depth)? {
            Some((found, _)) => Ok(Some(found)),
            None => Ok(None),
        }
    }
}

/// What stands under a key of the object that a text is, beside a version, whatever this is; `None` where the text is
/// none of such an object, or has a member under another key.
///
/// # Errors
///
/// The text is no JSON, or memory was refused.
pub fn read_versioned<R: ReadItem>(
    alloc: Global,
    key: &str,
    values: &R,
    text: &str,
) -> Result<Option<R::Item>, Stop>
    ensures ok { IfOk result (λ found. (value : Data) × (read text.now ≡ Some value)
        × Judges (IsVersioned key.now (R.is_item values.now)) (IsNotVersioned key.now (R.is_none values.now))
        value found) }
    ensures err { IfErr result (RefusesText text.now) }
{
    read_whole(alloc, &Versioned { key, values }, text)
}
