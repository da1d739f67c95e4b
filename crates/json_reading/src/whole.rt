//! Whole texts.

ghost use Rattle.std.specs.Prelude.{◌≡◌, IfErr, IfOk, Some, option_and_then};
ghost use Rattle.serde_json.specs.Data.{Data};
ghost use Rattle.serde_json.specs.Find.{as_number, as_u64, get};
ghost use Rattle.serde_json.specs.Read.{read};
ghost use Rattle.json_reading.specs.Standing.{Judges, RefusesText};

use crate::leaf::read_number;
use crate::list::ReadItem;
use crate::object::{ReadMember, read_object};
use crate::pass::pass_value;
use crate::stop::Stop;
use json::{Reader, Scratch};
use std::alloc::Global;

/// How deep lists and objects of a text may nest.
const MAX_DEPTH: usize = 127;

/// Reads a whole text as one item; `None` where it is the text of none.
///
/// # Errors
///
/// The text is no JSON, or memory was refused.
pub fn read_whole<R: ReadItem>(alloc: Global, item: &R, text: &str) -> Result<Option<R::Item>, Stop>
    ensures ok { IfOk result (λ found. (value : Data) × (read text.now ≡ Some value)
        × Judges (R.ReadItem.is_item item.now) (R.ReadItem.is_none item.now) value found) }
    ensures err { IfErr result (RefusesText text.now) }
{
    let mut scratch = Scratch::new(alloc);
    let mut reader = Reader::new(text, &mut scratch)?;
    let found = item.read_item(alloc, &mut reader, MAX_DEPTH)?;
    if reader.next().is_some() {
        return Err(Stop::NotJson);
    }
    Ok(found)
}

/// The whole number under a key of an object.
#[derive(Clone, Copy, Drop)]
struct NumberUnder<'k> {
    key: &'k str,
    number: Option<u64>,
}

impl<'k> ReadMember for NumberUnder<'k> {
    ghost use Rattle.std.specs.Prelude.{◌≡◌, option_and_then};
    ghost use Rattle.serde_json.specs.Find.{as_number, as_u64, get_member};

    ghost holds = { λ begun under found. (under.key.now ≡ begun.key.now)
        × (under.number ≡ option_and_then as_u64 (option_and_then as_number (get_member begun.key.now found))) };

    fn read_member(
        &mut self,
        _: Global,
        key: &str,
        reader: &mut Reader<'_>,
        depth: usize,
    ) -> Result<(), Stop> {
        if key == self.key {
            self.number = read_number(reader, depth)?;
            Ok(())
        } else {
            pass_value(reader, depth)
        }
    }
}

/// What stands under a key of an object.
#[derive(Clone, Copy, Drop)]
struct ObjectWith<'k> {
    key: &'k str,
}

impl<'k> ReadItem for ObjectWith<'k> {
    ghost use Rattle.std.specs.Prelude.{◌≡◌, option_and_then};
    ghost use Rattle.serde_json.specs.Find.{as_number, as_u64, get};

    type Item = Option<u64>;

    ghost is_item = { λ object value number. number
        ≡ option_and_then as_u64 (option_and_then as_number (get object.key.now value)) };

    ghost is_none = { λ _ _. ⊥ };

    fn read_item(
        &self,
        alloc: Global,
        reader: &mut Reader<'_>,
        depth: usize,
    ) -> Result<Option<Option<u64>>, Stop> {
        let mut under = NumberUnder {
            key: self.key,
            number: None,
        };
        if read_object(alloc, &mut under, reader, depth)? {
            Ok(Some(under.number))
        } else {
            Ok(Some(None))
        }
    }
}

/// The whole number of 64 bits under a key of the object that a text is; `None` where there is none, or the text is no
/// object. All of the text is gone over.
///
/// # Errors
///
/// The text is no JSON, or memory was refused.
pub fn whole_number_under(alloc: Global, key: &str, text: &str) -> Result<Option<u64>, Stop>
    ensures ok { IfOk result (λ number. (value : Data) × (read text.now ≡ Some value)
        × (number ≡ option_and_then as_u64 (option_and_then as_number (get key.now value)))) }
    ensures err { IfErr result (RefusesText text.now) }
{
    let found = read_whole(alloc, &ObjectWith { key }, text)?;
    match found {
        Some(number) => Ok(number),
        None => Ok(None),
    }
}
