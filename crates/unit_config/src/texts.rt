//! Strings under the keys of an object.

ghost use Rattle.std.specs.Prelude.{◌≡◌, ◌++◌, ◌∷◌, [], IfErr, IfOk, OnOk, map, option_map};
ghost use Rattle.json_reading.specs.Standing.{value_at, ReadsAs, Stops};
ghost use Rattle.unit_config.specs.KeyedTexts.{are_told, is_told, keyed_of, last_of, texts_of};
ghost use Rattle.unit_config.specs.UnitValues.{AreTexts, AreNoTexts};

use crate::values::read_string;
use json::Reader;
use json_reading::{ReadMember, Stop, read_object};
use std::alloc::{AllocError, Global};

/// What stands under a key.
#[derive(Debug, Drop, PartialEq)]
pub struct KeyedText {
    pub key: String,
    /// The string, if it is one.
    pub text: Option<String>,
}

/// Strings under the keys of an object.
#[derive(Debug, Drop, PartialEq)]
pub struct Texts {
    /// What stands under each key, in the order of the text. Of equal keys the last counts, and this is a string.
    pub entries: Vec<KeyedText>,
}

/// The last entry of the key.
fn last_of<'e>(entries: &'e [KeyedText], key: &str) -> Option<&'e KeyedText>
    ensures { option_map (λ entry. keyed_of entry.now) result ≡ last_of key.now (map keyed_of entries.now) }
{
    let mut found = None;
    for entry in entries {
        if entry.key.as_str() == key {
            found = Some(entry);
        }
    }
    found
}

impl Texts {
    ghost use Rattle.std.specs.Prelude.{◌≡◌, ◌++◌, IfOk, OnOk, flat_map, map, option_map};
    ghost use Rattle.unit_config.specs.KeyedTexts.{if_told, key_told, keyed_of, texts_of, AreKeys};

    /// The string under the key, if one stands there.
    pub fn get(&self, key: &str) -> Option<&str>
        ensures { option_map (λ text. text.now) result ≡ texts_of self.now key.now }
    {
        let entry = last_of(&self.entries, key)?;
        match &entry.text {
            Some(text) => Some(text.as_str()),
            None => None,
        }
    }

    /// The keys under which strings stand, in the order of their bytes, each once.
    ///
    /// # Errors
    ///
    /// Memory was refused.
    pub fn keys(&self, alloc: Global) -> Result<Vec<&str>, AllocError>
        ensures { IfOk result (λ keys. AreKeys (texts_of self.now) (map (λ key. key.now) keys.items)) }
    {
        let mut keys = self.keys_of_entries(alloc)?;
        keys.sort_unstable();
        keys.dedup();
        Ok(keys)
    }

    /// The key of each entry under whose key a string stands, in the order of the entries.
    fn keys_of_entries(&self, alloc: Global) -> Result<Vec<&str>, AllocError>
        ensures { IfOk result (λ keys. map (λ key. key.now) keys.items
            ≡ flat_map (key_told (texts_of self.now)) (map keyed_of self.now.entries.items)) }
    {
        let mut keys = Vec::new(alloc);
        for entry in &self.entries {
            self.add_key(entry.key.as_str(), &mut keys)?;
        }
        Ok(keys)
    }

    /// Adds the key, if a string stands under it.
    fn add_key<'k>(&self, key: &'k str, keys: &mut Vec<&'k str>) -> Result<(), AllocError>
        ensures { OnOk result (map (λ key. key.now) keys.new.items
            ≡ map (λ key. key.now) keys.old.items ++ if_told (texts_of self.now) key.now) }
    {
        if self.get(key).is_some() {
            keys.push(key)?;
        }
        Ok(())
    }
}

/// Whether an entry is a string, or another of its key counts that is one.
fn is_told(entries: &[KeyedText], entry: &KeyedText) -> bool
    ensures { result ≡ is_told (map keyed_of entries.now) (keyed_of entry.now) }
{
    if entry.text.is_some() {
        return true;
    }
    match last_of(entries, entry.key.as_str()) {
        Some(last) => last.text.is_some(),
        None => true,
    }
}

/// Whether all entries that count are strings.
fn are_told(entries: &[KeyedText]) -> bool
    ensures { result ≡ are_told (map keyed_of entries.now) }
{
    for entry in entries {
        if !is_told(entries, entry) {
            return false;
        }
    }
    true
}

/// Adds an entry at the end.
fn add_entry(entries: &mut Vec<KeyedText>, entry: KeyedText) -> Result<(), AllocError>
    ensures { OnOk result (map keyed_of entries.new.items ≡ map keyed_of entries.old.items ++ keyed_of entry ∷ []) }
{
    entries.push(entry)?;
    Ok(())
}

/// What was read of the members of an object of strings.
#[derive(Drop)]
struct TextMembers {
    entries: Vec<KeyedText>,
}

impl ReadMember for TextMembers {
    ghost use Rattle.std.specs.Prelude.{map};
    ghost use Rattle.unit_config.specs.KeyedTexts.{keyed_of, HasTexts};

    ghost holds = { λ _ read. HasTexts (map keyed_of read.entries.items) };

    fn read_member(
        &mut self,
        alloc: Global,
        key: &str,
        reader: &mut Reader<'_>,
        depth: usize,
    ) -> Result<(), Stop> {
        let key = String::from_str(alloc, key)?;
        let text = read_string(alloc, reader, depth)?;
        add_entry(&mut self.entries, KeyedText { key, text })?;
        Ok(())
    }
}

/// Reads the next value as an object of strings; `None` where it is none.
pub(crate) fn read_texts(
    alloc: Global,
    reader: &mut Reader<'_>,
    depth: usize,
) -> Result<Option<Texts>, Stop>
    ensures ok { IfOk result (λ found. ReadsAs AreTexts AreNoTexts (value_at depth reader.old) reader.new
        (option_map texts_of found)) }
    ensures err { IfErr result (Stops (value_at depth reader.old)) }
{
    let mut members = TextMembers {
        entries: Vec::new(alloc),
    };
    if !read_object(alloc, &mut members, reader, depth)? {
        return Ok(None);
    }
    if are_told(&members.entries) {
        Ok(Some(Texts {
            entries: members.entries,
        }))
    } else {
        Ok(None)
    }
}
