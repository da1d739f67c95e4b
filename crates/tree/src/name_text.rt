//! The text of a name. A short one stands in place, and takes no memory of its own.

ghost use Rattle.std.specs.Prelude.{◌≡◌, ◌≤◌, length, IfOk};
ghost use Rattle.tree.specs.NameText.{kept_text};

use std::alloc::{AllocError, Global};
use std::marker::Model;
use std::str;

/// Most bytes that stand in place.
const MOST: usize = 22;

/// A text of at most so many bytes.
#[derive(Drop)]
struct ShortText {
    len: u8,
    bytes: [u8; 22],
}

impl Model for ShortText {
    ghost use Rattle.std.specs.Prelude.{◌≤◌, ℕ, List, take, IsUtf8};

    ghost Value = { List ℕ };

    ghost view = { λ s. take s.len s.bytes };

    ghost invariant = { λ s. (s.len ≤ 22) × ∥ IsUtf8 (take s.len s.bytes) ∥₁ };
}

impl ShortText {
    fn of(text: &str) -> Self
        requires { length text.now ≤ 22 }
        ensures { result ≡ text.now }
    {
        let mut bytes = [0; 22];
        let source = text.as_bytes();
        let len = source.len();
        bytes[..len].copy_from_slice(source);
        ShortText {
            len: len as u8,
            bytes,
        }
    }

    fn as_str(&self) -> &str
        ensures { result.now ≡ self.now }
    {
        unsafe { str::from_utf8_unchecked(&self.bytes[..self.len as usize]) }
    }
}

/// Where the text stands.
#[derive(Drop)]
enum Kept {
    Short(ShortText),
    Long(Box<String>),
}

/// The text of a name.
#[derive(Drop)]
pub struct NameText {
    kept: Kept,
}

impl Model for NameText {
    ghost use Rattle.std.specs.Prelude.{ℕ, List};
    ghost use Rattle.tree.specs.NameText.{kept_text};

    ghost Value = { List ℕ };

    ghost view = { λ n. kept_text n.kept };
}

impl NameText {
    /// A name with this text.
    ///
    /// # Errors
    ///
    /// Memory was refused.
    pub fn of(alloc: Global, text: &str) -> Result<NameText, AllocError>
        ensures { IfOk result (λ name. name ≡ text.now) }
    {
        if text.len() <= MOST {
            return Ok(NameText {
                kept: Kept::Short(ShortText::of(text)),
            });
        }
        let long = Box::new(alloc, String::from_str(alloc, text)?)?;
        Ok(NameText {
            kept: Kept::Long(long),
        })
    }

    /// Its text.
    pub fn as_str(&self) -> &str
        ensures { result.now ≡ self.now }
    {
        match &self.kept {
            Kept::Short(short) => short.as_str(),
            Kept::Long(long) => long.as_str(),
        }
    }
}
