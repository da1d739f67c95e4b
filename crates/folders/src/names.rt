//! Names that a line can hold.

ghost use Rattle.std.specs.Prelude.{◌≡◌, ◌↔◌, IfOk, IsTrue, string_bytes};
ghost use Rattle.folders.specs.Names.{IsNameIn, IsPrintable};

use std::alloc::{AllocError, Global};

/// The first byte that is no control code.
pub const SPACE: u8 = 0x20;

/// The one control code above the printable bytes of ASCII.
pub const DELETE: u8 = 0x7f;

/// Whether no byte of the name is a control code, as a newline, which could forge a line of a report.
pub fn is_printable(name: &[u8]) -> bool
    ensures { IsTrue result ↔ IsPrintable name.now }
{
    name.iter().all(|byte| SPACE <= *byte && *byte != DELETE)
}

/// Adds a text with its control codes escaped, as `\n` or `\u{1b}`, so that a line can hold it.
///
/// # Errors
///
/// Memory was refused.
pub fn push_escaped(line: &mut String, text: &str) -> Result<(), AllocError> {
    for character in text.chars() {
        if character.is_ascii_control() {
            write!(line, "{}", character.escape_default())?;
        } else {
            line.push(character)?;
        }
    }
    Ok(())
}

/// The text with its control codes escaped.
///
/// # Errors
///
/// Memory was refused.
pub fn escaped(alloc: Global, text: &str) -> Result<String, AllocError>
    ensures { IfOk result (λ line. IsNameIn text.now (string_bytes line)) }
{
    if is_printable(text.as_bytes()) {
        return String::from_str(alloc, text);
    }
    let mut line = String::new(alloc);
    push_escaped(&mut line, text)?;
    Ok(line)
}
