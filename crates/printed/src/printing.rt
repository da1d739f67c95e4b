//! How a text is printed.

ghost use Rattle.std.specs.Prelude.{◌≡◌, OnErr, OnOk};
ghost use Rattle.std.specs.Io.KnownBytes.{Appends};
ghost use Rattle.printed.specs.Printing.{refused_after, AppendsFront};

use crate::writers::{Refusals, Refused, pass_on, write_some};
use std::io::Write;

/// Writes the text to its end.
///
/// # Errors
///
/// A write was refused. A beginning of the text was written then, and nothing else.
pub fn print<W: Write>(out: &mut W, text: &[u8], refusals: &mut Refusals) -> Result<(), Refused>
    ensures written { OnOk result (Appends (W.contents out.old) (W.contents out.new) text.now) }
    ensures begun { OnErr result (AppendsFront (W.contents out.old) (W.contents out.new) text.now) }
    ensures refused { refusals.new.any ≡ refused_after refusals.old.any result }
{
    let mut rest = text;
    while !rest.is_empty() {
        let count = write_some(out, rest, refusals)?;
        let (_, after) = rest.split_at(count);
        rest = after;
    }
    pass_on(out, refusals)
}
