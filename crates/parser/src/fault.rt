//! Why a text has no tree.

ghost use Rattle.std.specs.Prelude.{◌≤◌, length};
ghost use Rattle.parser.specs.Faults.{IsFaultOf};

use parser_base::fault::{LeftOut, Stop};

/// Why a text has no tree. Offsets are in bytes.
#[derive(Clone, Copy, Debug, PartialEq, Eq)]
pub enum ParseFault {
    /// At this offset stands a token that no file can have there, or the text ends.
    Unexpected(u32),
    /// At this offset stands a token of a form that is left out.
    LeftOut(LeftOut, u32),
    /// The declaration that begins at this offset is deeper than it may be.
    TooDeep(u32),
    /// Out of memory.
    OutOfMemory,
}

/// An offset of a text, which tokens of another text may exceed.
fn offset_in(text: &[u8], at: u32) -> u32
    ensures { result ≤ length text.now }
{
    (at as usize).min(text.len()) as u32
}

/// The fault of a text whose reading stopped, in the declaration that begins at that offset.
pub(crate) fn fault_in(text: &[u8], stop: Stop, declaration: u32) -> ParseFault
    ensures { IsFaultOf text.now stop result }
{
    match stop {
        Stop::Unexpected(at) => ParseFault::Unexpected(offset_in(text, at)),
        Stop::LeftOut(form, at) => ParseFault::LeftOut(form, offset_in(text, at)),
        Stop::TooDeep => ParseFault::TooDeep(offset_in(text, declaration)),
        Stop::Memory => ParseFault::OutOfMemory,
    }
}
