//! The calls that write, and whether one was refused.

ghost use Rattle.std.specs.Prelude.{◌≡◌, ◌<◌, ◌≤◌, false, length, IfOk};
ghost use Rattle.std.specs.Io.KnownBytes.{Keeps, WriteAppends};
ghost use Rattle.printed.specs.Printing.{refused_after};

use folders::Fault;
use std::io::{ErrorKind, Write};

/// A write or a flush was refused: it failed, or the write took nothing.
#[derive(Clone, Copy, Debug, PartialEq, Eq)]
pub struct Refused;

impl From<Refused> for Fault {
    ghost use Rattle.folders.specs.declared.fault.Fault.TheVariants.{CannotWrite};

    ghost from_gives = { λ _ fault. fault ≡ CannotWrite };

    fn from(_refused: Refused) -> Fault {
        Fault::CannotWrite
    }
}

/// Whether a write or a flush was refused so far. Only the two calls of this module can say so, so that nobody else
/// can tell of a refusal that there was not.
#[derive(Clone, Copy, Debug)]
pub struct Refusals {
    any: bool,
}

impl Refusals {
    /// Nothing was refused so far.
    pub fn none() -> Refusals
        ensures { result.any ≡ false }
    {
        Refusals { any: false }
    }
}

/// An interrupted write is tried again so often, since a loop has to end.
const MOST_TRIES: u64 = u64::MAX;

fn try_write<W: Write>(out: &mut W, bytes: &[u8]) -> Result<usize, Refused>
    ensures some { IfOk result (λ count. 0 < count) }
    ensures within { IfOk result (λ count. count ≤ length bytes.now) }
    ensures takes { WriteAppends (W.contents out.old) (W.contents out.new) result bytes.now }
{
    for _ in 0..MOST_TRIES {
        match out.write(bytes) {
            Ok(0) => return Err(Refused),
            Ok(count) => return Ok(count),
            Err(error) => {
                if error.kind() != ErrorKind::Interrupted {
                    return Err(Refused);
                }
            }
        }
    }
    Err(Refused)
}

/// Writes a beginning of the bytes, and says how many, at least one. A write that was interrupted is tried again.
///
/// # Errors
///
/// The write was refused, and nothing was taken.
pub fn write_some<W: Write>(
    out: &mut W,
    bytes: &[u8],
    refusals: &mut Refusals,
) -> Result<usize, Refused>
    ensures some { IfOk result (λ count. 0 < count) }
    ensures within { IfOk result (λ count. count ≤ length bytes.now) }
    ensures takes { WriteAppends (W.contents out.old) (W.contents out.new) result bytes.now }
    ensures refused { refusals.new.any ≡ refused_after refusals.old.any result }
{
    let result = try_write(out, bytes);
    if result.is_err() {
        refusals.any = true;
    }
    result
}

/// Passes on what was written.
///
/// # Errors
///
/// The flush was refused.
pub fn pass_on<W: Write>(out: &mut W, refusals: &mut Refusals) -> Result<(), Refused>
    ensures keeps { Keeps (W.contents out.old) (W.contents out.new) }
    ensures refused { refusals.new.any ≡ refused_after refusals.old.any result }
{
    if out.flush().is_err() {
        refusals.any = true;
        return Err(Refused);
    }
    Ok(())
}
