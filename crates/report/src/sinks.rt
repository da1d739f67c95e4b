//! What takes bytes, and how all bytes of a text are put into it.

ghost use Rattle.std.specs.Prelude.{◌≡◌, ℕ, ◌≤◌, ◌++◌, List, length, take, IfOk, OnErr};
ghost use Rattle.report.specs.Writing.{refusals_after_put, refusals_after, IsWritten};

/// A put failed.
#[derive(Clone, Copy, Debug, PartialEq, Eq)]
pub struct PutFault;

/// A text could not be written as a whole: a put failed, or took nothing of bytes that were there.
#[derive(Clone, Copy, Debug, PartialEq, Eq)]
pub struct WriteFault;

impl From<PutFault> for WriteFault {
    fn from(_fault: PutFault) -> WriteFault {
        WriteFault
    }
}

/// What takes bytes, as a file or a buffer does.
///
/// Contracts speak of it by two ghost members: `taken`, the bytes that it took so far, in their order, and `refusals`,
/// which counts the puts that failed and those that took nothing of bytes that were there. The count stops at the most
/// that 64 bits hold, so that a sink can keep it.
pub trait Sink {
    ghost taken: { Self → List ℕ };

    ghost refusals: { Self → ℕ };

    /// Takes a beginning of the bytes, and says how many. That may be none, and is not all where there is no room.
    ///
    /// # Errors
    ///
    /// The put failed, and nothing was taken.
    fn put(&mut self, bytes: &[u8]) -> Result<usize, PutFault>
        ensures within { IfOk result (λ count. count ≤ length bytes.now) }
        ensures takes { IfOk result (λ count. taken self.new ≡ taken self.old ++ take count bytes.now) }
        ensures fails { OnErr result (taken self.new ≡ taken self.old) }
        ensures refuses { refusals self.new ≡ refusals_after_put (refusals self.old) bytes.now result };
}

/// Puts all of the bytes: what one put leaves over, the next one gets.
///
/// # Errors
///
/// A put failed or took nothing. A beginning of the bytes is taken then, and not all of them.
pub fn put_all<S: Sink>(bytes: &[u8], sink: &mut S) -> Result<(), WriteFault>
    ensures taken { IsWritten bytes.now (S.taken sink.old) (S.taken sink.new) result }
    ensures refusals { S.refusals sink.new ≡ refusals_after (S.refusals sink.old) result }
{
    let mut rest = bytes;
    while !rest.is_empty() {
        let count = sink.put(rest)?;
        if count == 0 {
            return Err(WriteFault);
        }
        let (_, after) = rest.split_at(count);
        rest = after;
    }
    Ok(())
}
