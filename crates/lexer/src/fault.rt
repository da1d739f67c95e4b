//! Why a source has no tokens.

use thiserror::Error;

/// The first fault of a source that has no tokens, with the byte offset where it stands.
#[derive(Clone, Copy, Debug, PartialEq, Eq, Error)]
pub enum LexFault {
    /// The source is longer than 1 MiB.
    #[error("file over 1 MiB")]
    TooLong,
    /// Not UTF-8: the offset is where the longest beginning of the source that is UTF-8 ends.
    #[error("not UTF-8 at byte {0}")]
    NotUtf8(u32),
    /// A byte 0.
    #[error("NUL byte at byte {0}")]
    Nul(u32),
    /// A string or raw string that is not ended, at its first byte.
    #[error("string not ended at byte {0}")]
    UnclosedString(u32),
    /// A general comment that is not ended, at its first byte.
    #[error("comment not ended at byte {0}")]
    UnclosedComment(u32),
    /// A rune that is not ended, at its first byte.
    #[error("rune not ended at byte {0}")]
    UnclosedRune(u32),
    /// A character that no token has, at its first byte.
    #[error("character of no token at byte {0}")]
    UnknownCharacter(u32),
    #[error("out of memory")]
    OutOfMemory,
}
