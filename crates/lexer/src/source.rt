//! A file's name and its bytes, how many they may be, and places in them.

/// A source has at most this many bytes: 1 MiB.
pub const MOST_BYTES: usize = 1_048_576;

/// A Go source file: its name as reports print it, and its bytes as they were read.
#[derive(Debug, Drop)]
pub struct Source {
    pub name: String,
    pub bytes: Vec<u8>,
}

/// A place in a source: its line, and its column in bytes. Both are counted from 1.
#[derive(Clone, Copy, Debug, PartialEq, Eq)]
pub struct Place {
    pub line: usize,
    pub column: usize,
}
