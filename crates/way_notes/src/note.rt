//! Notes of a way.

use reasons::Word;

/// What happens at a place of a way, by its byte offset.
#[derive(Clone, Copy)]
pub struct Note {
    pub at: u32,
    pub word: Word,
}

/// Of which variable the notes tell.
#[derive(Clone, Copy)]
pub struct Told {
    pub number: u32,
    /// The group of which the beginnings of work are told: the variable, or that to which its call is left.
    pub group: Option<u32>,
}
