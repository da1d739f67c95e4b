//! What the forms of a report are put together from: a style, pieces of lines, and where names of findings end.
#![tactic(auto)]

mod ends;
mod fixes;
mod notes;
mod pieces;
mod strings;
mod style;

pub use ends::{Region, behind, bytes_of, name_parts, told_end};
pub use fixes::{fix_words, told_fix, write_fix};
pub use notes::{note_place, text_parts};
pub use pieces::{FormatPiece, comma, name_of, put_each};
pub use strings::{Spelling, put_spelled};
pub use style::{Style, is_told, notes_told, reason_text, style_of};
