//! What is told of a use.

/// The text of a reason: words, or a name between two texts.
#[derive(Clone, Copy, Debug)]
pub enum ReasonText<'a> {
    Words(&'static str),
    Named(&'static str, &'a str, &'static str),
}

/// Why a use stands there, told at that offset of its file.
#[derive(Clone, Copy, Debug)]
pub struct UseReason<'a> {
    pub at: u32,
    pub text: ReasonText<'a>,
}
