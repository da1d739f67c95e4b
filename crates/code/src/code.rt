//! The code of a body, which says in which order its events can come.

/// A way out of a statement other than its end.
#[derive(Clone, Copy)]
pub enum Way<'a> {
    Returning,
    /// `break`, perhaps to a label.
    Breaking(Option<&'a str>),
    /// `continue`, perhaps to a label.
    Continuing(Option<&'a str>),
    /// The `fallthrough` at this byte offset.
    Falling(u32),
}

/// An event at its place.
#[derive(Clone, Copy)]
pub struct Occurrence<E> {
    /// The byte offset of its statement, keyword or brace.
    pub at: u32,
    /// Its index among the events there.
    pub order: usize,
    pub event: E,
}

/// What a body does. Lists of statements and clauses may be long, so they are lists and no nested pairs: a code is only
/// as deep as its statements are, times a small number.
#[derive(Drop)]
pub enum Code<'a, E> {
    /// Nothing; what stands after it follows.
    Skip,
    Does(Occurrence<E>),
    /// The same, as the only one of a sequence: without a list, since most sites have one event.
    Alone(Occurrence<E>),
    Leave(Way<'a>),
    /// One after the other.
    Then(Box<Code<'a, E>>, Box<Code<'a, E>>),
    /// Each before the one before it in the list: the last stands first.
    Sequence(Vec<Code<'a, E>>),
    /// One of these. Of none there is no way on.
    Choice(Vec<Code<'a, E>>),
    /// Any number of times, also never.
    Repeats(Box<Code<'a, E>>),
    /// What leaves that way arrives at the end of the code.
    UpTo(Way<'a>, Box<Code<'a, E>>),
    /// What falls through at one of these byte offsets arrives at the end of the code. There may be many, so they are a
    /// list.
    UpToFalls(Vec<u32>, Box<Code<'a, E>>),
}
