//! What happens on a way.

ghost use Rattle.std.specs.Prelude.{◌≡◌};
ghost use Rattle.reasons.specs.WordViews.{word_view};
ghost use Rattle.reasons.specs.Words.{word_text};

/// What happens on the way to a fault.
#[derive(Clone, Copy, Debug, PartialEq, Eq)]
pub enum Word {
    /// A cancel variable is bound.
    Obtained,
    /// A group is made.
    Made,
    /// Work of a group begins.
    Started,
    /// The block of an `if` is entered.
    Holds,
    DoesNotHold,
    /// A turn of a loop begins.
    GoesOn,
    Ends,
    /// A clause of a `switch` or `select` is entered.
    Entered,
    NoneEntered,
}

impl Word {
    /// What the report prints of it.
    pub fn text(self) -> &'static str
        ensures { result.now ≡ word_text (word_view self) }
    {
        match self {
            Word::Obtained => "cancel is obtained",
            Word::Made => "group is made",
            Word::Started => "work is started",
            Word::Holds => "the condition holds",
            Word::DoesNotHold => "the condition does not hold",
            Word::GoesOn => "the loop goes on",
            Word::Ends => "the loop ends",
            Word::Entered => "this clause is entered",
            Word::NoneEntered => "no clause is entered",
        }
    }
}
