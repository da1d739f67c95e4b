//! In which form a name stands whose use no rule allows, and how that is told.

ghost use Rattle.std.specs.Prelude.{◌≡◌};
ghost use Rattle.reasons.specs.Reasons.{given, named, passed, plainly, pointer_text, told};
ghost use Rattle.reasons.specs.WordViews.{pointer_view, reason_view, told_view};

/// What is known of the function of which a name is an argument.
#[derive(Clone, Copy)]
pub enum KnownCallee {
    /// Nothing: its package was not given, or it is a method or a value.
    Unknown,
    /// Its parameters are known.
    Known,
}

/// In which form the name stands: first that of a variable, then that of one that is passed to a function, and then
/// that of a method of a group, or of a maker, a giver, or a name of `errgroup`.
#[derive(Clone, Copy)]
pub enum Reason {
    StoredCancel,
    StoredGroup,
    Compared,
    AddressTaken,
    ExposedToChange,
    BoundInFor,
    BoundOtherwise,
    UsedAsType,
    InBrackets,
    CalledUnderGo,
    CalledWithOthers,
    CalledOtherwise,
    CancelReturned,
    GroupReturned,
    PassedOn,
    PassedToNoTaker,
    PassedToUnknown,
    PassedInExpression,
    PassedInLiteral,
    PassedUnderGo,
    PassedUnderDefer,
    NoMethod,
    NotCalled,
    NameInBrackets,
    NameUnderGo,
    NameUnderDefer,
    NameInExpression,
    NameInReturn,
    NameInLiteral,
    NameWithVariable,
    GivenInReturn,
    GivenToNone,
    MadeNowhere,
}

/// Whose name is told: that of the function to which the name is passed, or that of the method, maker or giver itself.
#[derive(Clone, Copy)]
pub enum NameTold {
    NoName,
    CalleeName,
    OwnName,
}

/// How a reason is told. Where it has a name, that of a function or method stands between the two texts.
#[derive(Clone, Copy)]
pub struct Told {
    pub before: &'static str,
    pub name: NameTold,
    pub after: &'static str,
}

/// Where a reader is to look who asks for the other part of a finding.
#[derive(Clone, Copy)]
pub enum Pointer {
    CapturedHere,
    ResultHasName,
    OnTheRing,
    FirstOfName,
}

fn plainly(text: &'static str) -> Told
    ensures { told_view result ≡ plainly text.now }
{
    Told {
        before: text,
        name: NameTold::NoName,
        after: "",
    }
}

fn passed(after: &'static str) -> Told
    ensures { told_view result ≡ passed after.now }
{
    Told {
        before: "passed to ",
        name: NameTold::CalleeName,
        after,
    }
}

fn named(after: &'static str) -> Told
    ensures { told_view result ≡ named after.now }
{
    Told {
        before: "",
        name: NameTold::OwnName,
        after,
    }
}

fn given(after: &'static str) -> Told
    ensures { told_view result ≡ given after.now }
{
    Told {
        before: "what ",
        name: NameTold::OwnName,
        after,
    }
}

impl Reason {
    /// How it is told.
    pub fn told(self) -> Told
        ensures { told_view result ≡ told (reason_view self) }
    {
        match self {
            Reason::StoredCancel => plainly(
                "stored, or used as a value, and whoever has it then may not call it",
            ),
            Reason::StoredGroup => plainly(
                "stored, or used as a value, and whoever has it then may start work in it",
            ),
            Reason::Compared => plainly("compared"),
            Reason::AddressTaken => plainly("its address is taken"),
            Reason::ExposedToChange => plainly("may get another value here"),
            Reason::BoundInFor => plainly("bound in the first statement of a for"),
            Reason::BoundOtherwise => plainly("bound in another way"),
            Reason::UsedAsType => plainly("used as a type in another way"),
            Reason::InBrackets => plainly("called in brackets"),
            Reason::CalledUnderGo => plainly("called under go"),
            Reason::CalledWithOthers => plainly("called with other arguments than it takes"),
            Reason::CalledOtherwise => plainly("called in another way"),
            Reason::CancelReturned => plainly("returned at a position that hands nothing on"),
            Reason::GroupReturned => plainly("returned, which hands no group on"),
            Reason::PassedOn => passed(", which is not known to call it"),
            Reason::PassedToNoTaker => passed(", which takes no group there"),
            Reason::PassedToUnknown => passed(", of which nothing is known"),
            Reason::PassedInExpression => passed(" within an expression"),
            Reason::PassedInLiteral => passed(" in a function literal"),
            Reason::PassedUnderGo => passed(" under go"),
            Reason::PassedUnderDefer => passed(" under defer"),
            Reason::NoMethod => named(" is no method that is followed"),
            Reason::NotCalled => named(" is used without a plain call"),
            Reason::NameInBrackets => named(" is called in brackets"),
            Reason::NameUnderGo => named(" is called under go"),
            Reason::NameUnderDefer => named(" is called under defer"),
            Reason::NameInExpression => named(" is called within an expression"),
            Reason::NameInReturn => named(" is called in a return"),
            Reason::NameInLiteral => named(" is called in a function literal"),
            Reason::NameWithVariable => named(" is called with a variable that is followed"),
            Reason::GivenInReturn => given(" gives is returned to callers that are not followed"),
            Reason::GivenToNone => given(
                " gives goes elsewhere than into a local variable that is followed, as into a field",
            ),
            Reason::MadeNowhere => named(
                " is named here for no group that is followed, as in the type of a field",
            ),
        }
    }
}

impl Pointer {
    /// What the report prints of it.
    pub fn text(self) -> &'static str
        ensures { result.now ≡ pointer_text (pointer_view self) }
    {
        match self {
            Pointer::CapturedHere => "captured by this literal",
            Pointer::ResultHasName => "this result has a name",
            Pointer::OnTheRing => "this import leads on to the ring",
            Pointer::FirstOfName => "the first function of this name",
        }
    }
}
