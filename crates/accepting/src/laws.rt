//! What holds of any report with what is accepted.

ghost use Rattle.accepting.specs.Laws.{AcceptedSaysAll, BaselineAcceptsNoMore, FirstEditionAcceptsNothing, LinesAcceptTheirOwn, NothingIsLost, YesSaysNone};

/// A report is the whole report, and has besides at most lines that accept nothing.
pub fn nothing_is_lost()
    ensures { NothingIsLost }
{}

/// What lines accept, each for its reason, is said on the line itself, or straight below it where the line has no code.
pub fn lines_accept_their_own()
    ensures { LinesAcceptTheirOwn }
{}

/// Of each file, code and name the baseline accepts no more findings than it has.
pub fn baseline_accepts_no_more()
    ensures { BaselineAcceptsNoMore }
{}

/// A package is accepted exactly where it has findings and each of them is accepted.
pub fn accepted_says_all()
    ensures { AcceptedSaysAll }
{}

/// A package is a yes exactly where it has no finding, accepted or not.
pub fn yes_says_none()
    ensures { YesSaysNone }
{}

/// By the first edition of the rules everything is told as it was found.
pub fn first_edition_accepts_nothing()
    ensures { FirstEditionAcceptsNothing }
{}
