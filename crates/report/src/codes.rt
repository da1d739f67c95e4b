//! What a diagnostic can say, and the order of it.

ghost use Rattle.std.specs.Prelude.{◌≡◌, nat_eq, refl};
ghost use Rattle.std.specs.Ordering.{nat_cmp, on, as_partial_cmp};
ghost use Rattle.std.specs.Cmp.{partial_order_from_own_ties, unsigned_ties};
ghost use Rattle.std.specs.Cmp.Rules.{comparing};
ghost use Rattle.std.proofs.Common.{rules};
ghost use Rattle.report.specs.declared.codes.Wording.TheVariants.{Second};
ghost use Rattle.report.specs.Codes.{code_rank, code_number, code_text, code_words, text_fault_text, tree_fault_text};

use std::cmp::Ordering;

/// Why a file has no tokens, as a diagnostic tells it. `lexer::LexFault` is another type, since it has the offset,
/// which a diagnostic has in a field of its own for all codes, and refused memory, of which no report tells.
#[derive(Clone, Copy, Debug, PartialEq, Eq)]
pub enum TextFault {
    NotUtf8,
    Nul,
    UnclosedString,
    UnclosedComment,
    UnclosedRune,
    UnknownCharacter,
    /// It has more than 1 MiB.
    TooLong,
}

impl TextFault {
    /// What the report prints of it.
    pub fn text(self) -> &'static str
        ensures { result.now ≡ text_fault_text self }
    {
        match self {
            TextFault::NotUtf8 => "not UTF-8",
            TextFault::Nul => "NUL byte",
            TextFault::UnclosedString => "string not ended",
            TextFault::UnclosedComment => "comment not ended",
            TextFault::UnclosedRune => "rune not ended",
            TextFault::UnknownCharacter => "character of no token",
            TextFault::TooLong => "file over 1 MiB",
        }
    }
}

/// Why a file has no tree, or is left out, as a diagnostic tells it. `parser::ParseFault` is another type, since it has
/// the offset and refused memory, and no use of `recover`, which only the meaning of names shows.
#[derive(Clone, Copy, Debug, PartialEq, Eq)]
pub enum TreeFault {
    UnexpectedToken,
    TypeParameters,
    Goto,
    Fallthrough,
    DotImport,
    /// It names the predeclared function `recover`.
    Recover,
    /// Its statements and expressions are nested deeper than 200.
    TooDeep,
}

impl TreeFault {
    /// What the report prints of it.
    pub fn text(self) -> &'static str
        ensures { result.now ≡ tree_fault_text self }
    {
        match self {
            TreeFault::UnexpectedToken => "unexpected token",
            TreeFault::TypeParameters => "left out: type parameters",
            TreeFault::Goto => "left out: goto",
            TreeFault::Fallthrough => "left out: fallthrough",
            TreeFault::DotImport => "left out: dot import",
            TreeFault::Recover => "left out: recover",
            TreeFault::TooDeep => "deeper than 200",
        }
    }
}

/// What a diagnostic says. Codes are ordered by their ranks.
#[derive(Clone, Copy, Debug)]
pub enum DiagnosticCode {
    /// LC01: the file has no tokens.
    Unreadable(TextFault),
    /// LC02: the file has no tree, or is left out.
    LeftOut(TreeFault),
    /// LC03: a cancel function is given the name `_`, or its maker or giver is called as a statement.
    Discarded,
    /// LC04: a cancel function is bound again before it is called.
    Overwritten,
    /// LC05: a cancel function may not have been called at a return.
    NotCalled,
    /// LC06: a cancel function is used in a way that no rule allows.
    CancelMisused,
    /// LC07: a group may have tasks that go on at a return.
    GroupIsLive,
    /// LC08: a group is bound again before it is waited for.
    GroupOverwritten,
    /// LC09: a group is used in a way that no rule allows.
    GroupMisused,
    /// LC10: a cancel function is left to a group whose tasks may go on at a return.
    LeftToLiveGroup,
    /// LC11: a named result or a captured variable is bound again.
    BoundAgain,
    /// LC12: a body has more tracked variables than are followed.
    TooMany,
    /// LC13: an imported package is not yes.
    ImportIsNotYes,
    /// LC14: an imported package has no rank.
    ImportHasNoRank,
    /// LC15: two functions of a package have one name.
    TwoFunctions,
    /// LC16: a certificate is missing, or does not hold.
    NoCertificate,
    /// LC18: a line that is to accept findings accepts none, or is not in its form.
    AcceptsNothing,
}

/// In which words a code is told: those of the first edition of the rules, or of the second one.
#[derive(Clone, Copy, Debug, PartialEq, Eq)]
pub enum Wording {
    First,
    Second,
}

impl DiagnosticCode {
    /// The place of the code in the order of codes, from 0.
    pub fn rank(self) -> u8
        ensures { result ≡ code_rank self }
    {
        match self {
            DiagnosticCode::Unreadable(TextFault::NotUtf8) => 0,
            DiagnosticCode::Unreadable(TextFault::Nul) => 1,
            DiagnosticCode::Unreadable(TextFault::UnclosedString) => 2,
            DiagnosticCode::Unreadable(TextFault::UnclosedComment) => 3,
            DiagnosticCode::Unreadable(TextFault::UnclosedRune) => 4,
            DiagnosticCode::Unreadable(TextFault::UnknownCharacter) => 5,
            DiagnosticCode::Unreadable(TextFault::TooLong) => 6,
            DiagnosticCode::LeftOut(TreeFault::UnexpectedToken) => 7,
            DiagnosticCode::LeftOut(TreeFault::TypeParameters) => 8,
            DiagnosticCode::LeftOut(TreeFault::Goto) => 9,
            DiagnosticCode::LeftOut(TreeFault::Fallthrough) => 10,
            DiagnosticCode::LeftOut(TreeFault::DotImport) => 11,
            DiagnosticCode::LeftOut(TreeFault::Recover) => 12,
            DiagnosticCode::LeftOut(TreeFault::TooDeep) => 13,
            DiagnosticCode::Discarded => 14,
            DiagnosticCode::Overwritten => 15,
            DiagnosticCode::NotCalled => 16,
            DiagnosticCode::CancelMisused => 17,
            DiagnosticCode::GroupIsLive => 18,
            DiagnosticCode::GroupOverwritten => 19,
            DiagnosticCode::GroupMisused => 20,
            DiagnosticCode::LeftToLiveGroup => 21,
            DiagnosticCode::BoundAgain => 22,
            DiagnosticCode::TooMany => 23,
            DiagnosticCode::ImportIsNotYes => 24,
            DiagnosticCode::ImportHasNoRank => 25,
            DiagnosticCode::TwoFunctions => 26,
            DiagnosticCode::NoCertificate => 27,
            DiagnosticCode::AcceptsNothing => 28,
        }
    }

    /// The number that the report prints, as `LC01`. The kinds of `Unreadable` share one, and so do those of `LeftOut`.
    pub fn number(self) -> &'static str
        ensures { result.now ≡ code_number self }
    {
        match self {
            DiagnosticCode::Unreadable(_) => "LC01",
            DiagnosticCode::LeftOut(_) => "LC02",
            DiagnosticCode::Discarded => "LC03",
            DiagnosticCode::Overwritten => "LC04",
            DiagnosticCode::NotCalled => "LC05",
            DiagnosticCode::CancelMisused => "LC06",
            DiagnosticCode::GroupIsLive => "LC07",
            DiagnosticCode::GroupOverwritten => "LC08",
            DiagnosticCode::GroupMisused => "LC09",
            DiagnosticCode::LeftToLiveGroup => "LC10",
            DiagnosticCode::BoundAgain => "LC11",
            DiagnosticCode::TooMany => "LC12",
            DiagnosticCode::ImportIsNotYes => "LC13",
            DiagnosticCode::ImportHasNoRank => "LC14",
            DiagnosticCode::TwoFunctions => "LC15",
            DiagnosticCode::NoCertificate => "LC16",
            DiagnosticCode::AcceptsNothing => "LC18",
        }
    }

    /// What a report by the first edition of the rules prints behind the name.
    pub fn text(self) -> &'static str
        ensures { result.now ≡ code_text self }
    {
        match self {
            DiagnosticCode::Unreadable(why) => why.text(),
            DiagnosticCode::LeftOut(why) => why.text(),
            DiagnosticCode::Discarded => "cancel function discarded",
            DiagnosticCode::Overwritten => "overwritten before it is called",
            DiagnosticCode::NotCalled => "may not have been called at this return",
            DiagnosticCode::CancelMisused => "cancel function used in another way",
            DiagnosticCode::GroupIsLive => "group may be live at this return",
            DiagnosticCode::GroupOverwritten => "overwritten before Wait",
            DiagnosticCode::GroupMisused => "group used in another way",
            DiagnosticCode::LeftToLiveGroup => "left to a group that may be live at this return",
            DiagnosticCode::BoundAgain => "named result or captured variable bound again",
            DiagnosticCode::TooMany => "too many tracked variables",
            DiagnosticCode::ImportIsNotYes => "import is not yes",
            DiagnosticCode::ImportHasNoRank => "import has no rank",
            DiagnosticCode::TwoFunctions => "two functions of one name",
            DiagnosticCode::NoCertificate => "certificate missing or not holding",
            DiagnosticCode::AcceptsNothing => "accepts nothing",
        }
    }

    /// The same in these words.
    pub fn words(self, wording: Wording) -> &'static str
        ensures { result.now ≡ code_words wording self }
    {
        match wording {
            Wording::First => self.text(),
            Wording::Second => self.second_words(),
        }
    }

    /// What a report by the second edition of the rules prints behind the name.
    fn second_words(self) -> &'static str
        ensures { result.now ≡ code_words Second self }
    {
        match self {
            DiagnosticCode::NotCalled => "is not called on every path to this return",
            DiagnosticCode::CancelMisused => "is used in a way that is not followed",
            DiagnosticCode::GroupIsLive => "is not waited for on every path to this return",
            DiagnosticCode::GroupMisused => "is used in a way that is not followed",
            DiagnosticCode::LeftToLiveGroup => {
                "is left to a group that is not waited for on every path to this return"
            }
            DiagnosticCode::ImportIsNotYes => "import has findings",
            DiagnosticCode::ImportHasNoRank => "import cycle",
            code => code.text(),
        }
    }
}

impl PartialEq for DiagnosticCode {
    ghost eq = { on code_rank nat_eq };

    ghost laws = { Prim.search (comparing, rules) };

    fn eq(&self, other: &DiagnosticCode) -> bool {
        self.rank() == other.rank()
    }
}

impl Eq for DiagnosticCode {
    ghost laws = { Prim.search (comparing, rules) };
}

impl PartialOrd for DiagnosticCode {
    ghost partial_cmp = { as_partial_cmp (on code_rank nat_cmp) };

    ghost laws = { partial_order_from_own_ties (Prim.search (comparing, rules))
        (λ x y. unsigned_ties (code_rank x) (code_rank y)) };

    fn partial_cmp(&self, other: &DiagnosticCode) -> Option<Ordering> {
        Some(self.cmp(other))
    }
}

impl Ord for DiagnosticCode {
    ghost cmp = { on code_rank nat_cmp };

    ghost total = { Prim.search (comparing, rules) };

    ghost matches_partial_cmp = { λ x y. refl };

    ghost matches_eq = { λ x y. unsigned_ties (code_rank x) (code_rank y) };

    fn cmp(&self, other: &DiagnosticCode) -> Ordering {
        self.rank().cmp(&other.rank())
    }
}
