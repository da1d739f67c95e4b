//! The statuses that the program ends with.

ghost use Rattle.std.specs.Prelude.{◌≡◌};

/// How a run ended.
#[derive(Clone, Copy, Debug, PartialEq, Eq)]
pub enum Status {
    /// Each package is yes, or help was asked for.
    Fine,
    /// Some package is no.
    Found,
    /// The words were wrong, or something outside the program failed.
    Faulty,
}

impl Status {
    ghost use Rattle.printed.specs.Statuses.{status_code, status_of};

    /// The number that the process ends with.
    pub fn code(self) -> u8
        ensures { result ≡ status_code self }
    {
        match self {
            Status::Fine => 0,
            Status::Found => 1,
            Status::Faulty => 2,
        }
    }

    /// The status of a run that printed a report with this verdict.
    pub fn of_verdict(yes: bool) -> Status
        ensures { result ≡ status_of yes }
    {
        if yes { Status::Fine } else { Status::Found }
    }
}
