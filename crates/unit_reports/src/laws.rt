//! Laws about the definitions, as functions with nothing to run.

ghost use Rattle.unit_reports.specs.UnitLaws.{QuietGivenUnits, QuietUnits, SilentUnitsAreYes, UnitRunsAreTheReport, YesUnitsAreQuiet};

/// Packages are judged by themselves, and what is said of them is their report: where nothing is said of one of them,
/// each return of a frame of that package is quiet, as by the report of all packages in one run.
pub fn yes_units_are_quiet()
    ensures { YesUnitsAreQuiet }
{}

/// What runs of single packages say, each after those of what its package imports, and told what was kept of these, is
/// the report of all packages in one run.
pub fn unit_runs_are_the_report()
    ensures { UnitRunsAreTheReport }
{}

/// Whenever packages are judged by themselves in order, each with what was kept of those that it imports, what is said
/// of them is the report of all packages in one run, and each of which nothing is said is quiet: each return of one of
/// its frames, in every run over all these packages.
pub fn quiet_units()
    ensures { QuietUnits }
{}

/// The same of packages that are given by the bytes of their files. Their trees are those of texts, so nothing is asked
/// for but that their paths are different, and that each was told in order.
pub fn quiet_given_units()
    ensures { QuietGivenUnits }
{}

/// A package that is judged by itself and told as text, with accepted findings too, has an empty text only if nothing
/// is said of it. So one of which nothing is printed is quiet. And where nothing is said of it, its text is empty,
/// unless lines that accept nothing are told.
pub fn silent_units_are_yes()
    ensures { SilentUnitsAreYes }
{}
