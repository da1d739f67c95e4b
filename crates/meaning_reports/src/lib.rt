//! What is to be said of packages that were loaded: definitions, and laws. It runs nothing.
#![tactic(auto)]

ghost use Rattle.meaning_reports.specs.CountedPackages.{CountingIsByFaults};
ghost use Rattle.meaning_reports.specs.EntryFiles.{EntriesAreOfFiles};
ghost use Rattle.meaning_reports.specs.OneReport.{OneReport};

/// Packages have one report: two reports of the same packages are equal, in what is said of each, in which order, and
/// in what is known of its functions.
pub fn one_report()
    ensures { OneReport }
{}

/// Each entry of a report is of a file of its package.
pub fn entries_are_of_files()
    ensures { EntriesAreOfFiles }
{}

/// A package counts as given, for those that import it, in the first edition always, and in the second where it has no
/// fault as a whole but imports without a rank.
pub fn counting_is_by_faults()
    ensures { CountingIsByFaults }
{}
