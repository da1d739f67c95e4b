//! Laws about the definitions, as functions with nothing to run.

ghost use Rattle.judge.specs.OneReport.{GivenPackagesHaveOneReport};

/// Given packages have one report where the same is declared of others: two reports of them have one verdict, and one
/// text where each file that has tokens has a tree. So the contract of `report_of` leaves nothing open but which reason
/// is given for a missing tree.
pub fn given_packages_have_one_report()
    ensures { GivenPackagesHaveOneReport }
{}
