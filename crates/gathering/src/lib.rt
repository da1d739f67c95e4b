//! What a result of one package is, and what such results are together: definitions, and laws. It runs nothing.
#![tactic(auto)]

ghost use Rattle.gathering.specs.ResultLaws.{OneResult, ResultsAreTheReport, ResultsHaveTables, ResultsSayTheTables, ResultsTellYes, WhatFollowsIsAResult};
ghost use Rattle.gathering.specs.Units.{UnitsAreTheReport};

/// What is found of a package by results of what it imports is a result: it is right by any tables that are right below
/// the package.
pub fn what_follows_is_a_result()
    ensures { WhatFollowsIsAResult }
{}

/// A result says nothing of its package exactly where there is nothing to say of it.
pub fn results_tell_yes()
    ensures { ResultsTellYes }
{}

/// Results of all packages that have a rank are right by the tables of all packages, and have these.
pub fn results_have_tables()
    ensures { ResultsHaveTables }
{}

/// Where all packages were judged, the tables that the results say are those of all packages.
pub fn results_say_the_tables()
    ensures { ResultsSayTheTables }
{}

/// Results of all packages, in their order, are the report.
pub fn results_are_the_report()
    ensures { ResultsAreTheReport }
{}

/// A package has one result at most, where all packages that have a rank were judged.
pub fn one_result()
    ensures { OneResult }
{}

/// What units say, each run after those of what its package imports, and told what these tell, is the report of all
/// packages.
pub fn units_are_the_report()
    ensures { UnitsAreTheReport }
{}
