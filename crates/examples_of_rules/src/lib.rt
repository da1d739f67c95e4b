//! Examples of the rules: definitions applied to small trees, each with what it is to come to. Nothing stands on this
//! crate, so a further example costs no other one a proof.
#![tactic(auto)]

ghost use Rattle.examples_of_rules.specs.CancelExamples.{CancelFunctionsAreFollowed};
ghost use Rattle.examples_of_rules.specs.ClassExamples.{ClassesFollowEvents};
ghost use Rattle.examples_of_rules.specs.CodeExamples.{StatementsAreCodes};
ghost use Rattle.examples_of_rules.specs.ConditionExamples.{ConditionsTell};
ghost use Rattle.examples_of_rules.specs.GroupExamples.{GroupsAreFollowed};
ghost use Rattle.examples_of_rules.specs.MarkExamples.{PlacesAskOfNames};
ghost use Rattle.examples_of_rules.specs.ScopeExamples.{NamesMeanTheirDeclarations};
ghost use Rattle.examples_of_rules.specs.SignatureExamples.{SignaturesTell};
ghost use Rattle.examples_of_rules.specs.TokenExamples.{LinesEndStatements};

/// The end of a line inserts a semicolon behind some tokens and not behind others.
pub fn lines_end_statements()
    ensures { LinesEndStatements }
{}

/// Names mean the declarations around them: locals, imports, functions of the package, or the universe's.
pub fn names_mean_their_declarations()
    ensures { NamesMeanTheirDeclarations }
{}

/// What the place of a name asks of it, by its form alone: calls, arguments, left sides, returned and other names.
pub fn places_ask_of_names()
    ensures { PlacesAskOfNames }
{}

/// The codes of branches, loops, switches and selects.
pub fn statements_are_codes()
    ensures { StatementsAreCodes }
{}

/// What a body does to a cancel variable, statement by statement, and which uses are not allowed, in both editions.
pub fn cancel_functions_are_followed()
    ensures { CancelFunctionsAreFollowed }
{}

/// What a body does to a group, statement by statement, and which uses are not allowed.
pub fn groups_are_followed()
    ensures { GroupsAreFollowed }
{}

/// What a condition tells of a variable, in the second edition alone: that it is nil, or that an error is none.
pub fn conditions_tell()
    ensures { ConditionsTell }
{}

/// What is known of functions by their signatures, and by their returns.
pub fn signatures_tell()
    ensures { SignaturesTell }
{}

/// What is known of a variable after some events.
pub fn classes_follow_events()
    ensures { ClassesFollowEvents }
{}
