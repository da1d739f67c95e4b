//! What the parts of ctxvet are to find: definitions, laws, and the limits that the definitions name. It
//! runs nothing.
#![tactic(auto)]

ghost use Rattle.meaning.specs.Conditions.{ConditionsFindOut};
ghost use Rattle.meaning.specs.KeptExamples.{KeptInFields};
ghost use Rattle.meaning.specs.KeptLaws.{KeptIsOwed};
ghost use Rattle.meaning.specs.Laws.{EachFrontStops, FallingOffReturns};
ghost use Rattle.meaning.specs.NameExamples.{TypeParametersHide};
ghost use Rattle.meaning.specs.ObjectExamples.{KeptForCertain};
ghost use Rattle.meaning.specs.StatementExamples.{FallingAndJumping};
ghost use Rattle.meaning.specs.TreeExamples.{DelicateTrees, RefusedTrees};
ghost use Rattle.meaning.specs.UseLaws.{EachMentionIsOneOfThree, EventsStandAtOneSite};

/// The most that a tree may be deep, counted in statements and expressions. A text whose tree is deeper is
/// not judged.
pub const MOST_DEPTH: u32 = 200;

/// The most cancel variables that a body may have. Of one with more that is the fault, and its paths are not judged.
pub const MOST_CANCELS: usize = 48;

/// The most groups that a body may have, in the same way.
pub const MOST_GROUPS: usize = 12;

/// Each front of a list of events that a code may go through is one at which it may stop, whatever the
/// events are.
pub fn each_front_stops<E>()
    ensures { EachFrontStops E }
{}

/// Falling off a body's end returns: the lists of events that come to the end of a body are those of its
/// statements that fall off, and after them the return at its last brace. So it is for every body, whatever
/// its sites give.
pub fn falling_off_returns<E>()
    ensures { FallingOffReturns E }
{}

/// The grammar is not empty where it is easily wrong: short texts, each with a tree that it has.
pub fn delicate_trees_are_spelled()
    ensures { DelicateTrees }
{}

/// The grammar refuses what a wrong one would accept: trees that look like those of a text and are none.
pub fn other_trees_are_not()
    ensures { RefusedTrees }
{}

/// In small functions type parameters hide what stands around the function, and a receiver's type declares some.
pub fn type_parameters_hide()
    ensures { TypeParametersHide }
{}

/// A `fallthrough` comes to its switch's header again, and of a body with a `goto` any order of its parts is a list.
pub fn falling_and_jumping()
    ensures { FallingAndJumping }
{}

/// A mention of a tracked variable is a binding, an allowed mention or neither, and just one of these; an allowed one
/// gives no fault, and one that is neither gives one. What a binding gives is not said: an event, a fault, or both.
pub fn each_mention_is_one_of_three()
    ensures { EachMentionIsOneOfThree }
{}

/// What a mention, a return or a deferred literal does stands at one site.
pub fn events_stand_at_one_site()
    ensures { EventsStandAtOneSite }
{}

/// Where a condition has come out so, by how its comparisons did, what it finds nil was equal to `nil`; and what behind
/// a row it finds to be an error was not.
pub fn conditions_find_out()
    ensures { ConditionsFindOut }
{}

/// In small functions a field keeps a cancel function, and what is given to others, called or returned is as the rules
/// say.
pub fn kept_in_fields()
    ensures { KeptInFields }
{}

/// In small functions an element is that of a field for certain, or may be that of a map; and an object may get another
/// value by its address, or can't.
pub fn kept_for_certain()
    ensures { KeptForCertain }
{}

/// What is kept in a field stays so until it is called, given to others, bound again or given back; nothing else that
/// becomes of an object settles what it doesn't keep.
pub fn kept_is_owed()
    ensures { KeptIsOwed }
{}
