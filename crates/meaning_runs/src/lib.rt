//! The machine that an analysed program is, and laws of it. It runs nothing.
#![tactic(auto)]

ghost use Rattle.meaning_runs.specs.BodyOffsets.{BodiesAreApart, BodiesBeginOnce};
ghost use Rattle.meaning_runs.specs.CallSteps.{CallsHaveSteps, GoneFunctionsHaveSteps, HandsStayTrusted, SentAreApart};
ghost use Rattle.meaning_runs.specs.Doings.{MovesAreLists};
ghost use Rattle.meaning_runs.specs.Laws.{CalledForStays, CallsOfNothingDoNothing, ContextsAreSound, FramesHaveSteps, GoroutinesAreFree, GroupsGetMembers, MembersMayLeave, TheEnvironmentMay};
ghost use Rattle.meaning_runs.specs.EntryPlaces.{EntriesLieInFiles};
ghost use Rattle.meaning_runs.specs.EventSources.{BindingsAreOfLocals, BindingsAreTracked, EventsHaveSources};
ghost use Rattle.meaning_runs.specs.FilePlaces.{WholePlacesLieInFiles};
ghost use Rattle.meaning_runs.specs.NamePlaces.{NamesLieInTexts};
ghost use Rattle.meaning_runs.specs.OccurrencePlaces.{OccurrencesHavePlaces, OccurrencesLieInTexts};
ghost use Rattle.meaning_runs.specs.Promise.{FirstHasNoGo, YesIsQuiet, YesIsQuietInAll, YesIsQuietWithoutGo};
ghost use Rattle.meaning_runs.specs.PackageYes.{YesOfAPackageIsQuiet};
ghost use Rattle.meaning_runs.specs.YesBelow.{YesIsOfAllBelow};
ghost use Rattle.meaning_runs.specs.YesBesideOthers.{YesIsQuietBesideOthers};
ghost use Rattle.meaning_runs.specs.RunLists.{BodiesAreOfTexts, DeferredLiteralsAreThere, GoneLiteralsAreThere, ListsAreRun, ListsOfTextsAreRun, ReturnsAreLast, StartedLiteralsAreThere};
ghost use Rattle.meaning_runs.specs.LoudReturns.{LostFunctionsAreSeen};
ghost use Rattle.meaning_runs.specs.EditionReturns.{EditionReturnsExist};
ghost use Rattle.meaning_runs.specs.FieldReturns.{FieldReturnsExist};
ghost use Rattle.meaning_runs.specs.FieldWrites.{FieldWritesAreKept, FieldWritesAreMarked, KeptRowsAreApart};
ghost use Rattle.meaning_runs.specs.GroupReturns.{GroupReturnsExist};
ghost use Rattle.meaning_runs.specs.Returns.{ReturnsExist};
ghost use Rattle.meaning_runs.specs.ToldFields.{FieldsAreTold};
ghost use Rattle.meaning_runs.specs.Waits.{AllWaitsWait};
ghost use Rattle.meaning_runs.specs.Writes.{WritesAreMarked, WritesAreSeen};

/// The moves of a code are its lists of events: each list that the code may go through is done by its moves, one after
/// another, and what moves do is a list.
pub fn moves_are_lists<E>()
    ensures { MovesAreLists E }
{}

/// In the tree of a text no two bodies begin at one offset, and a body that stands in another begins behind it.
pub fn bodies_are_apart()
    ensures { BodiesAreApart }
{}

/// In the tree of a text no body comes twice: the marks of the file open no two bodies at one offset.
pub fn bodies_begin_once()
    ensures { BodiesBeginOnce }
{}

/// Each event of a body is that of a mark in it, or says nothing, or is the return at the body's end.
pub fn events_have_sources()
    ensures { EventsHaveSources }
{}

/// An event of a body that binds a cancel variable is that of a mention of a local which the body declares in its
/// block: no parameter, and none of a body around it.
pub fn bindings_are_of_locals()
    ensures { BindingsAreOfLocals }
{}

/// The local that an event of a body binds is tracked as a cancel variable: a row obtains and clears only what is of
/// that kind, by its type or by a row that obtains it.
pub fn bindings_are_tracked()
    ensures { BindingsAreTracked }
{}

/// What a form of statement gives a value, and whose place `&` hands out, is marked so: as a left side, as exposed, or
/// as an argument with its address.
pub fn writes_are_marked()
    ensures { WritesAreMarked }
{}

/// Each such mention of a tracked cancel variable binds it, clears it or is a fault, in both editions. A read is none
/// of these, and has no event.
pub fn writes_are_seen()
    ensures { WritesAreSeen }
{}

/// Each field that a form of statement gives a value, `e.f` in brackets or not, is marked so.
pub fn field_writes_are_marked()
    ensures { FieldWritesAreMarked }
{}

/// Where what a variable holds is kept in a field of an object, each such mark of that field, of that object, puts
/// there what this variable holds.
pub fn field_writes_are_kept()
    ensures { FieldWritesAreKept }
{}

/// What is kept in a file is kept apart: each variable in one field of one object, and in each of these one variable.
pub fn kept_rows_are_apart()
    ensures { KeptRowsAreApart }
{}

/// Where a body puts into a field what it obtained, a verdict tells of a field.
pub fn fields_are_told()
    ensures { FieldsAreTold }
{}

/// A goroutine's running frame always goes on, past its event or by what it saved, but for a Wait whose group has
/// members, for a start in a variable that holds no group, and for a call that gets cancel functions or groups, of
/// which `calls_have_steps` tells.
pub fn frames_have_steps()
    ensures { FramesHaveSteps }
{}

/// A call of a variable that holds no function does nothing. So where a condition has found the variable nil, the way
/// from there on is one that the machine goes.
pub fn calls_of_nothing_do_nothing()
    ensures { CallsOfNothingDoNothing }
{}

/// A call of a function that gets cancel functions or groups always begins, at once or when what was saved runs: in
/// every world of a run there are contents that it can give. What has no body may start work in the groups that it was
/// lent, and it comes back.
pub fn calls_have_steps()
    ensures { CallsHaveSteps }
{}

/// A body that runs go through passes cancel functions and lends groups to functions of packages that runs go through
/// too, or of none that was given.
pub fn hands_stay_trusted()
    ensures { HandsStayTrusted }
{}

/// In every world of a run some goroutine does nothing and is no member of a group.
pub fn goroutines_are_free()
    ensures { GoroutinesAreFree }
{}

/// In every world of a run in which a frame comes to a start in a group, or to a try, there is a step by which a free
/// goroutine becomes a member of the group. It runs the literal that was started, with the cells around it.
pub fn groups_get_members()
    ensures { GroupsGetMembers }
{}

/// A member that runs nothing any more may leave its group.
pub fn members_may_leave()
    ensures { MembersMayLeave }
{}

/// In every world the environment may call any function, method or literal that it can get, end any context, call any
/// cancel function, and start work in any group that was made outside, or that has a member of which nothing is known.
pub fn the_environment_may()
    ensures { TheEnvironmentMay }
{}

/// A Wait ends only where its group has no member, at once or when what was saved runs; then the context of the group
/// is done. A frame whose last saved one is a Wait goes on by nothing else.
pub fn waits_wait()
    ensures { AllWaitsWait }
{}

/// In every world of a run: a cancel function that was called has ended its context and all that come from it; a
/// context that is made from a done one is born done; and what is done stays done.
pub fn contexts_are_sound()
    ensures { ContextsAreSound }
{}

/// Runs come to returns: to quiet ones of a function that saves the call, of one that passes its cancel function to
/// another one, and of one that saves a literal; and to ones that are not quiet of a function that forgets the call,
/// and of one that assigns to the variable before its function was called.
pub fn returns_exist()
    ensures { ReturnsExist }
{}

/// What a yes promises: where nothing is to be said of the files of some packages, and among these is each given one to
/// whose functions they pass cancel functions or lend groups, under tables that are consistent, each return of one of
/// them is quiet, in every run. Other packages are part of the environment, and may do anything that it may. Literals
/// share the variables that they capture with the activation around them, be they deferred, called by anyone, or
/// started in a group.
pub fn yes_is_quiet()
    ensures { YesIsQuiet }
{}

/// In the first edition no body that runs comes to a `go` statement that takes something on.
pub fn first_has_no_go()
    ensures { FirstHasNoGo }
{}

/// Where no body that runs does, each return of packages of which nothing is to be said is quiet.
pub fn yes_is_quiet_without_go()
    ensures { YesIsQuietWithoutGo }
{}

/// A cancel function that is seen to, by a call or by a goroutine that was started, is seen to after each step too.
pub fn called_for_stays()
    ensures { CalledForStays }
{}

/// So it is where all given packages run: what the bodies of others do is nothing that the environment may not do.
pub fn yes_is_quiet_in_all()
    ensures { YesIsQuietInAll }
{}

/// So it is by a report of packages of different paths, in each edition, whatever is declared of packages that were not
/// given. Of the packages of which it says nothing its tables know what holds, and what they use is among them; so each
/// return of such a package is quiet, in every run of all packages in which what is declared is true.
pub fn yes_of_a_package_is_quiet()
    ensures { YesOfAPackageIsQuiet }
{}

/// So it is where packages that are not yes do anything that the environment may.
pub fn yes_is_quiet_beside_others()
    ensures { YesIsQuietBesideOthers }
{}

/// In the first edition a yes is one of each given package below too, since an import that isn't yes would be said:
/// nothing is to be said of the files of any of these.
pub fn yes_is_of_all_below()
    ensures { YesIsOfAllBelow }
{}

/// Each list of a body is the list of events of some run, as far as its events are runnable: no body is known for a
/// function that gets a cancel function or a group, a group is made before work is started in it, and no Wait comes
/// after a literal was started. The run begins with a call of the body, and comes to what is left of it after the list,
/// or to its return.
pub fn lists_are_run()
    ensures { ListsAreRun }
{}

/// The tree of a body's file is that of a text where the trees of its package are, as the promise asks for.
pub fn bodies_are_of_texts()
    ensures { BodiesAreOfTexts }
{}

/// In the tree of a text no event of a body's list but the last one is a return: the event of a return is the last one
/// at its offset, and no other statement asks for the events there.
pub fn returns_are_last()
    ensures { ReturnsAreLast }
{}

/// In the tree of a text no two occurrences of a body's code have one place, whatever its sites give: they differ in
/// offset, or in order among the events there.
pub fn occurrences_have_places<E>()
    ensures { OccurrencesHavePlaces E }
{}

/// In the tree of a text each occurrence of a body's code stands at an offset in the text.
pub fn occurrences_lie_in_texts<E>()
    ensures { OccurrencesLieInTexts E }
{}

/// In the tree of a text each name that a mark mentions stands in the text, and so do the statement of the row whose
/// only value is a call that is looked at, and the names of a body's receiver, parameters and results.
pub fn names_lie_in_texts()
    ensures { NamesLieInTexts }
{}

/// Where the trees of a package are those of its files' texts, each fault of the whole package and what is said of its
/// imports stands in one of these files, at an offset of its text or at its end.
pub fn whole_places_lie_in_files()
    ensures { WholePlacesLieInFiles }
{}

/// Where the trees of a package are those of its files' texts, each entry of a report of the package stands in one of
/// these files, at an offset of its text or at its end.
pub fn entries_lie_in_files()
    ensures { EntriesLieInFiles }
{}

/// What a `go` statement sends has each position once.
pub fn sent_are_apart()
    ensures { SentAreApart }
{}

/// So a `go` statement with a function has a step, by which a free goroutine runs the function.
pub fn gone_functions_have_steps()
    ensures { GoneFunctionsHaveSteps }
{}

/// In the tree of a text each literal whose call an event of a body saves stands in the body.
pub fn deferred_literals_are_there()
    ensures { DeferredLiteralsAreThere }
{}

/// In the tree of a text each literal that an event of a body starts by a `go` statement stands in the body.
pub fn gone_literals_are_there()
    ensures { GoneLiteralsAreThere }
{}

/// In the tree of a text each literal that an event of a body starts in a group, or may start, stands in the body.
pub fn started_literals_are_there()
    ensures { StartedLiteralsAreThere }
{}

/// So each list of an outermost body in the tree of a text is the list of events of some run, as far as its events are
/// runnable.
pub fn lists_of_texts_are_run()
    ensures { ListsOfTextsAreRun }
{}

/// Runs come to returns that are not quiet in each of these packages: one passes its cancel function to a function that
/// does not call it, one saves such a call, one saves a literal that calls nothing, one a literal that calls it in one
/// branch, one uses the function in another way, one calls it in one branch, and one returns before the call.
pub fn lost_functions_are_seen()
    ensures { LostFunctionsAreSeen }
{}

/// With groups, runs come to quiet returns: of a function that waits for the literal that calls its cancel function, be
/// it started by Go or by TryGo, of one whose member starts work in the same group, of one with two groups, of one that
/// saves its Wait, and of one that leaves the function to a group of its caller's. And they come to ones that are not
/// quiet: where TryGo starts nothing, where one return does not wait, where the variable gets another group while work
/// goes on, where another group is waited for, where the caller's group is not waited for at all, where a function to
/// which the group was lent starts work in it, and where a literal that something else gets forgets its function.
pub fn group_returns_exist()
    ensures { GroupReturnsExist }
{}

/// In the second edition, of a function that calls its cancel function where that is not nil a run comes to a quiet
/// return, and of one that calls it where it is nil, to one that is not quiet.
pub fn edition_returns_exist()
    ensures { EditionReturnsExist }
{}

/// With fields, runs come to quiet returns: of a function that calls the field in which an object keeps its cancel
/// function, at once or by a saved call, and of one that obtains into the field. They come to ones that are not quiet
/// where nothing calls what the object keeps, and where the object is handed on before it keeps anything. And where
/// others get the function, by the object, by the return or in a field of theirs, the frame owes nothing.
pub fn field_returns_exist()
    ensures { FieldReturnsExist }
{}
