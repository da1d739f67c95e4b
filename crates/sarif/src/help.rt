//! What SARIF says of each rule beside its text. `scripts/rule-help` writes this file from docs/CODES.md.

pub const LC01_MEANING: &str = "The text can't be cut into tokens.";

pub const LC01_TEXT: &str =
    "The finding stands at the first place that is no token. Its texts are not UTF-8, NUL byte, \
    string not ended, comment not ended, rune not ended, character of no token, and file over 1 MiB \
    (at 1:1). Split a file of more than 1 MiB; otherwise nothing judges its package.\nWhat to do: \
    Mend it there.";

pub const LC01_MARKDOWN: &str =
    "The finding stands at the first place that is no token. Its texts are `not UTF-8`, `NUL byte`, \
    `string not ended`, `comment not ended`, `rune not ended`, `character of no token`, and `file \
    over 1 MiB` (at 1:1). Split a file of more than 1 MiB; otherwise nothing judges its \
    package.\n\n**What to do:** Mend it there.";

pub const LC02_MEANING: &str = "No syntax tree, or a form that is left out.";

pub const LC02_TEXT: &str =
    "The file has no syntax tree, or it has a form of Go that ctxvet does not judge.\nWhat to do: \
    Mend it, or write it otherwise.";

pub const LC02_MARKDOWN: &str =
    "The file has no syntax tree, or it has a form of Go that ctxvet does not judge.\n\n**What to \
    do:** Mend it, or write it otherwise.";

pub const LC03_MEANING: &str = "Nothing has the name of this cancel function.";

pub const LC03_TEXT: &str =
    "The cancel function gets the name _, or no name, so nobody can call it. Its context lives until \
    its parent ends. The finding stands at the start of the statement (of a declaration at var, of \
    a labelled one behind the colon); NAME is the called function.\nWhat to do: Name it, and defer \
    its call.";

pub const LC03_MARKDOWN: &str =
    "The cancel function gets the name `_`, or no name, so nobody can call it. Its context lives \
    until its parent ends. The finding stands at the start of the statement (of a declaration at \
    `var`, of a labelled one behind the colon); NAME is the called function.\n\n**What to do:** \
    Name it, and `defer` its call.";

pub const LC04_MEANING: &str = "A new value before a call of the old one.";

pub const LC04_TEXT: &str =
    "Some path comes to this binding while the variable holds a cancel function that nobody called \
    or deferred. Afterwards nobody has its name. In a loop that path may come from the turn before. \
    The finding stands at the variable. In the second edition it may stand at a field that obtains, \
    as t.stop of an object that this function made.\nWhat to do: Call or defer before this line.";

pub const LC04_MARKDOWN: &str =
    "Some path comes to this binding while the variable holds a cancel function that nobody called \
    or deferred. Afterwards nobody has its name. In a loop that path may come from the turn before. \
    The finding stands at the variable. In the second edition it may stand at a field that obtains, \
    as `t.stop` of an object that this function made.\n\n**What to do:** Call or defer before this \
    line.";

pub const LC05_MEANING: &str = "Some path comes to this return without a call.";

pub const LC05_TEXT: &str =
    "Some path to this return neither calls the cancel function, nor defers its call, nor hands it \
    on. The context and all that waits for it then live on. The finding stands at the return, or at \
    the last brace.\nWhat to do: defer cancel() where it is obtained.";

pub const LC05_MARKDOWN: &str =
    "Some path to this return neither calls the cancel function, nor defers its call, nor hands it \
    on. The context and all that waits for it then live on. The finding stands at the `return`, or \
    at the last brace.\n\n**What to do:** `defer cancel()` where it is obtained.";

pub const LC06_MEANING: &str = "Nobody follows the cancel function there.";

pub const LC06_TEXT: &str =
    "You may call a cancel function, defer it, return it at a result of its own type, or pass it to \
    a function that is known to call it. In the second edition you may also read it anywhere, which \
    is no call, and keep it in a field. The finding stands at the name; of context.WithCancel it \
    stands at context, and NAME is WithCancel.\nWhat to do: Call, defer, return or pass it.";

pub const LC06_MARKDOWN: &str =
    "You may call a cancel function, defer it, return it at a result of its own type, or pass it to \
    a function that is known to call it. In the second edition you may also read it anywhere, which \
    is no call, and keep it in a field. The finding stands at the name; of `context.WithCancel` it \
    stands at `context`, and NAME is `WithCancel`.\n\n**What to do:** Call, defer, return or pass \
    it.";

pub const LC07_MEANING: &str = "Work of this group may still run at this return.";

pub const LC07_TEXT: &str =
    "The function made this group, and on some path to this return its work may still run. That work \
    may use what the caller already closed. The finding stands at the return, or at the last brace. \
    Wait for a group of errgroup.WithContext even if nothing was started: its context lives until \
    then.\nWhat to do: Wait on each path.";

pub const LC07_MARKDOWN: &str =
    "The function made this group, and on some path to this return its work may still run. That work \
    may use what the caller already closed. The finding stands at the return, or at the last brace. \
    Wait for a group of `errgroup.WithContext` even if nothing was started: its context lives until \
    then.\n\n**What to do:** `Wait` on each path.";

pub const LC08_MEANING: &str = "The group is made anew while old work may run.";

pub const LC08_TEXT: &str =
    "Some path comes to this binding while work of the old group may run. Afterwards nobody can wait \
    for it. The finding stands at the variable.\nWhat to do: Wait before this line.";

pub const LC08_MARKDOWN: &str =
    "Some path comes to this binding while work of the old group may run. Afterwards nobody can wait \
    for it. The finding stands at the variable.\n\n**What to do:** `Wait` before this line.";

pub const LC09_MEANING: &str = "Nobody follows the group there.";

pub const LC09_TEXT: &str =
    "You may start work in a group, set its limit, and wait for it. You may lend it to a given \
    function with a parameter *errgroup.Group, or to one with a declared fact. By any other use \
    somebody could start work unseen. The finding stands at the variable, or at errgroup where that \
    package is used in another way; NAME is then the name after the dot, or the import's \
    name.\nWhat to do: Start, wait or lend only.";

pub const LC09_MARKDOWN: &str =
    "You may start work in a group, set its limit, and wait for it. You may lend it to a given \
    function with a parameter `*errgroup.Group`, or to one with a declared fact. By any other use \
    somebody could start work unseen. The finding stands at the variable, or at `errgroup` where \
    that package is used in another way; NAME is then the name after the dot, or the import's \
    name.\n\n**What to do:** Start, wait or lend only.";

pub const LC10_MEANING: &str = "Work that calls the cancel function may still run.";

pub const LC10_TEXT: &str =
    "A function that was started in a group calls the cancel function. At this return that group may \
    still be at work, so the call may not have come. The finding stands at the return; NAME is the \
    cancel function.\nWhat to do: Wait for that group.";

pub const LC10_MARKDOWN: &str =
    "A function that was started in a group calls the cancel function. At this return that group may \
    still be at work, so the call may not have come. The finding stands at the return; NAME is the \
    cancel function.\n\n**What to do:** `Wait` for that group.";

pub const LC11_MEANING: &str = "A literal or deferred call may see another value.";

pub const LC11_TEXT: &str =
    "A literal may run before or after this binding, and then call another function than you expect. \
    So a cancel function or group that a literal mentions may get its value in its declaration \
    alone. Deferred calls could change a named result. So LC11 also stands at a named result of \
    type context.CancelFunc or context.CancelCauseFunc, and where a named result is bound as a \
    cancel function or group would be.\nWhat to do: Use a new variable.";

pub const LC11_MARKDOWN: &str =
    "A literal may run before or after this binding, and then call another function than you expect. \
    So a cancel function or group that a literal mentions may get its value in its declaration \
    alone. Deferred calls could change a named result. So LC11 also stands at a named result of \
    type `context.CancelFunc` or `context.CancelCauseFunc`, and where a named result is bound as a \
    cancel function or group would be.\n\n**What to do:** Use a new variable.";

pub const LC12_MEANING: &str = "More than 48 cancel functions or 12 groups.";

pub const LC12_TEXT: &str =
    "A function, method or literal may have 48 cancel functions and 12 groups. The finding stands at \
    the first mention of the 49th or 13th. No path of this body is judged. Split the \
    function.\nWhat to do: Split the function.";

pub const LC12_MARKDOWN: &str =
    "A function, method or literal may have 48 cancel functions and 12 groups. The finding stands at \
    the first mention of the 49th or 13th. No path of this body is judged. Split the \
    function.\n\n**What to do:** Split the function.";

pub const LC13_MEANING: &str = "An imported package has findings.";

pub const LC13_TEXT: &str =
    "The imported package is in the run, and its verdict is not yes. What its functions do may not \
    be what this package relies on. Mend those findings first; if LC13 is all that a package has, \
    there is nothing to do in it. NAME is the import path.\nWhat to do: Mend those first.";

pub const LC13_MARKDOWN: &str =
    "The imported package is in the run, and its verdict is not yes. What its functions do may not \
    be what this package relies on. Mend those findings first; if LC13 is all that a package has, \
    there is nothing to do in it. NAME is the import path.\n\n**What to do:** Mend those first.";

pub const LC14_MEANING: &str = "Packages import each other in a ring.";

pub const LC14_TEXT: &str =
    "The import is of a package in the run that imports itself, directly or through others, or \
    imports one that does. Go refuses such rings, so in code that compiles some word PATH=DIR has \
    the wrong import path. Without an order of imports nothing in these packages is judged.\nWhat \
    to do: Correct a PATH=DIR.";

pub const LC14_MARKDOWN: &str =
    "The import is of a package in the run that imports itself, directly or through others, or \
    imports one that does. Go refuses such rings, so in code that compiles some word `PATH=DIR` has \
    the wrong import path. Without an order of imports nothing in these packages is \
    judged.\n\n**What to do:** Correct a `PATH=DIR`.";

pub const LC15_MEANING: &str = "Two functions of one name.";

pub const LC15_TEXT: &str =
    "A call of this name could mean either, so the package is not judged. The usual cause is a \
    folder with files of two builds: a file per system, or a generator under //go:build ignore. By \
    words build constraints don't count; use go vet or a list. The finding stands at the second \
    function's name. Methods don't count, nor do init and _.\nWhat to do: Give one build.";

pub const LC15_MARKDOWN: &str =
    "A call of this name could mean either, so the package is not judged. The usual cause is a \
    folder with files of two builds: a file per system, or a generator under `//go:build ignore`. \
    By words build constraints don't count; use `go vet` or a list. The finding stands at the \
    second function's name. Methods don't count, nor do `init` and `_`.\n\n**What to do:** Give one \
    build.";

pub const LC16_MEANING: &str = "verify: no certificate of this body holds.";

pub const LC16_TEXT: &str =
    "Only ctxvet verify reports it. The body has no certificate that holds, by itself and by what it \
    relies on of other functions and literals. The finding stands at the func; NAME is the function \
    or method, or func for a literal. check says whether anything is wrong. A body with too many \
    variables (LC12) needs no certificate. For a yes package the certificates that check --cert \
    writes hold; for others some may not.\nWhat to do: Run check.";

pub const LC16_MARKDOWN: &str =
    "Only `ctxvet verify` reports it. The body has no certificate that holds, by itself and by what \
    it relies on of other functions and literals. The finding stands at the `func`; NAME is the \
    function or method, or `func` for a literal. `check` says whether anything is wrong. A body \
    with too many variables (LC12) needs no certificate. For a yes package the certificates that \
    `check --cert` writes hold; for others some may not.\n\n**What to do:** Run `check`.";

pub const LC18_MEANING: &str = "An //ctxvet:accept accepts nothing.";

pub const LC18_TEXT: &str =
    "In the second edition a comment //ctxvet:accept accepts no finding: none with its codes is on \
    its line or, if it stands alone, on the next. Or it has another form: no codes, no reason, a \
    blank behind a comma, small letters, a code that is not LC and two digits. A comment with a \
    blank, // ctxvet:accept, is no such comment: nothing reads or reports it. The package is no, \
    while importers rely on the package as they would without the comment. A package with a fault \
    as a whole has no LC18.\nWhat to do: Delete it, or mend it.";

pub const LC18_MARKDOWN: &str =
    "In the second edition a comment `//ctxvet:accept` accepts no finding: none with its codes is on \
    its line or, if it stands alone, on the next. Or it has another form: no codes, no reason, a \
    blank behind a comma, small letters, a code that is not `LC` and two digits. A comment with a \
    blank, `// ctxvet:accept`, is no such comment: nothing reads or reports it. The package is \
    `no`, while importers rely on the package as they would without the comment. A package with a \
    fault as a whole has no LC18.\n\n**What to do:** Delete it, or mend it.";
