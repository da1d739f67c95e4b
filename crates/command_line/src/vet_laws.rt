//! Words of the program's own are none of the go command.

ghost use Rattle.std.specs.Prelude.{codes};
ghost use Rattle.command_line.specs.VetWords.{IsNoCall};

/// Words that begin with a command, or with what asks for help or the version, are no call of the go command: they are
/// read as if there were no such calls.
pub fn own_words_are_no_call()
    ensures commands { IsNoCall (codes "check") × IsNoCall (codes "verify") }
    ensures help { IsNoCall (codes "-h") × IsNoCall (codes "--help") × IsNoCall (codes "help") }
    ensures version { IsNoCall (codes "-V") × IsNoCall (codes "--version") }
{}
