//! Words that tell that something of a file may have to be tracked, or that it may recover.

ghost use Rattle.std.specs.Prelude.{◌≡◌, IfOk, false, codes};
ghost use Rattle.silent_files.specs.NamedWords.{LacksEach, LacksWord};
ghost use Rattle.silent_files.specs.WordsSought.{bytes_of};
ghost use Rattle.silent_files.specs.SilentWords.{telling_words};

use lexer::Source;
use silent_files::{names_one, occurs_one};
use std::alloc::{AllocError, Global};

/// The names of the makers of `context`, and of its types of cancel functions.
static TELLING: [&str; 8] = [
    "WithCancel",
    "WithTimeout",
    "WithDeadline",
    "WithTimeoutCause",
    "WithDeadlineCause",
    "WithCancelCause",
    "CancelFunc",
    "CancelCauseFunc",
];

/// These words.
fn telling_words() -> &'static [&'static str]
    ensures { bytes_of result.now ≡ telling_words }
{
    &TELLING
}

/// Whether the name of a maker of `context`, or of one of its types of cancel functions, may stand in the source. The
/// bytes alone are sought. Where they stand in a file that imports `context`, it is nearly always to be walked. So to
/// cut it into tokens once more would take longer than it saves.
pub fn may_name_telling(source: &Source) -> bool
    ensures { result ≡ false → LacksEach telling_words source.now.bytes.items }
{
    occurs_one(source, telling_words())
}

/// Whether `recover` stands in the source as a name.
///
/// # Errors
///
/// Memory was refused.
pub fn names_recover(alloc: Global, source: &Source) -> Result<bool, AllocError>
    ensures { IfOk result (λ is. is ≡ false → LacksWord (codes "recover") source.now.bytes.items) }
{
    names_one(alloc, source, &["recover"])
}
