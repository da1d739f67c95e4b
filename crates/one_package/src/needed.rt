//! Which imports of a package have to be yes.

ghost use Rattle.std.specs.Prelude.{◌≡◌, ◌&&◌, IfOk};
ghost use Rattle.one_package.specs.Judgments.{around_view, is_picked};
ghost use Rattle.one_package.specs.Needed.{is_needed};

use crate::judged::Around;
use calls_flags::{ToldFile, files_hand};
use std::alloc::AllocError;
use tree::Edition;
use whole_packages::Picks;

/// The imports of a package that are not yes, and that it needs to be.
#[derive(Clone, Copy)]
pub struct Needed<'n, 'k, 'a> {
    pub edition: Edition,
    pub around: Around<'k, 'a>,
    /// What was told of its files.
    pub files: &'n [ToldFile<'a>],
}

/// Whether a package of that edition needs the import of that path to be yes: in the second edition only where that
/// counts as given, and one of its files hands something to it.
fn is_needed(needed: &Needed<'_, '_, '_>, path: &str) -> Result<bool, AllocError>
    ensures { IfOk result (λ is. is
        ≡ is_needed needed.now.edition (around_view needed.now.around) needed.now.files.now path.now) }
{
    match needed.edition {
        Edition::First => Ok(true),
        Edition::Second => {
            if files_hand(needed.files, path) {
                return needed.around.counted.picks(path);
            }
            Ok(false)
        }
    }
}

impl Picks for Needed<'_, '_, '_> {
    ghost picked = { λ needed path. is_picked needed.around.not_yes.now path
        && is_needed needed.edition (around_view needed.around) needed.files.now path };

    fn picks(&self, path: &str) -> Result<bool, AllocError> {
        if !self.around.not_yes.has(path) {
            return Ok(false);
        }
        is_needed(self, path)
    }
}
