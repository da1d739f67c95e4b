//! What is to be said of a package's imports with a dot.

ghost use Rattle.std.specs.Prelude.{◌≡◌, ◌++◌, OnOk, flat_map, map};
ghost use Rattle.meaning.specs.OuterBlocks.{is_first_path};
ghost use Rattle.one_package.specs.Dots.{says_something};
ghost use Rattle.one_package.specs.Judgments.{around_view};
ghost use Rattle.report.specs.Entries.{entry_of};
ghost use Rattle.whole_packages.specs.LoadedViews.{numbered_view};
ghost use Rattle.whole_packages.specs.WholeEntries.{tree_dots};

use crate::judged::Around;
use names::{CONTEXT, ERRGROUP};
use report::Diagnostic;
use std::alloc::AllocError;
use whole_packages::{NumberedTree, Picks, add_dots};

/// The packages around one, of which names may say something.
#[derive(Clone, Copy)]
struct Named<'k, 'a> {
    around: Around<'k, 'a>,
}

/// Whether it is `context` or `errgroup`.
fn is_library(path: &str) -> bool
    ensures { result ≡ is_first_path path.now }
{
    path == CONTEXT || path == ERRGROUP
}

impl Picks for Named<'_, '_> {
    ghost picked = { λ named. says_something (around_view named.around) };

    fn picks(&self, path: &str) -> Result<bool, AllocError> {
        if is_library(path) {
            return Ok(true);
        }
        Ok(self.around.signs.is_told(path))
    }
}

/// Adds the imports with a dot that are left out, in these files.
///
/// # Errors
///
/// Memory was refused.
pub fn add_left_out<'a>(
    around: Around<'_, 'a>,
    trees: &[NumberedTree<'a>],
    diagnostics: &mut Vec<Diagnostic<'a>>,
) -> Result<(), AllocError>
    ensures { OnOk result (map entry_of diagnostics.new.items ≡ map entry_of diagnostics.old.items ++ flat_map
        (tree_dots (says_something (around_view around.entry)))
        (map numbered_view trees.now)) }
{
    add_dots(&Named { around }, trees, diagnostics)
}
