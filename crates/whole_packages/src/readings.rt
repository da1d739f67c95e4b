//! Whether each file of a package has a tree.

ghost use Rattle.std.specs.Prelude.{◌≡◌};
ghost use Rattle.std.specs.List.{list_all};
ghost use Rattle.whole_packages.specs.CountedViews.{is_tree};

use crate::loaded_package::Reading;

fn is_tree(reading: Reading) -> bool
    ensures { result ≡ is_tree reading }
{
    match reading {
        Reading::Tree => true,
        Reading::NoTokens(_, _) => false,
        Reading::NoTree(_, _) => false,
    }
}

/// Whether each of these files has a tree.
pub fn are_trees(readings: &[Reading]) -> bool
    ensures { result ≡ list_all is_tree readings.now }
{
    for reading in readings {
        if !is_tree(*reading) {
            return false;
        }
    }
    true
}
