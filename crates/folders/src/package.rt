//! The words `PATH=DIR` of the command line.

ghost use Rattle.std.specs.Prelude.{ℕ, List, IfSome, IfNone};
ghost use Rattle.folders.specs.Packages.{IsPackageWord};

use crate::names::is_printable;

/// The two parts of such a word around its first `=`: a package's import path and its folder. `None`
/// where there is no `=`, a part is empty, or the path has a control code.
pub fn split_word(word: &str) -> Option<(&str, &str)>
    ensures split { IfSome result (λ p. IsPackageWord word.now p.0.now p.1.now) }
    ensures none { IfNone result ((path folder : List ℕ) → IsPackageWord word.now path folder → ⊥) }
{
    let (path, folder) = word.split_once('=')?;
    if path.is_empty() || folder.is_empty() || !is_printable(path.as_bytes()) {
        return None;
    }
    Some((path, folder))
}
