//! Import paths that mean others.

ghost use Rattle.std.specs.Prelude.{◌≡◌, ◌∷◌, List, map, option_map};
ghost use Rattle.package_list.specs.ListedValues.{ImportEntry, import_of};
ghost use Rattle.test_packages.specs.MeantImports.{cut, read_cut, same_behind};
ghost use Rattle.test_packages.specs.ReadPackages.{means_another, own_import, own_imports, same_import, same_imports};

use crate::suffix::without_suffix;
use package_list::ListedImport;

/// Whether the path means another one than itself.
pub fn means_another(import: &ListedImport) -> bool
    ensures { result ≡ means_another (import_of import.now) }
{
    import.written.as_str() != without_suffix(import.meant.as_str())
}

/// The first of these whose path means another one, and those that come after it.
fn next_another<'a>(
    mut imports: &'a [ListedImport],
) -> Option<(&'a ListedImport, &'a [ListedImport])>
    ensures { option_map read_cut result ≡ cut (own_imports (map import_of imports.entry.now)) }
{
    while let [first, rest @ ..] = imports {
        if means_another(first) {
            return Some((first, rest));
        }
        imports = rest;
    }
    None
}

/// Whether one path means the same in both.
fn is_same_import(one: &ListedImport, other: &ListedImport) -> bool
    ensures { result ≡ same_import (own_import (import_of one.now)) (own_import (import_of other.now)) }
{
    one.written.as_str() == other.written.as_str()
        && without_suffix(one.meant.as_str()) == without_suffix(other.meant.as_str())
}

/// Those that come after the first of these that means the same as this one, unless the first of them means something
/// else, or nothing is left. Where this one means itself, it is passed over.
fn behind_same<'a>(one: &ListedImport, others: &'a [ListedImport]) -> Option<&'a [ListedImport]>
    ensures { (more : List ImportEntry)
        → same_imports (own_imports (import_of one.now ∷ more)) (own_imports (map import_of others.now))
        ≡ same_behind (own_imports more) (option_map (λ left. own_imports (map import_of left.now)) result) }
{
    if !means_another(one) {
        return Some(others);
    }
    let (first, left) = next_another(others)?;
    if is_same_import(one, first) {
        Some(left)
    } else {
        None
    }
}

/// Whether the same paths mean others, and the same ones.
pub fn same_imports(imports: &[ListedImport], others: &[ListedImport]) -> bool
    ensures { result ≡ same_imports (own_imports (map import_of imports.now))
        (own_imports (map import_of others.now)) }
{
    let mut left = others;
    for one in imports {
        let Some(behind) = behind_same(one, left) else {
            return false;
        };
        left = behind;
    }
    next_another(left).is_none()
}
