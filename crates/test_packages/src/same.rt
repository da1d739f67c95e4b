//! Whether two packages of one import path are the same.

ghost use Rattle.std.specs.Prelude.{◌≡◌, map, option_map, string_bytes};
ghost use Rattle.std.specs.List.{list_any};
ghost use Rattle.package_list.specs.ListedValues.{package_of};
ghost use Rattle.test_packages.specs.ReadPackages.{is_go_file, is_same, is_test_program, same_names, same_path, stands_before};

use crate::meant::same_imports;
use package_list::ListedPackage;

/// Whether these are the same names one after the other.
fn same_names(one: &[String], other: &[String]) -> bool
    ensures { result ≡ same_names (map string_bytes one.now) (map string_bytes other.now) }
{
    if one.len() != other.len() {
        return false;
    }
    for (index, name) in one.iter().enumerate() {
        if name.as_str() != other[index].as_str() {
            return false;
        }
    }
    true
}

/// Whether these are the same paths, or there is none.
fn same_path(one: Option<&str>, other: Option<&str>) -> bool
    ensures { result ≡ same_path (option_map (λ p. p.now) one.entry) (option_map (λ p. p.now) other.entry) }
{
    match one {
        Some(one) => match other {
            Some(other) => one == other,
            None => false,
        },
        None => other.is_none(),
    }
}

/// Whether two packages have the same files and the same module, and their import paths mean the same.
fn is_same(one: &ListedPackage, other: &ListedPackage) -> bool
    ensures { result ≡ is_same (package_of one.now) (package_of other.now) }
{
    (one.folder.as_str() == other.folder.as_str() && same_names(&one.files, &other.files))
        && (same_path(one.module.as_deref(), other.module.as_deref())
            && same_imports(&one.imports, &other.imports))
}

/// Whether the first package of its import path is the same.
pub fn stands_before(first: Option<&ListedPackage>, listed: &ListedPackage) -> bool
    ensures { result ≡ stands_before (option_map (λ p. package_of p.now) first.entry) (package_of listed.now) }
{
    match first {
        Some(first) => is_same(first, listed),
        None => false,
    }
}

/// Whether one of these is a Go file, by its name.
fn has_go_file(files: &[String]) -> bool
    ensures { result ≡ list_any is_go_file (map string_bytes files.now) }
{
    for name in files {
        if name.as_str().as_bytes().ends_with(b".go") {
            return true;
        }
    }
    false
}

/// Whether it is the program that runs the tests of a package.
pub fn is_test_program(listed: &ListedPackage) -> bool
    ensures { result ≡ is_test_program (package_of listed.now) }
{
    listed.path.as_str().as_bytes().ends_with(b".test") && !has_go_file(&listed.files)
}
