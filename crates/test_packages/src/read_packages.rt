//! The packages of a list that are read.

ghost use Rattle.std.specs.Prelude.{◌≡◌, ◌++◌, ℕ, List, IfOk, OnOk, map, option_map};
ghost use Rattle.package_list.specs.ListedValues.{package_of};
ghost use Rattle.test_packages.specs.KnownPaths.{firsts_of, knows};
ghost use Rattle.test_packages.specs.ReadPackages.{as_read, counts, entry_of, is_passed_over, kept_first, option_list, packages_to_read, read_one};

use crate::known_paths::KnownPaths;
use crate::own_tests::{asked_for, own_tests};
use crate::same::{is_test_program, stands_before};
use crate::suffix::{is_of_own_tests, without_suffix};
use first_values::FirstValues;
use package_list::ListedPackage;
use std::alloc::{AllocError, Global};

/// A package of a list that is read.
#[derive(Clone, Copy, Debug)]
pub struct ReadPackage<'a> {
    /// Its import path, without the name of a test.
    pub path: &'a str,
    pub listed: &'a ListedPackage,
    /// Whether it was asked for.
    pub is_asked: bool,
}

/// What a list says of import paths: which packages it has as they are built with their own tests, and which were asked
/// for.
#[derive(Drop)]
struct Told<'a> {
    own_tests: KnownPaths<'a>,
    asked: KnownPaths<'a>,
}

/// Whether a package counts, in a list of which this is told.
fn counts(alloc: Global, told: &Told<'_>, listed: &ListedPackage) -> Result<bool, AllocError>
    ensures { IfOk result (λ is. is ≡ counts (knows told.now.own_tests) (package_of listed.now)) }
{
    let path = listed.path.as_str();
    let of_tests = is_of_own_tests(alloc, path)?;
    let has_tests = told.own_tests.has(without_suffix(path));
    Ok(!is_test_program(listed) && (of_tests || !has_tests))
}

/// Keeps the package as the first one of its import path, if it counts and there is none.
fn keep_first<'a>(
    firsts: &mut FirstValues<'a, &'a ListedPackage>,
    is_counted: bool,
    listed: &'a ListedPackage,
) -> Result<(), AllocError>
    ensures { OnOk result ((path : List ℕ) → firsts_of firsts.new path
        ≡ kept_first is_counted (firsts_of firsts.old) (package_of listed.now) path) }
{
    if !is_counted {
        return Ok(());
    }
    firsts.insert(without_suffix(listed.path.as_str()), listed)
}

/// The first package of the path.
fn first_of<'a>(
    firsts: &FirstValues<'a, &'a ListedPackage>,
    path: &str,
) -> Option<&'a ListedPackage>
    ensures { option_map (λ listed. package_of listed.now) result ≡ firsts_of firsts.now path.now }
{
    firsts.get(path).copied()
}

/// Whether the package is passed over behind those whose first ones these are: it does not count, or it is the same as
/// the first one of its import path.
fn is_passed_over<'a>(
    firsts: &FirstValues<'a, &'a ListedPackage>,
    is_counted: bool,
    listed: &'a ListedPackage,
) -> bool
    ensures { result ≡ is_passed_over (firsts_of firsts.now) is_counted (package_of listed.now) }
{
    let first = first_of(firsts, without_suffix(listed.path.as_str()));
    !is_counted || stands_before(first, listed)
}

/// The package as it is read.
fn as_read<'a>(told: &Told<'_>, listed: &'a ListedPackage) -> ReadPackage<'a>
    ensures { entry_of result ≡ as_read (knows told.now.asked) (package_of listed.now) }
{
    let path = without_suffix(listed.path.as_str());
    ReadPackage {
        path,
        listed,
        is_asked: told.asked.has(path),
    }
}

/// The package as it is read behind those whose first ones these are, unless it is passed over.
fn read_one<'a>(
    told: &Told<'_>,
    firsts: &FirstValues<'a, &'a ListedPackage>,
    is_counted: bool,
    listed: &'a ListedPackage,
) -> Option<ReadPackage<'a>>
    ensures { option_map entry_of result
        ≡ read_one (knows told.now.asked) (firsts_of firsts.now) is_counted (package_of listed.now) }
{
    if is_passed_over(firsts, is_counted, listed) {
        return None;
    }
    Some(as_read(told, listed))
}

/// Adds the package, if there is one.
fn push_some<'a>(
    packages: &mut Vec<ReadPackage<'a>>,
    one: Option<ReadPackage<'a>>,
) -> Result<(), AllocError>
    ensures { OnOk result (map entry_of packages.new.items
        ≡ map entry_of packages.old.items ++ option_list (option_map entry_of one.entry)) }
{
    match one {
        Some(one) => packages.push(one)?,
        None => {}
    }
    Ok(())
}

/// The packages of a list that are read, in its order.
///
/// # Errors
///
/// Memory was refused.
pub fn packages_to_read<'a>(
    alloc: Global,
    packages: &'a [ListedPackage],
) -> Result<Vec<ReadPackage<'a>>, AllocError>
    ensures { IfOk result (λ read. map entry_of read.items ≡ packages_to_read (map package_of packages.now)) }
{
    let own_tests = own_tests(alloc, packages)?;
    let asked = asked_for(alloc, packages)?;
    let told = Told { own_tests, asked };
    let mut firsts = FirstValues::new(alloc);
    let mut read = Vec::new(alloc);
    for listed in packages {
        let is_counted = counts(alloc, &told, listed)?;
        let one = read_one(&told, &firsts, is_counted, listed);
        push_some(&mut read, one)?;
        keep_first(&mut firsts, is_counted, listed)?;
    }
    Ok(read)
}
