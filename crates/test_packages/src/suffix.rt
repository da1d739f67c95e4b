//! Paths as the go command writes them.

ghost use Rattle.std.specs.Prelude.{◌≡◌, IfOk, bytes_eq};
ghost use Rattle.std.specs.List.{before_first};
ghost use Rattle.test_packages.specs.TestPaths.{is_of_own_tests, is_space, without_suffix};

use std::alloc::{AllocError, Global};

/// The import path in a path as the go command writes it, which may have the name of a test in brackets behind it.
pub fn without_suffix(path: &str) -> &str
    ensures { result.now ≡ without_suffix path.now }
{
    if path.as_bytes().ends_with(b"]") {
        before_space(path)
    } else {
        path
    }
}

/// What stands in the path before its first space.
fn before_space(path: &str) -> &str
    ensures { result.now ≡ before_first is_space path.now }
{
    match path.split_once(' ') {
        Some((front, _)) => front,
        None => path,
    }
}

/// Whether the go command writes a package so that is built with its own tests.
///
/// # Errors
///
/// Memory was refused.
pub fn is_of_own_tests(alloc: Global, path: &str) -> Result<bool, AllocError>
    ensures { IfOk result (λ is. is ≡ is_of_own_tests path.now) }
{
    let own = without_suffix(path);
    let mut whole = String::from_str(alloc, own)?;
    whole.push_str(" [")?;
    whole.push_str(own)?;
    whole.push_str(".test]")?;
    Ok(whole.as_str() == path)
}
