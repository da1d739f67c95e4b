//! The packages of a list.

ghost use Rattle.std.specs.Prelude.{◌≡◌, ◌≢◌, [], None, IfErr, IfOk, map, option_map};
ghost use Rattle.package_list.specs.ListedValues.{package_of};
ghost use Rattle.package_list.specs.ListRead.{one_more, AreJudged, RefusesPieces};
ghost use Rattle.package_list.specs.ListTexts.{first_incomplete, AreListedIn, IsListFault};

use crate::cut::first_piece;
use crate::fault::ListFault;
use crate::listed::read_piece;
use crate::package::ListedPackage;
use json_reading::Stop;
use std::alloc::{AllocError, Global};

/// Packages with one more, where all of them are packages; else nothing is kept.
fn one_more(
    packages: Option<Vec<ListedPackage>>,
    package_read: Option<ListedPackage>,
) -> Result<Option<Vec<ListedPackage>>, AllocError>
    ensures { IfOk result (λ more. option_map (λ list. map package_of list.items) more
        ≡ one_more (option_map (λ list. map package_of list.items) packages) (option_map package_of package_read)) }
{
    let Some(mut listed) = packages else {
        return Ok(None);
    };
    let Some(found) = package_read else {
        return Ok(None);
    };
    listed.push(found)?;
    Ok(Some(listed))
}

/// The packages that the values of a text are, incomplete ones too; `None` where a value is that of none.
fn read_pieces(alloc: Global, bytes: &[u8]) -> Result<Option<Vec<ListedPackage>>, Stop>
    ensures ok { IfOk result (λ found. AreJudged bytes.now (option_map (λ list. map package_of list.items) found)) }
    ensures err { IfErr result (RefusesPieces bytes.now) }
{
    let mut found = Some(Vec::new(alloc));
    let mut rest = bytes;
    'pieces: while let Some(cut) = first_piece(rest) {
        let listed = read_piece(alloc, cut.piece)?;
        found = one_more(found, listed)?;
        rest = cut.rest;
    }
    Ok(found)
}

/// The path of the first package that is incomplete.
fn first_incomplete(packages: &[ListedPackage]) -> Option<&str>
    ensures { option_map (λ path. path.now) result ≡ first_incomplete (map package_of packages.now) }
{
    for listed in packages {
        if listed.incomplete {
            return Some(listed.path.as_str());
        }
    }
    None
}

/// The packages that a text lists: the output of `go list -json`, JSON values one after another. They stand in its
/// order, and one that is listed twice stands twice. Of the values the go command's `ImportPath`, `Dir`, `GoFiles`,
/// `CgoFiles`, the `Path` of `Module`, `Incomplete` and `DepOnly` count; other keys are passed over, and of equal keys
/// the last counts.
///
/// # Errors
///
/// A value is not UTF-8 or no JSON; a value is that of no package, as `ImportPath` or `Dir` is missing or empty, or a
/// key that counts has a value of another kind; a package is incomplete; there is no package; or memory was refused.
/// This is the order in which it is looked for them.
pub fn read_list(alloc: Global, bytes: &[u8]) -> Result<Vec<ListedPackage>, ListFault>
    ensures listed { IfOk result (λ found. AreListedIn bytes.now (map package_of found.items)) }
    ensures complete { IfOk result (λ found. first_incomplete (map package_of found.items) ≡ None) }
    ensures some { IfOk result (λ found. map package_of found.items ≢ []) }
    ensures fault { IfErr result (IsListFault bytes.now) }
{
    let Some(packages) = read_pieces(alloc, bytes)? else {
        return Err(ListFault::WrongShape);
    };
    if packages.is_empty() {
        return Err(ListFault::Empty);
    }
    match first_incomplete(&packages) {
        Some(path) => Err(ListFault::Incomplete(String::from_str(alloc, path)?)),
        None => Ok(packages),
    }
}
