//! The declarations that the uses of a package mean.

ghost use Rattle.std.specs.Prelude.{◌≡◌, ℕ, IfOk, IfErr, OnOk, map, option_map, slice_get, Some, None};
ghost use Rattle.meaning.specs.Declarations.{declaration_of_use};
ghost use Rattle.meaning.specs.TwoFunctions.{second_function};
ghost use Rattle.names.specs.Answers.{decl_view, declared_at, names_by_path, answer_in};
ghost use Rattle.names.specs.Faults.{IsSecond};
ghost use Rattle.tree.specs.View.{file_syntax};

use crate::answers::file_answers;
use crate::meanings::{NameFault, NameMeaning};
use crate::package_block::package_block;
use crate::package_names::PackageNames;
use crate::second::second_function;
use crate::use_meanings::UseMeanings;
use std::alloc::{AllocError, Global};
use tree::File;

/// For each file of a package what each use in it means.
#[derive(Drop)]
pub struct Names<'a> {
    files: Vec<UseMeanings<'a>>,
}

impl<'a> Names<'a> {
    /// What the use means that begins at the offset in the file of that number, and `None` where no use begins there.
    /// It takes no memory.
    pub fn declaration(&self, file: usize, at: u32) -> Option<NameMeaning<'a>>
        ensures { option_map decl_view result ≡ declared_at self.now file at }
    {
        match self.files.get(file) {
            Some(answers) => answers.get(at),
            None => None,
        }
    }
}

/// For each file what each use in it means.
fn all_answers<'a>(
    alloc: Global,
    files: &'a [File],
    packages: &PackageNames<'a>,
) -> Result<Vec<UseMeanings<'a>>, AllocError>
    ensures { IfOk result (λ answers. (file at : ℕ) → answer_in (slice_get answers.items file) at ≡
        declaration_of_use (map file_syntax files.now) (names_by_path packages.now) file at) }
{
    let package = package_block(alloc, files)?;
    let mut answers = Vec::new(alloc);
    for file in files {
        answers.push(file_answers(alloc, packages, &package, file)?)?;
    }
    Ok(answers)
}

/// Finds what each use in the files of a package means. Two of its functions may have one name: then the first of them
/// is meant.
///
/// # Errors
///
/// Memory was refused.
pub fn names_of<'a>(
    alloc: Global,
    files: &'a [File],
    packages: &PackageNames<'a>,
) -> Result<Names<'a>, AllocError>
    ensures { IfOk result (λ names. (file at : ℕ) → declared_at names file at ≡ declaration_of_use
        (map file_syntax files.now) (names_by_path packages.now) file at) }
{
    Ok(Names {
        files: all_answers(alloc, files, packages)?,
    })
}

/// Finds what each use in the files of a package means.
///
/// # Errors
///
/// Two functions, neither called `init` nor `_`, have one name; told is the first second one. Or memory was refused.
pub fn resolve<'a>(
    alloc: Global,
    files: &'a [File],
    packages: &PackageNames<'a>,
) -> Result<Names<'a>, NameFault<'a>>
    ensures meant { IfOk result (λ names. (file at : ℕ) → declared_at names file at ≡ declaration_of_use
        (map file_syntax files.now) (names_by_path packages.now) file at) }
    ensures none { OnOk result (second_function (map file_syntax files.now) ≡ None) }
    ensures second { IfErr result (IsSecond (map file_syntax files.now)) }
{
    if let Some((file, name)) = second_function(alloc, files)? {
        return Err(NameFault::TwoFunctions(file, name));
    }
    Ok(names_of(alloc, files, packages)?)
}
