//! The bodies of a package's files by their numbers, which threads share among each other.

ghost use Rattle.std.specs.Prelude.{◌≡◌, ◌++◌, IfOk, OnOk};
ghost use Rattle.package_pieces.specs.Numbers.{numbers_from, opened_count, opened_numbers, kept_numbers};
ghost use Rattle.path_faults.specs.FoundFaults.{each_from};

use calls_flags::{FileBodies, ToldFile, is_walked};
use std::alloc::{AllocError, Global};

/// A body of a package: the number of its file, and its place in the list of the file's bodies.
#[derive(Clone, Copy)]
pub struct BodyNumber {
    pub file: usize,
    pub body: usize,
}

/// Adds the numbers of the first so many bodies of the file of that number.
fn add_numbers(file: usize, count: usize, numbers: &mut Vec<BodyNumber>) -> Result<(), AllocError>
    ensures { OnOk result (numbers.new.items ≡ numbers.old.items ++ numbers_from file 0 count) }
{
    for body in 0..count {
        numbers.push(BodyNumber { file, body })?;
    }
    Ok(())
}

/// How many bodies a file that was told of opens: none, where its variables were not sought.
pub fn opened_count(file: &ToldFile<'_>) -> usize
    ensures { result ≡ opened_count file.now }
{
    match &file.variables {
        Some(_) => file.told.opened.len(),
        None => 0,
    }
}

/// The bodies that these files open, file by file.
///
/// # Errors
///
/// Memory was refused.
pub fn numbers_opened(alloc: Global, files: &[ToldFile<'_>]) -> Result<Vec<BodyNumber>, AllocError>
    ensures { IfOk result (λ numbers. numbers.items ≡ each_from opened_numbers 0 files.now) }
{
    let mut numbers = Vec::new(alloc);
    for (number, file) in files.iter().enumerate() {
        add_numbers(number, opened_count(file), &mut numbers)?;
    }
    Ok(numbers)
}

/// The bodies that are kept of these files, file by file.
///
/// # Errors
///
/// Memory was refused.
pub fn numbers_kept(
    alloc: Global,
    files: &[FileBodies<'_, '_>],
) -> Result<Vec<BodyNumber>, AllocError>
    ensures { IfOk result (λ numbers. numbers.items ≡ each_from kept_numbers 0 files.now) }
{
    let mut numbers = Vec::new(alloc);
    for (number, file) in files.iter().enumerate() {
        add_numbers(number, file.bodies.len(), &mut numbers)?;
    }
    Ok(numbers)
}

/// Whether more than one of so many files is walked, by these marks: else there is nothing to share.
pub fn walk_several(walked: &[bool], files: usize) -> bool {
    let mut found = false;
    for number in 0..files {
        if is_walked(walked, number) {
            if found {
                return true;
            }
            found = true;
        }
    }
    false
}

/// Whether these files open more than one body: else there is nothing to share.
pub fn open_several(files: &[ToldFile<'_>]) -> bool {
    let mut count = 0usize;
    for file in files {
        count = count.saturating_add(opened_count(file));
        if count > 1 {
            return true;
        }
    }
    false
}

/// Whether more than one body is kept of these files: else there is nothing to share.
pub fn have_several(files: &[FileBodies<'_, '_>]) -> bool {
    let mut count = 0usize;
    for file in files {
        count = count.saturating_add(file.bodies.len());
        if count > 1 {
            return true;
        }
    }
    false
}
