//! Files in which nothing is to be found: definitions and laws. And the words by which they are known: that the names
//! of a file are words of its text, and whether a text has one of some words as a name.
#![tactic(auto)]

mod laws_of_words;
mod words;

ghost use Rattle.silent_files.specs.DeclaredGivers.{DeclaredGiversCount};
ghost use Rattle.silent_files.specs.SilentSignatures.{SignaturesWithoutNames};
ghost use Rattle.silent_files.specs.WalkedFiles.{WalkedFilesAreEnough};
ghost use Rattle.silent_files.specs.SilentWords.{WordsTell};
ghost use Rattle.silent_files.specs.SilentLaws.{SilentFilesAreSilent, FilesWithoutMakersAreSilent, SkippedFilesAreSilent, ImportsTell, SilentFilesChangeNothing};

pub use laws_of_words::{lacked_words_are_no_names, names_are_words};
pub use words::{names_one, occurs_one};

/// Where what is known gives no cancel function and makes no group, and no name is `recover`, nothing is to be found.
pub fn silent_files_are_silent()
    ensures { SilentFilesAreSilent }
{}

/// Where `context` may be imported, and no maker and no type of cancel functions is named, nothing is to be found.
pub fn files_without_makers_are_silent()
    ensures { FilesWithoutMakersAreSilent }
{}

/// In a file of a package that may be skipped, by imports, signatures and names, nothing is to be found.
pub fn skipped_files_are_silent()
    ensures { SkippedFilesAreSilent }
{}

/// A file that imports neither of the two packages names nothing of theirs.
pub fn imports_tell()
    ensures { ImportsTell }
{}

/// A file whose text lacks the words names no maker, no type of cancel functions, and no `recover`.
pub fn words_tell()
    ensures { WordsTell }
{}

/// Of imports that are not given it has to be asked what is declared of them, and of given ones what their tables say.
pub fn declared_givers_count()
    ensures { DeclaredGiversCount }
{}

/// Where files in which nothing is to be found stand for others such, a package has the same flags and findings.
pub fn silent_files_change_nothing()
    ensures { SilentFilesChangeNothing }
{}

/// Where files that may be skipped are looked at as if they had no marks, a package has its own flags, and what is to
/// be said of its files is said.
pub fn walked_files_are_enough()
    ensures { WalkedFilesAreEnough }
{}

/// Where signatures say nothing of cancel functions and groups, the facts of functions are known without names.
pub fn signatures_without_names()
    ensures { SignaturesWithoutNames }
{}
