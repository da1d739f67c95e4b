//! A unit.

use crate::texts::Texts;

/// What the go command tells of a unit: of one package as it is built for itself or for tests.
#[derive(Debug, Drop, PartialEq)]
pub struct Unit {
    /// What the go command calls it; it is not empty.
    pub id: String,
    /// The folder that its package lies in, which is not empty.
    pub folder: String,
    /// The import path of its package, which is not empty.
    pub path: String,
    /// The names of its files of Go as they stand.
    pub files: Vec<String>,
    /// The paths that its files import, each with that of the package which is meant.
    pub imports: Texts,
    /// The paths of packages that were judged before, each with the name of the file that tells of it.
    pub told: Texts,
    /// Whether nothing is to be printed.
    pub is_silent: bool,
    /// The name of the file that is to tell of it, which is not empty.
    pub output: String,
}
