//! One package of a list.

/// A path that the files of a package import, and the path of the package that it means, as the go command writes it.
#[derive(Debug, Drop, PartialEq)]
pub struct ListedImport {
    pub written: String,
    pub meant: String,
}

/// What the go command says of one package.
#[derive(Debug, Drop, PartialEq)]
pub struct ListedPackage {
    /// Its import path, which is not empty.
    pub path: String,
    /// The folder that its files lie in, which is not empty.
    pub folder: String,
    /// The names of its files of Go as they stand: those without cgo, and then those with it.
    pub files: Vec<String>,
    /// The path of its module, if it is in one.
    pub module: Option<String>,
    /// Whether the go command could not load it, or a package below it.
    pub incomplete: bool,
    /// Whether it was not asked for, but stands below one that was.
    pub dep_only: bool,
    /// What it says of import paths, in the order of their bytes. No path comes twice.
    pub imports: Vec<ListedImport>,
}
