//! Packages with what they import.

/// A package's path, and the paths that it imports in the order of its files, which may come more than once.
#[derive(Drop)]
pub struct ImportList<'a> {
    pub path: &'a str,
    pub imports: Vec<&'a str>,
}
