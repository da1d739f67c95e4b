//! A package as it was read.

use lexer::Source;
use report::{TextFault, TreeFault};
use tree::{Edition, File};

/// What became of a file.
#[derive(Clone, Copy)]
pub enum Reading {
    /// It has a tree.
    Tree,
    /// It has no tokens: the byte offset of the fault, and which.
    NoTokens(u32, TextFault),
    /// It has tokens and no tree: the byte offset of the fault, and which.
    NoTree(u32, TreeFault),
}

/// A package: its import path, the edition by which it is judged, its files, what became of each, and the trees of
/// those that have one, in the order of the files.
#[derive(Drop)]
pub struct LoadedPackage {
    pub path: String,
    pub edition: Edition,
    pub sources: Vec<Source>,
    pub readings: Vec<Reading>,
    pub trees: Vec<File>,
}
