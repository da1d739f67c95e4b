//! By what the functions of a file are judged.

use names::Names;
use tree::Edition;

/// The edition of the rules, and what the uses of the file of that number mean.
#[derive(Clone, Copy)]
pub struct InFile<'n, 'a> {
    pub edition: Edition,
    pub names: &'n Names<'a>,
    pub file: usize,
}
