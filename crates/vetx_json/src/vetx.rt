//! What is kept of a package.

use crate::functions::KeptFunction;

/// The version of the format.
pub(crate) const VERSION: u32 = 1;

/// What is kept of a package that was judged, for those that import it.
#[derive(Debug, Drop, PartialEq)]
pub struct Vetx {
    /// The number of the edition by which it was judged.
    pub edition: u32,
    /// The digest of the declared facts beside which it was judged; empty where there were none.
    pub facts: String,
    /// Its import path.
    pub path: String,
    /// The name in its package clause; empty where no file has a tree.
    pub name: String,
    /// The path of its module; empty where it is in none.
    pub module_path: String,
    /// Whether it has a fault as a whole.
    pub has_whole_fault: bool,
    /// Whether nothing is to be said of it.
    pub is_yes: bool,
    /// Its functions, in the order of their names. Those without facts are among them.
    pub functions: Vec<KeptFunction>,
}
