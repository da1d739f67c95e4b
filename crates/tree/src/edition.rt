//! Which Go is read.

/// The edition of the rules by which packages are judged. Both have one grammar, of which the first leaves out forms;
/// a few texts it reads otherwise.
#[derive(Clone, Copy, Debug, PartialEq, Eq)]
pub enum Edition {
    /// Go without type parameters, instances, `goto`, `fallthrough` and dot imports.
    First,
    /// Go with all of these.
    Second,
}
