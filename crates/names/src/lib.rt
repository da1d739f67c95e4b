//! Which declaration each use of a name means, in the files of a package (the Go specification, "Declarations and
//! scope"). The definitions are those of `meaning/specs/Scopes.antt` and `meaning/specs/Declarations.antt`.
#![tactic(auto)]

mod answers;
mod first;
mod imports;
mod innermost;
mod locals;
pub mod meanings;
mod order;
mod package_block;
mod package_names;
mod resolution;
mod second;
mod use_meanings;

pub use imports::{CONTEXT, ERRGROUP};
pub use meanings::{NameFault, NameMeaning};
pub use package_block::{INIT, can_be_meant};
pub use package_names::PackageNames;
pub use resolution::{Names, names_of, resolve};
pub use second::second_function;
