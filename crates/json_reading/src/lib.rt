//! JSON, read straight from the tokens of its text: what stands at the tokens, and what is read of it, is in
//! `specs/Standing.antt`. Whoever reads says how an item of a list is read (`ReadItem`), or what it is added to
//! (`AddItem`), and what becomes of a member of an object (`ReadMember`).
#![tactic(auto)]

mod flat;
mod leaf;
mod list;
mod made;
mod number;
mod object;
mod pass;
mod start;
mod stop;
mod versioned;
mod whole;

pub use flat::{AddItem, add_list};
pub use leaf::{Leaf, read_leaf, read_number};
pub use list::{ListOf, ReadItem, read_list};
pub use made::{MakeItem, NoOthers, Under, read_made};
pub use object::{ReadMember, read_object};
pub use pass::pass_value;
pub use stop::Stop;
pub use versioned::read_versioned;
pub use whole::{read_whole, whole_number_under};
