//! Which literals of a file settle which of the variables that they capture, what a body may rely on, and what
//! settles a variable by the classes that arrive at a body's returns. The rules are those of
//! `meaning_packages/specs/Credits.antt`. `search` finds the
//! classes; what a body settles is said of any table of them.
#![tactic(auto)]

mod found;
mod reliance;
mod relied;
mod search;
mod settled;
mod table;

pub use found::find_credits;
pub use reliance::{Calls, NoCalls, Reliance};
pub use relied::{asks_return, may_come_back, unbound};
pub use search::search_body;
pub use settled::{captures_any, is_captured, settled_captured};
pub use table::Credits;
