//! Which lines of a source accept findings: those with a directive `//ctxvet:accept CODES REASON`. It looks at the
//! bytes of lines alone, and knows nothing of Go.
#![tactic(auto)]

mod form;
mod found;
mod laws;
mod place;

pub use form::names_code;
pub use found::{Accepts, Directive, directives_in};
pub use laws::{directives_stand_in_their_text, lines_of_directives_rise};
