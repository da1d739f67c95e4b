//! The tree of a text, from its tokens.
#![tactic(auto)]

pub mod fault;
mod files;
mod node;
mod text;

pub use fault::ParseFault;
pub use parser_base::fault::LeftOut;
pub use text::parse;
