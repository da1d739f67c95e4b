//! From the bytes of a Go file to its tokens, and from an offset to its line and column.
//!
//! `specs/Tokens.antt` says what the tokens of a text are: the text is cut into white space, comments and tokens,
//! each the longest that can begin at its place (`Cut`, `Pieces`), and the ends of lines insert semicolons
//! (`Semicolons`). `specs/Faults.antt` says why a text has none.
#![tactic(auto)]

mod any_text;
mod comments;
pub mod fault;
mod keywords;
mod laws;
mod letters;
mod numbers;
mod operators;
mod pieces;
mod position;
mod quotes;
mod semicolons;
pub mod source;
pub mod token;
mod words;

pub use any_text::lex;
pub use fault::LexFault;
pub use laws::{ascii_letters, one_cut, one_fault, one_outcome, one_token_list};
pub use position::{place, place_after};
pub use source::{MOST_BYTES, Place, Source};
pub use token::{Token, TokenKind};
