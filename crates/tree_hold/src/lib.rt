//! Parts of a syntax tree while something after them may still fail: they go into boxes and onto lists, and are let go,
//! here and nowhere else. Each crate that lets trees go in its own functions proves anew how all of a tree is let go.
#![tactic(auto)]

pub mod boxed;
pub mod list;
pub mod release;
