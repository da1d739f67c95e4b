//! What the parser goes by at each step: places among a text's tokens, names, what kinds of tokens stand for, and the
//! steps that read no expression, type or statement.
#![tactic(auto)]

/// What was read or made, or the end of the function: then the parts that it holds are let go first. Say
/// `holding!(expressions: list; read)` of what gives a `Stop`, and `holding!(expressions: list; memory made)` of what
/// fails only where memory runs out.
#[macro_export]
macro_rules! holding {
    ($($part:ident: $held:expr),+; memory $made:expr) => {
        match $made {
            Ok(made) => made,
            Err(_) => {
                $(tree_hold::release::$part($held);)+
                return Err($crate::fault::Stop::Memory);
            }
        }
    };
    ($($part:ident: $held:expr),+; $read:expr) => {
        match $read {
            Ok(read) => read,
            Err(stop) => {
                $(tree_hold::release::$part($held);)+
                return Err(stop);
            }
        }
    };
}

pub mod ahead;
pub mod cursor;
pub mod declarations;
pub mod expressions;
pub mod fault;
pub mod kinds;
pub mod lists;
pub mod names;
pub mod parts;
pub mod shapes;
pub mod type_faults;
