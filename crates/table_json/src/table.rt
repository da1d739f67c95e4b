//! A table of facts: of each function, what its callers may rely on.

/// The version of the format in which tables are written.
pub const VERSION: u32 = 2;

/// The version before it, which knows of no causes. It is still read.
pub const OLDER_VERSION: u32 = 1;

/// The versions that are read.
#[derive(Clone, Copy, Debug, Drop, PartialEq, Eq)]
pub enum Version {
    /// The version before the one that is written, number 1. It knows of no causes.
    Older,
    /// The version that is written, number 2.
    Newer,
}

/// A parameter that a function tracks. Positions count single parameters from 0, and a receiver is none of them.
#[derive(Clone, Copy, Debug, Drop, PartialEq, Eq)]
pub enum Parameter {
    /// A cancel function, and whether the function calls it.
    Cancel {
        /// Its position.
        at: u32,
        /// Whether the function calls it on each of its ways.
        calls: bool,
    },
    /// A cancel function with a cause, and whether the function calls it.
    Cause {
        /// Its position.
        at: u32,
        /// Whether the function calls it on each of its ways.
        calls: bool,
    },
    /// A group.
    Group {
        /// Its position.
        at: u32,
    },
}

impl Parameter {
    ghost use Rattle.std.specs.Prelude.{◌≡◌};
    ghost use Rattle.table_json.specs.Tables.{position_of};

    /// Where it stands among the parameters of its function.
    pub fn position(&self) -> u32
        ensures { result ≡ position_of self.now }
    {
        match self {
            Parameter::Cancel { at, .. } | Parameter::Cause { at, .. } | Parameter::Group { at } =>
                *at,
        }
    }
}

/// What is known of one function.
#[derive(Debug, Drop, PartialEq)]
pub struct Function {
    /// Its name, without its package.
    pub name: String,
    /// The positions of its results of type `context.CancelFunc`, counted from 0.
    pub gives: Vec<u32>,
    /// The positions of its results of type `context.CancelCauseFunc`. In a table that is in order none of these is
    /// among the others.
    pub causes: Vec<u32>,
    /// The parameters that it tracks.
    pub params: Vec<Parameter>,
}

/// What is known of the functions of a package.
#[derive(Debug, Drop, PartialEq)]
pub struct Table {
    pub functions: Vec<Function>,
}
