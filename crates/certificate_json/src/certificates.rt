//! Certificates: of each package what is known of its functions, and of each body what may be so before its nodes.

use crate::rows::Rows;
use table_json::{Table, Version};

/// What may be so in one body.
#[derive(Debug, Drop, PartialEq)]
pub struct Body {
    /// The number of its file in its package, counted from 0.
    pub file: u32,
    /// The offset of its `func` in that file, in bytes from 0.
    pub at: u32,
    /// For each node of its graph one mask for each of its variables.
    pub states: Rows,
}

impl Body {
    ghost use Rattle.std.specs.Prelude.{◌≡◌};
    ghost use Rattle.certificate_json.specs.Certificates.{body_of, place_of};

    /// Where it stands: its file, and the offset there.
    pub fn place(&self) -> (u32, u32)
        ensures { result ≡ place_of (body_of self.now) }
    {
        (self.file, self.at)
    }
}

/// What is said of one package.
#[derive(Debug, Drop, PartialEq)]
pub struct Package {
    /// Its import path.
    pub path: String,
    /// Its bodies.
    pub bodies: Vec<Body>,
    /// What is known of its functions.
    pub facts: Table,
}

/// What is said of packages.
#[derive(Debug, Drop, PartialEq)]
pub struct Certificates {
    /// The version of the text that they were read from; `Version::Newer` where they were made.
    pub version: Version,
    /// The packages, in the order of their report.
    pub packages: Vec<Package>,
}
