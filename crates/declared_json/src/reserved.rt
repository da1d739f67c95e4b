//! Paths of which nothing may be declared.

ghost use Rattle.std.specs.Prelude.{◌≡◌, map};
ghost use Rattle.declared_json.specs.DeclaredPackages.{first_reserved, package_of, reserved_of};

use crate::outside::DeclaredPackage;

/// A path of which nothing may be declared, since what its package does is known.
#[derive(Clone, Copy, Debug, Drop, PartialEq, Eq)]
pub enum ReservedPath {
    /// `context`
    Context,
    /// `golang.org/x/sync/errgroup`
    Errgroup,
}

impl ReservedPath {
    ghost use Rattle.std.specs.Prelude.{◌≡◌};
    ghost use Rattle.declared_json.specs.DeclaredPackages.{reserved_text};

    /// The path itself.
    pub fn text(self) -> &'static str
        ensures { result.now ≡ reserved_text self }
    {
        match self {
            ReservedPath::Context => "context",
            ReservedPath::Errgroup => "golang.org/x/sync/errgroup",
        }
    }
}

/// Which reserved path this is, if it is one.
fn reserved(path: &str) -> Option<ReservedPath>
    ensures { result ≡ reserved_of path.now }
{
    if path == ReservedPath::Context.text() {
        Some(ReservedPath::Context)
    } else if path == ReservedPath::Errgroup.text() {
        Some(ReservedPath::Errgroup)
    } else {
        None
    }
}

/// The first of the paths of packages that is reserved.
pub(crate) fn first_reserved(packages: &[DeclaredPackage]) -> Option<ReservedPath>
    ensures { result ≡ first_reserved (map package_of packages.now) }
{
    for entry in packages {
        if let Some(path) = reserved(entry.path.as_str()) {
            return Some(path);
        }
    }
    None
}
