//! What is known of the packages around one before it is judged.

ghost use Rattle.std.specs.Prelude.{◌≡◌};
ghost use Rattle.given_packages.specs.Neighbours.{nearby_in, nearby_view};

use crate::given::Given;
use declared_tables::DeclaredTables;
use indexmap::IndexMap;
use names::PackageNames;

/// What is known of the packages around one before it is judged. It may be in a run of all packages, or one that is
/// judged by itself: then these are the packages that it imports.
#[derive(Clone, Copy)]
pub struct Neighbours<'k, 'a> {
    /// For the path of each given package its place.
    pub places: &'k IndexMap<&'a str, usize>,
    /// Which of them have no rank, by their places.
    pub unranked: &'k [bool],
    /// Which of them count as given, by their places.
    pub counted: &'k [bool],
    pub names: &'k PackageNames<'a>,
    /// What is declared of packages that are not given.
    pub declared: &'k DeclaredTables<'a>,
}

impl<'a> Given<'a> {
    /// The given packages, as those around one of them.
    pub fn neighbours(&self) -> Neighbours<'_, 'a>
        ensures { nearby_view result ≡ nearby_in self.now }
    {
        Neighbours {
            places: &self.places,
            unranked: &self.unranked,
            counted: &self.counted,
            names: &self.names,
            declared: &self.declared,
        }
    }
}
