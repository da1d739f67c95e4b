//! Certificates by the paths of packages.

ghost use Rattle.std.specs.Prelude.{◌≡◌, ℕ, List, IfOk, OnOk, option_map};
ghost use Rattle.certificate_json.specs.Certificates.{package_of, packages_of};
ghost use Rattle.first_values.specs.ValuesByName.{only_at};
ghost use Rattle.meaning.specs.OuterBlocks.{or_else};
ghost use Rattle.verifier.specs.GivenViews.{package_by_path, package_in};

use certificate_json::{Certificates, Package};
use first_values::FirstValues;
use std::alloc::{AllocError, Global};

/// Certificates of packages, by the import path of each; of several with one path the first counts.
#[derive(Drop)]
pub struct ByCertificates<'c> {
    packages: FirstValues<'c, &'c Package>,
}

impl<'c> ByCertificates<'c> {
    /// What these certificates give.
    ///
    /// # Errors
    ///
    /// Memory was refused.
    pub fn new(alloc: Global, certificates: &'c Certificates) -> Result<Self, AllocError>
        ensures { IfOk result (λ by. (path : List ℕ)
            → package_by_path by path ≡ package_in (packages_of certificates.now) path) }
    {
        let mut by = ByCertificates {
            packages: FirstValues::new(alloc),
        };
        for found in &certificates.packages {
            by.insert(found)?;
        }
        Ok(by)
    }

    fn insert(&mut self, found: &'c Package) -> Result<(), AllocError>
        ensures { OnOk result ((path : List ℕ) → package_by_path self.new path ≡ or_else (package_by_path self.old path)
            (only_at (package_of found.now).path (package_of found.now) path)) }
    {
        self.packages.insert(found.path.as_str(), found)
    }

    /// What is given for the package of that path.
    pub(crate) fn of(&self, path: &str) -> Option<&'c Package>
        ensures { option_map (λ p. package_of p.now) result ≡ package_by_path self.now path.now }
    {
        match self.packages.get(path) {
            Some(found) => Some(*found),
            None => None,
        }
    }
}
