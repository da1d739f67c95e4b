//! What a worker is to do.

use crate::naming::Naming;
use crate::results::PackageResult;
use imports::ImportList;
use whole_packages::LoadedPackage;

/// A package that a worker is to judge, what it imports, and what came of its imports.
#[derive(Drop)]
pub struct Job<'g, 'a, B: Naming> {
    pub place: usize,
    pub loaded: &'a LoadedPackage,
    pub list: &'g ImportList<'a>,
    pub imported: Vec<PackageResult<'a, B>>,
}
