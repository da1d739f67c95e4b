//! What comes of a package that a worker judged.

ghost use Rattle.std.specs.Prelude.{◌≡◌, IfOk, IfSome};
ghost use Rattle.package_workers.specs.Results.{Kept};

use crate::naming::Naming;
use board::Outcome;
use one_package::Judged;
use std::alloc::{AllocError, Global};
use std::marker::{Model, PhantomData};
use std::sync::Arc;

/// What is said of the package of that place. Contracts see the place, and what is said (`Kept`). It is right by its
/// type: `told` of what the type names is so of it.
#[derive(Drop)]
pub struct PackageResult<'a, B: Naming> {
    place: usize,
    judged: Arc<Judged<'a>>,
    of: PhantomData<B>,
}

impl<'a, B: Naming> Model for PackageResult<'a, B> {
    ghost use Rattle.std.specs.Arc.{arc_value};
    ghost use Rattle.package_workers.specs.KeptCode.{kept_code};
    ghost use Rattle.package_workers.specs.Results.{Kept};

    ghost Value = { Kept };

    ghost coded = { kept_code };

    ghost view = { λ r. record { place = r.place; judged = arc_value r.judged } };

    ghost invariant = { λ r. B.told r.place (arc_value r.judged) };
}

impl<'a, B: Naming> PackageResult<'a, B> {
    /// What is said of the package of that place.
    ///
    /// # Errors
    ///
    /// Memory was refused.
    pub fn new(alloc: Global, place: usize, judged: Judged<'a>) -> Result<Self, AllocError>
        requires { B.told place judged }
        ensures { IfOk result (λ r. r ≡ record { place = place; judged = judged.entry }) }
    {
        let judged = Arc::new(alloc, judged)?;
        Ok(PackageResult {
            place,
            judged,
            of: PhantomData,
        })
    }

    /// What is said of the package.
    pub fn judged(&self) -> &Judged<'a>
        ensures is { result.now ≡ self.now.judged }
        ensures right { B.told self.now.place self.now.judged }
    {
        &self.judged
    }

    /// What is said of the package, and nothing more is held, unless somebody else holds it too.
    pub fn into_judged(self) -> Option<Judged<'a>>
        ensures is { IfSome result (λ judged. judged ≡ self.entry.judged) }
        ensures right { B.told self.entry.place self.entry.judged }
    {
        let PackageResult { judged, .. } = self;
        Arc::into_inner(judged)
    }
}

impl<'a, B: Naming> Outcome for PackageResult<'a, B> {
    ghost packages = { B.packages };

    ghost rank = { B.rank };

    ghost place_of = { λ r. r.place };

    fn place(&self) -> usize {
        self.place
    }

    fn again(&self) -> Result<Self, AllocError> {
        let judged = Arc::try_clone(&self.judged)?;
        Ok(PackageResult {
            place: self.place,
            judged,
            of: PhantomData,
        })
    }
}
