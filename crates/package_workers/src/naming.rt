//! What a program names when it judges packages by workers.

ghost use Rattle.std.specs.Prelude.{ℕ, List, Option};
ghost use Rattle.one_package.specs.declared.judged.Judged.{Judged};
ghost use Rattle.imports.specs.Ranks.{Package};

use std::marker::Brand;

/// The packages that are judged, their ranks, and what is right of each. Each call of a program picks them.
pub trait Naming {
    ghost packages: { List Package };

    ghost rank: { ℕ → Option ℕ };

    ghost told: { ℕ → Judged → Type 0 };
}

// A call that passes `Brand` names what it is about in its proof (`check_by_workers`). These members stand here since a
// type has to have some.
impl Naming for Brand {
    ghost use Rattle.std.specs.Prelude.{[], None};

    ghost packages = { [] };

    ghost rank = { λ place. None };

    ghost told = { λ place judged. Unit {0} };
}
