//! The declarations in functions that count: of each name the first in its block.

ghost use Rattle.std.specs.Prelude.{◌≡◌, IfOk, OnOk, All, ◌&&◌, List, [], ◌∷◌, ◌++◌};
ghost use Rattle.indexmap.specs.IndexMap.{values};
ghost use Rattle.meaning.specs.Scopes.{LocalName as Declared};
ghost use Rattle.meaning.specs.Declarations.{locals_of, is_in_scope};
ghost use Rattle.names.specs.Ordered.{AreFirst, FitsKey, locals_view};
ghost use Rattle.scopes.specs.Views.{local_view, namings_view};

use indexmap::IndexMap;
use scopes::{LocalName, Naming};
use std::alloc::{AllocError, Global};

/// The locals that count, each under its name and the offset at which its block begins.
pub type FirstLocals<'a> = IndexMap<(&'a str, u32), LocalName<'a>>;

/// The locals that count, in the order in which they are declared.
///
/// # Errors
///
/// Memory was refused.
pub fn first_locals<'a>(
    alloc: Global,
    namings: &[Naming<'a>],
) -> Result<FirstLocals<'a>, AllocError>
    ensures { IfOk result (λ firsts. AreFirst firsts (locals_of (namings_view namings.now))) }
{
    let mut locals = IndexMap::new(alloc);
    for naming in namings {
        if let Naming::Declaration(local) = naming {
            add_local(&mut locals, local)?;
        }
    }
    Ok(locals)
}

/// Adds the local, unless one of its name and block is there.
fn add_local<'a>(locals: &mut FirstLocals<'a>, local: &LocalName<'a>) -> Result<(), AllocError>
    ensures { OnOk result ((before : List Declared) → AreFirst locals.old before → AreFirst locals.new
        (before ++ local_view local.now ∷ [])) }
{
    let key = (local.name, local.block.start);
    if !locals.contains_key(&key) {
        locals.insert(key, *local)?;
    }
    Ok(())
}

/// Whether the declaration, by `:=`, only assigns: its block has declared the name before.
pub fn is_assigned(locals: &FirstLocals<'_>, local: &LocalName<'_>) -> bool
    requires fit { All FitsKey locals.now.entries }
    ensures { result ≡ (local.now.is_short && is_in_scope (local_view local.now) (locals_view (values locals.now))) }
{
    local.is_short && has_begun(locals, local)
}

/// Whether the scope of what the block declares by the local's name begins at or before the local.
fn has_begun(locals: &FirstLocals<'_>, local: &LocalName<'_>) -> bool
    requires fit { All FitsKey locals.now.entries }
    ensures { result ≡ is_in_scope (local_view local.now) (locals_view (values locals.now)) }
{
    let key = (local.name, local.block.start);
    let Some(index) = locals.get_index_of(&key) else {
        return false;
    };
    match locals.get_index(index) {
        Some((_, first)) => first.from <= local.number,
        None => false,
    }
}
