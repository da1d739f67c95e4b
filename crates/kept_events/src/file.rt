//! A file, and what is kept in it, if some field keeps.

ghost use Rattle.std.specs.Prelude.{IfOk};
ghost use Rattle.kept_events.specs.KeptEventViews.{MayKeep};
ghost use Rattle.tracked.specs.LocalViews.{Sees};

use kept::{Kept, find_kept};
use std::alloc::{AllocError, Global};
use tracked::Seen;
use tracked_rows::some_keep;

/// A file that was looked at, and what is kept in it; nothing, where no field keeps.
#[derive(Clone, Copy)]
pub struct FileKept<'s, 'k, 'm, 'a> {
    pub seen: &'s Seen<'k, 'm, 'a>,
    pub kept: &'s Option<Kept<'a>>,
}

/// What is kept in a file, if some field keeps.
///
/// # Errors
///
/// Memory was refused.
pub fn find_file_kept<'a>(
    alloc: Global,
    seen: &Seen<'_, '_, 'a>,
) -> Result<Option<Kept<'a>>, AllocError>
    requires { Sees seen.now }
    ensures { IfOk result (λ kept. MayKeep seen.now kept) }
{
    if !some_keep(seen.known.fields) {
        return Ok(None);
    }
    let kept = find_kept(alloc, seen)?;
    Ok(Some(kept))
}
