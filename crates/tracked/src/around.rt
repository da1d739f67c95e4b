//! The bodies around a mark.

ghost use Rattle.std.specs.Prelude.{◌≡◌, OnOk, map};
ghost use Rattle.tracked.specs.LocalViews.{bodies_at};
ghost use Rattle.meaning.specs.Tracked.{outer};
ghost use Rattle.mentions.specs.MarkViews.{body_view, mark_view};

use mentions::{BodyPlace, Mark};
use std::alloc::AllocError;

/// Goes on to a mark: `bodies` are those around the mark before it, the innermost first, and then those around it.
///
/// # Errors
///
/// Memory was refused.
pub fn enter<'a>(bodies: &mut Vec<BodyPlace<'a>>, mark: Mark<'_, 'a>) -> Result<(), AllocError>
    ensures { OnOk result (map body_view bodies.new.items ≡ bodies_at (map body_view bodies.old.items)
        (mark_view mark.entry)) }
{
    match mark {
        Mark::Opens(body) => bodies.insert(0, *body)?,
        Mark::Closes => leave(bodies),
        _ => {}
    }
    Ok(())
}

/// Takes the innermost body away.
fn leave(bodies: &mut Vec<BodyPlace<'_>>)
    ensures { map body_view bodies.new.items ≡ outer (map body_view bodies.old.items) }
{
    if !bodies.is_empty() {
        bodies.remove(0);
    }
}
