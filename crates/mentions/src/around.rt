//! The bodies around a mark, the innermost first.

ghost use Rattle.std.specs.Prelude.{◌≡◌, map};
ghost use Rattle.meaning.specs.Uses.{is_body};
ghost use Rattle.mentions.specs.MarkViews.{body_view};

use crate::mark::BodyPlace;

/// Whether what stands in these bodies stands in the body of that offset, and in no literal in it.
pub fn is_body(at: u32, bodies: &[BodyPlace<'_>]) -> bool
    ensures { result ≡ is_body at (map body_view bodies.now) }
{
    match bodies.first() {
        Some(body) => body.at == at,
        None => false,
    }
}
