//! A mark, where it stands.

ghost use Rattle.std.specs.Prelude.{◌≡◌, map};
ghost use Rattle.kept.specs.KeptViews.{is_declared_in};
ghost use Rattle.mentions.specs.MarkViews.{body_view};
ghost use Rattle.tracked.specs.LocalViews.{seen_view, Sees};

use mentions::{BodyPlace, is_body};
use tracked::Seen;

/// A file that was looked at, and the bodies around a mark of it, the innermost first.
#[derive(Clone, Copy)]
pub struct Around<'s, 'k, 'm, 'a> {
    pub seen: &'s Seen<'k, 'm, 'a>,
    pub bodies: &'s [BodyPlace<'a>],
}

/// Whether the innermost of these bodies declares the local of that number.
pub fn is_declared_in(seen: &Seen<'_, '_, '_>, bodies: &[BodyPlace<'_>], number: u32) -> bool
    requires { Sees seen.now }
    ensures { result ≡ is_declared_in (seen_view seen.now) (map body_view bodies.now) number }
{
    match seen.entry(Some(number)) {
        Some(entry) => is_body(entry.local.body, bodies),
        None => false,
    }
}
