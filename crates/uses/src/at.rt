//! A mention, where it stands.

use mentions::{BodyPlace, Mention};
use tracked::Seen;

/// A mention in a file that was looked at, with the bodies around it, the innermost first.
#[derive(Clone, Copy)]
pub struct At<'s, 'k, 'm, 'a> {
    pub seen: &'s Seen<'k, 'm, 'a>,
    pub bodies: &'s [BodyPlace<'a>],
    pub mention: &'s Mention<'m, 'a>,
}
