//! Whether a mention is allowed, and what it does then.

ghost use Rattle.std.specs.Prelude.{◌≡◌};
ghost use Rattle.allowed_uses.specs.UseViews.{use_view, allowed_if};
ghost use Rattle.tracked_rows.specs.EventViews.{event_view};

use tracked_rows::Event;

/// Whether a mention is allowed, and what it does then.
#[derive(Drop)]
pub enum Use<'a> {
    NotAllowed,
    /// It is allowed and does nothing.
    Silent,
    Does(Event<'a>),
}

/// What the mention does, if it is allowed.
pub fn allowed_if<'a>(is_allowed: bool, event: Event<'a>) -> Use<'a>
    ensures { use_view result ≡ allowed_if is_allowed (event_view event.entry) }
{
    if is_allowed {
        Use::Does(event)
    } else {
        Use::NotAllowed
    }
}
