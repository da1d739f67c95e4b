//! A mention of a local.

ghost use Rattle.std.specs.Prelude.{◌≡◌};
ghost use Rattle.meaning.specs.Uses.{variable_at};
ghost use Rattle.mentions.specs.MarkViews.{mention_view};
ghost use Rattle.tracked_rows.specs.EventViews.{variable_view};
ghost use Rattle.tracked.specs.LocalViews.{local_view};

use mentions::{BodyPlace, Mention};
use tracked::Local;
use tracked_rows::VariableAt;

/// A mention of a local, in the bodies around it, the innermost first.
#[derive(Clone, Copy)]
pub struct LocalMention<'b, 'm, 'a> {
    pub local: Local<'a>,
    pub bodies: &'b [BodyPlace<'a>],
    pub mention: Mention<'m, 'a>,
}

/// The variable, where the mention stands.
pub fn variable_at(local: Local<'_>, mention: Mention<'_, '_>) -> VariableAt
    ensures { variable_view result ≡ variable_at (local_view local.entry) (mention_view mention.entry) }
{
    VariableAt {
        number: local.number,
        at: mention.named.at,
    }
}
