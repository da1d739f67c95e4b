//! Mentions of `recover`.

ghost use Rattle.std.specs.Prelude.{◌≡◌};
ghost use Rattle.mentions.specs.MarkViews.{mention_view};
ghost use Rattle.tracked_rows.specs.RowViews.{known_view};
ghost use Rattle.uses.specs.OutcomeViews.{is_recover};

use mentions::Mention;
use tracked_rows::{Known, means_universe};

/// Whether it is a mention of the universe's `recover`.
pub fn is_recover(known: Known<'_, '_>, mention: Mention<'_, '_>) -> bool
    ensures { result ≡ is_recover (known_view known.entry) (mention_view mention.entry) }
{
    mention.named.name == "recover" && means_universe(known, mention.named.at)
}
