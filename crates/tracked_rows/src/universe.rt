//! Names that the universe declares.

ghost use Rattle.std.specs.Prelude.{◌≡◌, option_map};
ghost use Rattle.meaning.specs.Tracked.{is_universe};
ghost use Rattle.names.specs.Answers.{decl_view};
ghost use Rattle.tracked_rows.specs.RowViews.{known_view};

use crate::known::{Known, meaning};
use names::NameMeaning;

fn is_universe(meaning: Option<NameMeaning<'_>>) -> bool
    ensures { result ≡ is_universe (option_map decl_view meaning.entry) }
{
    match meaning {
        Some(NameMeaning::Universe) => true,
        _ => false,
    }
}

/// Whether the use at that offset is of a name of the universe.
pub fn means_universe(known: Known<'_, '_>, at: u32) -> bool
    ensures { result ≡ is_universe ((known_view known.entry).means at) }
{
    is_universe(meaning(known, at))
}
