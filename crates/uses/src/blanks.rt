//! Blank left sides.

ghost use Rattle.std.specs.Prelude.{◌≡◌, map};
ghost use Rattle.facts.specs.FactViews.{cancel_result_view};
ghost use Rattle.mentions.specs.MarkViews.{row_view};
ghost use Rattle.meaning.specs.Uses.{has_blank};

use facts::CancelResult;
use mentions::Row;
use tracked_rows::is_blank_at;

/// Whether `_` stands on one of these left sides.
pub fn has_blank(row: Row<'_>, gives: &[CancelResult]) -> bool
    ensures { result ≡ has_blank (row_view row.entry) (map cancel_result_view gives.now) }
{
    for given in gives {
        if is_blank_at(row, given.position) {
            return true;
        }
    }
    false
}
