//! As what locals are tracked.

ghost use Rattle.std.specs.Prelude.{◌≡◌, option_map};
ghost use Rattle.facts.specs.FactViews.{kind_view};
ghost use Rattle.meaning.specs.Uses.{may_be_tracked};
ghost use Rattle.tracked.specs.LocalViews.{local_role_view, entry_view, kind_of_entry, tracked_kind_of_entry};

use crate::local::{LocalRole, SeenLocal};
use facts::VariableKind;

/// The kind of a local, whatever its role is: that of its type; else cancel, if some row obtains it; else group, if
/// some row makes it.
pub fn kind(entry: SeenLocal<'_>) -> Option<VariableKind>
    ensures { option_map kind_view result ≡ kind_of_entry (entry_view entry.entry) }
{
    if let Some(typed) = entry.local.typed {
        return Some(typed.kind());
    }
    if entry.is_obtained {
        return Some(VariableKind::Cancel);
    }
    if entry.is_made {
        return Some(VariableKind::Group);
    }
    None
}

/// Whether a local of that role may be tracked: a named result and a variadic parameter may not.
pub fn may_be_tracked(role: LocalRole) -> bool
    ensures { result ≡ may_be_tracked (local_role_view role) }
{
    match role {
        LocalRole::Variadic => false,
        LocalRole::Result => false,
        _ => true,
    }
}

/// What the local is tracked as.
pub fn tracked_kind(entry: SeenLocal<'_>) -> Option<VariableKind>
    ensures { option_map kind_view result ≡ tracked_kind_of_entry (entry_view entry.entry) }
{
    if may_be_tracked(entry.local.role) {
        kind(entry)
    } else {
        None
    }
}
