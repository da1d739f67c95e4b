//! Whether a certificate has the classes of the entry where the body begins.

ghost use Rattle.std.specs.Prelude.{◌≡◌, map};
ghost use Rattle.checker.specs.CertificateTests.{has_entry, has_entries, starts_hold};
ghost use Rattle.checker.specs.LaidOutViews.{masks_of};
ghost use Rattle.events.specs.VariableViews.{variable_role_view, variable_view};
ghost use Rattle.facts.specs.FactViews.{kind_view};

use crate::laid_out::{LaidOut, mask_in};
use bodies::{entry_cancel, entry_group, has_cancel, may_be_group};
use events::Variable;
use facts::VariableKind;

/// Whether the mask has the variable's class at the entry.
fn has_entry(groups: &[u32], variable: Variable<'_>, mask: u16) -> bool
    ensures { result ≡ has_entry groups.now (variable_role_view variable.entry.role) mask
        (kind_view variable.entry.kind) }
{
    match variable.kind {
        VariableKind::Cancel => has_cancel(mask, entry_cancel(variable.role), groups),
        VariableKind::Group => may_be_group(mask, entry_group(variable.role)),
    }
}

/// Whether the masks have the classes of the entry.
fn has_entries(laid_out: &LaidOut<'_, '_, '_>, masks: &[u16]) -> bool
    ensures { result ≡ has_entries laid_out.now.groups.items (map variable_view laid_out.now.variables.now) masks.now }
{
    for (place, variable) in laid_out.variables.iter().enumerate() {
        if !has_entry(&laid_out.groups, *variable, mask_in(masks, place)) {
            return false;
        }
    }
    true
}

/// Whether each node at which the body begins has the classes of the entry.
pub fn starts_hold(laid_out: &LaidOut<'_, '_, '_>, states: &[Vec<u16>]) -> bool
    ensures { result ≡ starts_hold laid_out.now.groups.items (map variable_view laid_out.now.variables.now)
        (masks_of laid_out.now states.now) laid_out.now.kept.now.graph.starts.items }
{
    for node in &laid_out.kept.graph.starts {
        if !has_entries(laid_out, laid_out.masks_at(states, *node)) {
            return false;
        }
    }
    true
}
