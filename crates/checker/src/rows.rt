//! Whether a certificate has a row for each node, and in each a mask for each variable.

ghost use Rattle.std.specs.Prelude.{◌≡◌, map, length};
ghost use Rattle.std.specs.List.{list_all};
ghost use Rattle.checker.specs.CertificateTests.{has_known_masks, is_row, has_rows};
ghost use Rattle.checker.specs.LaidOutViews.{states_view};
ghost use Rattle.events.specs.VariableViews.{variable_view};

use crate::laid_out::{LaidOut, mask_in};
use bodies::has_known_bits;
use events::Variable;
use tree::Edition;

/// Whether no mask has a bit that stands for no class of its variable in that edition.
fn has_known_masks(edition: Edition, variables: &[Variable<'_>], row: &[u16]) -> bool
    ensures { result ≡ has_known_masks edition (map variable_view variables.now) row.now }
{
    for (place, variable) in variables.iter().enumerate() {
        if !has_known_bits(edition, variable.kind, mask_in(row, place)) {
            return false;
        }
    }
    true
}

fn is_row(edition: Edition, variables: &[Variable<'_>], row: &[u16]) -> bool
    ensures { result ≡ is_row edition (map variable_view variables.now) row.now }
{
    row.len() == variables.len() && has_known_masks(edition, variables, row)
}

fn are_rows(edition: Edition, variables: &[Variable<'_>], states: &[Vec<u16>]) -> bool
    ensures { result ≡ list_all (is_row edition (map variable_view variables.now)) (states_view states.now) }
{
    for row in states {
        if !is_row(edition, variables, row) {
            return false;
        }
    }
    true
}

/// Whether there is a row for each node, and in each a mask for each variable.
pub fn has_rows(laid_out: &LaidOut<'_, '_, '_>, states: &[Vec<u16>]) -> bool
    ensures { result ≡ has_rows laid_out.now.edition (map variable_view laid_out.now.variables.now)
        (length laid_out.now.kept.now.order.items) (states_view states.now) }
{
    states.len() == laid_out.kept.order.len()
        && are_rows(laid_out.edition, laid_out.variables, states)
}
