//! Whether a certificate holds.

ghost use Rattle.std.specs.Prelude.{◌≡◌, ◌↔◌, ◌&&◌, IsTrue, length, map};
ghost use Rattle.bodies.specs.NodeEvents.{events_graph};
ghost use Rattle.checker.specs.Certificates.{Holds};
ghost use Rattle.checker.specs.CertificateTests.{all_start_among, has_rows, have_places};
ghost use Rattle.checker.specs.LaidOutViews.{IsLaidOut, body_of, states_view};
ghost use Rattle.events.specs.VariableViews.{variable_view};

use crate::claims::Claims;
use crate::edges::{all_start_among, edges_hold};
use crate::entry::starts_hold;
use crate::faults::has_fault;
use crate::laid_out::LaidOut;
use crate::rows::has_rows;
use bodies::Promises;

/// Whether states have places for the body's variables and bits for its groups, and a row for each node.
fn fits(laid_out: &LaidOut<'_, '_, '_>, states: &[Vec<u16>]) -> bool
    ensures { result ≡ (have_places laid_out.now.numbers.cancels.items laid_out.now.numbers.groups.items
        laid_out.now.groups.items && (all_start_among laid_out.now.groups.items
        (events_graph laid_out.now.kept.now.graph).nodes && has_rows laid_out.now.edition
        (map variable_view laid_out.now.variables.now) (length laid_out.now.kept.now.order.items)
        (states_view states.now))) }
{
    laid_out.has_places() && all_start_among(laid_out) && has_rows(laid_out, states)
}

/// Whether the certificate of these rows holds for the body, under what is promised and for what is claimed.
pub fn holds<P: Promises, C: Claims>(
    laid_out: &LaidOut<'_, '_, '_>,
    promises: &P,
    claims: &C,
    states: &[Vec<u16>],
) -> bool
    ensures { IsLaidOut laid_out.now → IsTrue result ↔ Holds
        (body_of laid_out.now (P.promises promises.now) (C.claims claims.now)) (states_view states.now) }
{
    if !fits(laid_out, states) {
        return false;
    }
    if !starts_hold(laid_out, states) {
        return false;
    }
    if !edges_hold(laid_out, promises, states) {
        return false;
    }
    !has_fault(laid_out, claims, states)
}
