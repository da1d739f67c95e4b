//! Whether at some node a class is a fault of what the node does, or breaks what is claimed of a parameter.

ghost use Rattle.std.specs.Prelude.{◌≡◌, map};
ghost use Rattle.bodies.specs.NodeEvents.{node_event_view, events_graph};
ghost use Rattle.checker.specs.Certificates.{is_claimed};
ghost use Rattle.checker.specs.CertificateTests.{breaks_claim, is_broken, deed_breaks, node_breaks, has_fault};
ghost use Rattle.checker.specs.LaidOutViews.{masks_of};
ghost use Rattle.events.specs.VariableViews.{variable_role_view, variable_view};
ghost use Rattle.path_faults.specs.FaultViews.{deed_view};

use crate::claims::Claims;
use crate::classes::RowClasses;
use crate::laid_out::LaidOut;
use bodies::{Arrivals, NodeEvent};
use events::{Variable, VariableRole};
use flow::NodePlace;
use path_faults::{AtNode, Deed, Lives, deed_of, is_fault, is_return_deed, is_uncalled};

/// Whether it is claimed of a variable of that role.
fn is_claimed<C: Claims>(claims: &C, role: VariableRole) -> bool
    ensures { result ≡ is_claimed (C.claims claims.now) (variable_role_view role) }
{
    match role {
        VariableRole::OwnParameter(position) => claims.is_claimed(position),
        VariableRole::OwnReceiver | VariableRole::DeclaredInBody | VariableRole::Captured => false,
    }
}

/// Whether the node returns, and the variable at that place in the list is a cancel variable of which it is claimed
/// that it was called, and may not have been.
fn breaks_claim<'a, A: Arrivals, L: Lives, C: Claims>(
    at: &AtNode<'_, 'a, A, L>,
    claims: &C,
    deed: Deed<'_>,
    place: usize,
    variable: Variable<'a>,
) -> bool
    ensures { result ≡ breaks_claim (map variable_view at.now.variables.now) (A.cancels at.now.arrivals.now)
        (L.lives at.now.live.now at.now.node) (C.claims claims.now) at.now.node.node (deed_view deed.entry) place
        (variable_view variable.entry) }
{
    is_return_deed(deed)
        && is_claimed(claims, variable.role)
        && variable.kind.is_cancel()
        && is_uncalled(at, place)
}

/// Whether the variable at that place in the list is a fault of what the node does, or breaks what is claimed of it.
fn is_broken<'a, A: Arrivals, L: Lives, C: Claims>(
    at: &AtNode<'_, 'a, A, L>,
    claims: &C,
    deed: Deed<'_>,
    place: usize,
    variable: Variable<'a>,
) -> bool
    ensures { result ≡ is_broken (map variable_view at.now.variables.now) (A.cancels at.now.arrivals.now)
        (A.groups at.now.arrivals.now) (A.pending_groups at.now.arrivals.now)
        (L.lives at.now.live.now at.now.node) (C.claims claims.now) at.now.node.node (deed_view deed.entry) place
        (variable_view variable.entry) }
{
    is_fault(at, deed, place, variable) || breaks_claim(at, claims, deed, place, variable)
}

/// Whether some variable is a fault of that at the node, or breaks what is claimed of it.
fn deed_breaks<'a, A: Arrivals, L: Lives, C: Claims>(
    at: &AtNode<'_, 'a, A, L>,
    claims: &C,
    deed: Deed<'_>,
) -> bool
    ensures { result ≡ deed_breaks (map variable_view at.now.variables.now) (A.cancels at.now.arrivals.now)
        (A.groups at.now.arrivals.now) (A.pending_groups at.now.arrivals.now)
        (L.lives at.now.live.now at.now.node) (C.claims claims.now) at.now.node.node (deed_view deed.entry) }
{
    for (place, variable) in at.variables.iter().enumerate() {
        if is_broken(at, claims, deed, place, *variable) {
            return true;
        }
    }
    false
}

/// Whether some variable is a fault of what the node does, or breaks what is claimed of it.
fn node_breaks<'a, A: Arrivals, L: Lives, C: Claims>(
    at: &AtNode<'_, 'a, A, L>,
    claims: &C,
    event: NodeEvent<'_, '_>,
) -> bool
    ensures { result ≡ node_breaks (map variable_view at.now.variables.now) (A.cancels at.now.arrivals.now)
        (A.groups at.now.arrivals.now) (A.pending_groups at.now.arrivals.now)
        (L.lives at.now.live.now at.now.node) (C.claims claims.now) at.now.node.node (node_event_view event.entry) }
{
    deed_breaks(at, claims, deed_of(event))
}

/// Whether at some node a class is a fault of what the node does, or breaks what is claimed of a parameter.
pub fn has_fault<C: Claims>(laid_out: &LaidOut<'_, '_, '_>, claims: &C, states: &[Vec<u16>]) -> bool
    ensures { result ≡ has_fault laid_out.now.groups.items (map variable_view laid_out.now.variables.now)
        (masks_of laid_out.now states.now) (C.claims claims.now) (events_graph laid_out.now.kept.now.graph).nodes }
{
    let told = RowClasses {
        rows: &laid_out.rows,
        groups: &laid_out.groups,
        states: &*states,
    };
    for (number, node) in laid_out.kept.graph.nodes.iter().enumerate() {
        let occurrence = node.occurrence;
        let at = AtNode {
            variables: laid_out.variables,
            arrivals: &told,
            live: &told,
            node: NodePlace {
                at: occurrence.at,
                order: occurrence.order,
                node: number,
            },
        };
        if node_breaks(&at, claims, occurrence.event) {
            return true;
        }
    }
    false
}
