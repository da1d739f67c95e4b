//! The rows of a certificate.

ghost use Rattle.std.specs.Prelude.{◌≡◌, IfOk, map};
ghost use Rattle.certificates.specs.Rows.{arriving, IsRowOf, TellRows};
ghost use Rattle.checker.specs.Certificates.{groups_with_bits};
ghost use Rattle.events.specs.VariableViews.{variable_view};

use crate::masks::mask_of;
use bodies::{Arrivals, BodyGraph};
use checker::groups_of_bits;
use events::Variable;
use flow::NodePlace;
use std::alloc::{AllocError, Global};

/// A mask for each of the variables at the node, where these groups have bits.
fn row_of<A: Arrivals>(
    alloc: Global,
    variables: &[Variable<'_>],
    groups: &[u32],
    arrivals: &A,
    node: usize,
) -> Result<Vec<u16>, AllocError>
    ensures { IfOk result (λ row. IsRowOf (arriving (A.cancels arrivals.now) (A.groups arrivals.now) groups.now) node
        (map variable_view variables.now) row.items) }
{
    let mut row = Vec::new(alloc);
    for (place, variable) in variables.iter().enumerate() {
        row.push(mask_of(arrivals, groups, place, variable.kind, node))?;
    }
    Ok(row)
}

/// A row for each of these nodes, where these groups have bits.
fn rows_with<A: Arrivals>(
    alloc: Global,
    variables: &[Variable<'_>],
    groups: &[u32],
    arrivals: &A,
    order: &[NodePlace],
) -> Result<Vec<Vec<u16>>, AllocError>
    ensures { IfOk result (λ rows. TellRows (arriving (A.cancels arrivals.now) (A.groups arrivals.now) groups.now)
        (map variable_view variables.now) order.now rows.items) }
{
    let mut rows = Vec::new(alloc);
    for place in order {
        rows.push(row_of(alloc, variables, groups, arrivals, place.node)?)?;
    }
    Ok(rows)
}

/// The rows of a body with these variables and that graph, of which each node stands once in the order of the text: a
/// row for each node in that order, and in it a mask for each variable. In a mask a bit is set exactly where it stands
/// for a class that arrives at the node.
///
/// # Errors
///
/// Memory was refused.
pub fn rows_of<A: Arrivals>(
    alloc: Global,
    variables: &[Variable<'_>],
    kept: &BodyGraph<'_, '_>,
    arrivals: &A,
) -> Result<Vec<Vec<u16>>, AllocError>
    ensures { IfOk result (λ rows. TellRows (arriving (A.cancels arrivals.now) (A.groups arrivals.now)
        (groups_with_bits (map variable_view variables.now))) (map variable_view variables.now)
        kept.now.order.items rows.items) }
{
    let groups = groups_of_bits(alloc, variables)?;
    rows_with(alloc, variables, &groups, arrivals, &kept.order)
}
