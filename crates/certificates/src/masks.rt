//! Masks of what arrives at a node.

ghost use Rattle.std.specs.Prelude.{◌≡◌, ◌<◌, ◌+◌, ◌^◌, ◌||◌, ◌&&◌, ℕ, nat_eq};
ghost use Rattle.bodies.specs.Bits.{cancel_class, group_class};
ghost use Rattle.bodies.specs.Masks.{is_set};
ghost use Rattle.certificates.specs.Rows.{passes, arriving, IsCancelMask, IsGroupMask, IsMask};
ghost use Rattle.facts.specs.FactViews.{kind_view};

use bodies::{Arrivals, CANCEL_CLASSES, GROUP_CLASSES, cancel_class, group_class};
use facts::VariableKind;

/// Sets the bit, if it is to be set.
fn with_bit(mask: u16, bit: usize, is_to_be: bool) -> u16
    requires within { bit < 16 }
    ensures below { mask < 2 ^ bit → result < 2 ^ (bit + 1) }
    ensures bits { (other : ℕ) → is_set result other ≡ (is_set mask other || (nat_eq other bit && is_to_be)) }
{
    if is_to_be { mask | 1 << bit } else { mask }
}

/// Whether the class of a cancel variable for which the bit stands arrives at the node.
fn has_cancel<A: Arrivals>(
    arrivals: &A,
    groups: &[u32],
    variable: usize,
    node: usize,
    bit: usize,
) -> bool
    ensures { result ≡ passes (A.cancels arrivals.now variable node) (cancel_class groups.now bit) }
{
    match cancel_class(bit, groups) {
        Some(class) => arrivals.has_cancel(variable, node, class),
        None => false,
    }
}

/// Whether the class of a group for which the bit stands arrives at the node.
fn has_group<A: Arrivals>(arrivals: &A, variable: usize, node: usize, bit: usize) -> bool
    ensures { result ≡ passes (A.groups arrivals.now variable node) (group_class bit) }
{
    match group_class(bit) {
        Some(class) => arrivals.has_group(variable, node, class),
        None => false,
    }
}

fn cancel_mask<A: Arrivals>(arrivals: &A, groups: &[u32], variable: usize, node: usize) -> u16
    ensures { IsCancelMask (arriving (A.cancels arrivals.now) (A.groups arrivals.now) groups.now) node variable
        result }
{
    let mut mask: u16 = 0;
    for bit in 0..CANCEL_CLASSES {
        mask = with_bit(mask, bit, has_cancel(arrivals, groups, variable, node, bit));
    }
    mask
}

fn group_mask<A: Arrivals>(arrivals: &A, groups: &[u32], variable: usize, node: usize) -> u16
    ensures { IsGroupMask (arriving (A.cancels arrivals.now) (A.groups arrivals.now) groups.now) node variable
        result }
{
    let mut mask: u16 = 0;
    for bit in 0..GROUP_CLASSES {
        mask = with_bit(mask, bit, has_group(arrivals, variable, node, bit));
    }
    mask
}

/// The mask of the variable of that place and kind at the node, where these groups have bits: a bit is set exactly
/// where it stands for a class that arrives there.
pub fn mask_of<A: Arrivals>(
    arrivals: &A,
    groups: &[u32],
    variable: usize,
    kind: VariableKind,
    node: usize,
) -> u16
    ensures { IsMask (arriving (A.cancels arrivals.now) (A.groups arrivals.now) groups.now) node (kind_view kind)
        variable result }
{
    match kind {
        VariableKind::Cancel => cancel_mask(arrivals, groups, variable, node),
        VariableKind::Group => group_mask(arrivals, groups, variable, node),
    }
}
