//! Sets of classes of one variable, as masks: a class is in a mask where the bit of its number is set.

ghost use Rattle.std.specs.Prelude.{◌≡◌, ◌<◌, ◌^◌, ◌↔◌, ◌||◌, ℕ, IsTrue, nat_eq};
ghost use Rattle.facts.specs.FactViews.{kind_view};
ghost use Rattle.bodies.specs.declared.bits.TheConstants.{FIRST_PENDING};
ghost use Rattle.bodies.specs.Bits.{cancel_bit, cancel_class, group_class};
ghost use Rattle.bodies.specs.ClassViews.{cancel_class_view, group_class_view};
ghost use Rattle.bodies.specs.Masks.{is_set, HasKnownBits, Has, MayBe};
ghost use Rattle.bodies.specs.MaskTests.{has_known_bits, has, may_be_pending, may_be_cancel, may_be_group};

use crate::bits::{FIRST_PENDING, GROUP_CLASSES, KEPT, cancel_bit, group_bit};
use crate::cancels::CancelClass;
use crate::groups::GroupClass;
use facts::VariableKind;
use tree::Edition;

/// Whether the bit of that number is set.
pub fn is_set(mask: u16, bit: usize) -> bool
    ensures { result ≡ is_set mask bit }
{
    bit < 16 && (mask >> bit) & 1 == 1
}

/// Sets the bit of that number.
pub fn with_bit(mask: u16, bit: usize) -> u16
    requires within { bit < 16 }
    ensures below { (count : ℕ) → bit < count → mask < 2 ^ count → result < 2 ^ count }
    ensures bits { (other : ℕ) → is_set result other ≡ (is_set mask other || nat_eq other bit) }
{
    mask | 1 << bit
}

/// Whether no bit is set that stands for no class of a variable of that kind in that edition.
pub fn has_known_bits(edition: Edition, kind: VariableKind, mask: u16) -> bool
    ensures known { IsTrue result ↔ HasKnownBits edition (kind_view kind) mask }
    ensures test { result ≡ has_known_bits edition (kind_view kind) mask }
{
    match kind {
        VariableKind::Cancel => match edition {
            Edition::First => mask < 1 << KEPT,
            Edition::Second => true,
        },
        VariableKind::Group => mask < 1 << GROUP_CLASSES,
    }
}

/// Whether the class of a cancel variable has a number for these groups, and its bit is set.
pub fn has_cancel(mask: u16, class: CancelClass, groups: &[u32]) -> bool
    ensures has { IsTrue result ↔ Has (cancel_bit groups.now) mask (cancel_class_view class) }
    ensures test { result ≡ has (cancel_bit groups.now) mask (cancel_class_view class) }
{
    match cancel_bit(class, groups) {
        Some(bit) => is_set(mask, bit),
        None => false,
    }
}

/// Whether a bit is set that stands for what is pending in that group.
fn may_be_pending(mask: u16, group: u32, groups: &[u32]) -> bool
    ensures { result ≡ may_be_pending group mask FIRST_PENDING groups.now }
{
    for (place, other) in groups.iter().enumerate() {
        if FIRST_PENDING + place >= KEPT {
            return false;
        }
        if group == *other && is_set(mask, FIRST_PENDING + place) {
            return true;
        }
    }
    false
}

/// Whether a bit is set that stands for the class of a cancel variable. That is the bit of its number, and where a
/// group stands twice among these, any bit that stands for it.
pub fn may_be_cancel(mask: u16, class: CancelClass, groups: &[u32]) -> bool
    ensures may_be { IsTrue result ↔ MayBe (cancel_class groups.now) mask (cancel_class_view class) }
    ensures test { result ≡ may_be_cancel groups.now mask (cancel_class_view class) }
{
    match class {
        CancelClass::Unset => is_set(mask, 0),
        CancelClass::Opened => is_set(mask, 1),
        CancelClass::Safe => is_set(mask, 2),
        CancelClass::Pending(group) => may_be_pending(mask, group, groups),
        CancelClass::Kept => is_set(mask, KEPT),
    }
}

/// Whether the bit of the class of a group is set.
pub fn may_be_group(mask: u16, class: GroupClass) -> bool
    ensures may_be { IsTrue result ↔ MayBe group_class mask (group_class_view class) }
    ensures test { result ≡ may_be_group mask (group_class_view class) }
{
    is_set(mask, group_bit(class))
}
