//! Numbers for what is known of a variable.

ghost use Rattle.std.specs.Prelude.{◌≡◌, ℕ, List, option_map};
ghost use Rattle.bodies.specs.declared.bits.TheConstants.{FIRST_PENDING};
ghost use Rattle.bodies.specs.Bits.{cancel_bit, cancel_class, class_behind, group_bit, group_class, bit_from, AreInverseBits, AreInverseGroupBits};
ghost use Rattle.bodies.specs.ClassViews.{cancel_class_view, group_class_view};

use crate::cancels::CancelClass;
use crate::groups::GroupClass;
use meaning::MOST_GROUPS;
use tracked_rows::GroupState;

/// The number of what is pending in the first of some groups: below it stand the classes of a cancel variable that is
/// pending in none.
pub const FIRST_PENDING: usize = 3;

/// The number of what is kept in an object: 15, behind what is pending in as many groups as a body may have.
pub const KEPT: usize = FIRST_PENDING + MOST_GROUPS;

/// How many classes a cancel variable has, where the body has as many groups as it may have: 16. The first edition has
/// all of these but the last.
pub const CANCEL_CLASSES: usize = KEPT + 1;

/// How many classes a group has.
pub const GROUP_CLASSES: usize = 4;

/// The number of the first of these groups that is that one, where the first of all has the number `FIRST_PENDING`.
/// Groups past the last number below `KEPT` have none.
fn pending_bit(group: u32, groups: &[u32]) -> Option<usize>
    ensures { result ≡ bit_from FIRST_PENDING group groups.now }
{
    let mut bit: usize = FIRST_PENDING;
    for other in groups {
        if bit >= KEPT {
            return None;
        }
        if group == *other {
            return Some(bit);
        }
        bit += 1;
    }
    None
}

/// The number of what is known of a cancel variable: 0 unset, 1 open, 2 safe, `FIRST_PENDING` + k pending in the k-th
/// of these groups, counted from 0, and `KEPT` kept. There is none where the group is not among the first twelve of
/// these.
pub fn cancel_bit(class: CancelClass, groups: &[u32]) -> Option<usize>
    ensures { result ≡ cancel_bit groups.now (cancel_class_view class) }
{
    match class {
        CancelClass::Unset => Some(0),
        CancelClass::Opened => Some(1),
        CancelClass::Safe => Some(2),
        CancelClass::Pending(group) => pending_bit(group, groups),
        CancelClass::Kept => Some(KEPT),
    }
}

/// What is known of a cancel variable by the number that is so far behind `FIRST_PENDING`.
fn class_behind(place: usize, groups: &[u32]) -> Option<CancelClass>
    ensures { option_map cancel_class_view result ≡ class_behind groups.now place }
{
    if place >= MOST_GROUPS {
        return if place == MOST_GROUPS {
            Some(CancelClass::Kept)
        } else {
            None
        };
    }
    match groups.get(place) {
        Some(group) => Some(CancelClass::Pending(*group)),
        None => None,
    }
}

/// What is known of a cancel variable, by its number, if there is such a number for these groups.
pub fn cancel_class(bit: usize, groups: &[u32]) -> Option<CancelClass>
    ensures { option_map cancel_class_view result ≡ cancel_class groups.now bit }
{
    match bit {
        0 => Some(CancelClass::Unset),
        1 => Some(CancelClass::Opened),
        2 => Some(CancelClass::Safe),
        _ => class_behind(bit - FIRST_PENDING, groups),
    }
}

/// The numbers of cancel variables are one for one: what has a number is told by it; and where no group stands twice
/// among these, each number that tells something is the number of that.
pub fn cancel_bits_are_inverse()
    ensures { (groups : List ℕ) → AreInverseBits groups }
{}

/// The number of what is known of a group: 0 unmade, 1 idle, 2 live, and 3 awaited.
pub fn group_bit(class: GroupClass) -> usize
    ensures { result ≡ group_bit (group_class_view class) }
{
    match class {
        GroupClass::Unmade => 0,
        GroupClass::InState(GroupState::Idle) => 1,
        GroupClass::InState(GroupState::Live) => 2,
        GroupClass::Awaited => 3,
    }
}

/// What is known of a group, by its number, if there is such a number.
pub fn group_class(bit: usize) -> Option<GroupClass>
    ensures { option_map group_class_view result ≡ group_class bit }
{
    match bit {
        0 => Some(GroupClass::Unmade),
        1 => Some(GroupClass::InState(GroupState::Idle)),
        2 => Some(GroupClass::InState(GroupState::Live)),
        3 => Some(GroupClass::Awaited),
        _ => None,
    }
}

/// The numbers of groups are one for one.
pub fn group_bits_are_inverse()
    ensures { AreInverseGroupBits }
{}
