//! What an event makes of the classes of one variable, and of their numbers.

ghost use Rattle.std.specs.Prelude.{◌≡◌};
ghost use Rattle.bodies.specs.BitSteps.{cancel_step, group_step};
ghost use Rattle.bodies.specs.ClassViews.{cancel_class_view, group_class_view, done_view};
ghost use Rattle.meaning.specs.Classes.{change_cancel, change_group};

use crate::bits::{cancel_bit, cancel_class, group_bit, group_class};
use crate::cancels::{CancelClass, change_cancel};
use crate::groups::{GroupClass, change_group};
use crate::promises::Promises;
use tracked_rows::Event;

/// What an event makes of the variable of that number.
#[derive(Drop)]
pub struct Change<'c, 'e, 'a, P> {
    pub promises: &'c P,
    pub variable: u32,
    /// None where nothing is done: the class stays.
    pub event: Option<&'e Event<'a>>,
}

impl<P: Promises> Change<'_, '_, '_, P> {
    /// What the class of a cancel variable comes to be.
    pub fn cancel(&self, class: CancelClass) -> CancelClass
        ensures { cancel_class_view result ≡ change_cancel (P.promises self.now.promises.now) self.now.variable
            (done_view self.now.event) (cancel_class_view class) }
    {
        match self.event {
            Some(event) => change_cancel(self.promises, self.variable, event, class),
            None => class,
        }
    }

    /// What the class of a group comes to be.
    pub fn group(&self, class: GroupClass) -> GroupClass
        ensures { group_class_view result ≡ change_group (P.promises self.now.promises.now) self.now.variable
            (done_view self.now.event) (group_class_view class) }
    {
        match self.event {
            Some(event) => change_group(self.promises, self.variable, event, class),
            None => class,
        }
    }
}

/// What the change makes of the bit of a cancel variable, where these groups have bits.
pub fn cancel_bit_after<P: Promises>(
    change: &Change<'_, '_, '_, P>,
    groups: &[u32],
    bit: usize,
) -> usize
    ensures { result ≡ cancel_step (P.promises change.now.promises.now) change.now.variable groups.now
        (done_view change.now.event) bit }
{
    match cancel_class(bit, groups) {
        Some(class) => cancel_bit(change.cancel(class), groups).unwrap_or(bit),
        None => bit,
    }
}

/// What the change makes of the bit of a group.
pub fn group_bit_after<P: Promises>(change: &Change<'_, '_, '_, P>, bit: usize) -> usize
    ensures { result ≡ group_step (P.promises change.now.promises.now) change.now.variable
        (done_view change.now.event) bit }
{
    match group_class(bit) {
        Some(class) => group_bit(change.group(class)),
        None => bit,
    }
}
