//! What an event makes of the bits of one mask.

ghost use Rattle.std.specs.Prelude.{◌≡◌, ◌<◌, ◌≤◌, ◌^◌, ℕ};
ghost use Rattle.bodies.specs.BitSteps.{cancel_step, group_step};
ghost use Rattle.bodies.specs.ClassViews.{done_view};
ghost use Rattle.bodies.specs.Masks.{is_set};
ghost use Rattle.bodies.specs.States.{IsImage};
ghost use Rattle.bodies.specs.StateWords.{StaysBelow};

use crate::changes::{Change, cancel_bit_after, group_bit_after};
use crate::masks::{is_set, with_bit};
use crate::promises::Promises;

/// What takes bits to bits.
pub trait Step {
    ghost step: { Self → ℕ → ℕ };

    /// What becomes of the bit.
    fn step(&self, bit: usize) -> usize
        ensures { result ≡ step self.now bit };
}

/// Takes the bits of a group.
impl<P: Promises> Step for Change<'_, '_, '_, P> {
    ghost step = { λ c. group_step (P.promises c.promises.now) c.variable (done_view c.event) };

    fn step(&self, bit: usize) -> usize {
        group_bit_after(self, bit)
    }
}

/// Takes the bits of a cancel variable, where these groups have bits.
#[derive(Drop)]
pub struct CancelChange<'g, 'c, 'e, 'a, P> {
    pub change: Change<'c, 'e, 'a, P>,
    pub groups: &'g [u32],
}

impl<P: Promises> Step for CancelChange<'_, '_, '_, '_, P> {
    ghost step = { λ c. cancel_step (P.promises c.change.promises.now) c.change.variable c.groups.now
        (done_view c.change.event) };

    fn step(&self, bit: usize) -> usize {
        cancel_bit_after(&self.change, self.groups, bit)
    }
}

/// The bits to which the step takes those of the mask, which has so many.
pub fn image_of<S: Step>(steps: &S, mask: u16, count: usize) -> u16
    requires count { count ≤ 16 }
    requires stays { StaysBelow count (S.step steps.now) }
    ensures below { result < 2 ^ count }
    ensures image { IsImage count (S.step steps.now) (is_set mask) (is_set result) }
{
    let mut image: u16 = 0;
    for bit in 0..count {
        if is_set(mask, bit) {
            image = with_bit(image, steps.step(bit));
        }
    }
    image
}
