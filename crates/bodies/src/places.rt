//! Where the masks of a body's variables stand in states.

ghost use Rattle.std.specs.Prelude.{◌≡◌, true, false, [], map, length, IfOk};
ghost use Rattle.bodies.specs.Flags.{cancel_entry, group_entry};
ghost use Rattle.bodies.specs.Places.{AddsCancel, AddsGroup, Adds, ArePlaced, IsFull};
ghost use Rattle.events.specs.VariableViews.{variable_role_view, variable_view};
ghost use Rattle.facts.specs.FactViews.{kind_view};
ghost use Rattle.meaning.specs.BodyEvents.{too_many_faults};
ghost use Rattle.meaning.specs.FunctionFacts.{cancel, group};

use crate::bits::{GROUP_CLASSES, cancel_bit, group_bit};
use crate::cancels::entry_cancel;
use crate::groups::entry_group;
use crate::masks::with_bit;
use crate::state::{CANCEL_BITS, CANCELS_BEGIN, GROUPS_BEGIN, State};
use events::{Variable, VariableRole};
use facts::VariableKind;
use std::alloc::{AllocError, Global};

/// The bit of a cancel variable at the body's entry, where it is pending in no group.
fn cancel_entry(role: VariableRole) -> usize
    ensures { result ≡ cancel_entry (variable_role_view role) }
{
    cancel_bit(entry_cancel(role), &[]).unwrap_or(0)
}

/// The variables of a body with their places in states.
#[derive(Drop)]
pub struct Places {
    /// The numbers of the cancel variables, in their order.
    pub cancels: Vec<u32>,
    /// The numbers of the groups, in their order.
    pub groups: Vec<u32>,
    /// For each variable the first bit of its mask.
    pub firsts: Vec<usize>,
    /// The state at the body's entry.
    pub entry: State,
}

impl Places {
    /// Gives the cancel variable a place, if one is left. Whether there was one.
    fn add_cancel(&mut self, variable: Variable<'_>) -> Result<bool, AllocError>
        ensures placed { IfOk result (λ is_placed. is_placed ≡ true → AddsCancel variable.entry.number
            (cancel_entry (variable_role_view variable.entry.role)) self.old self.new) }
        ensures full { IfOk result (λ is_placed. is_placed ≡ false → IsFull cancel self.old) }
        ensures kept { IfOk result (λ is_placed. is_placed ≡ false → self.new ≡ self.old) }
    {
        let place = self.cancels.len();
        let mask = with_bit(0, cancel_entry(variable.role));
        if !self.entry.set_mask(VariableKind::Cancel, place, mask) {
            return Ok(false);
        }
        self.cancels.push(variable.number)?;
        self.firsts.push(CANCELS_BEGIN + place * CANCEL_BITS)?;
        Ok(true)
    }

    /// Gives the group a place, if one is left. Whether there was one.
    fn add_group(&mut self, variable: Variable<'_>) -> Result<bool, AllocError>
        ensures placed { IfOk result (λ is_placed. is_placed ≡ true → AddsGroup variable.entry.number
            (group_entry (variable_role_view variable.entry.role)) self.old self.new) }
        ensures full { IfOk result (λ is_placed. is_placed ≡ false → IsFull group self.old) }
        ensures kept { IfOk result (λ is_placed. is_placed ≡ false → self.new ≡ self.old) }
    {
        let place = self.groups.len();
        let mask = with_bit(0, group_bit(entry_group(variable.role)));
        if !self.entry.set_mask(VariableKind::Group, place, mask) {
            return Ok(false);
        }
        self.groups.push(variable.number)?;
        self.firsts.push(GROUPS_BEGIN + place * GROUP_CLASSES)?;
        Ok(true)
    }

    /// Gives the variable a place, if one is left. Whether there was one.
    fn add(&mut self, variable: Variable<'_>) -> Result<bool, AllocError>
        ensures placed { IfOk result (λ is_placed. is_placed ≡ true → Adds (variable_view variable.entry)
            (kind_view variable.entry.kind) self.old self.new) }
        ensures full { IfOk result (λ is_placed. is_placed ≡ false → IsFull (kind_view variable.entry.kind) self.old) }
        ensures kept { IfOk result (λ is_placed. is_placed ≡ false → self.new ≡ self.old) }
    {
        match variable.kind {
            VariableKind::Cancel => self.add_cancel(variable),
            VariableKind::Group => self.add_group(variable),
        }
    }
}

/// The places of the variables, up to the first one for which no place is left.
///
/// # Errors
///
/// Memory was refused.
pub fn place_all(alloc: Global, variables: &[Variable<'_>]) -> Result<Places, AllocError>
    ensures placed { IfOk result (λ p. ArePlaced (map variable_view variables.now) (length p.firsts.items) p) }
    ensures all { IfOk result (λ p. too_many_faults (map variable_view variables.now) ≡ []
        → length p.firsts.items ≡ length (map variable_view variables.now)) }
{
    let mut places = Places {
        cancels: Vec::new(alloc),
        groups: Vec::new(alloc),
        firsts: Vec::new(alloc),
        entry: State::empty(),
    };
    for variable in variables {
        if !places.add(*variable)? {
            return Ok(places);
        }
    }
    Ok(places)
}
