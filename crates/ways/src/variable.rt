//! The classes of one variable of a body.

ghost use Rattle.std.specs.Prelude.{◌≡◌};
ghost use Rattle.bodies.specs.NodeEvents.{node_event_view};
ghost use Rattle.events.specs.VariableViews.{variable_view};
ghost use Rattle.bodies.specs.ClassViews.{done_view};
ghost use Rattle.ways.specs.ClassSteps.{class_step, class_at_entry};
ghost use Rattle.ways.specs.ClassLaws.{step_within};

use bodies::{
    Change, NodeEvent, Promises, cancel_bit, cancel_bit_after, entry_cancel, entry_group,
    group_bit, group_bit_after,
};
use events::Variable;
use facts::VariableKind;
use searches::Carry;

/// A variable of a body, and what the body relies on.
#[derive(Drop)]
pub struct VariableClasses<'c, 'a, P> {
    pub promises: &'c P,
    pub variable: Variable<'a>,
    /// The numbers of the groups in which it can be pending, if it is a cancel variable.
    pub groups: &'c [u32],
}

impl<'n, 'b, P: Promises> Carry<NodeEvent<'n, 'b>> for VariableClasses<'_, '_, P> {
    ghost step = { λ c e. class_step (P.promises c.promises.now) c.groups.now (variable_view c.variable)
        (node_event_view e) };

    fn after(&self, event: NodeEvent<'n, 'b>, class: usize) -> usize {
        let done = match event {
            NodeEvent::Does(event) => Some(event),
            NodeEvent::Other | NodeEvent::FallsOff => None,
        };
        let change = Change {
            promises: self.promises,
            variable: self.variable.number,
            event: done,
        };
        match self.variable.kind {
            VariableKind::Cancel => cancel_bit_after(&change, self.groups, class),
            VariableKind::Group => group_bit_after(&change, class),
        }
    }

    ghost within = { λ c e. step_within (P.promises c.promises.now) c.groups.now (variable_view c.variable)
        (node_event_view e) };
}

/// The number of the variable's class at the body's entry.
pub fn class_at_entry(variable: Variable<'_>) -> usize
    ensures { result ≡ class_at_entry (variable_view variable.entry) }
{
    match variable.kind {
        VariableKind::Cancel => cancel_bit(entry_cancel(variable.role), &[]).unwrap_or(0),
        VariableKind::Group => group_bit(entry_group(variable.role)),
    }
}
