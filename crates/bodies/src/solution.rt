//! Which classes arrive at each node.

ghost use Rattle.std.specs.Prelude.{◌≡◌, IfOk, map};
ghost use Rattle.bodies.specs.Classified.{Classifies};
ghost use Rattle.bodies.specs.NodeEvents.{IsGraphOf};
ghost use Rattle.bodies.specs.AtNodes.{ClassifiesNodes};
ghost use Rattle.bodies.specs.FlagLaws.{pending_in_group};
ghost use Rattle.bodies.specs.Places.{HavePlaces};
ghost use Rattle.bodies.specs.Solutions.{cancel_arrives, group_arrives, found_in};
ghost use Rattle.meaning.specs.Code.{Code};
ghost use Rattle.meaning.specs.Uses.{Event};
ghost use Rattle.events.specs.VariableViews.{variable_view};

use crate::arrivals::Arrivals;
use crate::bits::{cancel_bit, group_bit};
use crate::cancels::CancelClass;
use crate::groups::GroupClass;
use crate::node::NodeEvent;
use crate::places::place_all;
use crate::promises::Promises;
use crate::state::{CANCEL_BITS, STATE_WORDS, State, StateVariables, WORD_BITS};
use crate::sweep::{has_at, states_at_nodes};
use events::Variable;
use flow::Graph;
use std::alloc::{AllocError, Global};

/// Which classes of a body's variables arrive at each node of its graph.
#[derive(Drop)]
pub struct Solution {
    /// The numbers of the body's groups, in which its cancel variables can be pending.
    groups: Vec<u32>,
    /// For each variable the first bit of its mask.
    firsts: Vec<usize>,
    /// The state at each node.
    states: Vec<State>,
}

impl Solution {
    /// Whether the bit of the variable of that place is set at the node.
    fn has(&self, place: usize, node: usize, bit: usize) -> bool
        ensures { result ≡ found_in self.now place node bit }
    {
        match self.firsts.get(place) {
            Some(first) => {
                *first < STATE_WORDS * WORD_BITS
                    && bit < CANCEL_BITS
                    && has_at(&self.states, node, *first + bit)
            }
            None => false,
        }
    }
}

impl Arrivals for Solution {
    ghost cancels = { cancel_arrives };

    ghost groups = { group_arrives };

    ghost pending_groups = { λ s. s.groups.items };

    fn has_cancel(&self, variable: usize, node: usize, class: CancelClass) -> bool {
        let Some(bit) = cancel_bit(class, &self.groups) else {
            return false;
        };
        self.has(variable, node, bit)
    }

    fn has_group(&self, variable: usize, node: usize, class: GroupClass) -> bool {
        self.has(variable, node, group_bit(class))
    }

    fn pending_groups(&self) -> &[u32] {
        &self.groups
    }

    ghost no_others = { pending_in_group };
}

/// Looks which classes of the body's variables arrive at each node of its graph. Of a body that has too many, or starts
/// literals in groups that are none of its variables, it looks for some only.
///
/// # Errors
///
/// Memory was refused.
pub fn solve<P: Promises>(
    alloc: Global,
    graph: &Graph<NodeEvent<'_, '_>>,
    variables: &[Variable<'_>],
    promises: &P,
) -> Result<Solution, AllocError>
    ensures classes { IfOk result (λ s. (c : Code Event) → IsGraphOf c graph.now
        → HavePlaces c (map variable_view variables.now)
        → Classifies c (P.promises promises.now) (map variable_view variables.now) (cancel_arrives s)
        (group_arrives s)) }
    ensures nodes { IfOk result (λ s. (c : Code Event) → IsGraphOf c graph.now
        → HavePlaces c (map variable_view variables.now)
        → ClassifiesNodes c (P.promises promises.now) (map variable_view variables.now) (cancel_arrives s)
        (group_arrives s)) }
{
    let places = place_all(alloc, variables)?;
    let kept = StateVariables {
        cancels: &places.cancels,
        groups: &places.groups,
        pending: &places.groups,
    };
    let states = states_at_nodes(alloc, graph, promises, &kept, &places.entry)?;
    Ok(Solution {
        groups: places.groups,
        firsts: places.firsts,
        states,
    })
}
