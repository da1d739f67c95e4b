//! The way to a fault.

ghost use Rattle.std.specs.Prelude.{◌≡◌, Contains, IfOk, option_map};
ghost use Rattle.bodies.specs.NodeEvents.{events_graph};
ghost use Rattle.events.specs.VariableViews.{variable_view};
ghost use Rattle.meaning_packages.specs.PathFaults.{Paths};
ghost use Rattle.path_faults.specs.FaultViews.{fault_view};
ghost use Rattle.ways.specs.Asked.{way_view, IsAsked};
ghost use Rattle.ways.specs.Found.{shorter, TellsWayOf, TellsWayOfVariable};

use crate::ends::End;
use crate::told_group::group_told;
use crate::trails::first_end;
use crate::variable::{VariableClasses, class_at_entry};
use bodies::{NodeEvent, Promises};
use events::Variable;
use flow::Graph;
use path_faults::{Lives, PathFault};
use searches::{nodes_back, search_graph};
use std::alloc::{AllocError, Global};

/// The body of which a way is asked.
#[derive(Drop)]
pub struct Asked<'c, 'e, 'a, P, L> {
    pub graph: &'c Graph<NodeEvent<'e, 'a>>,
    pub variables: &'c [Variable<'a>],
    /// The numbers of the groups among these.
    pub groups: &'c [u32],
    pub promises: &'c P,
    /// Which groups may be live at which nodes.
    pub live: &'c L,
}

/// A shortest way to a fault: the nodes of the graph through which it goes, the last one first. There the fault is.
#[derive(Drop)]
pub struct Way {
    pub nodes: Vec<usize>,
    /// The number of the variable that is the fault there.
    pub number: u32,
    /// The group of whose work the way tells: the variable, if it is a group, or the one to which its call is left.
    pub group: Option<u32>,
}

impl<'a, P: Promises, L: Lives> Asked<'_, '_, 'a, P, L> {
    /// A shortest way on which that variable is the fault, if there is one.
    fn way_of(
        &self,
        alloc: Global,
        variable: Variable<'a>,
        fault: PathFault<'a>,
    ) -> Result<Option<Way>, AllocError>
        ensures { IfOk result (λ way. (b : Paths) → IsAsked (λ p. P.promises p) (λ l. L.lives l) self.now b
            → Contains b.variables (variable_view variable.entry)
            → TellsWayOfVariable b (variable_view variable.entry) (fault_view fault.entry)
            (events_graph self.now.graph.now) (option_map way_view way)) }
    {
        let classes = VariableClasses {
            promises: self.promises,
            variable,
            groups: self.groups,
        };
        let steps = search_graph(alloc, self.graph, &classes, class_at_entry(variable))?;
        let end = End {
            variables: self.variables,
            groups: self.groups,
            live: self.live,
            variable,
            fault,
        };
        let Some(last) = first_end(self.graph, &end, &steps) else {
            return Ok(None);
        };
        let step = steps[last];
        let group = group_told(fault.code, variable.number, self.groups, step.class);
        let nodes = nodes_back(alloc, &steps, last)?;
        Ok(Some(Way {
            nodes,
            number: variable.number,
            group,
        }))
    }
}

/// The shorter one; the first of two that are as long.
fn shorter(one: Option<Way>, other: Option<Way>) -> Option<Way>
    ensures { option_map way_view result ≡ shorter (option_map way_view one) (option_map way_view other) }
{
    match (one, other) {
        (Some(one), Some(other)) => {
            if other.nodes.len() < one.nodes.len() {
                Some(other)
            } else {
                Some(one)
            }
        }
        (None, other) => other,
        (one, None) => one,
    }
}

/// A shortest way to the fault, if it is one of the body's paths. Of several variables of its name it is one with the
/// shortest way.
///
/// # Errors
///
/// Memory was refused.
pub fn way_to<'a, P: Promises, L: Lives>(
    alloc: Global,
    asked: &Asked<'_, '_, 'a, P, L>,
    fault: PathFault<'a>,
) -> Result<Option<Way>, AllocError>
    ensures { IfOk result (λ way. (b : Paths) → IsAsked (λ p. P.promises p) (λ l. L.lives l) asked.now b
        → TellsWayOf b (fault_view fault.entry) (events_graph asked.now.graph.now) (option_map way_view way)) }
{
    let mut best = None;
    for variable in asked.variables {
        if variable.name == fault.name {
            let found = asked.way_of(alloc, *variable, fault)?;
            best = shorter(best, found);
        }
    }
    Ok(best)
}
