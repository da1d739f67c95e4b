//! Whether a certificate has along each edge what the node's event makes of the classes before.

ghost use Rattle.std.specs.Prelude.{◌≡◌, ℕ, List, map};
ghost use Rattle.std.specs.List.{list_all};
ghost use Rattle.bodies.specs.NodeEvents.{node_event_view, events_graph};
ghost use Rattle.bodies.specs.States.{Applies, Fit};
ghost use Rattle.checker.specs.CertificateTests.{starts_among, all_start_among, all_step_into, edges_hold};
ghost use Rattle.checker.specs.LaidOutViews.{HavePlaces, IsLaidOut, IsReturn, masks_of};
ghost use Rattle.checker.specs.NodeStates.{IsChanged, IsImageIf};
ghost use Rattle.events.specs.VariableViews.{variable_view};
ghost use Rattle.meaning.specs.Classes.{Promises as MeantPromises};
ghost use Rattle.meaning.specs.Uses.{Event as MeantEvent};
ghost use Rattle.tracked_rows.specs.EventViews.{event_view};

use crate::laid_out::LaidOut;
use crate::loaded::state_of;
use bodies::{NodeEvent, Promises, State, StateVariables};
use flow::Node;
use tracked_rows::Event;

/// Whether the group has a bit in which the node starts a literal, if it does.
fn starts_among(groups: &[u32], event: NodeEvent<'_, '_>) -> bool
    ensures { result ≡ starts_among groups.now (node_event_view event.entry) }
{
    match event {
        NodeEvent::Does(
            Event::Start {
                group,
                literal: Some(_),
            },
        ) => groups.contains(group),
        _ => true,
    }
}

/// Whether each group has a bit in which a node starts a literal.
pub fn all_start_among(laid_out: &LaidOut<'_, '_, '_>) -> bool
    ensures { result ≡ all_start_among laid_out.now.groups.items (events_graph laid_out.now.kept.now.graph).nodes }
{
    for node in &laid_out.kept.graph.nodes {
        if !starts_among(&laid_out.groups, node.occurrence.event) {
            return false;
        }
    }
    true
}

/// What the event makes of the state.
fn applied<P: Promises>(
    state: State,
    event: &Event<'_>,
    promises: &P,
    variables: &StateVariables<'_>,
) -> State
    requires fits { Fit variables.now }
    ensures { Applies (P.promises promises.now) (event_view event.now) variables.now state.words result.words }
{
    let mut image = state;
    image.apply(promises, event, variables);
    image
}

/// What the node makes of the state. Where it does nothing to variables, that is what a return makes of it.
fn changed<P: Promises>(
    nothing: &Event<'_>,
    state: State,
    event: NodeEvent<'_, '_>,
    promises: &P,
    variables: &StateVariables<'_>,
) -> State
    requires fits { Fit variables.now }
    ensures { IsReturn nothing.now → IsChanged (P.promises promises.now) variables.now (node_event_view event.entry)
        state.words result.words }
{
    match event {
        NodeEvent::Does(event) => applied(state, event, promises, variables),
        NodeEvent::Other | NodeEvent::FallsOff => applied(state, nothing, promises, variables),
    }
}

/// What the node makes of the state of these masks; none where these make no state.
fn image_of<P: Promises>(
    laid_out: &LaidOut<'_, '_, '_>,
    promises: &P,
    masks: &[u16],
    event: NodeEvent<'_, '_>,
) -> Option<State>
    requires places { HavePlaces laid_out.now }
    ensures { IsLaidOut laid_out.now → IsImageIf laid_out.now (P.promises promises.now) (node_event_view event.entry)
        masks.now result }
{
    let variables = StateVariables {
        cancels: &laid_out.numbers.cancels,
        groups: &laid_out.numbers.groups,
        pending: &laid_out.groups,
    };
    match state_of(laid_out.variables, masks) {
        Some(state) => Some(changed(&laid_out.nothing, state, event, promises, &variables)),
        None => None,
    }
}

/// Whether what a node made of its state, if it has one, is within the state of these masks.
fn goes_into(laid_out: &LaidOut<'_, '_, '_>, image: Option<State>, masks: &[u16]) -> bool
    ensures { (p : MeantPromises) (e : MeantEvent) (before : List ℕ) → IsLaidOut laid_out.now
        → IsImageIf laid_out.now p e before image
        → result ≡ all_step_into laid_out.now.groups.items (map variable_view laid_out.now.variables.now) p e before
        masks.now }
{
    let Some(image) = image else {
        return false;
    };
    match state_of(laid_out.variables, masks) {
        Some(state) => image.is_within(&state),
        None => false,
    }
}

/// Whether what the node of that number makes of its state is within the state of each node that can follow.
fn node_holds<'e, 'a, P: Promises>(
    laid_out: &LaidOut<'_, 'e, 'a>,
    promises: &P,
    states: &[Vec<u16>],
    number: usize,
    node: &Node<NodeEvent<'e, 'a>>,
) -> bool
    requires places { HavePlaces laid_out.now }
    ensures { IsLaidOut laid_out.now → result ≡ list_all (λ after. all_step_into laid_out.now.groups.items
        (map variable_view laid_out.now.variables.now) (P.promises promises.now)
        (node_event_view node.now.occurrence.event) (masks_of laid_out.now states.now number)
        (masks_of laid_out.now states.now after)) node.now.next.items }
{
    let before = laid_out.masks_at(states, number);
    let image = image_of(laid_out, promises, before, node.occurrence.event);
    for after in &node.next {
        if !goes_into(laid_out, image, laid_out.masks_at(states, *after)) {
            return false;
        }
    }
    true
}

/// Whether it is so along each edge of the body's graph.
pub fn edges_hold<P: Promises>(
    laid_out: &LaidOut<'_, '_, '_>,
    promises: &P,
    states: &[Vec<u16>],
) -> bool
    requires places { HavePlaces laid_out.now }
    ensures { IsLaidOut laid_out.now → result ≡ edges_hold laid_out.now.groups.items
        (map variable_view laid_out.now.variables.now) (masks_of laid_out.now states.now) (P.promises promises.now)
        (events_graph laid_out.now.kept.now.graph).nodes (events_graph laid_out.now.kept.now.graph).next }
{
    for (number, node) in laid_out.kept.graph.nodes.iter().enumerate() {
        if !node_holds(laid_out, promises, states, number, node) {
            return false;
        }
    }
    true
}
