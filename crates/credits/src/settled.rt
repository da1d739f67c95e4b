//! The variables that a body captures and settles, by the classes that arrive at its returns.

ghost use Rattle.std.specs.Prelude.{◌≡◌, ◌↔◌, ℕ, true, Some, IfOk, map};
ghost use Rattle.credits.specs.BodyPaths.{TellsPaths};
ghost use Rattle.credits.specs.CreditViews.{is_among};
ghost use Rattle.credits.specs.SettledVariables.{is_captured, captures_any, SettlesAt, SettlesCaptured};
ghost use Rattle.meaning_packages.specs.PathFaults.{Paths};
ghost use Rattle.events.specs.VariableViews.{variable_view};

use bodies::{Arrivals, NodeEvent};
use events::{Variable, VariableRole};
use flow::Graph;
use path_faults::settles;
use std::alloc::{AllocError, Global};

/// Whether the variable is captured.
pub fn is_captured(variable: Variable<'_>) -> bool
    ensures { result ≡ is_captured (variable_view variable.entry).role }
{
    match variable.role {
        VariableRole::Captured => true,
        VariableRole::OwnParameter(_) | VariableRole::OwnReceiver | VariableRole::DeclaredInBody =>
            false,
    }
}

/// Whether one of these variables is captured.
pub fn captures_any(variables: &[Variable<'_>]) -> bool
    ensures { result ≡ captures_any (map variable_view variables.now) }
{
    for variable in variables {
        if is_captured(*variable) {
            return true;
        }
    }
    false
}

/// The number of the variable at that place in the list, if the body captures and settles it.
fn settled_number<'a, A: Arrivals>(
    graph: &Graph<NodeEvent<'_, 'a>>,
    variables: &[Variable<'a>],
    arrivals: &A,
    place: usize,
) -> Option<u32>
    ensures { (b : Paths) → TellsPaths b graph.now (map variable_view variables.now) (A.cancels arrivals.now)
        (A.groups arrivals.now) → (number : ℕ) → (result ≡ Some number) ↔ SettlesAt b place number }
{
    match variables.get(place) {
        Some(variable) => {
            if is_captured(*variable) && settles(graph, variables, arrivals, place) {
                Some(variable.number)
            } else {
                None
            }
        }
        None => None,
    }
}

/// The numbers of the variables that the body of a graph captures and settles; one may stand twice.
///
/// # Errors
///
/// Memory was refused.
pub fn settled_captured<'a, A: Arrivals>(
    alloc: Global,
    graph: &Graph<NodeEvent<'_, 'a>>,
    variables: &[Variable<'a>],
    arrivals: &A,
) -> Result<Vec<u32>, AllocError>
    ensures { IfOk result (λ numbers. (b : Paths) → TellsPaths b graph.now (map variable_view variables.now)
        (A.cancels arrivals.now) (A.groups arrivals.now) → (number : ℕ)
        → (is_among numbers.items number ≡ true) ↔ SettlesCaptured b number) }
{
    let mut numbers = Vec::new(alloc);
    for place in 0..variables.len() {
        if let Some(number) = settled_number(graph, variables, arrivals, place) {
            numbers.push(number)?;
        }
    }
    Ok(numbers)
}
