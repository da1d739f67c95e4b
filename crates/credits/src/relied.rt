//! For which variables a literal is relied on that settles them.

ghost use Rattle.std.specs.Prelude.{◌≡◌, ◌++◌, ◌↔◌, IfOk, IsTrue, OnOk, Some, map, slice_get};
ghost use Rattle.std.specs.List.{filter};
ghost use Rattle.credits.specs.BodyPaths.{TellsPaths};
ghost use Rattle.credits.specs.CreditViews.{is_among};
ghost use Rattle.credits.specs.ReliedOn.{asks_return, is_unbound, unbound_number};
ghost use Rattle.events.specs.VariableViews.{variable_view};
ghost use Rattle.meaning.specs.BodyEvents.{Variable as MeantVariable};
ghost use Rattle.meaning.specs.Uses.{goes_off};
ghost use Rattle.meaning_packages.specs.Credits.{MayComeBack};
ghost use Rattle.meaning_packages.specs.PathFaults.{Paths};
ghost use Rattle.mentions.specs.MarkViews.{use_view};

use bodies::{Arrivals, NodeEvent};
use events::Variable;
use flow::Graph;
use mentions::LiteralUse;
use path_faults::comes_back;
use std::alloc::{AllocError, Global};
use tree::Edition;

/// Under `go`.
fn goes_off(literal: LiteralUse<'_>) -> bool
    ensures { result ≡ goes_off (use_view literal.entry) }
{
    match literal {
        LiteralUse::CallUnderGo => true,
        _ => false,
    }
}

/// Whether some return of a literal that is used so must be reached: of one under `go`, in the second edition.
pub fn asks_return(edition: Edition, literal: LiteralUse<'_>) -> bool
    ensures { result ≡ asks_return edition (goes_off (use_view literal.entry)) }
{
    match edition {
        Edition::First => false,
        Edition::Second => goes_off(literal),
    }
}

/// Whether some return of a literal with variables that is used so is reached, if it must be.
pub fn may_come_back<'a, A: Arrivals>(
    edition: Edition,
    literal: LiteralUse<'_>,
    graph: &Graph<NodeEvent<'_, 'a>>,
    variables: &[Variable<'a>],
    arrivals: &A,
) -> bool
    ensures { (b : Paths) → TellsPaths b graph.now (map variable_view variables.now) (A.cancels arrivals.now)
        (A.groups arrivals.now) → (v : MeantVariable) → slice_get b.variables 0 ≡ Some v
        → IsTrue result ↔ MayComeBack edition (goes_off (use_view literal.entry)) b }
{
    if !asks_return(edition, literal) {
        return true;
    }
    comes_back(graph, variables, arrivals, 0)
}

fn is_among(numbers: &[u32], number: u32) -> bool
    ensures { result ≡ is_among numbers.now number }
{
    numbers.contains(&number)
}

/// Adds the number, if it is none of these.
fn add_unbound(bound: &[u32], number: u32, left: &mut Vec<u32>) -> Result<(), AllocError>
    ensures { OnOk result (left.new.items ≡ left.old.items ++ unbound_number bound.now number) }
{
    if is_among(bound, number) {
        return Ok(());
    }
    left.push(number)?;
    Ok(())
}

/// Those of the numbers that a literal settles which are not among those that it, or a literal in it, may bind.
///
/// # Errors
///
/// Memory was refused.
pub fn unbound(alloc: Global, bound: &[u32], numbers: &[u32]) -> Result<Vec<u32>, AllocError>
    ensures { IfOk result (λ left. left.items ≡ filter (is_unbound bound.now) numbers.now) }
{
    let mut left = Vec::new(alloc);
    for number in numbers {
        add_unbound(bound, *number, &mut left)?;
    }
    Ok(left)
}
