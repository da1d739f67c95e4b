//! The faults of a body with what is told of them.

ghost use Rattle.std.specs.Prelude.{◌≡◌, ◌↔◌, ℕ, Contains, IfOk, OnOk, Some, map};
ghost use Rattle.bodies.specs.Bodies.{TellsBody};
ghost use Rattle.body_ways.specs.BodyWays.{AreToldWays};
ghost use Rattle.body_ways.specs.ToldViews.{told_fault_view, AddsTold};
ghost use Rattle.credits.specs.CreditViews.{has};
ghost use Rattle.meaning.specs.Mentions.{BodyPlace};
ghost use Rattle.meaning.specs.Uses.{Seen};
ghost use Rattle.meaning_packages.specs.Credits.{promises_in};
ghost use Rattle.meaning_packages.specs.PathFaults.{Paths, PathFault as MeantFault, paths_of, IsPathFault};
ghost use Rattle.path_faults.specs.FaultViews.{fault_view};
ghost use Rattle.reasons.specs.Branches.{branches_of};
ghost use Rattle.reasons.specs.WordViews.{branch_view};
ghost use Rattle.ways.specs.Asked.{IsAsked};

use crate::groups::groups_of;
use bodies::{Body, BodyGraph, Promises};
use credits::{Calls, Credits, Reliance, search_body};
use path_faults::{Lives, PathFault, live_groups, path_faults};
use reasons::{Branch, branches_of};
use std::alloc::{AllocError, Global};
use way_notes::{Note, Told, notes_of, offsets_of};
use ways::{Asked, way_to};

/// A fault of a body's paths, with the notes of a shortest way to it, and the byte offsets of the statements through
/// which that goes, in the order of the text, each once.
#[derive(Drop)]
pub struct ToldFault<'a> {
    pub fault: PathFault<'a>,
    pub notes: Vec<Note>,
    pub offsets: Vec<u32>,
}

/// Adds the fault with the notes of a shortest way to it.
fn add_told<'a, P: Promises, L: Lives>(
    alloc: Global,
    asked: &Asked<'_, '_, 'a, P, L>,
    branches: &[Branch],
    fault: PathFault<'a>,
    told: &mut Vec<ToldFault<'a>>,
) -> Result<(), AllocError>
    ensures { OnOk result ((b : Paths) → IsAsked (λ p. P.promises p) (λ l. L.lives l) asked.now b
        → IsPathFault b (fault_view fault.entry)
        → AddsTold b (map branch_view branches.now) (fault_view fault.entry) (map told_fault_view told.old.items)
        (map told_fault_view told.new.items)) }
{
    let Some(way) = way_to(alloc, asked, fault)? else {
        return Ok(());
    };
    let of = Told {
        number: way.number,
        group: way.group,
    };
    let notes = notes_of(alloc, asked.graph, branches, of, &way.nodes)?;
    let offsets = offsets_of(alloc, asked.graph, &way.nodes)?;
    told.push(ToldFault {
        fault,
        notes,
        offsets,
    })?;
    Ok(())
}

/// The faults, each with the notes of a shortest way to it.
fn told_each<'a, P: Promises, L: Lives>(
    alloc: Global,
    asked: &Asked<'_, '_, 'a, P, L>,
    branches: &[Branch],
    faults: &[PathFault<'a>],
) -> Result<Vec<ToldFault<'a>>, AllocError>
    ensures { IfOk result (λ told. (b : Paths) → IsAsked (λ p. P.promises p) (λ l. L.lives l) asked.now b
        → ((f : MeantFault) → Contains (map fault_view faults.now) f ↔ IsPathFault b f)
        → AreToldWays b (map branch_view branches.now) (map told_fault_view told.items)) }
{
    let mut told: Vec<ToldFault<'a>> = Vec::new(alloc);
    for fault in faults {
        add_told(alloc, asked, branches, *fault, &mut told)?;
    }
    Ok(told)
}

/// The faults of a body's paths, each with the notes of a shortest way to it, where the body relies on what is known of
/// functions, and on the credits of the literals that begin after it; one may come twice.
///
/// # Errors
///
/// Memory was refused.
pub fn told_faults<'a, C: Calls>(
    alloc: Global,
    body: &Body<'_, 'a>,
    kept: &BodyGraph<'_, 'a>,
    calls: &C,
    credits: &Credits,
) -> Result<Vec<ToldFault<'a>>, AllocError>
    ensures { IfOk result (λ told. (file : ℕ) (seen : Seen) (b : BodyPlace) → TellsBody file seen b body.now
        → body.now.graph ≡ Some kept.now
        → AreToldWays (paths_of seen (promises_in (C.are_called calls.now) (has credits.now) b.at) b)
        (branches_of b.statements) (map told_fault_view told.items)) }
{
    let solution = search_body(alloc, body, kept, calls, credits)?;
    let faults = path_faults(alloc, &kept.graph, &body.variables, &solution)?;
    let live = live_groups(alloc, &kept.graph, &body.variables, &solution)?;
    let groups = groups_of(alloc, &body.variables)?;
    let branches = branches_of(alloc, body.place.statements)?;
    let reliance = Reliance {
        calls: &*calls,
        credits: &*credits,
        at: body.place.at,
    };
    let asked = Asked {
        graph: &kept.graph,
        variables: &body.variables,
        groups: &groups,
        promises: &reliance,
        live: &live,
    };
    told_each(alloc, &asked, &branches, &faults)
}
