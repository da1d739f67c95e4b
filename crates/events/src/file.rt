//! What is told of a whole file.

ghost use Rattle.std.specs.Prelude.{◌≡◌, IfOk, OnOk, map};
ghost use Rattle.events.specs.ToldViews.{TellsFile};
ghost use Rattle.kept_events.specs.KeptEventViews.{MayKeep};
ghost use Rattle.meaning.specs.BodyEvents.{by_place};
ghost use Rattle.mentions.specs.MarkViews.{body_view};
ghost use Rattle.events.specs.VariableViews.{SeesBodies};
ghost use Rattle.tracked.specs.LocalViews.{seen_view};

use crate::by_variables::SeenBodies;
use crate::found::Variables;
use crate::told::{Told, add_mark};
use kept::Kept;
use kept_events::find_file_kept;
use mentions::BodyPlace;
use std::alloc::{AllocError, Global};
use tracked::{Seen, enter};

/// Puts bodies in the order of their places; those at one place stay in the order that they have.
fn order_by_place(bodies: &mut Vec<BodyPlace<'_>>) -> Result<(), AllocError>
    ensures { OnOk result (map body_view bodies.new.items ≡ by_place (map body_view bodies.old.items)) }
{
    bodies.sort_by_key(|body| body.at)
}

/// Tells of each mark, where it is known what is kept.
fn tell_marks<'s, 'k, 'm, 'a>(
    alloc: Global,
    seen: &'s Seen<'k, 'm, 'a>,
    variables: &'s Variables<'a>,
    kept: &'s Option<Kept<'a>>,
) -> Result<Told<'a>, AllocError>
    requires bodies { SeesBodies seen.now variables.now }
    requires keeps { MayKeep seen.now kept.now }
    ensures { IfOk result (λ told. TellsFile (seen_view seen.now) told) }
{
    let file = SeenBodies {
        seen,
        variables,
        kept,
    };
    let mut told = Told::new(alloc, seen.known.edition);
    let mut bodies: Vec<BodyPlace<'a>> = Vec::new(alloc);
    for mark in &seen.marks {
        enter(&mut bodies, *mark)?;
        add_mark(alloc, file, &bodies, mark, &mut told)?;
    }
    order_by_place(&mut told.opened)?;
    Ok(told)
}

/// Tells of all bodies of a file that was looked at, by their variables: the use faults of each and of what stands in
/// none, the events at their sites, the fields that keep, and the bodies in the order of their places.
///
/// # Errors
///
/// Memory was refused.
pub fn tell<'s, 'm, 'a>(
    alloc: Global,
    seen: &'s Seen<'_, 'm, 'a>,
    variables: &'s Variables<'a>,
) -> Result<Told<'a>, AllocError>
    requires { SeesBodies seen.now variables.now }
    ensures { IfOk result (λ told. TellsFile (seen_view seen.now) told) }
{
    let kept = find_file_kept(alloc, seen)?;
    tell_marks(alloc, &*seen, &*variables, &kept)
}
