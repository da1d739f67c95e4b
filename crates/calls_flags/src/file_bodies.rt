//! The bodies of each file of a package.

ghost use Rattle.std.specs.Prelude.{List, IfOk};
ghost use Rattle.bodies.specs.Bodies.{TellBodies};
ghost use Rattle.calls_flags.specs.FilesBodies.{HasBodies, HaveBodies};
ghost use Rattle.calls_flags.specs.ToldFiles.{TellsSeen, TellAllSeen};
ghost use Rattle.meaning.specs.Uses.{Seen};

use crate::told_file::ToldFile;
use bodies::{Body, bodies};
use credits::{Credits, find_credits};
use events::Told;
use std::alloc::{AllocError, Global};

/// A file with its bodies, and what may be relied on of its literals.
#[derive(Drop)]
pub struct FileBodies<'e, 'a> {
    pub told: &'e Told<'a>,
    /// In the order of their places.
    pub bodies: Vec<Body<'e, 'a>>,
    pub credits: Credits,
}

/// The bodies of the file of that number that was told of: none, where its variables were not sought.
///
/// # Errors
///
/// Memory was refused.
pub fn told_bodies<'e, 'a>(
    alloc: Global,
    number: usize,
    file: &'e ToldFile<'a>,
) -> Result<Vec<Body<'e, 'a>>, AllocError>
    ensures { IfOk result (λ bodies. (seen : Seen) → TellsSeen seen file.now
        → TellBodies number seen bodies.items) }
{
    match &file.variables {
        Some(variables) => bodies(alloc, number, &file.told, variables),
        None => Ok(Vec::new(alloc)),
    }
}

/// The file of that number with its bodies and credits.
///
/// # Errors
///
/// Memory was refused.
pub fn bodies_of_file<'e, 'a>(
    alloc: Global,
    number: usize,
    file: &'e ToldFile<'a>,
) -> Result<FileBodies<'e, 'a>, AllocError>
    ensures { IfOk result (λ made. (seen : Seen) → TellsSeen seen file.now → HasBodies number seen made) }
{
    let bodies = told_bodies(alloc, number, file)?;
    let credits = find_credits(alloc, &bodies)?;
    Ok(FileBodies {
        told: &file.told,
        bodies,
        credits,
    })
}

/// The bodies of each file of a package: each is made once, for all that asks for its paths.
///
/// # Errors
///
/// Memory was refused.
pub fn bodies_of_files<'e, 'a>(
    alloc: Global,
    files: &'e [ToldFile<'a>],
) -> Result<Vec<FileBodies<'e, 'a>>, AllocError>
    ensures { IfOk result (λ made. (seens : List Seen) → TellAllSeen seens files.now
        → HaveBodies seens made.items) }
{
    let mut made = Vec::new(alloc);
    for (number, file) in files.iter().enumerate() {
        made.push(bodies_of_file(alloc, number, file)?)?;
    }
    Ok(made)
}
