//! The bodies of the files of a package, before anything is known of their literals.

ghost use Rattle.std.specs.Prelude.{List, IfOk};
ghost use Rattle.calls_flags.specs.ToldFiles.{TellsSeen, TellAllSeen};
ghost use Rattle.meaning.specs.Uses.{Seen};
ghost use Rattle.verifier.specs.BareFiles.{IsBare, AreBare};

use calls_flags::{FileBodies, ToldFile, told_bodies};
use credits::Credits;
use std::alloc::{AllocError, Global};

/// The bodies of the file of that number, without credits.
fn bare_file<'e, 'a>(
    alloc: Global,
    number: usize,
    file: &'e ToldFile<'a>,
) -> Result<FileBodies<'e, 'a>, AllocError>
    ensures { IfOk result (λ made. (seen : Seen) → TellsSeen seen file.now → IsBare number seen made) }
{
    let bodies = told_bodies(alloc, number, file)?;
    Ok(FileBodies {
        told: &file.told,
        bodies,
        credits: Credits::new(alloc),
    })
}

/// The bodies of each file of a package, without credits.
///
/// # Errors
///
/// Memory was refused.
pub fn bare_files<'e, 'a>(
    alloc: Global,
    files: &'e [ToldFile<'a>],
) -> Result<Vec<FileBodies<'e, 'a>>, AllocError>
    ensures { IfOk result (λ made. (seens : List Seen) → TellAllSeen seens files.now → AreBare seens made.items) }
{
    let mut made = Vec::new(alloc);
    for (number, file) in files.iter().enumerate() {
        made.push(bare_file(alloc, number, file)?)?;
    }
    Ok(made)
}
