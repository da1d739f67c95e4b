//! The parts of a body, and the `goto`s among them.

ghost use Rattle.std.specs.Prelude.{◌≡◌, [], ◌∷◌, ◌++◌, IfOk, OnOk, map};
ghost use Rattle.body_parts.specs.PartViews.{part_view};
ghost use Rattle.meaning.specs.Jumps.{parts_of, jumps_among, jumps_in};
ghost use Rattle.tree.specs.View.{statements_syntax};

use crate::part::{Part, Wanted};
use crate::walk::add_statements;
use std::alloc::{AllocError, Global};
use tree::Stmt;

/// The parts of these statements, in the order of the text.
///
/// # Errors
///
/// Memory was refused.
pub fn parts_of<'a>(alloc: Global, list: &'a [Stmt]) -> Result<Vec<Part<'a>>, AllocError>
    ensures { IfOk result (λ parts. map part_view parts.items ≡ parts_of (statements_syntax list.now)) }
{
    let mut parts = Vec::new(alloc);
    add_statements(Wanted::All, list, &mut parts)?;
    Ok(parts)
}

/// The byte offsets of the `goto`s among these statements and those in them, in the order of the text, but for those of
/// literals. Where there is none, nothing is allocated.
///
/// # Errors
///
/// Memory was refused.
pub fn jumps_in(alloc: Global, list: &[Stmt]) -> Result<Vec<u32>, AllocError>
    ensures { IfOk result (λ jumps. jumps.items ≡ jumps_in (statements_syntax list.now)) }
{
    let mut parts = Vec::new(alloc);
    add_statements(Wanted::Jumps, list, &mut parts)?;
    jumps_among(alloc, &parts)
}

/// Adds the offset of the `goto` that the part is, if it is one.
fn add_jump(part: Part<'_>, jumps: &mut Vec<u32>) -> Result<(), AllocError>
    ensures { OnOk result (jumps.new.items ≡ jumps.old.items ++ jumps_among (part_view part.entry ∷ [])) }
{
    match part {
        Part::Declaration(_) => Ok(()),
        Part::Return(_) => Ok(()),
        Part::Goto(at) => {
            jumps.push(at)?;
            Ok(())
        }
        Part::Plain(_) => Ok(()),
    }
}

/// The offsets of the `goto`s among these parts.
fn jumps_among(alloc: Global, parts: &[Part<'_>]) -> Result<Vec<u32>, AllocError>
    ensures { IfOk result (λ jumps. jumps.items ≡ jumps_among (map part_view parts.now)) }
{
    let mut jumps = Vec::new(alloc);
    for part in parts {
        add_jump(*part, &mut jumps)?;
    }
    Ok(jumps)
}
