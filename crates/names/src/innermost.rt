//! The innermost declaration of a name that covers an offset.

ghost use Rattle.std.specs.Prelude.{◌≡◌, ◌≤◌, IfOk, length, option_map};
ghost use Rattle.meaning.specs.Declarations.{innermost};
ghost use Rattle.names.specs.Answers.{at_name};
ghost use Rattle.names.specs.Before.{IsNumberBefore};
ghost use Rattle.names.specs.Ordered.{AreLinks, AreRuns, IsByStart, locals_view};
ghost use Rattle.scopes.specs.Views.{local_view};

use crate::order::Run;
use indexmap::IndexMap;
use scopes::LocalName;
use std::alloc::{AllocError, Global};

/// For each local the number of those before it up to the last one whose block ends after its own: no local between
/// them covers an offset at which its block has ended.
///
/// # Errors
///
/// Memory was refused.
pub fn links(alloc: Global, ordered: &[LocalName<'_>]) -> Result<Vec<usize>, AllocError>
    ensures { IfOk result (λ links. AreLinks (locals_view ordered.now) links.items) }
{
    let mut links: Vec<usize> = Vec::new(alloc);
    for (index, local) in ordered.iter().enumerate() {
        let mut end = index;
        while end > 0 && ordered[end - 1].block.end <= local.block.end {
            end = links[end - 1];
        }
        links.push(end)?;
    }
    Ok(links)
}

/// The number of locals before those of the run whose block begins after the offset.
fn number_before(ordered: &[LocalName<'_>], run: Run, at: u32) -> usize
    requires within { run.end ≤ length ordered.now }
    requires ordered { IsByStart (locals_view ordered.now) run }
    requires in_order { run.start ≤ run.end }
    ensures { IsNumberBefore (locals_view ordered.now) run at result }
{
    let mut low = run.start;
    let mut high = run.end;
    while low < high {
        let middle = low + (high - low) / 2;
        if ordered[middle].block.start <= at {
            low = middle + 1;
        } else {
            high = middle;
        }
    }
    low
}

/// The innermost local of the name whose scope covers the offset.
pub fn innermost<'b, 'a>(
    ordered: &'b [LocalName<'a>],
    links: &[usize],
    runs: &IndexMap<&'a str, Run>,
    name: &str,
    at: u32,
) -> Option<&'b LocalName<'a>>
    requires links { AreLinks (locals_view ordered.now) links.now }
    requires runs { AreRuns (locals_view ordered.now) (at_name runs.now) }
    ensures { option_map (λ l. local_view l.now) result ≡ innermost name.now at (locals_view ordered.now) }
{
    let Some(run) = runs.get(name) else {
        return None;
    };
    let mut end = number_before(ordered, *run, at);
    while end > run.start {
        let local = &ordered[end - 1];
        if local.block.end <= at {
            end = links[end - 1];
        } else if local.from <= at {
            return Some(local);
        } else {
            end -= 1;
        }
    }
    None
}
