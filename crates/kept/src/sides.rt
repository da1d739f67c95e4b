//! What belongs together.

ghost use Rattle.std.specs.Prelude.{◌≡◌, ◌==◌, ℕ, IfOk, map};
ghost use Rattle.std.specs.List.{filter, list_all, list_any};
ghost use Rattle.kept.specs.KeptViews.{keep_view, write_view, keeps_at, writes_at, is_spoiled_by, belongs_in, HasSides};
ghost use Rattle.meaning.specs.Kept.{agrees, is_same_place};

use crate::gathered::{Gathered, Write};
use crate::row::{Keep, agrees, is_same_place};
use lists::Lists;
use std::alloc::{AllocError, Global};

/// What the marks of a file keep and write, by the numbers of variables and objects.
#[derive(Drop)]
pub struct Sides<'a> {
    by_variable: Lists<Keep<'a>>,
    by_object: Lists<Keep<'a>>,
    writes: Lists<Write<'a>>,
}

fn all_agree(keeps: &[Keep<'_>], keep: Keep<'_>) -> bool
    ensures { result ≡ list_all (agrees (keep_view keep.entry)) (map keep_view keeps.now) }
{
    for other in keeps {
        if !agrees(keep, *other) {
            return false;
        }
    }
    true
}

/// Whether the write keeps something in that place.
fn keeps_it(write: Write<'_>, keep: Keep<'_>) -> bool
    ensures { result ≡ list_any (is_same_place (keep_view keep.entry)) (write_view write.entry).keeps }
{
    match write.keep {
        Some(other) => is_same_place(keep, other),
        None => false,
    }
}

/// Whether the write puts something else there.
fn is_spoiled_by(write: Write<'_>, keep: Keep<'_>) -> bool
    ensures { result ≡ is_spoiled_by (keep_view keep.entry) (write_view write.entry) }
{
    write.object == keep.object && write.field == keep.field && !keeps_it(write, keep)
}

fn is_spoiled(writes: &[Write<'_>], keep: Keep<'_>) -> bool
    ensures { result ≡ list_any (is_spoiled_by (keep_view keep.entry)) (map write_view writes.now) }
{
    for write in writes {
        if is_spoiled_by(*write, keep) {
            return true;
        }
    }
    false
}

impl<'a> Sides<'a> {
    /// Whether what is kept there belongs together: no other variable is kept there, the variable nowhere else, and
    /// nothing else is put there.
    pub fn belongs(&self, keep: Keep<'_>) -> bool
        ensures { result ≡ belongs_in self.now (keep_view keep.entry) }
    {
        all_agree(self.by_variable.at(keep.variable), keep)
            && all_agree(self.by_object.at(keep.object), keep)
            && !is_spoiled(self.writes.at(keep.object), keep)
    }
}

/// What is kept, by the numbers of variables.
fn by_variable<'a>(alloc: Global, keeps: &[Keep<'a>]) -> Result<Lists<Keep<'a>>, AllocError>
    ensures { IfOk result (λ lists. (n : ℕ) → keeps_at lists n ≡ filter (λ k. k.variable == n)
        (map keep_view keeps.now)) }
{
    let mut lists = Lists::new(alloc);
    for keep in keeps {
        lists.add(alloc, keep.variable, *keep)?;
    }
    Ok(lists)
}

/// What is kept, by the numbers of objects.
///
/// # Errors
///
/// Memory was refused.
pub fn by_object<'a>(alloc: Global, keeps: &[Keep<'a>]) -> Result<Lists<Keep<'a>>, AllocError>
    ensures { IfOk result (λ lists. (n : ℕ) → keeps_at lists n ≡ filter (λ k. k.object == n)
        (map keep_view keeps.now)) }
{
    let mut lists = Lists::new(alloc);
    for keep in keeps {
        lists.add(alloc, keep.object, *keep)?;
    }
    Ok(lists)
}

fn by_written<'a>(alloc: Global, writes: &[Write<'a>]) -> Result<Lists<Write<'a>>, AllocError>
    ensures { IfOk result (λ lists. (n : ℕ) → writes_at lists n ≡ filter (λ w. w.object == n)
        (map write_view writes.now)) }
{
    let mut lists = Lists::new(alloc);
    for write in writes {
        lists.add(alloc, write.object, *write)?;
    }
    Ok(lists)
}

/// What was gathered, by the numbers of variables and objects.
///
/// # Errors
///
/// Memory was refused.
pub fn by_sides<'a>(alloc: Global, gathered: &Gathered<'a>) -> Result<Sides<'a>, AllocError>
    ensures { IfOk result (λ sides. HasSides (map keep_view gathered.now.keeps.items)
        (map write_view gathered.now.writes.items) sides) }
{
    let variables = by_variable(alloc, &gathered.keeps)?;
    let objects = by_object(alloc, &gathered.keeps)?;
    let writes = by_written(alloc, &gathered.writes)?;
    Ok(Sides {
        by_variable: variables,
        by_object: objects,
        writes,
    })
}
