//! What is kept in a file.

ghost use Rattle.std.specs.Prelude.{◌≡◌, IfOk, OnOk, map};
ghost use Rattle.std.specs.List.{filter, list_any};
ghost use Rattle.kept.specs.KeptViews.{belongs_in, is_declared_in, keep_view, KnowsKept, SeesKeeping};
ghost use Rattle.meaning.specs.Kept.{by_variable, kept_of, kept_there, put_keep};
ghost use Rattle.mentions.specs.MarkViews.{body_view};
ghost use Rattle.tracked.specs.LocalViews.{seen_view, Sees};

use crate::around::is_declared_in;
use crate::gathered::gather;
use crate::row::Keep;
use crate::sides::{Sides, by_object, by_sides};
use lists::Lists;
use mentions::BodyPlace;
use std::alloc::{AllocError, Global};
use tracked::Seen;

/// Which variable, object and field of a file belong together.
#[derive(Drop)]
pub struct Kept<'a> {
    sides: Sides<'a>,
    /// What belongs together, by the numbers of variables.
    rows: Vec<Keep<'a>>,
    /// The same of the object of a number.
    together: Lists<Keep<'a>>,
}

/// Puts a row in among those that stand by the numbers of their variables, each of which stands there once.
fn put_keep<'a>(keep: Keep<'a>, rows: &mut Vec<Keep<'a>>) -> Result<(), AllocError>
    ensures { OnOk result (map keep_view rows.new.items ≡ put_keep (keep_view keep.entry)
        (map keep_view rows.old.items)) }
{
    let mut index = 0;
    while index < rows.len() && rows[index].variable < keep.variable {
        index += 1;
    }
    if index < rows.len() && rows[index].variable == keep.variable {
        return Ok(());
    }
    rows.insert(index, keep)?;
    Ok(())
}

/// Those that belong together, by the numbers of their variables.
fn together<'a>(
    alloc: Global,
    keeps: &[Keep<'a>],
    sides: &Sides<'a>,
) -> Result<Vec<Keep<'a>>, AllocError>
    ensures { IfOk result (λ rows. map keep_view rows.items ≡ by_variable (filter (belongs_in sides.now)
        (map keep_view keeps.now))) }
{
    let mut rows: Vec<Keep<'a>> = Vec::new(alloc);
    let mut index = keeps.len();
    while index > 0 {
        index -= 1;
        let keep = keeps[index];
        if sides.belongs(keep) {
            put_keep(keep, &mut rows)?;
        }
    }
    Ok(rows)
}

/// What belongs together in a file.
///
/// # Errors
///
/// Memory was refused.
pub fn find_kept<'a>(alloc: Global, seen: &Seen<'_, '_, 'a>) -> Result<Kept<'a>, AllocError>
    requires { SeesKeeping seen.now }
    ensures { IfOk result (λ kept. KnowsKept (seen_view seen.now) kept) }
{
    let gathered = gather(alloc, seen)?;
    let sides = by_sides(alloc, &gathered)?;
    let rows = together(alloc, &gathered.keeps, &sides)?;
    let together = by_object(alloc, &rows)?;
    Ok(Kept {
        sides,
        rows,
        together,
    })
}

/// Whether one of the objects of these rows is declared by the innermost of these bodies.
fn some_declared<'a>(rows: &[Keep<'a>], seen: &Seen<'_, '_, 'a>, bodies: &[BodyPlace<'a>]) -> bool
    requires { Sees seen.now }
    ensures { result ≡ list_any (λ k. is_declared_in (seen_view seen.now) (map body_view bodies.now) k.object)
        (map keep_view rows.now) }
{
    for row in rows {
        if is_declared_in(seen, bodies, row.object) {
            return true;
        }
    }
    false
}

impl<'a> Kept<'a> {
    /// Whether what is kept there belongs together.
    pub fn belongs(&self, keep: Keep<'_>) -> bool
        ensures { result ≡ belongs_in self.now.sides (keep_view keep.entry) }
    {
        self.sides.belongs(keep)
    }

    /// What the innermost of these bodies keeps in the object of that number.
    pub fn there(
        &self,
        seen: &Seen<'_, '_, 'a>,
        bodies: &[BodyPlace<'a>],
        object: Option<u32>,
    ) -> &[Keep<'a>]
        requires { Sees seen.now }
        ensures { KnowsKept (seen_view seen.now) self.now → map keep_view result.now ≡ kept_there
            (seen_view seen.now) (map body_view bodies.now) object }
    {
        match object {
            Some(object) => {
                if is_declared_in(seen, bodies, object) {
                    self.together.at(object)
                } else {
                    &[]
                }
            }
            None => &[],
        }
    }

    /// Whether the innermost of these bodies keeps anything.
    pub fn keeps_in(&self, seen: &Seen<'_, '_, 'a>, bodies: &[BodyPlace<'a>]) -> bool
        requires { Sees seen.now }
        ensures { KnowsKept (seen_view seen.now) self.now → result ≡ list_any (λ k. is_declared_in
            (seen_view seen.now) (map body_view bodies.now) k.object) (kept_of (seen_view seen.now)) }
    {
        some_declared(&self.rows, seen, bodies)
    }
}
