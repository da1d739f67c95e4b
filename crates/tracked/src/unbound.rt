//! The locals that are bound in their declarations alone: what may be an object.

ghost use Rattle.std.specs.Prelude.{◌≡◌, ℕ, ◌||◌, None, [], IfOk, OnOk, is_some, option_map};
ghost use Rattle.meaning.specs.Mentions.{mentions};
ghost use Rattle.meaning.specs.Objects.{is_binding, binds_again, is_bound_again};
ghost use Rattle.meaning.specs.Tracked.{placed};
ghost use Rattle.mentions.specs.MarkViews.{role_view, mention_view, mark_view, marks_view};
ghost use Rattle.tracked.specs.LocalViews.{local_view, bound_in, bound_by, update_bound, unbound_in, HasObjects};
ghost use Rattle.tracked_rows.specs.RowViews.{known_view};

use crate::declared::declared_by;
use crate::local::Local;
use crate::noted::variable_of;
use crate::seen::all_locals;
use crate::table::Locals;
use indexmap::IndexMap;
use mentions::{Mark, Mention, Role};
use std::alloc::{AllocError, Global};
use tracked_rows::Known;

/// The locals that are bound elsewhere than in their declarations.
#[derive(Drop)]
pub struct BoundAgain {
    by_number: IndexMap<u32, bool>,
}

/// The locals of a file that have names of their own, and those of them that are bound again.
#[derive(Drop)]
pub struct Objects<'a> {
    locals: Locals<'a>,
    bound: BoundAgain,
}

/// Whether a name in that role may get another value, or its address may be handed out.
fn is_binding(role: Role<'_, '_>) -> bool
    ensures { result ≡ is_binding (role_view role.entry) }
{
    match role {
        Role::Left(_, _) => true,
        Role::Exposed => true,
        _ => false,
    }
}

/// The local that a mention binds again.
fn bound_by(known: Known<'_, '_>, mention: Mention<'_, '_>) -> Option<u32>
    ensures { result ≡ bound_by (known_view known.entry) (mention_view mention.entry) }
{
    if is_binding(mention.role) && declared_by(known, mention).is_none() {
        variable_of(known, mention)
    } else {
        None
    }
}

impl BoundAgain {
    /// None.
    fn new(alloc: Global) -> Self
        ensures { (n : ℕ) → bound_in result n ≡ None }
    {
        BoundAgain {
            by_number: IndexMap::new(alloc),
        }
    }

    /// Whether the local of that number is one.
    fn has(&self, number: u32) -> bool
        ensures { result ≡ is_some (bound_in self.now number) }
    {
        self.by_number.get(&number).is_some()
    }

    fn put(&mut self, number: u32) -> Result<(), AllocError>
        ensures { OnOk result ((n : ℕ) → bound_in self.new n ≡ update_bound number (bound_in self.old n) n) }
    {
        self.by_number.insert(number, true)?;
        Ok(())
    }
}

/// Notes what a mention binds again.
fn note_mention(
    known: Known<'_, '_>,
    mention: Mention<'_, '_>,
    bound: &mut BoundAgain,
) -> Result<(), AllocError>
    ensures { OnOk result ((n : ℕ) → is_some (bound_in bound.new n) ≡ (is_some (bound_in bound.old n)
        || binds_again (known_view known.entry) n (mentions (mention_view mention.entry)))) }
{
    match bound_by(known, mention) {
        Some(number) => bound.put(number),
        None => Ok(()),
    }
}

fn note(known: Known<'_, '_>, mark: Mark<'_, '_>, bound: &mut BoundAgain) -> Result<(), AllocError>
    ensures { OnOk result ((n : ℕ) → is_some (bound_in bound.new n) ≡ (is_some (bound_in bound.old n)
        || binds_again (known_view known.entry) n (mark_view mark.entry))) }
{
    match mark {
        Mark::Mentions(mention) => note_mention(known, mention, bound),
        _ => Ok(()),
    }
}

/// Those that these marks bind again, in literals too.
fn bound_again(
    alloc: Global,
    known: Known<'_, '_>,
    marks: &[Mark<'_, '_>],
) -> Result<BoundAgain, AllocError>
    ensures { IfOk result (λ bound. (n : ℕ) → is_some (bound_in bound n) ≡ is_bound_again (known_view known.entry)
        (placed [] (marks_view marks.now)) n) }
{
    let mut bound = BoundAgain::new(alloc);
    for mark in marks {
        note(known, *mark, &mut bound)?;
    }
    Ok(bound)
}

impl<'a> Objects<'a> {
    /// The local of that number, if it is bound in its declaration alone.
    pub fn unbound(&self, number: u32) -> Option<Local<'a>>
        ensures { option_map local_view result ≡ unbound_in self.now number }
    {
        if self.bound.has(number) {
            return None;
        }
        match self.locals.entries.entry(number) {
            Some(entry) => Some(entry.local),
            None => None,
        }
    }
}

/// The locals of these marks, and which of them are bound again.
///
/// # Errors
///
/// Memory was refused.
pub fn objects_in<'a>(
    alloc: Global,
    known: Known<'_, 'a>,
    marks: &[Mark<'_, 'a>],
) -> Result<Objects<'a>, AllocError>
    ensures { IfOk result (λ objects. HasObjects objects (known_view known.entry) (placed [] (marks_view marks.now))) }
{
    let locals = all_locals(alloc, known, marks)?;
    let bound = bound_again(alloc, known, marks)?;
    Ok(Objects { locals, bound })
}
