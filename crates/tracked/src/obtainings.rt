//! The first binding of each local that obtains it, which tells the type of a cancel variable.

ghost use Rattle.std.specs.Prelude.{◌≡◌, ℕ, None, IfOk, OnOk, map, option_map};
ghost use Rattle.facts.specs.FactViews.{type_view, cancel_result_view};
ghost use Rattle.meaning.specs.Mentions.{mentions};
ghost use Rattle.meaning.specs.Tracked.{type_given};
ghost use Rattle.meaning.specs.Uses.{first_of_some, obtained_by_row, obtained_in_role, type_from, type_obtained};
ghost use Rattle.mentions.specs.MarkViews.{mark_view, mention_view, row_view};
ghost use Rattle.tracked.specs.LocalViews.{seen_view, obtaining_view, obtaining_in, obtaining_at, update_obtaining, NotesObtaining, HasFirsts, SeesLocals};
ghost use Rattle.tracked_rows.specs.RowViews.{giving_view};

use crate::bound::are_cancels;
use crate::noted::variable_of;
use crate::seen::Seen;
use facts::{CancelResult, CancelType};
use indexmap::IndexMap;
use mentions::{Mark, Mention, Role, Row};
use std::alloc::{AllocError, Global};
use tracked_rows::{Giving, are_locals, is_given, row_giving};

/// A binding that obtains a cancel function.
#[derive(Clone, Copy)]
pub struct Obtaining {
    /// The offset of the name that it binds.
    pub at: u32,
    /// The type of the position.
    pub cancel_type: CancelType,
}

/// The first binding of each local, by place, that obtains it.
#[derive(Drop)]
pub struct Obtainings {
    by_number: IndexMap<u32, Obtaining>,
}

/// The type of the result of that number, if it is given.
pub fn type_given(number: usize, gives: &[CancelResult]) -> CancelType
    ensures { type_view result ≡ type_given number (map cancel_result_view gives.now) }
{
    for given in gives {
        if given.position == number {
            return given.cancel_type;
        }
    }
    CancelType::Plain
}

/// The type of the position from which a row obtains what stands on its left side of that number.
pub fn type_from(number: usize, giving: Option<Giving<'_>>) -> CancelType
    ensures { type_view result ≡ type_from number (option_map giving_view giving.entry) }
{
    match giving {
        Some(giving) => type_given(number, giving.gives),
        None => CancelType::Plain,
    }
}

/// What the left side of that number, with its name at the offset, obtains where its row binds.
fn obtained_by_row(
    seen: &Seen<'_, '_, '_>,
    at: u32,
    index: usize,
    row: Row<'_>,
) -> Option<Obtaining>
    requires { SeesLocals seen.now }
    ensures { option_map obtaining_view result ≡ obtained_by_row (seen_view seen.now) at index
        (row_view row.entry) }
{
    let giving = row_giving(seen.known, row)?;
    let gives = giving.gives;
    if is_given(index, gives)
        && are_locals(seen.known, row, gives)
        && are_cancels(seen, row, gives)
    {
        return Some(Obtaining {
            at,
            cancel_type: type_given(index, gives),
        });
    }
    None
}

fn obtained_by(seen: &Seen<'_, '_, '_>, mention: Mention<'_, '_>) -> Option<Obtaining>
    requires { SeesLocals seen.now }
    ensures { option_map obtaining_view result ≡ obtained_in_role (seen_view seen.now)
        (mention_view mention.entry).named.at (mention_view mention.entry).role }
{
    match mention.role {
        Role::Left(index, row) => obtained_by_row(seen, mention.named.at, index, *row),
        _ => None,
    }
}

impl Obtainings {
    /// None.
    pub fn new(alloc: Global) -> Self
        ensures { (n : ℕ) → obtaining_in result n ≡ None }
    {
        Obtainings {
            by_number: IndexMap::new(alloc),
        }
    }

    /// That of the local of that number.
    pub fn obtaining(&self, number: u32) -> Option<Obtaining>
        ensures { option_map obtaining_view result ≡ obtaining_in self.now number }
    {
        match self.by_number.get(&number) {
            Some(obtaining) => Some(*obtaining),
            None => None,
        }
    }

    /// The type that the first one of the local of that number tells.
    pub fn type_obtained(&self, number: u32) -> CancelType
        ensures { type_view result ≡ type_obtained (obtaining_in self.now number) }
    {
        match self.obtaining(number) {
            Some(obtaining) => obtaining.cancel_type,
            None => CancelType::Plain,
        }
    }

    fn put(&mut self, number: u32, obtaining: Obtaining) -> Result<(), AllocError>
        ensures { OnOk result ((n : ℕ) → obtaining_in self.new n ≡ update_obtaining number
            (obtaining_view obtaining) (obtaining_in self.old n) n) }
    {
        self.by_number.insert(number, obtaining)?;
        Ok(())
    }

    /// Keeps it, if it is the first one of the local of that number so far.
    fn add(&mut self, number: u32, obtaining: Obtaining) -> Result<(), AllocError>
        ensures { OnOk result ((n : ℕ) → obtaining_in self.new n ≡ first_of_some (obtaining_in self.old n)
            (obtaining_at number (obtaining_view obtaining) n)) }
    {
        match self.obtaining(number) {
            Some(earlier) if earlier.at <= obtaining.at => Ok(()),
            _ => self.put(number, obtaining),
        }
    }
}

/// Notes what a mention obtains.
fn note_mention(
    seen: &Seen<'_, '_, '_>,
    mention: Mention<'_, '_>,
    obtainings: &mut Obtainings,
) -> Result<(), AllocError>
    requires { SeesLocals seen.now }
    ensures { OnOk result (NotesObtaining (seen_view seen.now) (mentions (mention_view mention.entry))
        obtainings.old obtainings.new) }
{
    match obtained_by(seen, mention) {
        Some(obtaining) => match variable_of(seen.known, mention) {
            Some(number) => obtainings.add(number, obtaining),
            None => Ok(()),
        },
        None => Ok(()),
    }
}

fn note(
    seen: &Seen<'_, '_, '_>,
    mark: Mark<'_, '_>,
    obtainings: &mut Obtainings,
) -> Result<(), AllocError>
    requires { SeesLocals seen.now }
    ensures { OnOk result (NotesObtaining (seen_view seen.now) (mark_view mark.entry)
        obtainings.old obtainings.new) }
{
    match mark {
        Mark::Mentions(mention) => note_mention(seen, mention, obtainings),
        _ => Ok(()),
    }
}

/// The first of each local of a file.
///
/// # Errors
///
/// Memory was refused.
pub fn first_obtainings(alloc: Global, seen: &Seen<'_, '_, '_>) -> Result<Obtainings, AllocError>
    requires { SeesLocals seen.now }
    ensures { IfOk result (λ obtainings. HasFirsts obtainings (seen_view seen.now)) }
{
    let mut obtainings = Obtainings::new(alloc);
    for mark in &seen.marks {
        note(seen, *mark, &mut obtainings)?;
    }
    Ok(obtainings)
}
