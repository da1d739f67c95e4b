//! The sizes of the turns of loops: how many occurrences each has. They are counted before the graph is made, so that
//! what comes first in a turn is known without going over it. The definitions are those of `specs/TurnSizes.antt`.

ghost use Rattle.std.specs.Prelude.{◌≡◌, IfOk, map};
ghost use Rattle.code.specs.CodeViews.{code_view};
ghost use Rattle.flow.specs.GraphViews.{rest_of};
ghost use Rattle.flow.specs.TurnSizes.{first_of, begins, last_begins, Counts, CountsAll};
ghost use Rattle.meaning.specs.Code.{repeats};

use code::Code;
use std::alloc::AllocError;

/// The sizes that were counted and are not used yet, those of the next turn first.
#[derive(Drop)]
pub struct TurnSizes<'s> {
    pub left: &'s [usize],
}

impl TurnSizes<'_> {
    /// Takes the size of the next turn; 0 where there is none.
    pub fn take(&mut self) -> usize
        ensures size { result ≡ first_of self.old.left.now }
        ensures left { self.new.left.now ≡ rest_of self.old.left.now }
    {
        match self.left.split_first() {
            Some((size, others)) => {
                self.left = others;
                *size
            }
            None => 0,
        }
    }
}

/// Whether the first part of the code is an event, so that nothing else can come first.
#[cycle(begins)]
pub fn begins_with_event<E: Copy>(code: &Code<'_, E>) -> bool
    ensures { result ≡ begins (code_view code.now) }
{
    match code {
        Code::Skip => false,
        Code::Does(_) => true,
        Code::Alone(_) => true,
        Code::Leave(_) => false,
        Code::Then(first, _) => begins_with_event(first),
        Code::Sequence(codes) => last_begins(codes),
        Code::Choice(codes) => codes.len() == 1 && last_begins(codes),
        Code::Repeats(turn) => begins_with_event(turn),
        Code::UpTo(_, inner) => begins_with_event(inner),
        Code::UpToFalls(_, inner) => begins_with_event(inner),
    }
}

/// Whether the last of these codes begins so.
#[cycle(begins)]
fn last_begins<E: Copy>(codes: &[Code<'_, E>]) -> bool
    ensures { result ≡ last_begins (map code_view codes.now) }
{
    match codes.last() {
        Some(code) => begins_with_event(code),
        None => false,
    }
}

/// How many occurrences a code has, as far as a number can tell. Adds the sizes of its turns that begin with an event,
/// from the end of the code on, that of a turn before those of the turns in it.
///
/// # Errors
///
/// Memory was refused.
#[cycle(count)]
pub fn count<E: Copy>(code: &Code<'_, E>, sizes: &mut Vec<usize>) -> Result<usize, AllocError>
    ensures { IfOk result (λ size. Counts (code_view code.now) sizes.old.items sizes.new.items size) }
{
    match code {
        Code::Skip => Ok(0),
        Code::Does(_) => Ok(1),
        Code::Alone(_) => Ok(1),
        Code::Leave(_) => Ok(0),
        Code::Then(first, second) => {
            let behind = count(second, sizes)?;
            let own = count(first, sizes)?;
            Ok(own.saturating_add(behind))
        }
        Code::Sequence(codes) => count_all(codes, sizes),
        Code::Choice(codes) => count_all(codes, sizes),
        Code::Repeats(turn) => count_turn(turn, sizes),
        Code::UpTo(_, inner) => count(inner, sizes),
        Code::UpToFalls(_, inner) => count(inner, sizes),
    }
}

/// The same of all of these codes.
#[cycle(count)]
fn count_all<E: Copy>(codes: &[Code<'_, E>], sizes: &mut Vec<usize>) -> Result<usize, AllocError>
    ensures { IfOk result (λ size. CountsAll (map code_view codes.now) sizes.old.items sizes.new.items size) }
{
    let mut sum: usize = 0;
    for code in codes {
        let own = count(code, sizes)?;
        sum = sum.saturating_add(own);
    }
    Ok(sum)
}

/// The same of a loop with this turn.
#[cycle(count)]
fn count_turn<E: Copy>(turn: &Code<'_, E>, sizes: &mut Vec<usize>) -> Result<usize, AllocError>
    ensures { IfOk result (λ size. Counts (repeats (code_view turn.now)) sizes.old.items sizes.new.items size) }
{
    if !begins_with_event(turn) {
        return count(turn, sizes);
    }
    let place = sizes.len();
    sizes.push(0)?;
    let size = count(turn, sizes)?;
    sizes[place] = size;
    Ok(size)
}
