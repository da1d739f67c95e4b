//! Several threads that work on pieces.

ghost use Rattle.std.specs.Prelude.{◌≡◌, ℕ, ◌+◌, ◌<◌, ◌^◌, ◌++◌, IfErr, IfOk, IsOkAnd, length};
ghost use Rattle.workers.specs.Pieces.{ComeOf};
ghost use Rattle.workers.specs.Faults.{IsFaultOf};
ghost use Rattle.workers.specs.Counts.{count_of};

use crate::count::Workers;
use crate::gates::BodyGate;
use crate::part::{Part, work_on};
use crate::piece::Piece;
use std::alloc::{AllocError, Global};
use std::sync::Wait;
use std::thread;
use std::thread::{Scope, Threads};

/// Why several threads have no answer.
#[derive(Clone, Copy, PartialEq, Eq, Debug)]
pub enum PieceFault {
    /// Memory was refused.
    Memory,
    /// A thread could not be started, and memory was not refused.
    Thread,
}

impl From<AllocError> for PieceFault {
    ghost use Rattle.workers.specs.declared.helpers.PieceFault.TheVariants.{Memory};

    ghost from_gives = { λ _ fault. fault ≡ Memory };

    fn from(_fault: AllocError) -> Self {
        PieceFault::Memory
    }
}

/// So many threads of this system, the one that asks for it among them, and what each passes before a piece.
#[derive(Drop)]
pub struct Helpers<'h, R, G> {
    pub rt: &'h R,
    pub count: Workers,
    pub gate: &'h G,
}

/// What is done with an item behind a gate.
#[derive(Drop)]
struct Gated<'h, J, G> {
    job: &'h J,
    gate: &'h G,
}

impl<'h, T, X, J: Piece<T, X>, G: BodyGate> Piece<T, X> for Gated<'h, J, G> {
    ghost gives = { λ gated. J.gives gated.job.now };

    fn work(&self, alloc: Global, place: usize, item: &T) -> Result<X, AllocError> {
        self.gate.enter(place);
        self.job.work(alloc, place, item)
    }
}

/// Both lists, one behind the other. Want of memory is told before that of a thread.
fn both<X: Drop>(
    front: Result<Vec<X>, AllocError>,
    back: Result<Vec<X>, PieceFault>,
) -> Result<Vec<X>, PieceFault>
    ensures { IfOk result (λ found. IsOkAnd front (λ a. IsOkAnd back (λ b. found.items ≡ a.items ++ b.items))) }
{
    let Ok(mut found) = front else {
        return Err(PieceFault::Memory);
    };
    let mut rest = back?;
    found.append(&mut rest)?;
    Ok(found)
}

/// What comes of the items, by so many threads of the scope, this one among them: each works on as many items as the
/// others, as near as may be. Where a thread can't be started, this one works on what is left, so that want of memory
/// is still told first.
fn all_in<'s, E, R: Threads, T: Sync, X: Send + Drop + 's, J: Piece<T, X> + Sync>(
    scope: &'s Scope<'s, E>,
    rt: &R,
    alloc: Global,
    part: Part<'s, T, J>,
    helpers: usize,
) -> Result<Vec<X>, PieceFault>
    requires { part.first + length part.items.now < 2 ^ 64 }
    ensures all { IfOk result
        (λ found. ComeOf (J.gives part.entry.job.now) part.entry.first part.entry.items.now found.items) }
    ensures fault { IfErr result (IsFaultOf helpers) }
{
    let (first, items, job) = (part.first, part.items, part.job);
    if helpers <= 1 || items.len() <= 1 {
        return Ok(work_on(alloc, first, items, job)?);
    }
    let (front, back) = items.split_at(items.len().div_ceil(helpers));
    let rest = Part {
        first: first + front.len(),
        items: back,
        job,
    };
    let promise = Part {
        first,
        items: front,
        job,
    };
    match scope.spawn_with(
        promise,
        move ||
            requires { first + length front.now < 2 ^ 64 }
        { work_on(alloc, first, front, job) },
    ) {
        Ok(child) => {
            let rest = all_in(scope, rt, alloc, rest, helpers - 1);
            both(child.join(rt), rest)
        }
        Err(_) => match all_in(scope, rt, alloc, rest, helpers - 1) {
            Err(PieceFault::Memory) => Err(PieceFault::Memory),
            _ => Err(PieceFault::Thread),
        },
    }
}

/// What comes of the items, by so many threads, this one among them.
fn all_by<R: Threads + Wait, T: Sync, X: Send + Drop, J: Piece<T, X> + Sync>(
    rt: &R,
    alloc: Global,
    items: &[T],
    job: &J,
    helpers: usize,
) -> Result<Vec<X>, PieceFault>
    ensures all { IfOk result (λ found. ComeOf (J.gives job.now) 0 items.now found.items) }
    ensures fault { IfErr result (IsFaultOf helpers) }
{
    let _ = items.len();
    thread::scope(
        thread::scope_env(),
        rt,
        |scope| -> Result<Vec<X>, PieceFault>
            requires { length items.now < 2 ^ 64 }
            ensures all { IfOk result (λ found. ComeOf (J.gives job.entry.now) 0 items.entry.now found.items) }
            ensures fault { IfErr result (IsFaultOf helpers) }
        {
            let part = Part {
                first: 0,
                items,
                job,
            };
            all_in(scope, rt, alloc, part, helpers)
        },
    )
}

/// What comes of the items, in their order, by these helpers: each works on a stretch of the list, and passes the gate
/// once before each item. It is what one helper makes of them, which starts no thread.
///
/// # Errors
///
/// Memory was refused; or else a thread could not be started, and then this thread did what it was to do.
pub fn work_all<
    R: Threads + Wait,
    G: BodyGate + Sync,
    T: Sync,
    X: Send + Drop,
    J: Piece<T, X> + Sync,
>(alloc: Global, helpers: &Helpers<'_, R, G>, items: &[T], job: &J) -> Result<Vec<X>, PieceFault>
    ensures all { IfOk result (λ found. ComeOf (J.gives job.now) 0 items.now found.items) }
    ensures fault { IfErr result (IsFaultOf (count_of helpers.now.count)) }
{
    let gated = Gated {
        job,
        gate: helpers.gate,
    };
    all_by(helpers.rt, alloc, items, &gated, helpers.count.count())
}
