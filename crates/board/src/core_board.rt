//! The board of some packages: what was done with them, and what came of each.

ghost use Rattle.std.specs.Prelude.{◌≡◌, ◌==◌, if◌then◌else◌, ◌∷◌, ◌++◌, [], ℕ, Some, None, IfOk, OnOk, IfSome, IsSome, Contains, map, length, replicate, slice_get, slice_index_or};
ghost use Rattle.std.specs.Option.{option_copied};
ghost use Rattle.imports.specs.Ranks.{IsOrder};
ghost use Rattle.imports.specs.Settling.{given_imports};
ghost use Rattle.imports.specs.Views.{rank_of, ranked_of, rows_view};
ghost use Rattle.board.specs.declared.entries.Phase.TheVariants.{Untaken};
ghost use Rattle.board.specs.declared.entries.Task.TheVariants.{Wait, Over};
ghost use Rattle.board.specs.Answers.{flat};
ghost use Rattle.board.specs.Kept.{IsKept, kept_at};

use crate::entries::{DeliverFault, Entry, Phase, Task};
use crate::importers::{importers_of, row_at};
use crate::outcome::Outcome;
use crate::ready::Ready;
use crate::refusals::refusal;
use imports::Order;
use std::alloc::{AllocError, Global};
use std::marker::Model;

/// The state that workers share: what was done with the packages, and what came of each. Contracts see its history and
/// what came (`Board`). By its type the history is legal, and all else is what the history comes to.
#[derive(Drop)]
pub struct Core<'k, R: Outcome> {
    imports: &'k [Vec<usize>],
    order: &'k Order,
    importers: Vec<Vec<usize>>,
    phases: Vec<Phase>,
    outcomes: Vec<Option<R>>,
    history: Vec<Entry>,
    stopped: bool,
    /// How many packages were taken, and neither delivered nor given back.
    pending: usize,
    ready: Ready,
}

impl<'k, R: Outcome> Model for Core<'k, R> {
    ghost use Rattle.std.specs.Prelude.{vec_capacity};
    ghost use Rattle.imports.specs.Views.{rank_of, ranked_of, rows_view};
    ghost use Rattle.board.specs.Ready.{ready_view};
    ghost use Rattle.board.specs.Answers.{Board};
    ghost use Rattle.board.specs.Kept.{Fields, IsBoard};

    ghost Value = { Board R };

    ghost view = { λ c. record { history = c.history.items; outcomes = c.outcomes.items } };

    ghost invariant = { λ c. IsBoard R.packages R.rank R.place_of (record {
      rows = rows_view c.imports.now;
      rank = rank_of c.order.now;
      ranked = ranked_of c.order.now;
      importers = rows_view c.importers.items;
      phases = c.phases.items;
      outcomes = c.outcomes.items;
      history = c.history.items;
      capacity = vec_capacity c.history;
      stopped = c.stopped;
      pending = c.pending;
      listing = ready_view c.ready;
    }) };
}

impl<'k, R: Outcome> Core<'k, R> {
    ghost use Rattle.board.specs.Answers.{opened, state_in, outcome_in, told, IsTask, CanBeJudged, refusal_in, IsDelivery, IsReturn};
    ghost use Rattle.board.specs.Legal.{AreImportsIn, IsIn, IsLegal};

    /// A board on which nothing was done with the packages, by what each imports, and by their ranks. It has room for
    /// all that is done.
    ///
    /// # Errors
    ///
    /// Memory was refused.
    pub fn new(
        alloc: Global,
        imports: &'k [Vec<usize>],
        order: &'k Order,
    ) -> Result<Self, AllocError>
        requires imports { rows_view imports.now ≡ given_imports R.packages }
        requires rank { rank_of order.now ≡ R.rank }
        requires order { IsOrder R.packages R.rank (ranked_of order.now) }
        ensures { IfOk result (λ core. core ≡ opened (length R.packages)) }
    {
        let importers = importers_of(alloc, imports)?;
        let phases = all_untaken(alloc, imports.len())?;
        let outcomes = no_outcomes(alloc, imports.len())?;
        let history = Vec::with_capacity(alloc, 2 * imports.len())?;
        let ready = Ready::new(alloc, imports, order, &phases)?;
        Ok(Core {
            imports,
            order,
            importers,
            phases,
            outcomes,
            history,
            stopped: false,
            pending: 0,
            ready,
        })
    }

    /// What the worker has to do next. What it is to judge is taken by it. It takes no memory, and waits for nobody.
    pub fn take(&mut self, worker: usize) -> Task
        ensures task { IsTask R.packages R.rank (state_in R.packages self.old) result }
        ensures then { self.new ≡ told self.old worker result }
        ensures imports { CanBeJudged R.packages (state_in R.packages self.new).phases result }
    {
        if self.stopped {
            return Task::Over;
        }
        match self.ready.take(self.imports, self.order, &self.phases) {
            Some(place) => {
                self.phases[place] = Phase::Taken(worker);
                self.pending += 1;
                self.history.push_reserved(Entry::Take { worker, place });
                Task::Work(place)
            }
            None => idle_task(self.pending),
        }
    }

    /// Keeps what came of a package that the worker took. It takes no memory, and waits for nobody.
    ///
    /// # Errors
    ///
    /// The package is a stranger, was not taken, was taken by another worker, or is closed; the first of these. What
    /// came of it is given back, and nothing changes.
    pub fn deliver(&mut self, worker: usize, found: R) -> Result<(), (DeliverFault, R)>
        ensures { IsDelivery (refusal_in R.rank (state_in R.packages self.old) worker (R.place_of found)) self.old
            self.new worker (R.place_of found) found result }
    {
        let place = found.place();
        match refusal(self.order, &self.phases, worker, place) {
            Some(fault) => return Err((fault, found)),
            None => {}
        }
        self.phases[place] = Phase::Delivered(worker);
        self.pending -= 1;
        self.outcomes[place] = Some(found);
        self.history.push_reserved(Entry::Deliver { worker, place });
        self.ready.look_at_all(
            self.imports,
            self.order,
            &self.phases,
            row_at(&self.importers, place),
        );
        Ok(())
    }

    /// Gives back a package that the worker took, and stops the board: no package is taken any more. It takes no
    /// memory, and waits for nobody.
    ///
    /// # Errors
    ///
    /// As of `deliver`.
    pub fn back(&mut self, worker: usize, place: usize) -> Result<(), DeliverFault>
        ensures { IsReturn (refusal_in R.rank (state_in R.packages self.old) worker place) self.old self.new worker
            place result }
    {
        match refusal(self.order, &self.phases, worker, place) {
            Some(fault) => return Err(fault),
            None => {}
        }
        self.phases[place] = Phase::GivenBack(worker);
        self.pending -= 1;
        self.stopped = true;
        self.history.push_reserved(Entry::Back { worker, place });
        Ok(())
    }

    /// What came of the package at that place, where it was delivered.
    pub fn result(&self, place: usize) -> Option<&R>
        ensures is { option_copied result ≡ outcome_in self.now place }
        ensures place { IfSome result (λ found. R.place_of found.now ≡ place) }
        ensures some { IsIn (state_in R.packages self.now).phases place → IsSome result }
        ensures none { IsSome result → IsIn (state_in R.packages self.now).phases place }
    {
        outcome_at(&self.outcomes, place)
    }

    /// What came of the packages that the package at that place imports, in the order of its imports.
    ///
    /// # Errors
    ///
    /// Memory was refused.
    pub fn imported(&self, alloc: Global, place: usize) -> Result<Vec<R>, AllocError>
        requires { AreImportsIn R.packages (state_in R.packages self.now).phases place }
        ensures is { IfOk result (λ found. map (λ one. Some one) found.items
            ≡ map (outcome_in self.now) (slice_index_or (given_imports R.packages) place [])) }
        ensures places { IfOk result (λ found. map R.place_of found.items
            ≡ slice_index_or (given_imports R.packages) place []) }
    {
        outcomes_of(alloc, &self.outcomes, row_at(self.imports, place))
    }

    /// What came of each package, by its place.
    pub fn into_outcomes(self) -> Vec<Option<R>>
        ensures is { result.items ≡ self.entry.outcomes }
        ensures as_many { length result.items ≡ length R.packages }
        ensures places { (place : ℕ) (found : R) → slice_get result.items place ≡ Some (Some found)
            → R.place_of found ≡ place }
    {
        let Core { outcomes, .. } = self;
        outcomes
    }

    /// Whether a package was given back.
    pub fn is_stopped(&self) -> bool
        ensures { result ≡ (state_in R.packages self.now).stopped }
    {
        self.stopped
    }

    /// All that was done with the packages, in order.
    pub fn history(&self) -> &[Entry]
        ensures is { result.now ≡ self.now.history }
        ensures legal { IsLegal R.packages R.rank self.now.history }
    {
        &self.history
    }
}

/// What a worker has to do where no package can be taken, and so many are pending.
fn idle_task(pending: usize) -> Task
    ensures { result ≡ if pending == 0 then Over else Wait }
{
    if pending == 0 { Task::Over } else { Task::Wait }
}

/// So many packages that nobody took.
fn all_untaken(alloc: Global, count: usize) -> Result<Vec<Phase>, AllocError>
    ensures { IfOk result (λ phases. phases.items ≡ replicate count Untaken) }
{
    let mut phases = Vec::with_capacity(alloc, count)?;
    for _place in 0..count {
        phases.push(Phase::Untaken)?;
    }
    Ok(phases)
}

/// Of so many packages nothing came.
fn no_outcomes<R: Outcome>(alloc: Global, count: usize) -> Result<Vec<Option<R>>, AllocError>
    ensures { IfOk result (λ outcomes. outcomes.items ≡ replicate count None) }
{
    let mut outcomes = Vec::with_capacity(alloc, count)?;
    for _place in 0..count {
        outcomes.push(None)?;
    }
    Ok(outcomes)
}

/// What came of the package at that place, if something did.
fn outcome_at<R: Outcome>(outcomes: &[Option<R>], place: usize) -> Option<&R>
    ensures { option_copied result ≡ flat (slice_get outcomes.now place) }
{
    match outcomes.get(place) {
        Some(Some(found)) => Some(found),
        _ => None,
    }
}

/// Adds what came of the package at that place.
fn add_outcome<R: Outcome>(
    outcomes: &[Option<R>],
    place: usize,
    found: &mut Vec<R>,
) -> Result<(), AllocError>
    requires { IsKept outcomes.now place }
    ensures { OnOk result (map (λ one. Some one) found.new.items
        ≡ map (λ one. Some one) found.old.items ++ kept_at outcomes.now place ∷ []) }
{
    match outcome_at(outcomes, place) {
        Some(kept) => {
            found.push(kept.again()?)?;
            Ok(())
        }
        None => Ok(()),
    }
}

/// What came of the packages at these places.
fn outcomes_of<R: Outcome>(
    alloc: Global,
    outcomes: &[Option<R>],
    places: &[usize],
) -> Result<Vec<R>, AllocError>
    requires { (j : ℕ) → Contains places.now j → IsKept outcomes.now j }
    ensures { IfOk result (λ found. map (λ one. Some one) found.items ≡ map (kept_at outcomes.now) places.now) }
{
    let mut found = Vec::new(alloc);
    for place in places {
        add_outcome(outcomes, *place, &mut found)?;
    }
    Ok(found)
}
