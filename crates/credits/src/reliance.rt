//! What a body relies on.

ghost use Rattle.std.specs.Prelude.{◌≡◌, ℕ, Bool};
ghost use Rattle.tracked_rows.specs.EventViews.{callee_view};
ghost use Rattle.credits.specs.CreditViews.{has};
ghost use Rattle.meaning.specs.Uses;
ghost use Rattle.meaning_packages.specs.Credits.{promises_in, no_calls};

use crate::table::Credits;
use bodies::Promises;
use tracked_rows::Callee;

/// What is known of functions.
pub trait Calls {
    ghost are_called: { Self → Uses.Callee → ℕ → Bool };

    /// Whether the function has called its parameter at that position when it returns.
    fn calls(&self, callee: Callee<'_>, position: usize) -> bool
        ensures { result ≡ are_called self.now (callee_view callee.entry) position };
}

/// Of no function it is known that it calls anything.
#[derive(Clone, Copy)]
pub struct NoCalls;

impl Calls for NoCalls {
    ghost are_called = { λ none. no_calls };

    fn calls(&self, _callee: Callee<'_>, _position: usize) -> bool {
        false
    }
}

/// What a body relies on: what is known of functions, and the credits of the literals that begin after its `func`.
#[derive(Drop)]
pub struct Reliance<'c, C> {
    pub calls: &'c C,
    pub credits: &'c Credits,
    /// The byte offset of the body's `func`.
    pub at: u32,
}

impl<'c, C: Calls> Promises for Reliance<'c, C> {
    ghost promises = { λ r. promises_in (C.are_called r.calls.now) (has r.credits.now) r.at };

    fn calls(&self, callee: Callee<'_>, position: usize) -> bool {
        self.calls.calls(callee, position)
    }

    fn credits(&self, literal: u32, variable: u32) -> bool {
        literal > self.at && self.credits.has(literal, variable)
    }
}
