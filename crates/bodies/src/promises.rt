//! What a body relies on.

ghost use Rattle.std.specs.Prelude.{◌≡◌};
ghost use Rattle.tracked_rows.specs.EventViews.{callee_view};
ghost use Rattle.meaning.specs.Classes;

use tracked_rows::Callee;

/// What a body relies on: of functions, and of the literals of its own file.
pub trait Promises {
    ghost promises: { Self → Rattle.meaning.specs.Classes.Promises };

    /// Whether the function has called its parameter at that position when it returns.
    fn calls(&self, callee: Callee<'_>, position: usize) -> bool
        ensures { result ≡ (promises self.now).calls (callee_view callee.entry) position };

    /// Whether the literal at that byte offset has called the captured cancel variable of that number when it
    /// returns, or does not leave the captured group of that number live.
    fn credits(&self, literal: u32, variable: u32) -> bool
        ensures { result ≡ (promises self.now).credits literal variable };
}
