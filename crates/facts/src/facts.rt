//! What is known of one function.

ghost use Rattle.std.specs.Prelude.{◌≡◌, Some};
ghost use Rattle.facts.specs.FactViews.{kind_view, tracked_type_view, parameter_view, facts_view};
ghost use Rattle.meaning.specs.Uses.{facts_take, facts_take_type, has_kind_at, has_type_at};

use crate::kinds::{CancelType, TrackedType, VariableKind};

/// A parameter that is tracked.
#[derive(Clone, Copy)]
pub struct TrackedParameter {
    pub position: usize,
    pub typed: TrackedType,
}

/// A result that is a cancel function.
#[derive(Clone, Copy)]
pub struct CancelResult {
    pub position: usize,
    pub cancel_type: CancelType,
}

impl TrackedParameter {
    /// Whether it is of that kind, and stands at that position.
    fn has_kind_at(&self, kind: VariableKind, position: usize) -> bool
        ensures { result ≡ has_kind_at (kind_view kind) position (parameter_view self.now) }
    {
        kind.is_same(self.typed.kind()) && self.position == position
    }

    /// Whether it is of that type, and stands at that position.
    fn has_type_at(&self, typed: TrackedType, position: usize) -> bool
        ensures { result ≡ has_type_at (tracked_type_view typed) position (parameter_view self.now) }
    {
        typed.is_same(self.typed) && self.position == position
    }
}

/// The function gives the result at the first position, unless the one at the other, an `error`, is not nil.
#[derive(Clone, Copy)]
pub struct Unless {
    pub given: usize,
    pub error: usize,
}

/// What is known of a function.
#[derive(Drop)]
pub struct FunctionFacts {
    pub parameters: Vec<TrackedParameter>,
    /// The results that are cancel functions.
    pub gives: Vec<CancelResult>,
    /// The number of results.
    pub results: usize,
    /// None of a declared function, and none in the first edition.
    pub unless: Vec<Unless>,
}

impl FunctionFacts {
    /// Whether the function takes a variable of that kind at that position.
    pub fn takes_kind(&self, kind: VariableKind, position: usize) -> bool
        ensures { result ≡ facts_take (kind_view kind) position (Some (facts_view self.now)) }
    {
        for parameter in &self.parameters {
            if parameter.has_kind_at(kind, position) {
                return true;
            }
        }
        false
    }

    /// Whether the function takes what is of that type at that position.
    pub fn takes(&self, typed: TrackedType, position: usize) -> bool
        ensures { result ≡ facts_take_type (tracked_type_view typed) position (Some (facts_view self.now)) }
    {
        for parameter in &self.parameters {
            if parameter.has_type_at(typed, position) {
                return true;
            }
        }
        false
    }
}
