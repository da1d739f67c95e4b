//! What events make of a number that a walk carries.

ghost use Rattle.std.specs.Prelude.{◌≡◌, ◌<◌, ℕ};
ghost use Rattle.searches.specs.declared.carry.TheConstants.{CLASSES};

/// The numbers of classes are below this one.
pub const CLASSES: usize = 16;

/// What events make of the number of a class.
pub trait Carry<E> {
    ghost step: { Self → E → ℕ → ℕ };

    /// The number of the class after the event.
    fn after(&self, event: E, class: usize) -> usize
        ensures { result ≡ step self.now event class };

    ghost within: { (c : Self) (e : E) (k : ℕ) → k < CLASSES → step c e k < CLASSES };
}
