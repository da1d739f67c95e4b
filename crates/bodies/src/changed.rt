//! What one of two things comes to be.

ghost use Rattle.std.specs.Prelude.{◌≡◌, if◌then◌else◌};

/// The first, if something is so, and else the second.
pub fn changed_if<T: Copy>(is_so: bool, to: T, from: T) -> T
    ensures { result ≡ (if is_so then to else from) }
{
    if is_so { to } else { from }
}
