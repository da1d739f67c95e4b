//! What is claimed of a body's parameters.

ghost use Rattle.std.specs.Prelude.{◌≡◌, ℕ, Bool, false};

/// Of which parameters it is claimed that the body has called them when it returns.
pub trait Claims {
    ghost claims: { Self → ℕ → Bool };

    /// Whether it is claimed of the parameter at that position.
    fn is_claimed(&self, position: usize) -> bool
        ensures { result ≡ claims self.now position };
}

/// Nothing is claimed of any parameter.
#[derive(Clone, Copy)]
pub struct NoClaims;

impl Claims for NoClaims {
    ghost claims = { λ none position. false };

    fn is_claimed(&self, _position: usize) -> bool {
        false
    }
}
