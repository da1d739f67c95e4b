//! What is known of a body's own parameters.

ghost use Rattle.std.specs.Prelude.{option_map};
ghost use Rattle.called_parameters.specs.Called.{is_called};
ghost use Rattle.verifier.specs.Verified.{flags_of_name};

use called_parameters::Called;
use checker::Claims;

/// The parameters that a function is known to call, by its name; a method and a literal have none.
#[derive(Clone, Copy)]
pub struct BodyClaims<'c, 'a> {
    pub called: &'c Called<'a>,
    pub name: Option<&'c str>,
}

impl Claims for BodyClaims<'_, '_> {
    ghost claims = { λ c. flags_of_name (is_called c.called.now) (option_map (λ name. name.now) c.name) };

    fn is_claimed(&self, position: usize) -> bool {
        match self.name {
            Some(name) => self.called.has(name, position),
            None => false,
        }
    }
}
