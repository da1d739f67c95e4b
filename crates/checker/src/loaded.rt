//! The state that a row makes: each mask at its variable's place among those of its kind.

ghost use Rattle.std.specs.Prelude.{◌≡◌, true, IfSome, is_some, length, map};
ghost use Rattle.checker.specs.CertificateTests.{loads};
ghost use Rattle.checker.specs.Loaded.{is_taken, AreLoaded};
ghost use Rattle.checker.specs.LoadingSteps.{Adds, count_in};
ghost use Rattle.events.specs.VariableViews.{variable_view};
ghost use Rattle.facts.specs.FactViews.{kind_view};
ghost use Rattle.meaning.specs.FunctionFacts.{cancel, group};

use crate::laid_out::mask_in;
use bodies::State;
use events::Variable;
use facts::VariableKind;

/// The masks so far, and of how many variables of each kind they are.
#[derive(Clone, Copy)]
struct Loading {
    state: State,
    cancels: usize,
    groups: usize,
}

impl Loading {
    /// Adds the mask of the next cancel variable. Whether it has a place, and no bit is set of no class.
    fn add_cancel(&mut self, mask: u16) -> bool
        ensures taken { result ≡ is_taken cancel self.old.cancels mask }
        ensures adds { result ≡ true → Adds cancel mask self.old self.new }
    {
        if !self
            .state
            .set_mask(VariableKind::Cancel, self.cancels, mask)
        {
            return false;
        }
        self.cancels += 1;
        true
    }

    /// Adds the mask of the next group. Whether it has a place, and no bit is set of no class.
    fn add_group(&mut self, mask: u16) -> bool
        ensures taken { result ≡ is_taken group self.old.groups mask }
        ensures adds { result ≡ true → Adds group mask self.old self.new }
    {
        if !self.state.set_mask(VariableKind::Group, self.groups, mask) {
            return false;
        }
        self.groups += 1;
        true
    }

    /// Adds the mask of the next variable of that kind. Whether it has a place, and no bit is set of no class.
    fn add(&mut self, kind: VariableKind, mask: u16) -> bool
        ensures taken { result ≡ is_taken (kind_view kind) (count_in (kind_view kind) self.old) mask }
        ensures adds { result ≡ true → Adds (kind_view kind) mask self.old self.new }
    {
        match kind {
            VariableKind::Cancel => self.add_cancel(mask),
            VariableKind::Group => self.add_group(mask),
        }
    }
}

/// The state of the masks of a row. There is none where the variables are too many, or a bit is set of no class.
pub fn state_of(variables: &[Variable<'_>], masks: &[u16]) -> Option<State>
    ensures there { is_some result ≡ loads (map variable_view variables.now) masks.now }
    ensures loaded { IfSome result (λ state. AreLoaded (map variable_view variables.now) masks.now
        (length (map variable_view variables.now)) state.words) }
{
    let mut loading = Loading {
        state: State::empty(),
        cancels: 0,
        groups: 0,
    };
    for (place, variable) in variables.iter().enumerate() {
        if !loading.add(variable.kind, mask_in(masks, place)) {
            return None;
        }
    }
    Some(loading.state)
}
