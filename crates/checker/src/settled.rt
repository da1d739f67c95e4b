//! What a certificate leaves settled at each return.

ghost use Rattle.std.specs.Prelude.{◌≡◌, ◌≤◌, ◌↔◌, ℕ, Bool, IsTrue, Some, length, map, slice_get};
ghost use Rattle.checker.specs.Certificates.{SettlesIn};
ghost use Rattle.checker.specs.LaidOutViews.{IsLaidOut, body_of, states_view};
ghost use Rattle.events.specs.VariableViews.{variable_view};
ghost use Rattle.meaning.specs.BodyEvents.{Variable as MeantVariable};
ghost use Rattle.meaning.specs.Classes.{Promises};

use crate::classes::RowClasses;
use crate::laid_out::LaidOut;
use path_faults::breaks_settling;

/// Whether the certificate leaves the variable at that place in the list settled at each return: a cancel function
/// safe, a group not live. Where there is no such variable, it says yes.
pub fn settles(laid_out: &LaidOut<'_, '_, '_>, states: &[Vec<u16>], place: usize) -> bool
    ensures settled { IsLaidOut laid_out.now → (p : Promises) (claims : ℕ → Bool) (v : MeantVariable)
        → slice_get (map variable_view laid_out.now.variables.now) place ≡ Some v
        → IsTrue result ↔ SettlesIn (body_of laid_out.now p claims) (states_view states.now) place v }
    ensures past { length laid_out.now.variables.now ≤ place → IsTrue result }
{
    match laid_out.variables.get(place) {
        Some(variable) => {
            let told = RowClasses {
                rows: &laid_out.rows,
                groups: &laid_out.groups,
                states: &*states,
            };
            !breaks_settling(&laid_out.kept.graph, &told, place, variable.kind)
        }
        None => true,
    }
}
