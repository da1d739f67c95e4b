//! The variables that a body captures and its certificate settles.

ghost use Rattle.std.specs.Prelude.{◌≡◌, ◌↔◌, ℕ, Bool, true, Some, IfOk};
ghost use Rattle.checker.specs.LaidOutViews.{IsLaidOut, body_of, states_view};
ghost use Rattle.credits.specs.CreditViews.{is_among};
ghost use Rattle.meaning.specs.Classes.{Promises};
ghost use Rattle.verifier.specs.SettledPlaces.{SettlesPlace, SettlesSome};

use checker::{LaidOut, settles};
use credits::is_captured;
use std::alloc::{AllocError, Global};

/// The number of the variable at that place in the list, if the body captures and its certificate settles it.
fn settled_number(laid_out: &LaidOut<'_, '_, '_>, states: &[Vec<u16>], place: usize) -> Option<u32>
    ensures { IsLaidOut laid_out.now → (p : Promises) (claims : ℕ → Bool) (number : ℕ)
        → (result ≡ Some number) ↔ SettlesPlace (body_of laid_out.now p claims) (states_view states.now) place number }
{
    match laid_out.variables.get(place) {
        Some(variable) => {
            if is_captured(*variable) && settles(laid_out, states, place) {
                Some(variable.number)
            } else {
                None
            }
        }
        None => None,
    }
}

/// The numbers of the variables that the body captures and its certificate settles; one may stand twice.
///
/// # Errors
///
/// Memory was refused.
pub fn settled_captured(
    alloc: Global,
    laid_out: &LaidOut<'_, '_, '_>,
    states: &[Vec<u16>],
) -> Result<Vec<u32>, AllocError>
    ensures { IfOk result (λ numbers. IsLaidOut laid_out.now → (p : Promises) (claims : ℕ → Bool) (number : ℕ)
        → (is_among numbers.items number ≡ true) ↔ SettlesSome (body_of laid_out.now p claims) (states_view states.now)
        number) }
{
    let mut numbers = Vec::new(alloc);
    for place in 0..laid_out.variables.len() {
        if let Some(number) = settled_number(laid_out, states, place) {
            numbers.push(number)?;
        }
    }
    Ok(numbers)
}
