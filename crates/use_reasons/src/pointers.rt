//! Where to look for the other part of a finding about a variable that is bound again.

ghost use Rattle.std.specs.Prelude.{◌≡◌, ◌∷◌, [], OnOk, map, option_map};
ghost use Rattle.mentions.specs.MarkViews.{body_view, mention_view};
ghost use Rattle.meaning.specs.Mentions.{mentions};
ghost use Rattle.meaning.specs.Scopes.{parameters_named};
ghost use Rattle.reasons.specs.WordViews.{pointer_view};
ghost use Rattle.tracked_rows.specs.RowViews.{known_view};
ghost use Rattle.tree.specs.Syntax.{no_parameter};
ghost use Rattle.tree.specs.View.{identifier_syntax, parameter_and, parameters_syntax};
ghost use Rattle.use_reasons.specs.ReasonViews.{reason_view, Adds};
ghost use Rattle.use_reasons.specs.UseReasons.{captured_by, is_around, is_captured, pointed_by, pointing, result_named};

use crate::reason::{ReasonText, UseReason};
use crate::table::Reasons;
use mentions::{BodyPlace, Mention};
use reasons::Pointer;
use std::alloc::AllocError;
use tracked::variable_of;
use tracked_rows::Known;
use tree::{Identifier, Param};

/// Points at the offset.
fn pointing(at: u32, pointer: Pointer) -> UseReason<'static>
    ensures { reason_view result ≡ pointing at (pointer_view pointer) }
{
    UseReason {
        at,
        text: ReasonText::Words(pointer.text()),
    }
}

/// Whether the number of a local is the offset of a place in the body, or in its signature.
fn is_around(number: u32, body: BodyPlace<'_>) -> bool
    ensures { result ≡ is_around number (body_view body.entry) }
{
    body.at <= number && number < body.braces.end
}

/// Whether the innermost of these bodies is a literal that captures the local of that number.
pub fn is_captured(number: u32, bodies: &[BodyPlace<'_>]) -> bool
    ensures { result ≡ is_captured number (map body_view bodies.now) }
{
    match bodies.first() {
        Some(body) => !is_around(number, *body),
        None => false,
    }
}

/// Points at the innermost of these bodies, if the local of that number is declared outside.
fn captured_by(number: u32, bodies: &[BodyPlace<'_>]) -> Option<UseReason<'static>>
    ensures { option_map reason_view result ≡ captured_by number (map body_view bodies.now) }
{
    match bodies.first() {
        Some(body) => {
            if is_around(number, *body) {
                None
            } else {
                Some(pointing(body.at, Pointer::CapturedHere))
            }
        }
        None => None,
    }
}

/// Adds the innermost of the bodies around the mention as the literal that captures its local, if that is declared
/// outside.
///
/// # Errors
///
/// Memory was refused.
pub fn add_capture(
    known: Known<'_, '_>,
    bodies: &[BodyPlace<'_>],
    mention: Mention<'_, '_>,
    pointers: &mut Reasons<'_>,
) -> Result<(), AllocError>
    ensures { OnOk result (Adds pointers.old pointers.new (λ n. pointed_by (known_view known.entry) n
        (map body_view bodies.now) (mentions (mention_view mention.entry)))) }
{
    let Some(number) = variable_of(known, mention) else {
        return Ok(());
    };
    let Some(pointer) = captured_by(number, bodies) else {
        return Ok(());
    };
    pointers.add(number, pointer)
}

fn add_name(name: &Identifier, pointers: &mut Reasons<'_>) -> Result<(), AllocError>
    ensures { OnOk result (Adds pointers.old pointers.new (λ n. result_named n (identifier_syntax name.now ∷ []))) }
{
    let at = name.span.start;
    pointers.add(at, pointing(at, Pointer::ResultHasName))
}

fn add_result(item: &Param, pointers: &mut Reasons<'_>) -> Result<(), AllocError>
    ensures { OnOk result (Adds pointers.old pointers.new (λ n. result_named n (parameters_named (parameter_and
        item.now no_parameter)))) }
{
    match item {
        Param::Named(name, _, _) => add_name(name, pointers),
        Param::Unnamed(_, _) => Ok(()),
        Param::NameAlone(name) => add_name(name, pointers),
    }
}

/// Adds the results that have names.
///
/// # Errors
///
/// Memory was refused.
pub fn add_results(results: &[Param], pointers: &mut Reasons<'_>) -> Result<(), AllocError>
    ensures { OnOk result (Adds pointers.old pointers.new (λ n. result_named n (parameters_named (parameters_syntax
        results.now)))) }
{
    for item in results {
        add_result(item, pointers)?;
    }
    Ok(())
}
