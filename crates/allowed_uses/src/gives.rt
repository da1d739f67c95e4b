//! The results at which the returns of a body may hand cancel functions on.

ghost use Rattle.std.specs.Prelude.{◌≡◌, ◌+◌, ◌==◌, ◌&&◌, IfOk, map};
ghost use Rattle.facts.specs.FactViews.{type_view, cancel_result_view};
ghost use Rattle.meaning.specs.FunctionFacts.{is_same_type};
ghost use Rattle.meaning.specs.Uses.{named_gives, gives_of, body_gives, is_given_as, hands_on};
ghost use Rattle.mentions.specs.MarkViews.{body_view};
ghost use Rattle.tracked_rows.specs.RowViews.{known_view, giving_view};
ghost use Rattle.tree.specs.View.{identifier_syntax, signature_syntax};

use facts::{CancelResult, CancelType, cancel_results, parameter_items};
use mentions::BodyPlace;
use names::INIT;
use std::alloc::{AllocError, Global};
use tracked_rows::{Giving, Known};
use tree::{BLANK, Identifier, Signature};

/// Those of a function of that name: none that is called `_` or `init`.
fn named_gives(
    alloc: Global,
    known: Known<'_, '_>,
    name: &Identifier,
    signature: &Signature,
) -> Result<Vec<CancelResult>, AllocError>
    ensures { IfOk result (λ gives. map cancel_result_view gives.items ≡ named_gives (known_view known.entry)
        (identifier_syntax name.now) (signature_syntax signature.now)) }
{
    let text = name.text.as_str();
    if text == BLANK || text == INIT {
        return Ok(Vec::new(alloc));
    }
    let results = parameter_items(alloc, &signature.results)?;
    cancel_results(alloc, known.names, known.file, &results)
}

/// Those of the innermost body; methods and literals have none.
///
/// # Errors
///
/// Memory was refused.
pub fn body_gives(
    alloc: Global,
    known: Known<'_, '_>,
    bodies: &[BodyPlace<'_>],
) -> Result<Vec<CancelResult>, AllocError>
    ensures { IfOk result (λ gives. map cancel_result_view gives.items ≡ body_gives (known_view known.entry)
        (map body_view bodies.now)) }
{
    match bodies.first() {
        Some(body) => gives_of(alloc, known, *body),
        None => Ok(Vec::new(alloc)),
    }
}

fn gives_of(
    alloc: Global,
    known: Known<'_, '_>,
    body: BodyPlace<'_>,
) -> Result<Vec<CancelResult>, AllocError>
    ensures { IfOk result (λ gives. map cancel_result_view gives.items ≡ gives_of (known_view known.entry)
        (body_view body.entry).name (body_view body.entry).receiver (body_view body.entry).signature) }
{
    match (body.name, body.receiver) {
        (Some(name), None) => named_gives(alloc, known, name, body.signature),
        _ => Ok(Vec::new(alloc)),
    }
}

/// Whether the result of that number is a cancel function of that type.
pub fn is_given_as(number: usize, wanted: CancelType, gives: &[CancelResult]) -> bool
    ensures { result ≡ is_given_as number (type_view wanted) (map cancel_result_view gives.now) }
{
    for given in gives {
        if given.position == number && wanted.is_same(given.cancel_type) {
            return true;
        }
    }
    false
}

/// Whether a return that has such a call as its item of that number hands on all that the call gives, each at a
/// position of its type.
pub fn hands_on(gives: &[CancelResult], item: usize, giving: Giving<'_>) -> bool
    ensures { result ≡ hands_on (map cancel_result_view gives.now) item (giving_view giving.entry) }
{
    for wanted in giving.gives {
        if !has_sum(gives, item, *wanted) {
            return false;
        }
    }
    true
}

fn has_sum(gives: &[CancelResult], item: usize, wanted: CancelResult) -> bool
    ensures { result ≡ is_given_as (item + wanted.position) (type_view wanted.cancel_type)
        (map cancel_result_view gives.now) }
{
    for given in gives {
        if is_sum(*given, item, wanted) {
            return true;
        }
    }
    false
}

/// Whether it is of that type, and its position is the sum of both, which may be too large for a number.
fn is_sum(given: CancelResult, item: usize, wanted: CancelResult) -> bool
    ensures { result ≡ ((given.position == item + wanted.position)
        && is_same_type (type_view wanted.cancel_type) (type_view given.cancel_type)) }
{
    if given.position < item {
        return false;
    }
    given.position - item == wanted.position && wanted.cancel_type.is_same(given.cancel_type)
}
