//! The results of a function that are cancel functions.

ghost use Rattle.std.specs.Prelude.{◌≡◌, ◌++◌, IfOk, OnOk, map, option_map};
ghost use Rattle.meaning.specs.FunctionFacts.{given_at, cancel_results};
ghost use Rattle.names.specs.Answers.{declared_at};
ghost use Rattle.facts.specs.FactViews.{tracked_type_view, item_view, cancel_result_view};

use crate::facts::CancelResult;
use crate::items::Item;
use crate::kinds::{TrackedType, item_type};
use names::Names;
use std::alloc::{AllocError, Global};

/// Adds a result of that type, if it is a cancel function.
fn add_given(
    gives: &mut Vec<CancelResult>,
    position: usize,
    typed: Option<TrackedType>,
) -> Result<(), AllocError>
    ensures { OnOk result (map cancel_result_view gives.new.items ≡ map cancel_result_view gives.old.items ++
        given_at position (option_map tracked_type_view typed)) }
{
    if let Some(TrackedType::Cancel(cancel_type)) = typed {
        gives.push(CancelResult {
            position,
            cancel_type,
        })?;
    }
    Ok(())
}

/// The results that are cancel functions.
///
/// # Errors
///
/// Memory was refused.
pub fn cancel_results(
    alloc: Global,
    names: &Names<'_>,
    file: usize,
    results: &[Item<'_>],
) -> Result<Vec<CancelResult>, AllocError>
    ensures { IfOk result (λ gives. map cancel_result_view gives.items ≡ cancel_results (declared_at names.now file) 0
        (map item_view results.now)) }
{
    let mut gives: Vec<CancelResult> = Vec::new(alloc);
    for (position, item) in results.iter().enumerate() {
        add_given(&mut gives, position, item_type(names, file, item))?;
    }
    Ok(gives)
}
