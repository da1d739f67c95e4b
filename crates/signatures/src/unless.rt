//! Givers with an error: results that a function gives only where its error is nil, by the items of its returns (the Go
//! specification, "Return statements").

ghost use Rattle.std.specs.Prelude.{◌≡◌, ◌++◌, Some, IfOk, OnOk, map, option_map};
ghost use Rattle.std.specs.List.{list_all, list_any, filter};
ghost use Rattle.meaning.specs.FunctionFacts.{listed, items_of, cancel_results, means_universe, is_error, error_results, is_nil_at, has_nil_at_one, gives_unless, pairs, unless_by};
ghost use Rattle.facts.specs.FactViews.{item_view, cancel_result_view, unless_view};
ghost use Rattle.signatures.specs.Meanings.{meanings_of};
ghost use Rattle.signatures.specs.Returned.{are_unnamed, returned_view, pairs_of};
ghost use Rattle.mentions.specs.MarkViews.{named_view};
ghost use Rattle.tree.specs.View.{expressions_syntax, parameters_syntax, block_syntax};

use crate::in_file::InFile;
use facts::{CancelResult, Item, Unless, parameter_items};
use marks::own_returns;
use mentions::{Named, as_bare};
use names::NameMeaning;
use std::alloc::{AllocError, Global};
use tree::{Block, Expr, Param};

/// Whether it is that name of the universe.
fn means_universe(told: InFile<'_, '_>, name: &str, named: Option<Named<'_>>) -> bool
    ensures { result ≡ means_universe (meanings_of told.entry) name.now (option_map named_view named.entry) }
{
    match named {
        Some(named) => {
            if named.name != name {
                return false;
            }
            match told.names.declaration(told.file, named.at) {
                Some(NameMeaning::Universe) => true,
                _ => false,
            }
        }
        None => false,
    }
}

/// Whether the result is of the type `error`.
fn is_error(told: InFile<'_, '_>, item: &Item<'_>) -> bool
    ensures { result ≡ is_error (meanings_of told.entry) (item_view item.now).type }
{
    match item.kind {
        Some(kind) => means_universe(told, "error", as_bare(kind)),
        None => false,
    }
}

/// The positions of the results that are errors.
fn error_results(
    alloc: Global,
    told: InFile<'_, '_>,
    results: &[Item<'_>],
) -> Result<Vec<usize>, AllocError>
    ensures { IfOk result (λ errors. errors.items ≡ error_results (meanings_of told.entry) 0
        (map item_view results.now)) }
{
    let mut errors: Vec<usize> = Vec::new(alloc);
    for (position, item) in results.iter().enumerate() {
        if is_error(told, item) {
            errors.push(position)?;
        }
    }
    Ok(errors)
}

/// Whether no result has a name.
fn are_unnamed(results: &[Item<'_>]) -> bool
    ensures { result ≡ are_unnamed (map item_view results.now) }
{
    for item in results {
        if item.name.is_some() {
            return false;
        }
    }
    true
}

/// Whether the item at that position of a return is the universe's `nil`.
fn is_nil_at(told: InFile<'_, '_>, position: usize, items: &[Expr]) -> bool
    ensures { result ≡ is_nil_at (meanings_of told.entry) position (listed (expressions_syntax items.now)) }
{
    match items.get(position) {
        Some(item) => means_universe(told, "nil", as_bare(item)),
        None => false,
    }
}

/// Whether the return has as many items as there are results, and `nil` at one of the two positions.
fn has_nil_at_one(told: InFile<'_, '_>, results: usize, unless: Unless, items: &[Expr]) -> bool
    ensures { result ≡ has_nil_at_one (meanings_of told.entry) results (unless_view unless)
        (listed (expressions_syntax items.now)) }
{
    items.len() == results
        && (is_nil_at(told, unless.given, items) || is_nil_at(told, unless.error, items))
}

fn all_have_nil(told: InFile<'_, '_>, results: usize, unless: Unless, returns: &[&[Expr]]) -> bool
    ensures { result ≡ list_all (has_nil_at_one (meanings_of told.entry) results (unless_view unless))
        (map returned_view returns.now) }
{
    for items in returns {
        if !has_nil_at_one(told, results, unless, items) {
            return false;
        }
    }
    true
}

fn some_has_nil(told: InFile<'_, '_>, position: usize, returns: &[&[Expr]]) -> bool
    ensures { result ≡ list_any (is_nil_at (meanings_of told.entry) position) (map returned_view returns.now) }
{
    for items in returns {
        if is_nil_at(told, position, items) {
            return true;
        }
    }
    false
}

/// Whether each of the returns has `nil` at one of the two positions, some at the one, and some at the other.
fn gives_unless(told: InFile<'_, '_>, results: usize, returns: &[&[Expr]], unless: Unless) -> bool
    ensures { result ≡ gives_unless (meanings_of told.entry) results (map returned_view returns.now)
        (unless_view unless) }
{
    all_have_nil(told, results, unless, returns)
        && some_has_nil(told, unless.given, returns)
        && some_has_nil(told, unless.error, returns)
}

/// Adds the result at that position with each of the errors.
fn add_pairs(given: usize, errors: &[usize], pairs: &mut Vec<Unless>) -> Result<(), AllocError>
    ensures { OnOk result (map unless_view pairs.new.items ≡ map unless_view pairs.old.items
        ++ pairs_of given errors.now) }
{
    for error in errors {
        pairs.push(Unless {
            given,
            error: *error,
        })?;
    }
    Ok(())
}

/// Each result that is given with each of the errors.
fn pairs(alloc: Global, gives: &[CancelResult], errors: &[usize]) -> Result<Vec<Unless>, AllocError>
    ensures { IfOk result (λ all. map unless_view all.items ≡ pairs (map cancel_result_view gives.now) errors.now) }
{
    let mut all: Vec<Unless> = Vec::new(alloc);
    for given in gives {
        add_pairs(given.position, errors, &mut all)?;
    }
    Ok(all)
}

/// Those of the pairs that the returns bear out.
fn borne_out(
    alloc: Global,
    told: InFile<'_, '_>,
    results: usize,
    returns: &[&[Expr]],
    pairs: &[Unless],
) -> Result<Vec<Unless>, AllocError>
    ensures { IfOk result (λ kept. map unless_view kept.items ≡ filter (gives_unless (meanings_of told.entry) results
        (map returned_view returns.now)) (map unless_view pairs.now)) }
{
    let mut kept: Vec<Unless> = Vec::new(alloc);
    for unless in pairs {
        if gives_unless(told, results, returns, *unless) {
            kept.push(*unless)?;
        }
    }
    Ok(kept)
}

/// What a function with that body gives only where an error is nil, of the results that it gives. Its returns are read
/// only where a result is given and one is an error.
///
/// # Errors
///
/// Memory was refused.
pub fn unless_by(
    alloc: Global,
    told: InFile<'_, '_>,
    gives: &[CancelResult],
    results: &[Param],
    body: &Block,
) -> Result<Vec<Unless>, AllocError>
    requires { map cancel_result_view gives.now ≡ cancel_results (meanings_of told) 0
        (items_of (parameters_syntax results.now)) }
    ensures { IfOk result (λ unless. map unless_view unless.items ≡ unless_by (meanings_of told.entry)
        (items_of (parameters_syntax results.now)) (Some (block_syntax body.now))) }
{
    let items = parameter_items(alloc, results)?;
    if !are_unnamed(&items) {
        return Ok(Vec::new(alloc));
    }
    let errors = error_results(alloc, told, &items)?;
    let possible = pairs(alloc, gives, &errors)?;
    if possible.is_empty() {
        return Ok(possible);
    }
    let returns = own_returns(alloc, &body.statements)?;
    borne_out(alloc, told, items.len(), &returns, &possible)
}
