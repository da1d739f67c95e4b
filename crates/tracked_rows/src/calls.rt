//! Makers and givers, and the call that is the only value of a row.

ghost use Rattle.std.specs.Prelude.{◌≡◌, option_map};
ghost use Rattle.std.specs.List.{list_any};
ghost use Rattle.std.specs.Str.{bytes_eq};
ghost use Rattle.meaning.specs.Tracked.{plain_makers, is_maker, facts_giving, maker_giving, giving_of, call_in, only_call, row_giving};
ghost use Rattle.meaning.specs.Uses.{called_in};
ghost use Rattle.facts.specs.FactViews.{facts_view, type_view};
ghost use Rattle.mentions.specs.MarkViews.{named_view, call_view, row_view};
ghost use Rattle.tracked_rows.specs.EventViews.{callee_view};
ghost use Rattle.tracked_rows.specs.RowViews.{known_view, maker_type, imported_giving, giving_view, only_value_of};
ghost use Rattle.tree.specs.View.{expression_syntax, expressions_syntax};

use crate::event::{Callee, callee_of};
use crate::known::{Known, meaning};
use crate::lefts::{count, may_bind};
use facts::{CancelResult, CancelType, FunctionFacts, is_import};
use mentions::{Call, CallPlace, Named, Row, call_of};
use names::{CONTEXT, NameMeaning};
use tree::{Expr, ExprKind};

/// The results that are cancel functions, and the number of results.
#[derive(Clone, Copy)]
pub struct Giving<'k> {
    pub gives: &'k [CancelResult],
    pub results: usize,
}

/// What a maker gives as the second of its two results.
const GIVEN_PLAIN: &[CancelResult] = &[CancelResult {
    position: 1,
    cancel_type: CancelType::Plain,
}];

/// The same, of `WithCancelCause`.
const GIVEN_WITH_CAUSE: &[CancelResult] = &[CancelResult {
    position: 1,
    cancel_type: CancelType::WithCause,
}];

/// Whether `context` has a maker of that name whose cancel function is called without a cause: `WithCancel`,
/// `WithTimeout` and `WithDeadline`, and the last two with a cause, which they take at once.
fn is_plain_maker(name: &str) -> bool
    ensures { result ≡ list_any (bytes_eq name.now) plain_makers }
{
    name == "WithCancel"
        || name == "WithTimeout"
        || name == "WithDeadline"
        || name == "WithTimeoutCause"
        || name == "WithDeadlineCause"
}

/// The type of what the maker of that name in `context` gives. That of `WithCancelCause` is called with a cause.
fn maker_type(name: &str) -> Option<CancelType>
    ensures { option_map type_view result ≡ maker_type name.now }
{
    if is_plain_maker(name) {
        return Some(CancelType::Plain);
    }
    if name == "WithCancelCause" {
        return Some(CancelType::WithCause);
    }
    None
}

/// A maker of `context`.
pub fn is_maker(known: Known<'_, '_>, named: Named<'_>) -> bool
    ensures { result ≡ is_maker (known_view known.entry) (named_view named.entry) }
{
    match named.selected {
        Some(member) => {
            maker_type(member).is_some() && is_import(CONTEXT, meaning(known, named.at))
        }
        None => false,
    }
}

fn maker_giving(cancel_type: CancelType) -> Giving<'static>
    ensures { giving_view result ≡ maker_giving (type_view cancel_type) }
{
    let gives = match cancel_type {
        CancelType::Plain => GIVEN_PLAIN,
        CancelType::WithCause => GIVEN_WITH_CAUSE,
    };
    Giving { gives, results: 2 }
}

/// What a function gives that has these facts.
fn facts_giving<'k>(facts: Option<&'k FunctionFacts>) -> Option<Giving<'k>>
    ensures { option_map giving_view result ≡ facts_giving (option_map (λ f. facts_view f.now) facts.entry) }
{
    let facts = facts?;
    if facts.gives.is_empty() {
        return None;
    }
    Some(Giving {
        gives: &facts.gives,
        results: facts.results,
    })
}

/// What the maker or giver of that name gives in the package of that path.
fn imported_giving<'k>(known: Known<'k, '_>, path: &str, name: &str) -> Option<Giving<'k>>
    ensures { option_map giving_view result ≡ imported_giving (known_view known.entry) path.now name.now }
{
    if path == CONTEXT {
        if let Some(cancel_type) = maker_type(name) {
            return Some(maker_giving(cancel_type));
        }
    }
    facts_giving(known.imported.facts(path, name))
}

/// What a maker or a giver gives.
pub fn giving_of<'k>(known: Known<'k, '_>, named: Named<'_>) -> Option<Giving<'k>>
    ensures { option_map giving_view result ≡ giving_of (known_view known.entry) (named_view named.entry) }
{
    match (named.selected, meaning(known, named.at)) {
        (None, Some(NameMeaning::Function)) => facts_giving(known.table.facts(named.name)),
        (Some(member), Some(NameMeaning::Import(path))) => imported_giving(known, path, member),
        _ => None,
    }
}

/// The only one of the values.
pub fn only(values: &[Expr]) -> Option<&Expr>
    ensures { option_map (λ e. expression_syntax e.now) result ≡ only_value_of (expressions_syntax values.now) }
{
    if values.len() == 1 {
        values.get(0)
    } else {
        None
    }
}

/// The value of a row as a call of `n` or `n.m`.
pub fn call_in<'m, 'a>(row: &'m Row<'a>, value: &'a Expr) -> Option<Call<'m, 'a>>
    ensures { option_map call_view result ≡ call_in (row_view row.now)
        (expression_syntax value.now) }
{
    match &value.kind {
        ExprKind::Call(callee, arguments, has_ellipsis) => {
            call_of(CallPlace::OnlyValue(row), callee, arguments, *has_ellipsis)
        }
        _ => None,
    }
}

/// The call that is the only value of a row.
pub fn only_call<'m, 'a>(row: &'m Row<'a>) -> Option<Call<'m, 'a>>
    ensures { option_map call_view result ≡ only_call (row_view row.now) (row_view row.now).values }
{
    match only(row.values) {
        Some(value) => call_in(row, value),
        None => None,
    }
}

/// The function that is called as the only value of the row.
pub fn called_in<'a>(known: Known<'_, 'a>, row: Row<'a>) -> Callee<'a>
    ensures { callee_view result ≡ called_in (known_view known.entry) (only_call (row_view row.entry)
        (row_view row.entry).values) }
{
    match only_call(&row) {
        Some(call) => callee_of(known, call.callee),
        None => Callee {
            path: None,
            name: "",
        },
    }
}

/// What the row's call of a maker or a giver gives, where there are as many left sides as results.
pub fn row_giving<'k>(known: Known<'k, '_>, row: Row<'_>) -> Option<Giving<'k>>
    ensures { option_map giving_view result ≡ row_giving (known_view known.entry) (row_view row.entry) }
{
    if !may_bind(row) {
        return None;
    }
    let call = only_call(&row)?;
    let giving = giving_of(known, call.callee)?;
    if count(row.form) == giving.results {
        Some(giving)
    } else {
        None
    }
}
