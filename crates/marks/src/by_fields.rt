//! Marks of fields, where a walk makes them. Elsewhere nothing is looked at but by what the walk marks.

ghost use Rattle.std.specs.Prelude.{◌≡◌, ◌∷◌, [], ◌++◌, OnOk, option_map};
ghost use Rattle.meaning.specs.Mentions.{of_fields, imports_all, deferral, given_to, argument_taker, literal_given_to, field_called, field_written, receiver_given, rights_given, is_one, sent, communication_given, guard_renewed};
ghost use Rattle.marks.specs.WalkViews.{AddsBy, tells_fields};
ghost use Rattle.mentions.specs.MarkViews.{place_view, optional_call, standing_view, use_view, assigned_view, taker_view};
ghost use Rattle.tree.specs.View.{expression_syntax, expressions_syntax, identifier_syntax, optional_statement_syntax};

use crate::by_edition::{Told, Walk};
use mentions::{
    Assigned, Call, CallPlace, LiteralUse, Mark, Moment, Spot, Standing, Taker, fields,
};
use std::alloc::AllocError;
use tree::{Edition, Expr, Identifier, Span, Stmt};

/// Whether marks of fields are made.
fn tells_fields(told: Told) -> bool
    ensures { result ≡ tells_fields told }
{
    match told.edition {
        Edition::First => false,
        Edition::Second => told.some_keep,
    }
}

/// An import that brings names which aren't written.
///
/// # Errors
///
/// Memory was refused.
pub fn imports_all<'m, 'a>(walk: &mut Walk<'m, 'a>, site: u32) -> Result<(), AllocError>
    ensures { OnOk result (AddsBy walk.old walk.new (of_fields site imports_all ∷ [])) }
{
    if tells_fields(walk.told) {
        fields::imports_all(&mut walk.marks, site)
    } else {
        Ok(())
    }
}

/// What an argument of a call that stands at the place is given to.
///
/// # Errors
///
/// Memory was refused.
pub fn argument_given<'m, 'a>(
    walk: &mut Walk<'m, 'a>,
    place: CallPlace<'m, 'a>,
    call: Option<&'m Call<'m, 'a>>,
    site: u32,
    argument: &'a Expr,
) -> Result<(), AllocError>
    ensures { OnOk result (AddsBy walk.old walk.new (given_to site
        (argument_taker (place_view place.entry) (optional_call call.entry)) (expression_syntax argument.now))) }
{
    if tells_fields(walk.told) {
        fields::given_to(
            &mut walk.marks,
            site,
            fields::argument_taker(place, call),
            argument,
        )
    } else {
        Ok(())
    }
}

/// A literal that is called under `defer` or `go` has a mark of its own.
fn deferral<'m, 'a>(
    walk: &mut Walk<'m, 'a>,
    literal: LiteralUse<'a>,
    site: u32,
    at: u32,
) -> Result<(), AllocError>
    ensures { OnOk result (AddsBy walk.old walk.new (deferral (use_view literal.entry) site at)) }
{
    match literal {
        LiteralUse::DeferredCall => walk
            .marks
            .push(Mark::RunsLiteral(Moment::AtReturn, site, at)),
        LiteralUse::CallUnderGo => {
            walk.marks
                .push(Mark::RunsLiteral(Moment::InGoroutine, site, at))
        }
        LiteralUse::Other => Ok(()),
        LiteralUse::StartedBy(_) => Ok(()),
    }
}

/// To whom the literal at that offset is given.
fn literal_given_to<'m, 'a>(
    walk: &mut Walk<'m, 'a>,
    site: u32,
    taker: Taker<'m, 'a>,
    at: u32,
) -> Result<(), AllocError>
    ensures { OnOk result (AddsBy walk.old walk.new (literal_given_to site (taker_view taker.entry) at)) }
{
    if tells_fields(walk.told) {
        fields::literal_given_to(&mut walk.marks, site, taker, at)
    } else {
        Ok(())
    }
}

/// What is said behind the body of a literal that begins at the offset.
///
/// # Errors
///
/// Memory was refused.
pub fn behind_literal<'m, 'a>(
    walk: &mut Walk<'m, 'a>,
    spot: Spot<'m, 'a>,
    at: u32,
) -> Result<(), AllocError>
    ensures { OnOk result (AddsBy walk.old walk.new (deferral (use_view spot.entry.literal) spot.entry.site at
        ++ literal_given_to spot.entry.site (taker_view spot.entry.taker) at)) }
{
    deferral(walk, spot.literal, spot.site, at)?;
    literal_given_to(walk, spot.site, spot.taker, at)
}

/// A field that is called.
///
/// # Errors
///
/// Memory was refused.
pub fn field_called<'m, 'a>(
    walk: &mut Walk<'m, 'a>,
    site: u32,
    callee: &'a Expr,
) -> Result<(), AllocError>
    ensures { OnOk result (AddsBy walk.old walk.new (field_called site (expression_syntax callee.now))) }
{
    if tells_fields(walk.told) {
        fields::field_called(&mut walk.marks, site, callee)
    } else {
        Ok(())
    }
}

/// A field that gets a value.
///
/// # Errors
///
/// Memory was refused.
pub fn field_written<'m, 'a>(
    walk: &mut Walk<'m, 'a>,
    site: u32,
    assigned: Option<Assigned<'m, 'a>>,
    left: &'a Expr,
) -> Result<(), AllocError>
    ensures { OnOk result (AddsBy walk.old walk.new (field_written site (option_map assigned_view assigned.entry)
        (expression_syntax left.now))) }
{
    if tells_fields(walk.told) {
        fields::field_written(&mut walk.marks, site, assigned, left)
    } else {
        Ok(())
    }
}

/// What the method of a call under `go` or `defer` gets.
///
/// # Errors
///
/// Memory was refused.
pub fn receiver_given<'m, 'a>(
    walk: &mut Walk<'m, 'a>,
    place: CallPlace<'m, 'a>,
    site: u32,
    callee: &'a Expr,
) -> Result<(), AllocError>
    ensures { OnOk result (AddsBy walk.old walk.new (receiver_given (place_view place.entry) site
        (expression_syntax callee.now))) }
{
    if tells_fields(walk.told) {
        fields::receiver_given(&mut walk.marks, place, site, callee)
    } else {
        Ok(())
    }
}

/// What the right sides of an assignment give to others.
///
/// # Errors
///
/// Memory was refused.
pub fn rights_given<'m, 'a>(
    walk: &mut Walk<'m, 'a>,
    site: u32,
    lefts: &'a [Expr],
    rights: &'a [Expr],
) -> Result<(), AllocError>
    ensures { OnOk result (AddsBy walk.old walk.new (rights_given site (is_one (expressions_syntax rights.now))
        (expressions_syntax lefts.now) (expressions_syntax rights.now))) }
{
    if tells_fields(walk.told) {
        fields::rights_given(&mut walk.marks, site, lefts, rights)
    } else {
        Ok(())
    }
}

/// What is sent.
///
/// # Errors
///
/// Memory was refused.
pub fn sent<'m, 'a>(
    walk: &mut Walk<'m, 'a>,
    standing: Standing,
    at: u32,
    value: &'a Expr,
) -> Result<(), AllocError>
    ensures { OnOk result (AddsBy walk.old walk.new (sent (standing_view standing) at (expression_syntax value.now))) }
{
    if tells_fields(walk.told) {
        fields::sent(&mut walk.marks, standing, at, value)
    } else {
        Ok(())
    }
}

/// What a clause of a `select` sends, or declares, when it is entered.
///
/// # Errors
///
/// Memory was refused.
pub fn communication_given<'m, 'a>(
    walk: &mut Walk<'m, 'a>,
    clause: u32,
    communication: &'a Option<Box<Stmt>>,
) -> Result<(), AllocError>
    ensures { OnOk result (AddsBy walk.old walk.new (communication_given clause
        (optional_statement_syntax communication.now))) }
{
    if tells_fields(walk.told) {
        fields::communication_given(&mut walk.marks, clause, communication)
    } else {
        Ok(())
    }
}

/// The name of a type switch, which a clause declares anew.
///
/// # Errors
///
/// Memory was refused.
pub fn guard_renewed<'m, 'a>(
    walk: &mut Walk<'m, 'a>,
    guard: Option<&'a Identifier>,
    clause: Span,
) -> Result<(), AllocError>
    ensures { OnOk result (AddsBy walk.old walk.new (guard_renewed (option_map
        (λ n. identifier_syntax n.now) guard.entry) clause)) }
{
    if tells_fields(walk.told) {
        fields::guard_renewed(&mut walk.marks, guard, clause)
    } else {
        Ok(())
    }
}
