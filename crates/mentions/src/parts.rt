//! What a mark says of a name, and the names that are declared.

ghost use Rattle.std.specs.Prelude.{◌≡◌, ◌&&◌, not, [], ◌∷◌, OnOk, option_map, map};
ghost use Rattle.meaning.specs.Mentions.{part_of, whole, is_start, exposed, call_of, argument_use, callee_use, callee_spot, argument_spot, place_in, name_role, is_one, value_spot, mention, declaring, number_of, left_names, declared_elsewhere, guard_in_clause};
ghost use Rattle.meaning.specs.Scopes.{parameters_named};
ghost use Rattle.mentions.specs.MarkViews.{Adds, identifier_at, named_view, row_view, place_view, call_view, optional_call, use_view, role_view, standing_view, spot_view};
ghost use Rattle.tree.specs.Syntax.{no_parameter};
ghost use Rattle.tree.specs.View.{expression_syntax, expressions_syntax, identifier_syntax, parameter_and, parameters_syntax};

use crate::fields::{callee_taker, literal_taker};
use crate::kept::Marks;
use crate::mark::{
    Call, CallPlace, LiteralUse, Mark, Mention, Named, Role, Row, Spot, Standing, Taker,
};
use crate::named::as_named;
use std::alloc::AllocError;
use tree::{BLANK, Expr, Identifier, Param, Span};

/// A part of an expression: it stands nowhere as a whole.
pub fn part_of<'m, 'a>(site: u32) -> Spot<'m, 'a>
    ensures { spot_view result ≡ part_of site }
{
    Spot {
        place: CallPlace::Nowhere,
        literal: LiteralUse::Other,
        taker: Taker::Nobody,
        site,
    }
}

/// An expression at a place.
pub fn whole<'m, 'a>(place: CallPlace<'m, 'a>, site: u32) -> Spot<'m, 'a>
    ensures { spot_view result ≡ whole (place_view place.entry) site }
{
    Spot {
        place,
        literal: LiteralUse::Other,
        taker: Taker::Nobody,
        site,
    }
}

/// No call of what a `select` waits for stands as a whole.
pub fn place_in<'m, 'a>(standing: Standing, place: CallPlace<'m, 'a>) -> CallPlace<'m, 'a>
    ensures { place_view result ≡ place_in (standing_view standing) (place_view place.entry) }
{
    match standing {
        Standing::Ordinary => place,
        Standing::FirstOfFor => place,
        Standing::Communication => CallPlace::Nowhere,
    }
}

/// Whether it is one expression.
pub fn is_one(list: &[Expr]) -> bool
    ensures { result ≡ is_one (expressions_syntax list.now) }
{
    list.len() == 1
}

/// Where the values of a row stand: one alone as a whole.
pub fn value_spot<'m, 'a>(row: &'m Row<'a>, site: u32) -> Spot<'m, 'a>
    ensures { spot_view result ≡ value_spot (row_view row.now) site }
{
    if is_one(row.values) {
        whole(place_in(row.standing, CallPlace::OnlyValue(row)), site)
    } else {
        part_of(site)
    }
}

/// A call of `n` or `n.m`.
pub fn call_of<'m, 'a>(
    place: CallPlace<'m, 'a>,
    callee: &'a Expr,
    arguments: &'a [Expr],
    has_ellipsis: bool,
) -> Option<Call<'m, 'a>>
    ensures { option_map call_view result ≡ call_of (place_view place.entry) (expression_syntax callee.now)
        (expressions_syntax arguments.now) has_ellipsis }
{
    match as_named(callee) {
        Some(callee) => Some(Call {
            callee,
            arguments,
            has_ellipsis,
            place,
        }),
        None => None,
    }
}

/// `g.Go` or `g.TryGo`, by its form.
fn is_start(named: Named<'_>) -> bool
    ensures { result ≡ is_start (named_view named.entry) }
{
    match named.selected {
        Some(member) => member == "Go" || member == "TryGo",
        None => false,
    }
}

/// Whether the call may start its argument: it has one, without `...`.
fn starts_argument(call: &Call<'_, '_>) -> bool
    ensures { result ≡ (is_start (named_view call.now.callee)
        && (is_one (expressions_syntax call.now.arguments.now) && not call.now.has_ellipsis)) }
{
    is_start(call.callee) && is_one(call.arguments) && !call.has_ellipsis
}

/// How a literal is used that is an argument of the call.
pub fn argument_use<'a>(call: Option<&Call<'_, 'a>>) -> LiteralUse<'a>
    ensures { use_view result ≡ argument_use (optional_call call.entry) }
{
    match call {
        Some(call) => {
            if starts_argument(call) {
                LiteralUse::StartedBy(call.callee)
            } else {
                LiteralUse::Other
            }
        }
        None => LiteralUse::Other,
    }
}

/// How a literal is used that is called at the place.
pub fn callee_use<'a>(place: CallPlace<'_, '_>) -> LiteralUse<'a>
    ensures { use_view result ≡ callee_use (place_view place.entry) }
{
    match place {
        CallPlace::Deferred => LiteralUse::DeferredCall,
        CallPlace::UnderGo => LiteralUse::CallUnderGo,
        _ => LiteralUse::Other,
    }
}

/// Where the callee of a call stands that stands at this spot.
pub fn callee_spot<'m, 'a>(spot: Spot<'m, 'a>) -> Spot<'m, 'a>
    ensures { spot_view result ≡ callee_spot (spot_view spot.entry) }
{
    Spot {
        place: CallPlace::Nowhere,
        literal: callee_use(spot.place),
        taker: callee_taker(spot.place),
        site: spot.site,
    }
}

/// Where the arguments of a call stand that stands at the place.
pub fn argument_spot<'m, 'a>(
    place: CallPlace<'m, 'a>,
    call: Option<&'m Call<'m, 'a>>,
    site: u32,
) -> Spot<'m, 'a>
    ensures { spot_view result ≡ argument_spot (place_view place.entry) (optional_call call.entry) site }
{
    Spot {
        place: CallPlace::Nowhere,
        literal: argument_use(call),
        taker: literal_taker(place, call),
        site,
    }
}

/// What the place asks of a name that stands there as a whole.
pub fn name_role<'m, 'a>(place: CallPlace<'_, '_>) -> Role<'m, 'a>
    ensures { role_view result ≡ name_role (place_view place.entry) }
{
    match place {
        CallPlace::ReturnItem(index) => Role::Returned(index),
        _ => Role::Elsewhere,
    }
}

/// Adds a mention that declares nothing.
pub fn mention<'m, 'a>(
    marks: &mut Marks<'m, 'a>,
    site: u32,
    role: Role<'m, 'a>,
    named: Named<'a>,
) -> Result<(), AllocError>
    ensures { OnOk result (Adds marks.old.list.items marks.new.list.items (mention site (role_view role.entry)
        (named_view named.entry) ∷ [])) }
{
    marks.push(Mark::Mentions(Mention {
        named,
        role,
        site,
        declares: None,
    }))
}

/// Adds a name that is declared, or perhaps only assigned to by `:=`.
fn declare<'m, 'a>(
    marks: &mut Marks<'m, 'a>,
    site: u32,
    role: Role<'m, 'a>,
    name: &'a Identifier,
    declares: Option<u32>,
) -> Result<(), AllocError>
    ensures { OnOk result (Adds marks.old.list.items marks.new.list.items (declaring site (role_view role.entry)
        (identifier_syntax name.now) declares ∷ [])) }
{
    let named = Named {
        name: name.text.as_str(),
        at: name.span.start,
        selected: None,
    };
    marks.push(Mark::Mentions(Mention {
        named,
        role,
        site,
        declares,
    }))
}

/// The number of the local that a name declares.
fn number_of(name: &Identifier) -> Option<u32>
    ensures { result ≡ number_of (identifier_syntax name.now) }
{
    number_at(name.text.as_str(), name.span)
}

/// The number of the local that a name of this text, with these bytes, declares.
fn number_at(text: &str, span: Span) -> Option<u32>
    ensures { result ≡ number_of (identifier_at text.now span) }
{
    if text == BLANK {
        None
    } else {
        Some(span.start)
    }
}

/// Adds the names of a row's left side.
pub fn left_names<'m, 'a>(
    marks: &mut Marks<'m, 'a>,
    row: &'m Row<'a>,
    site: u32,
    names: &'a [Identifier],
) -> Result<(), AllocError>
    ensures { OnOk result (Adds marks.old.list.items marks.new.list.items (left_names (row_view row.now) site 0
        (map identifier_syntax names.now))) }
{
    for (index, name) in names.iter().enumerate() {
        declare(marks, site, Role::Left(index, row), name, number_of(name))?;
    }
    Ok(())
}

/// Adds a name that is declared where no row is.
pub fn declare_elsewhere<'m, 'a>(
    marks: &mut Marks<'m, 'a>,
    site: u32,
    name: &'a Identifier,
) -> Result<(), AllocError>
    ensures { OnOk result (Adds marks.old.list.items marks.new.list.items (declaring site
        exposed (identifier_syntax name.now)
        (number_of (identifier_syntax name.now)) ∷ [])) }
{
    declare(marks, site, Role::Exposed, name, number_of(name))
}

/// Adds names that are declared where no row is.
pub fn declared_elsewhere<'m, 'a>(
    marks: &mut Marks<'m, 'a>,
    site: u32,
    names: &'a [Identifier],
) -> Result<(), AllocError>
    ensures { OnOk result (Adds marks.old.list.items marks.new.list.items (declared_elsewhere site
        (map identifier_syntax names.now))) }
{
    for name in names {
        declare_elsewhere(marks, site, name)?;
    }
    Ok(())
}

/// Adds a name that is declared where no row is, by its text and its bytes.
pub fn declare_text<'m, 'a>(
    marks: &mut Marks<'m, 'a>,
    site: u32,
    text: &'a str,
    span: Span,
) -> Result<(), AllocError>
    ensures { OnOk result (Adds marks.old.list.items marks.new.list.items (declared_elsewhere site
        (identifier_at text.now span ∷ []))) }
{
    let named = Named {
        name: text,
        at: span.start,
        selected: None,
    };
    marks.push(Mark::Mentions(Mention {
        named,
        role: Role::Exposed,
        site,
        declares: number_at(text, span),
    }))
}

/// Adds the names that a list of type parameters declares.
pub fn declared_parameters<'m, 'a>(
    marks: &mut Marks<'m, 'a>,
    site: u32,
    params: &'a [Param],
) -> Result<(), AllocError>
    ensures { OnOk result (Adds marks.old.list.items marks.new.list.items (declared_elsewhere site
        (parameters_named (parameters_syntax params.now)))) }
{
    for param in params {
        declared_parameter(marks, site, param)?;
    }
    Ok(())
}

fn declared_parameter<'m, 'a>(
    marks: &mut Marks<'m, 'a>,
    site: u32,
    param: &'a Param,
) -> Result<(), AllocError>
    ensures { OnOk result (Adds marks.old.list.items marks.new.list.items (declared_elsewhere site
        (parameters_named (parameter_and param.now no_parameter)))) }
{
    match param {
        Param::Named(name, _, _) => declare_elsewhere(marks, site, name),
        Param::Unnamed(_, _) => Ok(()),
        Param::NameAlone(name) => declare_elsewhere(marks, site, name),
    }
}

/// Adds the name of a type switch, if it has one, as each clause declares it anew.
pub fn guard_in_clause<'m, 'a>(
    marks: &mut Marks<'m, 'a>,
    site: u32,
    guard: Option<&'a Identifier>,
    clause: Span,
) -> Result<(), AllocError>
    ensures { OnOk result (Adds marks.old.list.items marks.new.list.items (guard_in_clause site (option_map
        (λ n. identifier_syntax n.now) guard.entry) clause)) }
{
    match guard {
        Some(name) => {
            if name.text.as_str() == BLANK {
                Ok(())
            } else {
                declare(marks, site, Role::Exposed, name, Some(clause.start))
            }
        }
        None => Ok(()),
    }
}
