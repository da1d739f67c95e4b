//! The marks of expressions, types and statements.

ghost use Rattle.std.specs.Prelude.{◌≡◌, ◌+◌, ◌++◌, ◌<◌, ◌&&◌, not, None, OnOk, drop, length, option_map};
ghost use Rattle.meaning.specs.Mentions.{pointed_to, part_of, named_or, exposed_or, field_written, as_bare, addressed_within, new_literal_or, as_new_literal, callee_or, argument_at, argument_or, is_none_left, parameter_type_or, expression_marks, form_marks, expressions_marks, optional_marks, arguments_marks, items_marks, lefts_marks, ranged_marks, names_type_marks, signature_marks, parameters_marks, fields_marks, statement_marks, statement_form_marks, statements_marks, optional_statement_marks, cases_marks, communications_marks, specs_marks};
ghost use Rattle.mentions.specs.MarkViews.{named_view, row_view, place_view, call_view, optional_call, role_view, standing_view, spot_view};
ghost use Rattle.marks.specs.WalkViews.{AddsBy, FindsNothing};
ghost use Rattle.tree.specs.Syntax.{no_parameter, no_field, no_spec};
ghost use Rattle.tree.specs.View.{identifier_syntax, expression_form, expression_syntax, expressions_syntax, optional_expression_syntax, signature_syntax, parameters_syntax, fields_syntax, statement_form, statement_syntax, statements_syntax, optional_statement_syntax, cases_syntax, communications_syntax, specs_syntax, parameter_and, field_and, spec_and, literal_syntax};

use crate::by_edition::{Walk, behind_row, first_guard, found_nil};
use crate::by_fields::{
    argument_given, behind_literal, communication_given, field_called, field_written,
    guard_renewed, receiver_given, rights_given, sent,
};
use mentions::fields::arguments_place;
use mentions::mark::{
    Assigned, BodyPlace, Call, CallPlace, Mark, Named, Position, Role, Row, RowForm, Spot, Standing,
};
use mentions::named::{
    addressed, addressed_within, as_bare, as_bracketed, as_named, as_new_literal, as_pointer,
    bare_within, embedded, select_from,
};
use mentions::parts::{
    argument_spot, call_of, callee_spot, declare_elsewhere, declared_elsewhere,
    declared_parameters, guard_in_clause, left_names, mention, name_role, part_of, place_in,
    value_spot, whole,
};
use std::alloc::AllocError;
use tree::{
    CaseClause, CommClause, DeclKeyword, Expr, ExprKind, Field, Identifier, Literal, Param,
    Signature, Span, Spec, Stmt, StmtKind, UnaryOperator,
};

/// The marks of an expression at that spot.
///
/// # Errors
///
/// Memory was refused.
#[cycle(marks)]
pub fn expression<'m, 'a>(
    walk: &mut Walk<'m, 'a>,
    spot: Spot<'m, 'a>,
    expression: &'a Expr,
) -> Result<(), AllocError>
    ensures { OnOk result (AddsBy walk.old walk.new
        (expression_marks (spot_view spot.entry) (expression_syntax expression.now))) }
{
    expression_form(walk, spot, expression.span, &expression.kind)
}

/// The marks of a part of an expression or of a statement.
#[cycle(marks)]
fn part<'m, 'a>(walk: &mut Walk<'m, 'a>, site: u32, inner: &'a Expr) -> Result<(), AllocError>
    ensures { OnOk result (AddsBy walk.old walk.new (expression_marks
        (part_of site) (expression_syntax inner.now))) }
{
    expression(walk, part_of(site), inner)
}

/// The marks of what is named, or else those of the expression as a part.
#[cycle(marks)]
fn named_or<'m, 'a>(
    walk: &mut Walk<'m, 'a>,
    named: Option<Named<'a>>,
    role: Role<'m, 'a>,
    site: u32,
    other: &'a Expr,
) -> Result<(), AllocError>
    requires { FindsNothing (role_view role) }
    ensures { OnOk result (AddsBy walk.old walk.new
        (named_or (option_map named_view named.entry) site
        (role_view role.entry) (expression_marks (part_of site) (expression_syntax other.now)))) }
{
    named_at(walk, named, role, part_of(site), other)
}

/// The marks of what is named, or else those of the expression, which stands at the spot.
#[cycle(marks)]
fn named_at<'m, 'a>(
    walk: &mut Walk<'m, 'a>,
    named: Option<Named<'a>>,
    role: Role<'m, 'a>,
    spot: Spot<'m, 'a>,
    other: &'a Expr,
) -> Result<(), AllocError>
    requires { FindsNothing (role_view role) }
    ensures { OnOk result (AddsBy walk.old walk.new (named_or (option_map named_view named.entry)
        spot.entry.site (role_view role.entry) (expression_marks (spot_view spot.entry)
        (expression_syntax other.now)))) }
{
    match named {
        Some(named) => mention(&mut walk.marks, spot.site, role, named),
        None => expression(walk, spot, other),
    }
}

/// The marks of an expression that takes the bytes of the span.
#[cycle(marks)]
fn expression_form<'m, 'a>(
    walk: &mut Walk<'m, 'a>,
    spot: Spot<'m, 'a>,
    span: Span,
    kind: &'a ExprKind,
) -> Result<(), AllocError>
    ensures { OnOk result (AddsBy walk.old walk.new
        (form_marks (spot_view spot.entry) span (expression_form kind.now))) }
{
    match kind {
        ExprKind::Name(text) => {
            let named = Named {
                name: text.as_str(),
                at: span.start,
                selected: None,
            };
            let role: Role<'m, 'a> = name_role(spot.place);
            mention(&mut walk.marks, spot.site, role, named)
        }
        ExprKind::BasicLit(_) => Ok(()),
        ExprKind::FuncLit(literal) => function_literal(walk, spot, span, literal),
        ExprKind::CompositeLit(kind, elements) => {
            part(walk, spot.site, kind)?;
            expressions(walk, part_of(spot.site), elements)
        }
        ExprKind::LiteralValue(elements) => expressions(walk, part_of(spot.site), elements),
        ExprKind::KeyValue(key, value) => {
            named_or(walk, as_bare(key), Role::Key, spot.site, key)?;
            part(walk, spot.site, value)
        }
        ExprKind::Paren(operand) => part(walk, spot.site, operand),
        ExprKind::Selector(operand, member) => {
            let named = select_from(as_bare(operand), member);
            named_or(walk, named, Role::Elsewhere, spot.site, operand)
        }
        ExprKind::Index(operand, index) => {
            part(walk, spot.site, operand)?;
            part(walk, spot.site, index)
        }
        ExprKind::Instance(operand, arguments) => {
            part(walk, spot.site, operand)?;
            expressions(walk, part_of(spot.site), arguments)
        }
        ExprKind::Slice(operand, bounds) => {
            part(walk, spot.site, operand)?;
            optional(walk, spot.site, &bounds.low)?;
            optional(walk, spot.site, &bounds.high)?;
            optional(walk, spot.site, &bounds.max)
        }
        ExprKind::TypeAssert(operand, kind) => {
            part(walk, spot.site, operand)?;
            part(walk, spot.site, kind)
        }
        ExprKind::Call(callee, arguments, has_ellipsis) => {
            let call = walk
                .marks
                .keep_call(call_of(spot.place, callee, arguments, *has_ellipsis))?;
            receiver_given(walk, spot.place, spot.site, callee)?;
            let place: CallPlace<'m, 'a> = arguments_place(spot.place, callee);
            all_arguments(walk, place, call, spot.site, arguments)?;
            callee_or(walk, call, callee_spot(spot), callee)?;
            field_called(walk, spot.site, callee)
        }
        ExprKind::Star(operand) => part(walk, spot.site, operand),
        ExprKind::Unary(operator, operand) => unary(walk, spot, *operator, operand),
        ExprKind::Binary(_, left, right) => {
            part(walk, spot.site, left)?;
            part(walk, spot.site, right)
        }
        ExprKind::ArrayType(length, element) => {
            part(walk, spot.site, length)?;
            part(walk, spot.site, element)
        }
        ExprKind::EllipsisArrayType(element) => part(walk, spot.site, element),
        ExprKind::SliceType(element) => part(walk, spot.site, element),
        ExprKind::MapType(index, element) => {
            part(walk, spot.site, index)?;
            part(walk, spot.site, element)
        }
        ExprKind::ChanType(_, element) => part(walk, spot.site, element),
        ExprKind::FuncType(kind) => signature(walk, spot.site, kind),
        ExprKind::StructType(list) => fields(walk, spot.site, list),
        ExprKind::InterfaceType(list) => fields(walk, spot.site, list),
    }
}

/// A literal is a body.
#[cycle(marks)]
fn function_literal<'m, 'a>(
    walk: &mut Walk<'m, 'a>,
    spot: Spot<'m, 'a>,
    span: Span,
    literal: &'a Literal,
) -> Result<(), AllocError>
    ensures { OnOk result (AddsBy walk.old walk.new
        (form_marks (spot_view spot.entry) span (literal_syntax literal.now))) }
{
    let list: &'a [Stmt] = &literal.body.statements;
    let body = walk.marks.keep_body(BodyPlace {
        at: span.start,
        name: None,
        receiver: None,
        signature: &literal.signature,
        statements: list,
        braces: literal.body.span,
        literal: spot.literal,
    })?;
    walk.marks.push(Mark::Opens(body))?;
    signature(walk, span.start, &literal.signature)?;
    statements(walk, list)?;
    walk.marks.push(Mark::Closes)?;
    behind_literal(walk, spot, span.start)
}

/// The marks of an operator and its operand; `&T{}` may be the only value of a row.
#[cycle(marks)]
fn unary<'m, 'a>(
    walk: &mut Walk<'m, 'a>,
    spot: Spot<'m, 'a>,
    operator: UnaryOperator,
    operand: &'a Expr,
) -> Result<(), AllocError>
    ensures { OnOk result (AddsBy walk.old walk.new (new_literal_or (place_view spot.entry.place) spot.entry.site
        (as_new_literal operator (expression_syntax operand.now))
        (named_or (addressed_within operator (expression_syntax operand.now)) spot.entry.site pointed_to
        (expression_marks (part_of spot.entry.site) (expression_syntax operand.now))))) }
{
    match spot.place {
        CallPlace::OnlyValue(row) => match as_new_literal(operator, operand) {
            Some(named) => mention(&mut walk.marks, spot.site, Role::NewLiteral(row), named),
            None => behind_operator(walk, spot.site, operator, operand),
        },
        _ => behind_operator(walk, spot.site, operator, operand),
    }
}

/// The marks of an operand, with its role if it is a name of which the operator takes the address.
#[cycle(marks)]
fn behind_operator<'m, 'a>(
    walk: &mut Walk<'m, 'a>,
    site: u32,
    operator: UnaryOperator,
    operand: &'a Expr,
) -> Result<(), AllocError>
    ensures { OnOk result (AddsBy walk.old walk.new (named_or
        (addressed_within operator (expression_syntax operand.now)) site pointed_to
        (expression_marks (part_of site) (expression_syntax operand.now)))) }
{
    let named = addressed_within(operator, operand);
    named_or(walk, named, Role::PointedTo, site, operand)
}

/// The marks of an expression whose name, in brackets or not, is exposed.
#[cycle(marks)]
fn exposed_or<'m, 'a>(walk: &mut Walk<'m, 'a>, site: u32, inner: &'a Expr) -> Result<(), AllocError>
    ensures { OnOk result (AddsBy walk.old walk.new (exposed_or site (expression_syntax inner.now)
        (expression_marks (part_of site) (expression_syntax inner.now)))) }
{
    named_or(walk, bare_within(inner), Role::Exposed, site, inner)
}

/// The marks of an expression that gets another value, by no row: its name is exposed, or its field is written.
#[cycle(marks)]
fn overwritten<'m, 'a>(
    walk: &mut Walk<'m, 'a>,
    site: u32,
    inner: &'a Expr,
) -> Result<(), AllocError>
    ensures { OnOk result (AddsBy walk.old walk.new (exposed_or site (expression_syntax inner.now)
        (expression_marks (part_of site) (expression_syntax inner.now))
        ++ field_written site None (expression_syntax inner.now))) }
{
    exposed_or(walk, site, inner)?;
    field_written(walk, site, None, inner)
}

/// The callee of a call: a mention, in brackets too, or another expression, which stands at the spot.
#[cycle(marks)]
fn callee_or<'m, 'a>(
    walk: &mut Walk<'m, 'a>,
    call: Option<&'m Call<'m, 'a>>,
    spot: Spot<'m, 'a>,
    callee: &'a Expr,
) -> Result<(), AllocError>
    ensures { OnOk result (AddsBy walk.old walk.new (callee_or (optional_call call.entry) spot.entry.site
        (expression_syntax callee.now) (expression_marks (spot_view spot.entry) (expression_syntax callee.now)))) }
{
    match call {
        Some(call) => mention(&mut walk.marks, spot.site, Role::Called(call), call.callee),
        None => {
            let named = as_bracketed(callee);
            named_at(walk, named, Role::CalledInBrackets, spot, callee)
        }
    }
}

/// The marks of expressions, one after the other.
///
/// # Errors
///
/// Memory was refused.
#[cycle(marks)]
pub fn expressions<'m, 'a>(
    walk: &mut Walk<'m, 'a>,
    spot: Spot<'m, 'a>,
    list: &'a [Expr],
) -> Result<(), AllocError>
    ensures { OnOk result (AddsBy walk.old walk.new
        (expressions_marks (spot_view spot.entry) (expressions_syntax list.now))) }
{
    for item in list {
        expression(walk, spot, item)?;
    }
    Ok(())
}

/// The marks of an expression at that site, where there is one.
///
/// # Errors
///
/// Memory was refused.
#[cycle(marks)]
pub fn optional<'m, 'a>(
    walk: &mut Walk<'m, 'a>,
    site: u32,
    present: &'a Option<Box<Expr>>,
) -> Result<(), AllocError>
    ensures { OnOk result (AddsBy walk.old walk.new
        (optional_marks site (optional_expression_syntax present.now))) }
{
    match present {
        Some(present) => part(walk, site, present),
        None => Ok(()),
    }
}

/// The arguments of a call that stands at the place.
#[cycle(marks)]
fn all_arguments<'m, 'a>(
    walk: &mut Walk<'m, 'a>,
    place: CallPlace<'m, 'a>,
    call: Option<&'m Call<'m, 'a>>,
    site: u32,
    list: &'a [Expr],
) -> Result<(), AllocError>
    ensures { OnOk result (AddsBy walk.old walk.new
        (arguments_marks (place_view place.entry) (optional_call call.entry) site 0 (expressions_syntax list.now))) }
{
    let spot = argument_spot(place, call, site);
    for (index, item) in list.iter().enumerate() {
        let position = Position {
            index,
            is_last: is_last(index, list),
        };
        argument(walk, call, spot, position, item)?;
        argument_given(walk, place, call, site, item)?;
    }
    Ok(())
}

/// Whether none is left behind the item of that number.
fn is_last(index: usize, list: &[Expr]) -> bool
    requires { index < length list.now }
    ensures { result ≡ is_none_left (expressions_syntax (drop (index + 1) list.now)) }
{
    index + 1 == list.len()
}

/// The argument at that position, if it is none that is named as one an expression at the spot; under `...` it is at no
/// position.
#[cycle(marks)]
fn argument<'m, 'a>(
    walk: &mut Walk<'m, 'a>,
    call: Option<&'m Call<'m, 'a>>,
    spot: Spot<'m, 'a>,
    position: Position,
    argument: &'a Expr,
) -> Result<(), AllocError>
    ensures { OnOk result (AddsBy walk.old walk.new
        (argument_at (optional_call call.entry) spot.entry.site position.index
        position.is_last (expression_syntax argument.now)
        (expression_marks (spot_view spot.entry) (expression_syntax argument.now)))) }
{
    match call {
        Some(call) => {
            if position.is_last && call.has_ellipsis {
                expression(walk, spot, argument)
            } else {
                argument_of(walk, call, spot, position.index, argument)
            }
        }
        None => expression(walk, spot, argument),
    }
}

/// The argument of that number: `n`, `n.m`, `&n`, or another expression, which stands at the spot.
#[cycle(marks)]
fn argument_of<'m, 'a>(
    walk: &mut Walk<'m, 'a>,
    call: &'m Call<'m, 'a>,
    spot: Spot<'m, 'a>,
    index: usize,
    argument: &'a Expr,
) -> Result<(), AllocError>
    ensures { OnOk result (AddsBy walk.old walk.new
        (argument_or (call_view call.now) spot.entry.site
        index (expression_syntax argument.now) (expression_marks (spot_view spot.entry)
        (expression_syntax argument.now)))) }
{
    match &argument.kind {
        ExprKind::Unary(operator, operand) => {
            let role = Role::Argument(true, index, call);
            named_at(walk, addressed(*operator, operand), role, spot, argument)
        }
        _ => {
            let role = Role::Argument(false, index, call);
            named_at(walk, as_named(argument), role, spot, argument)
        }
    }
}

/// The items of a return list.
#[cycle(marks)]
fn items<'m, 'a>(walk: &mut Walk<'m, 'a>, site: u32, list: &'a [Expr]) -> Result<(), AllocError>
    ensures { OnOk result (AddsBy walk.old walk.new
        (items_marks site 0 (expressions_syntax list.now))) }
{
    for (index, item) in list.iter().enumerate() {
        expression(walk, whole(CallPlace::ReturnItem(index), site), item)?;
    }
    Ok(())
}

/// The marks of a left side of a row, with its role if it is a name.
#[cycle(marks)]
fn left_side<'m, 'a>(
    walk: &mut Walk<'m, 'a>,
    role: Role<'m, 'a>,
    site: u32,
    item: &'a Expr,
) -> Result<(), AllocError>
    requires { FindsNothing (role_view role) }
    ensures { OnOk result (AddsBy walk.old walk.new (named_or (as_bare (expression_syntax item.now)) site
        (role_view role.entry) (exposed_or site (expression_syntax item.now)
        (expression_marks (part_of site) (expression_syntax item.now))))) }
{
    match as_bare(item) {
        Some(named) => mention(&mut walk.marks, site, role, named),
        None => exposed_or(walk, site, item),
    }
}

/// The left sides of a row.
#[cycle(marks)]
fn lefts<'m, 'a>(
    walk: &mut Walk<'m, 'a>,
    row: &'m Row<'a>,
    site: u32,
    list: &'a [Expr],
) -> Result<(), AllocError>
    ensures { OnOk result (AddsBy walk.old walk.new
        (lefts_marks (row_view row.now) site 0 (expressions_syntax list.now))) }
{
    for (index, item) in list.iter().enumerate() {
        let role = Role::Left(index, row);
        left_side(walk, role, site, item)?;
        let assigned = Assigned {
            left_side: index,
            row,
        };
        field_written(walk, site, Some(assigned), item)?;
    }
    Ok(())
}

/// The left sides of a `range`.
#[cycle(marks)]
fn ranged<'m, 'a>(walk: &mut Walk<'m, 'a>, site: u32, list: &'a [Expr]) -> Result<(), AllocError>
    ensures { OnOk result (AddsBy walk.old walk.new (ranged_marks site (expressions_syntax list.now))) }
{
    for item in list {
        overwritten(walk, site, item)?;
    }
    Ok(())
}

/// The type of a row's names.
#[cycle(marks)]
fn names_type<'m, 'a>(
    walk: &mut Walk<'m, 'a>,
    row: &'m Row<'a>,
    site: u32,
    present: &'a Option<Box<Expr>>,
) -> Result<(), AllocError>
    ensures { OnOk result (AddsBy walk.old walk.new
        (names_type_marks (row_view row.now) site (optional_expression_syntax present.now))) }
{
    match present {
        Some(kind) => {
            let role = Role::NamesType(row);
            named_or(walk, as_named(kind), role, site, kind)
        }
        None => Ok(()),
    }
}

/// The types of parameters and results.
#[cycle(marks)]
pub fn signature<'m, 'a>(
    walk: &mut Walk<'m, 'a>,
    site: u32,
    signature: &'a Signature,
) -> Result<(), AllocError>
    ensures { OnOk result (AddsBy walk.old walk.new
        (signature_marks site (signature_syntax signature.now))) }
{
    parameters(walk, true, site, &signature.params)?;
    parameters(walk, false, site, &signature.results)
}

/// The marks of parameters, or of results.
///
/// # Errors
///
/// Memory was refused.
#[cycle(marks)]
pub fn parameters<'m, 'a>(
    walk: &mut Walk<'m, 'a>,
    are_parameters: bool,
    site: u32,
    list: &'a [Param],
) -> Result<(), AllocError>
    ensures { OnOk result (AddsBy walk.old walk.new
        (parameters_marks are_parameters site (parameters_syntax list.now))) }
{
    for item in list {
        parameter(walk, are_parameters, site, item)?;
    }
    Ok(())
}

#[cycle(marks)]
fn parameter<'m, 'a>(
    walk: &mut Walk<'m, 'a>,
    are_parameters: bool,
    site: u32,
    param: &'a Param,
) -> Result<(), AllocError>
    ensures { OnOk result (AddsBy walk.old walk.new
        (parameters_marks are_parameters site (parameter_and param.now no_parameter))) }
{
    match param {
        Param::Named(_, has_ellipsis, kind) => {
            parameter_type(
                walk,
                is_plain_type(are_parameters, *has_ellipsis),
                site,
                kind,
            )
        }
        Param::Unnamed(has_ellipsis, kind) => {
            parameter_type(
                walk,
                is_plain_type(are_parameters, *has_ellipsis),
                site,
                kind,
            )
        }
        Param::NameAlone(_) => Ok(()),
    }
}

/// Whether it is the type of a parameter, and no `...` stands before it.
fn is_plain_type(is_parameter: bool, has_ellipsis: bool) -> bool
    ensures { result ≡ (is_parameter && not has_ellipsis) }
{
    is_parameter && !has_ellipsis
}

/// The type of a parameter, `*T` as a whole unless `...` stands before it; that of a result never.
#[cycle(marks)]
fn parameter_type<'m, 'a>(
    walk: &mut Walk<'m, 'a>,
    is_plain: bool,
    site: u32,
    kind: &'a Expr,
) -> Result<(), AllocError>
    ensures { OnOk result (AddsBy walk.old walk.new
        (parameter_type_or is_plain
        (expression_syntax kind.now) site (expression_marks (part_of site)
        (expression_syntax kind.now)))) }
{
    if is_plain {
        named_or(walk, as_pointer(kind), Role::ParameterPointer, site, kind)
    } else {
        part(walk, site, kind)
    }
}

#[cycle(marks)]
fn fields<'m, 'a>(walk: &mut Walk<'m, 'a>, site: u32, list: &'a [Field]) -> Result<(), AllocError>
    ensures { OnOk result (AddsBy walk.old walk.new
        (fields_marks site (fields_syntax list.now))) }
{
    for item in list {
        field(walk, site, item)?;
    }
    Ok(())
}

#[cycle(marks)]
fn field<'m, 'a>(walk: &mut Walk<'m, 'a>, site: u32, field: &'a Field) -> Result<(), AllocError>
    ensures { OnOk result (AddsBy walk.old walk.new
        (fields_marks site (field_and field.now no_field))) }
{
    match field {
        Field::Named(_, kind, _, _) => part(walk, site, kind),
        Field::Embedded(_, name, _, _) => mention(
            &mut walk.marks,
            site,
            Role::Elsewhere,
            embedded(name),
        ),
        Field::Element(_, kind, _, _) => part(walk, site, kind),
        Field::Method(_, kind, _) => signature(walk, site, kind),
    }
}

#[cycle(marks)]
fn statement<'m, 'a>(
    walk: &mut Walk<'m, 'a>,
    standing: Standing,
    statement: &'a Stmt,
) -> Result<(), AllocError>
    ensures { OnOk result (AddsBy walk.old walk.new
        (statement_marks (standing_view standing) (statement_syntax statement.now))) }
{
    statement_form(walk, standing, statement.span.start, &statement.kind)
}

/// The marks of a statement that begins at the offset.
#[cycle(marks)]
fn statement_form<'m, 'a>(
    walk: &mut Walk<'m, 'a>,
    standing: Standing,
    at: u32,
    kind: &'a StmtKind,
) -> Result<(), AllocError>
    ensures { OnOk result (AddsBy walk.old walk.new
        (statement_form_marks (standing_view standing) at (statement_form kind.now))) }
{
    match kind {
        StmtKind::Empty => Ok(()),
        StmtKind::Decl(declaration) => {
            let at = declaration.span.start;
            specs(walk, declaration.keyword, at, &declaration.specs)
        }
        StmtKind::Labeled(_, labeled) => statement(walk, standing, labeled),
        StmtKind::Expr(value) => {
            let place = place_in(standing, CallPlace::Statement);
            expression(walk, whole(place, at), value)
        }
        StmtKind::Send(channel, value) => {
            part(walk, at, channel)?;
            part(walk, at, value)?;
            sent(walk, standing, at, value)
        }
        StmtKind::Increment(operand) => overwritten(walk, at, operand),
        StmtKind::Decrement(operand) => overwritten(walk, at, operand),
        StmtKind::Assign(left, values) => {
            let row = walk.marks.keep_row(Row {
                form: RowForm::Assigns(left),
                values,
                statement: at,
                standing,
            })?;
            expressions(walk, value_spot(row, at), values)?;
            rights_given(walk, at, left, values)?;
            lefts(walk, row, at, left)
        }
        StmtKind::AssignOp(_, left, right) => {
            exposed_or(walk, at, left)?;
            part(walk, at, right)?;
            field_written(walk, at, None, left)
        }
        StmtKind::Define(names, values) => {
            let row = walk.marks.keep_row(Row {
                form: RowForm::Defines(names),
                values,
                statement: at,
                standing,
            })?;
            expressions(walk, value_spot(row, at), values)?;
            left_names(&mut walk.marks, row, at, names)
        }
        StmtKind::Go(call) => expression(walk, whole(CallPlace::UnderGo, at), call),
        StmtKind::Defer(call) => expression(walk, whole(CallPlace::Deferred, at), call),
        StmtKind::Return(values) => {
            items(walk, at, values)?;
            walk.marks.push(Mark::Returns(at, values))?;
            Ok(())
        }
        StmtKind::Break(_) => Ok(()),
        StmtKind::Continue(_) => Ok(()),
        StmtKind::Goto(_) => Ok(()),
        StmtKind::Fallthrough => Ok(()),
        StmtKind::Block(inner) => statements(walk, &inner.statements),
        StmtKind::If {
            init,
            condition,
            body,
            otherwise,
            ..
        } => {
            optional_statement(walk, Standing::Ordinary, init)?;
            part(walk, at, condition)?;
            first_guard(walk, init, condition, body.span)?;
            found_nil(walk, body.span.start, true, condition)?;
            statements(walk, &body.statements)?;
            found_nil(walk, body.span.end.saturating_sub(1), false, condition)?;
            optional_statement(walk, Standing::Ordinary, otherwise)
        }
        StmtKind::For {
            init,
            condition,
            post,
            body,
            ..
        } => {
            optional_statement(walk, Standing::FirstOfFor, init)?;
            optional(walk, at, condition)?;
            optional_statement(walk, Standing::Ordinary, post)?;
            statements(walk, &body.statements)
        }
        StmtKind::RangeAssign(left, operand, body) => {
            ranged(walk, at, left)?;
            part(walk, at, operand)?;
            statements(walk, &body.statements)
        }
        StmtKind::RangeDefine(names, operand, body) => {
            part(walk, at, operand)?;
            declared_elsewhere(&mut walk.marks, at, names)?;
            statements(walk, &body.statements)
        }
        StmtKind::Switch {
            init,
            tag,
            clauses,
            ..
        } => {
            optional_statement(walk, Standing::Ordinary, init)?;
            optional(walk, at, tag)?;
            cases(walk, at, None, clauses)
        }
        StmtKind::TypeSwitch {
            init,
            name,
            operand,
            clauses,
            ..
        } => {
            optional_statement(walk, Standing::Ordinary, init)?;
            part(walk, at, operand)?;
            cases(walk, at, name.as_ref(), clauses)
        }
        StmtKind::Select(clauses) => communications(walk, clauses),
    }
}

/// The marks of statements, one after the other.
///
/// # Errors
///
/// Memory was refused.
#[cycle(marks)]
pub fn statements<'m, 'a>(walk: &mut Walk<'m, 'a>, list: &'a [Stmt]) -> Result<(), AllocError>
    ensures { OnOk result (AddsBy walk.old walk.new
        (statements_marks (statements_syntax list.now))) }
{
    for (index, item) in list.iter().enumerate() {
        statement(walk, Standing::Ordinary, item)?;
        behind_row(walk, item, index, list)?;
    }
    Ok(())
}

#[cycle(marks)]
fn optional_statement<'m, 'a>(
    walk: &mut Walk<'m, 'a>,
    standing: Standing,
    present: &'a Option<Box<Stmt>>,
) -> Result<(), AllocError>
    ensures { OnOk result (AddsBy walk.old walk.new
        (optional_statement_marks (standing_view standing) (optional_statement_syntax present.now))) }
{
    match present {
        Some(present) => statement(walk, standing, present),
        None => Ok(()),
    }
}

/// The clauses of a switch that begins at the offset, with the name of a type switch.
#[cycle(marks)]
fn cases<'m, 'a>(
    walk: &mut Walk<'m, 'a>,
    at: u32,
    guard: Option<&'a Identifier>,
    clauses: &'a [CaseClause],
) -> Result<(), AllocError>
    ensures { OnOk result (AddsBy walk.old walk.new (cases_marks at (option_map
        (λ n. identifier_syntax n.now) guard.entry) (cases_syntax clauses.now))) }
{
    for clause in clauses {
        guard_in_clause(&mut walk.marks, at, guard, clause.span)?;
        guard_renewed(walk, guard, clause.span)?;
        expressions(walk, part_of(clause.span.start), &clause.expressions)?;
        statements(walk, &clause.statements)?;
    }
    Ok(())
}

#[cycle(marks)]
fn communications<'m, 'a>(
    walk: &mut Walk<'m, 'a>,
    clauses: &'a [CommClause],
) -> Result<(), AllocError>
    ensures { OnOk result (AddsBy walk.old walk.new
        (communications_marks (communications_syntax clauses.now))) }
{
    for clause in clauses {
        optional_statement(walk, Standing::Communication, &clause.communication)?;
        communication_given(walk, clause.span.start, &clause.communication)?;
        statements(walk, &clause.statements)?;
    }
    Ok(())
}

/// The specs of a declaration that begins at the offset.
#[cycle(marks)]
fn specs<'m, 'a>(
    walk: &mut Walk<'m, 'a>,
    keyword: DeclKeyword,
    at: u32,
    list: &'a [Spec],
) -> Result<(), AllocError>
    ensures { OnOk result (AddsBy walk.old walk.new
        (specs_marks keyword at (specs_syntax list.now))) }
{
    for item in list {
        spec(walk, keyword, at, item)?;
    }
    Ok(())
}

#[cycle(marks)]
fn spec<'m, 'a>(
    walk: &mut Walk<'m, 'a>,
    keyword: DeclKeyword,
    at: u32,
    spec: &'a Spec,
) -> Result<(), AllocError>
    ensures { OnOk result (AddsBy walk.old walk.new
        (specs_marks keyword at (spec_and spec.now no_spec))) }
{
    match spec {
        Spec::Value(names, kind, values, span) => {
            let row = walk.marks.keep_row(Row {
                form: RowForm::Declares(keyword, names, kind),
                values,
                statement: at,
                standing: Standing::Ordinary,
            })?;
            names_type(walk, row, span.start, kind)?;
            expressions(walk, value_spot(row, span.start), values)?;
            left_names(&mut walk.marks, row, span.start, names)
        }
        Spec::Type(name, params, _, kind, span) => {
            declare_elsewhere(&mut walk.marks, span.start, name)?;
            declared_parameters(&mut walk.marks, span.start, params)?;
            parameters(walk, false, span.start, params)?;
            part(walk, span.start, kind)
        }
    }
}
