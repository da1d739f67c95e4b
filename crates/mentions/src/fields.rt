//! Fields that are called or get values, and what is given to others (the Go specification, "Calls", "Assignment
//! statements", "Send statements", "Go statements", "Defer statements").

ghost use Rattle.std.specs.Prelude.{◌≡◌, [], ◌∷◌, if◌then◌else◌, is_some, OnOk, option_map, map};
ghost use Rattle.meaning.specs.Mentions.{under_go, bare_within, in_more_brackets, object_of, is_in_brackets, field_left, arguments_place, argument_taker, literal_taker, callee_taker, of_fields, imports_all, field_called, field_written, given_to, literal_given_to, receiver_given, all_given_to, appended, right_given, rights_given, is_one, sent, renewed, communication_given, guard_renewed};
ghost use Rattle.mentions.specs.MarkViews.{Adds, named_view, addressed_object, place_view, optional_call, standing_view, field_left_view, assigned_view, taker_view, field_mark_view};
ghost use Rattle.tree.specs.View.{expression_syntax, expressions_syntax, identifier_syntax, statement_syntax, optional_statement_syntax};
ghost use Rattle.tree.specs.Syntax.{present_statement};

use crate::kept::Marks;
use crate::mark::{Assigned, Call, CallPlace, FieldLeft, FieldMark, Mark, Named, Standing, Taker};
use crate::named::{as_bare, as_bracketed, bare_within};
use crate::parts::is_one;
use std::alloc::AllocError;
use tree::{Expr, ExprKind, Identifier, Span, Stmt, StmtKind, UnaryOperator};

fn in_more_brackets(left: Option<FieldLeft<'_>>) -> Option<FieldLeft<'_>>
    ensures { option_map field_left_view result ≡ option_map in_more_brackets (option_map field_left_view left.entry) }
{
    match left {
        Some(left) => Some(FieldLeft {
            field: left.field,
            object: left.object,
            has_brackets: true,
        }),
        None => None,
    }
}

/// The object of the operand, behind an operator that takes its address.
fn addressed_object(operator: UnaryOperator, object: Option<Named<'_>>) -> Option<Named<'_>>
    ensures { option_map named_view result ≡ addressed_object operator (option_map named_view object.entry) }
{
    match operator {
        UnaryOperator::Address => object,
        _ => None,
    }
}

/// n, in brackets, and behind `*` and `&`.
fn object_of(expression: &Expr) -> Option<Named<'_>>
    ensures { option_map named_view result ≡ object_of (expression_syntax expression.now) }
{
    match &expression.kind {
        ExprKind::Paren(operand) => object_of(operand),
        ExprKind::Star(operand) => object_of(operand),
        ExprKind::Unary(operator, operand) => addressed_object(*operator, object_of(operand)),
        _ => as_bare(expression),
    }
}

fn is_in_brackets(expression: &Expr) -> bool
    ensures { result ≡ is_in_brackets (expression_syntax expression.now) }
{
    match &expression.kind {
        ExprKind::Paren(_) => true,
        _ => false,
    }
}

/// `e.f`, in brackets or not.
pub fn field_left(expression: &Expr) -> Option<FieldLeft<'_>>
    ensures { option_map field_left_view result ≡ field_left (expression_syntax expression.now) }
{
    match &expression.kind {
        ExprKind::Selector(operand, field) => Some(FieldLeft {
            field,
            object: object_of(operand),
            has_brackets: is_in_brackets(operand),
        }),
        ExprKind::Paren(operand) => in_more_brackets(field_left(operand)),
        _ => None,
    }
}

/// Where the arguments of a call stand: what a name in brackets calls gets nothing for certain.
pub fn arguments_place<'m, 'a>(place: CallPlace<'m, 'a>, callee: &Expr) -> CallPlace<'m, 'a>
    ensures { place_view result ≡ arguments_place (place_view place.entry) (expression_syntax callee.now) }
{
    match as_bracketed(callee) {
        Some(_) => CallPlace::Nowhere,
        None => place,
    }
}

/// Who gets the arguments of a call: if it stands as a whole, what is called.
pub fn argument_taker<'m, 'a>(
    place: CallPlace<'m, 'a>,
    call: Option<&'m Call<'m, 'a>>,
) -> Taker<'m, 'a>
    ensures { taker_view result ≡ argument_taker (place_view place.entry) (optional_call call.entry) }
{
    match place {
        CallPlace::Nowhere => Taker::Nobody,
        _ => Taker::CalledFunction(call),
    }
}

/// Who gets what the literals among the arguments of a call mention: if the call is made there and then, what is
/// called.
pub fn literal_taker<'m, 'a>(
    place: CallPlace<'m, 'a>,
    call: Option<&'m Call<'m, 'a>>,
) -> Taker<'m, 'a>
    ensures { taker_view result ≡ literal_taker (place_view place.entry) (optional_call call.entry) }
{
    match place {
        CallPlace::Nowhere => Taker::Nobody,
        CallPlace::Deferred => Taker::Nobody,
        CallPlace::UnderGo => Taker::Nobody,
        _ => Taker::CalledFunction(call),
    }
}

/// Who gets what a literal mentions that is called at the place: under `go`, a goroutine.
pub fn callee_taker<'m, 'a>(place: CallPlace<'m, 'a>) -> Taker<'m, 'a>
    ensures { taker_view result ≡ callee_taker (place_view place.entry) }
{
    match place {
        CallPlace::UnderGo => Taker::Someone,
        _ => Taker::Nobody,
    }
}

/// Adds what is asked of a field, or given to others.
fn add<'m, 'a>(
    marks: &mut Marks<'m, 'a>,
    site: u32,
    field: FieldMark<'m, 'a>,
) -> Result<(), AllocError>
    ensures { OnOk result (Adds marks.old.list.items marks.new.list.items
        (of_fields site (field_mark_view field.entry) ∷ [])) }
{
    let kept = marks.keep_field(field)?;
    marks.push(Mark::OfFields(site, kept))
}

/// Adds that an import of the file brings names that aren't written.
///
/// # Errors
///
/// Memory was refused.
pub fn imports_all<'m, 'a>(marks: &mut Marks<'m, 'a>, site: u32) -> Result<(), AllocError>
    ensures { OnOk result (Adds marks.old.list.items marks.new.list.items (of_fields site imports_all ∷ [])) }
{
    add(marks, site, FieldMark::ImportsAll)
}

/// Adds that the field is called, where the callee is one.
///
/// # Errors
///
/// Memory was refused.
pub fn field_called<'m, 'a>(
    marks: &mut Marks<'m, 'a>,
    site: u32,
    callee: &'a Expr,
) -> Result<(), AllocError>
    ensures { OnOk result (Adds marks.old.list.items marks.new.list.items (field_called site
        (expression_syntax callee.now))) }
{
    match &callee.kind {
        ExprKind::Selector(_, field) => add(
            marks,
            site,
            FieldMark::CallsField(field.text.as_str()),
        ),
        _ => Ok(()),
    }
}

/// Adds that the field gets a value, where the left side is one.
///
/// # Errors
///
/// Memory was refused.
pub fn field_written<'m, 'a>(
    marks: &mut Marks<'m, 'a>,
    site: u32,
    assigned: Option<Assigned<'m, 'a>>,
    left: &'a Expr,
) -> Result<(), AllocError>
    ensures { OnOk result (Adds marks.old.list.items marks.new.list.items (field_written site
        (option_map assigned_view assigned.entry) (expression_syntax left.now))) }
{
    match field_left(left) {
        Some(left) => add(marks, site, FieldMark::WritesField { left, assigned }),
        None => Ok(()),
    }
}

/// Adds that the expression is given to the taker, if there is one.
///
/// # Errors
///
/// Memory was refused.
pub fn given_to<'m, 'a>(
    marks: &mut Marks<'m, 'a>,
    site: u32,
    taker: Taker<'m, 'a>,
    value: &'a Expr,
) -> Result<(), AllocError>
    ensures { OnOk result (Adds marks.old.list.items marks.new.list.items (given_to site
        (taker_view taker.entry) (expression_syntax value.now))) }
{
    match taker {
        Taker::Nobody => Ok(()),
        _ => add(marks, site, FieldMark::HandsOver { taker, value }),
    }
}

/// Adds that the literal at that offset is given to the taker, if there is one.
///
/// # Errors
///
/// Memory was refused.
pub fn literal_given_to<'m, 'a>(
    marks: &mut Marks<'m, 'a>,
    site: u32,
    taker: Taker<'m, 'a>,
    at: u32,
) -> Result<(), AllocError>
    ensures { OnOk result (Adds marks.old.list.items marks.new.list.items (literal_given_to site
        (taker_view taker.entry) at)) }
{
    match taker {
        Taker::Nobody => Ok(()),
        _ => add(marks, site, FieldMark::HandsLiteral { taker, at }),
    }
}

/// Adds that x of `x.m(..)` is given to the method.
fn method_given<'m, 'a>(
    marks: &mut Marks<'m, 'a>,
    site: u32,
    callee: &'a Expr,
) -> Result<(), AllocError>
    ensures { OnOk result (Adds marks.old.list.items marks.new.list.items (receiver_given under_go site
        (expression_syntax callee.now))) }
{
    match &callee.kind {
        ExprKind::Selector(operand, method) => {
            let taker = Taker::Method(method.text.as_str());
            given_to(marks, site, taker, operand)
        }
        _ => Ok(()),
    }
}

/// Adds that x of `go x.m(..)` and `defer x.m(..)` is given to the method.
///
/// # Errors
///
/// Memory was refused.
pub fn receiver_given<'m, 'a>(
    marks: &mut Marks<'m, 'a>,
    place: CallPlace<'m, 'a>,
    site: u32,
    callee: &'a Expr,
) -> Result<(), AllocError>
    ensures { OnOk result (Adds marks.old.list.items marks.new.list.items (receiver_given (place_view place.entry) site
        (expression_syntax callee.now))) }
{
    match place {
        CallPlace::Deferred => method_given(marks, site, callee),
        CallPlace::UnderGo => method_given(marks, site, callee),
        _ => Ok(()),
    }
}

/// Adds that each of the expressions is given to the taker.
fn all_given_to<'m, 'a>(
    marks: &mut Marks<'m, 'a>,
    site: u32,
    taker: Taker<'m, 'a>,
    list: &'a [Expr],
) -> Result<(), AllocError>
    ensures { OnOk result (Adds marks.old.list.items marks.new.list.items (all_given_to site
        (taker_view taker.entry) (expressions_syntax list.now))) }
{
    for item in list {
        given_to(marks, site, taker, item)?;
    }
    Ok(())
}

/// Adds what `append` is called with, where that is what is called.
fn appended<'m, 'a>(
    marks: &mut Marks<'m, 'a>,
    site: u32,
    callee: Option<Named<'a>>,
    list: &'a [Expr],
) -> Result<(), AllocError>
    ensures { OnOk result (Adds marks.old.list.items marks.new.list.items (appended site
        (option_map named_view callee.entry) (expressions_syntax list.now))) }
{
    match callee {
        Some(named) => {
            if named.name == "append" {
                let kept = marks.keep_named(named)?;
                all_given_to(marks, site, Taker::Appending(kept), list)
            } else {
                Ok(())
            }
        }
        None => Ok(()),
    }
}

/// Adds what the right side gives to others that is assigned to what is no name; it may be the only one.
fn right_given<'m, 'a>(
    marks: &mut Marks<'m, 'a>,
    site: u32,
    is_only: bool,
    right: &'a Expr,
) -> Result<(), AllocError>
    ensures { OnOk result (Adds marks.old.list.items marks.new.list.items (right_given site is_only
        (expression_syntax right.now))) }
{
    match &right.kind {
        ExprKind::Call(callee, arguments, _) => {
            if is_only {
                Ok(())
            } else {
                appended(marks, site, as_bare(callee), arguments)
            }
        }
        _ => given_to(marks, site, Taker::Someone, right),
    }
}

/// Adds what the right side gives to others that is assigned to this left side.
fn pair_given<'m, 'a>(
    marks: &mut Marks<'m, 'a>,
    site: u32,
    is_only: bool,
    left: &'a Expr,
    right: &'a Expr,
) -> Result<(), AllocError>
    ensures { OnOk result (Adds marks.old.list.items marks.new.list.items
        (if is_some (bare_within (expression_syntax left.now)) then []
        else right_given site is_only (expression_syntax right.now))) }
{
    if bare_within(left).is_some() {
        Ok(())
    } else {
        right_given(marks, site, is_only, right)
    }
}

/// Adds what the right sides of an assignment give to others.
///
/// # Errors
///
/// Memory was refused.
pub fn rights_given<'m, 'a>(
    marks: &mut Marks<'m, 'a>,
    site: u32,
    lefts: &'a [Expr],
    rights: &'a [Expr],
) -> Result<(), AllocError>
    ensures { OnOk result (Adds marks.old.list.items marks.new.list.items (rights_given site
        (is_one (expressions_syntax rights.now)) (expressions_syntax lefts.now) (expressions_syntax rights.now))) }
{
    let is_only = is_one(rights);
    for (index, left) in lefts.iter().enumerate() {
        match rights.get(index) {
            Some(right) => pair_given(marks, site, is_only, left, right)?,
            None => return Ok(()),
        }
    }
    Ok(())
}

/// Adds that what is sent is given to whoever reads the channel; what a `select` waits to send is so at its clause.
///
/// # Errors
///
/// Memory was refused.
pub fn sent<'m, 'a>(
    marks: &mut Marks<'m, 'a>,
    standing: Standing,
    at: u32,
    value: &'a Expr,
) -> Result<(), AllocError>
    ensures { OnOk result (Adds marks.old.list.items marks.new.list.items (sent (standing_view standing) at
        (expression_syntax value.now))) }
{
    match standing {
        Standing::Ordinary => given_to(marks, at, Taker::Someone, value),
        Standing::FirstOfFor => given_to(marks, at, Taker::Someone, value),
        Standing::Communication => Ok(()),
    }
}

/// Adds that the names are declared anew.
fn renewed<'m, 'a>(
    marks: &mut Marks<'m, 'a>,
    site: u32,
    names: &'a [Identifier],
) -> Result<(), AllocError>
    ensures { OnOk result (Adds marks.old.list.items marks.new.list.items (renewed site
        (map identifier_syntax names.now))) }
{
    for name in names {
        add(marks, site, FieldMark::Renews(name.span.start))?;
    }
    Ok(())
}

/// Adds what a clause of a `select` that waits for this statement sends, or declares, when it is entered.
fn clause_given<'m, 'a>(
    marks: &mut Marks<'m, 'a>,
    clause: u32,
    communication: &'a Stmt,
) -> Result<(), AllocError>
    ensures { OnOk result (Adds marks.old.list.items marks.new.list.items (communication_given clause
        (present_statement (statement_syntax communication.now)))) }
{
    match &communication.kind {
        StmtKind::Send(_, value) => given_to(marks, clause, Taker::Someone, value),
        StmtKind::Define(names, _) => renewed(marks, clause, names),
        _ => Ok(()),
    }
}

/// Adds what a clause of a `select` sends, or declares, when it is entered.
///
/// # Errors
///
/// Memory was refused.
pub fn communication_given<'m, 'a>(
    marks: &mut Marks<'m, 'a>,
    clause: u32,
    communication: &'a Option<Box<Stmt>>,
) -> Result<(), AllocError>
    ensures { OnOk result (Adds marks.old.list.items marks.new.list.items (communication_given clause
        (optional_statement_syntax communication.now))) }
{
    match communication {
        Some(communication) => clause_given(marks, clause, communication),
        None => Ok(()),
    }
}

/// Adds that a clause declares the name of its type switch anew, if there is one.
///
/// # Errors
///
/// Memory was refused.
pub fn guard_renewed<'m, 'a>(
    marks: &mut Marks<'m, 'a>,
    guard: Option<&'a Identifier>,
    clause: Span,
) -> Result<(), AllocError>
    ensures { OnOk result (Adds marks.old.list.items marks.new.list.items (guard_renewed (option_map
        (λ n. identifier_syntax n.now) guard.entry) clause)) }
{
    match guard {
        Some(_) => add(marks, clause.start, FieldMark::Renews(clause.start)),
        None => Ok(()),
    }
}
