//! What is known of a cancel variable.

ghost use Rattle.std.specs.Prelude.{◌≡◌, ◌==◌, ◌&&◌, map};
ghost use Rattle.std.specs.List.{list_any};
ghost use Rattle.tracked_rows.specs.EventViews.{callee_view, event_view, sent_view};
ghost use Rattle.meaning.specs.Uses.{go_literal};
ghost use Rattle.meaning.specs.Classes.{change_cancel, entry_cancel, left_to, ended, started, given_back, kept_from, settled_from_kept, settled_from_open, taken_over, waited_over};
ghost use Rattle.bodies.specs.ClassViews.{cancel_class_view};
ghost use Rattle.events.specs.VariableViews.{variable_role_view};

use crate::changed::changed_if;
use crate::promises::Promises;
use events::VariableRole;
use tracked_rows::{Callee, Event, Sent};

/// What is known of a cancel variable.
#[derive(Clone, Copy)]
pub enum CancelClass {
    Unset,
    /// It holds a cancel function that was not called.
    Opened,
    /// The newest object of a declaration holds its function in a field, and was not given to others yet.
    Kept,
    /// Its function was called, or its call is saved for the return, or others got it in a field, or a goroutine that
    /// was started sees to it.
    Safe,
    /// A literal that calls it was started in the group of that number.
    Pending(u32),
}

/// What is known at the body's entry.
pub fn entry_cancel(role: VariableRole) -> CancelClass
    ensures { cancel_class_view result ≡ entry_cancel (variable_role_view role) }
{
    match role {
        VariableRole::DeclaredInBody => CancelClass::Unset,
        VariableRole::OwnParameter(_) | VariableRole::OwnReceiver | VariableRole::Captured => {
            CancelClass::Opened
        }
    }
}

/// A literal that calls the variable is started in the group.
fn left_to(group: u32, class: CancelClass) -> CancelClass
    ensures { cancel_class_view result ≡ left_to group (cancel_class_view class) }
{
    match class {
        CancelClass::Opened => CancelClass::Pending(group),
        other => other,
    }
}

/// The work of the group has ended.
fn ended(group: u32, class: CancelClass) -> CancelClass
    ensures { cancel_class_view result ≡ ended group (cancel_class_view class) }
{
    match class {
        CancelClass::Pending(pending) => {
            if group == pending {
                CancelClass::Safe
            } else {
                class
            }
        }
        other => other,
    }
}

/// Something is started in the group: the literal at the offset, if it is one.
fn started<P: Promises>(
    promises: &P,
    variable: u32,
    group: u32,
    literal: Option<u32>,
    class: CancelClass,
) -> CancelClass
    ensures { cancel_class_view result ≡ started (P.promises promises.now) variable group literal
        (cancel_class_view class) }
{
    match literal {
        Some(literal) => {
            if promises.credits(literal, variable) {
                left_to(group, class)
            } else {
                class
            }
        }
        None => class,
    }
}

/// The declaration of the object in which it is kept makes a new one.
fn given_back(class: CancelClass) -> CancelClass
    ensures { cancel_class_view result ≡ given_back (cancel_class_view class) }
{
    match class {
        CancelClass::Kept => CancelClass::Opened,
        other => other,
    }
}

fn kept_from(class: CancelClass) -> CancelClass
    ensures { cancel_class_view result ≡ kept_from (cancel_class_view class) }
{
    match class {
        CancelClass::Opened => CancelClass::Kept,
        other => other,
    }
}

/// What is kept is called, or given to others.
fn settled_from_kept(class: CancelClass) -> CancelClass
    ensures { cancel_class_view result ≡ settled_from_kept (cancel_class_view class) }
{
    match class {
        CancelClass::Kept => CancelClass::Safe,
        other => other,
    }
}

/// What is kept nowhere is given to others in a field.
fn settled_from_open(class: CancelClass) -> CancelClass
    ensures { cancel_class_view result ≡ settled_from_open (cancel_class_view class) }
{
    match class {
        CancelClass::Opened => CancelClass::Safe,
        other => other,
    }
}

/// A literal under `go` waits for the group in which it is pending, if it does.
fn waited_over<P: Promises>(promises: &P, literal: u32, class: CancelClass) -> CancelClass
    ensures { cancel_class_view result ≡ waited_over (P.promises promises.now) literal (cancel_class_view class) }
{
    match class {
        CancelClass::Pending(group) => {
            if promises.credits(literal, group) {
                CancelClass::Safe
            } else {
                class
            }
        }
        other => other,
    }
}

/// A literal is called under `go`.
fn taken_over<P: Promises>(
    promises: &P,
    variable: u32,
    literal: u32,
    class: CancelClass,
) -> CancelClass
    ensures { cancel_class_view result ≡ taken_over (P.promises promises.now) variable (go_literal literal)
        (cancel_class_view class) }
{
    if promises.credits(literal, variable) {
        CancelClass::Safe
    } else {
        waited_over(promises, literal, class)
    }
}

/// Whether a function under `go` that gets this is known to call the variable.
fn is_called_by<P: Promises>(promises: &P, variable: u32, callee: Callee<'_>, one: Sent) -> bool
    ensures { result ≡ ((one.number == variable) && (P.promises promises.now).calls (callee_view callee.entry)
        one.position) }
{
    one.number == variable && promises.calls(callee, one.position)
}

/// Whether a function under `go` that gets these is known to call the variable.
fn is_called_there<P: Promises>(
    promises: &P,
    variable: u32,
    callee: Callee<'_>,
    sent: &[Sent],
) -> bool
    ensures { result ≡ list_any (λ x. (x.number == variable) && (P.promises promises.now).calls
        (callee_view callee.entry) x.position) (map sent_view sent.now) }
{
    for one in sent {
        if is_called_by(promises, variable, callee, *one) {
            return true;
        }
    }
    false
}

/// What is known of the cancel variable of that number after an event.
pub fn change_cancel<P: Promises>(
    promises: &P,
    variable: u32,
    event: &Event<'_>,
    class: CancelClass,
) -> CancelClass
    ensures { cancel_class_view result ≡ change_cancel (P.promises promises.now) variable (event_view event.now)
        (cancel_class_view class) }
{
    match event {
        Event::Obtain {
            variable: obtained,
            ..
        } => { changed_if(obtained.number == variable, CancelClass::Opened, class) }
        Event::ObtainKept {
            variable: obtained,
            ..
        } => { changed_if(obtained.number == variable, CancelClass::Kept, class) }
        Event::Renew {
            variable: renewed,
            ..
        } => { changed_if(*renewed == variable, given_back(class), class) }
        Event::Keep {
            variable: stored,
            ..
        } => { changed_if(*stored == variable, kept_from(class), class) }
        Event::CallKept {
            variable: settled,
            ..
        }
        | Event::DeferKept {
            variable: settled,
            ..
        }
        | Event::Give {
            variable: settled,
            ..
        } => { changed_if(*settled == variable, settled_from_kept(class), class) }
        Event::GiveField { variable: given } => {
            changed_if(*given == variable, settled_from_open(class), class)
        }
        Event::Clear { variable: cleared } => {
            changed_if(cleared.number == variable, CancelClass::Unset, class)
        }
        Event::Call { variable: called } | Event::DeferCall { variable: called } => {
            changed_if(*called == variable, CancelClass::Safe, class)
        }
        Event::Pass {
            variable: passed,
            callee,
            position,
        }
        | Event::DeferPass {
            variable: passed,
            callee,
            position,
        } => changed_if(
            passed.number == variable && promises.calls(*callee, *position),
            CancelClass::Safe,
            class,
        ),
        Event::Start { group, literal } => started(promises, variable, *group, *literal, class),
        Event::Wait { group } => ended(*group, class),
        Event::Make { variable: made, .. } => ended(made.number, class),
        Event::DeferLiteral { literal } => {
            changed_if(
                promises.credits(*literal, variable),
                CancelClass::Safe,
                class,
            )
        }
        Event::GoCall { variable: called } => {
            changed_if(*called == variable, CancelClass::Safe, class)
        }
        Event::GoPass { callee, sent } => {
            changed_if(
                is_called_there(promises, variable, *callee, sent),
                CancelClass::Safe,
                class,
            )
        }
        Event::GoLiteral { literal } => taken_over(promises, variable, *literal, class),
        Event::Lend { .. } | Event::Try { .. } | Event::DeferWait { .. } | Event::Return { .. } =>
            class,
    }
}
