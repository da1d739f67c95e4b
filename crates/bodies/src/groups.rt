//! What is known of a group.

ghost use Rattle.std.specs.Prelude.{◌≡◌};
ghost use Rattle.tracked_rows.specs.EventViews.{event_view};
ghost use Rattle.meaning.specs.Classes.{change_group, entry_group, at_work, at_rest};
ghost use Rattle.bodies.specs.ClassViews.{group_class_view};
ghost use Rattle.events.specs.VariableViews.{variable_role_view};

use crate::changed::changed_if;
use crate::promises::Promises;
use events::VariableRole;
use tracked_rows::{Event, GroupState};

/// What is known of a group variable.
#[derive(Clone, Copy)]
pub enum GroupClass {
    Unmade,
    /// Of a live group the work may go on, of an idle one it does not.
    InState(GroupState),
    /// A Wait is saved for the return.
    Awaited,
}

/// What is known at the body's entry.
pub fn entry_group(role: VariableRole) -> GroupClass
    ensures { group_class_view result ≡ entry_group (variable_role_view role) }
{
    match role {
        VariableRole::DeclaredInBody => GroupClass::Unmade,
        VariableRole::OwnParameter(_) | VariableRole::OwnReceiver | VariableRole::Captured => {
            GroupClass::InState(GroupState::Live)
        }
    }
}

/// Work may be started in the group.
fn at_work(class: GroupClass) -> GroupClass
    ensures { group_class_view result ≡ at_work (group_class_view class) }
{
    match class {
        GroupClass::InState(_) => GroupClass::InState(GroupState::Live),
        other => other,
    }
}

/// The work of the group has ended, or a goroutine that was started waits for it.
fn at_rest(class: GroupClass) -> GroupClass
    ensures { group_class_view result ≡ at_rest (group_class_view class) }
{
    match class {
        GroupClass::InState(_) => GroupClass::InState(GroupState::Idle),
        other => other,
    }
}

/// What is known of the group variable of that number after an event.
pub fn change_group<P: Promises>(
    promises: &P,
    variable: u32,
    event: &Event<'_>,
    class: GroupClass,
) -> GroupClass
    ensures { group_class_view result ≡ change_group (P.promises promises.now) variable (event_view event.now)
        (group_class_view class) }
{
    match event {
        Event::Lend { group, .. } | Event::Start { group, .. } | Event::Try { group, .. } => {
            changed_if(*group == variable, at_work(class), class)
        }
        Event::Wait { group } => changed_if(*group == variable, at_rest(class), class),
        Event::DeferWait { group } => changed_if(*group == variable, GroupClass::Awaited, class),
        Event::Make {
            variable: made,
            state,
        } => { changed_if(made.number == variable, GroupClass::InState(*state), class) }
        Event::DeferLiteral { literal } => {
            changed_if(
                promises.credits(*literal, variable),
                GroupClass::Awaited,
                class,
            )
        }
        Event::GoLiteral { literal } => {
            changed_if(promises.credits(*literal, variable), at_rest(class), class)
        }
        Event::Obtain { .. }
        | Event::ObtainKept { .. }
        | Event::Renew { .. }
        | Event::Keep { .. }
        | Event::CallKept { .. }
        | Event::DeferKept { .. }
        | Event::Give { .. }
        | Event::GiveField { .. }
        | Event::Clear { .. }
        | Event::Call { .. }
        | Event::DeferCall { .. }
        | Event::Pass { .. }
        | Event::DeferPass { .. }
        | Event::GoCall { .. }
        | Event::GoPass { .. }
        | Event::Return { .. } => class,
    }
}
