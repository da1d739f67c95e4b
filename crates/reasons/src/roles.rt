//! In which form a name stands, by its role.

ghost use Rattle.std.specs.Prelude.{◌≡◌, option_map};
ghost use Rattle.mentions.specs.MarkViews.{place_view, role_view, standing_view};
ghost use Rattle.reasons.specs.Reasons.{allowed_reason, bound_reason, callee_reason, cancel_called, cancel_passed, cancel_reason, errgroup_reason, giver_reason, group_called, group_passed, group_reason, is_followed, is_wait, known_reason, maker_called, maker_reason, method_reason, place_reason, unless_captured, unless_it_waits, unless_selected};
ghost use Rattle.reasons.specs.WordViews.{callee_view, reason_view};

use crate::reasons::{KnownCallee, Reason};
use mentions::{CallPlace, Role, Standing};

fn unless_captured(is_captured: bool, reason: Reason) -> Reason
    ensures { reason_view result ≡ unless_captured is_captured (reason_view reason) }
{
    if is_captured {
        Reason::PassedInLiteral
    } else {
        reason
    }
}

fn known_reason(is_captured: bool, otherwise: Reason, place: CallPlace<'_, '_>) -> Reason
    ensures { reason_view result ≡ known_reason is_captured (reason_view otherwise) (place_view place.entry) }
{
    match place {
        CallPlace::Nowhere => Reason::PassedInExpression,
        _ => unless_captured(is_captured, otherwise),
    }
}

fn callee_reason(
    callee: KnownCallee,
    is_captured: bool,
    otherwise: Reason,
    place: CallPlace<'_, '_>,
) -> Reason
    ensures { reason_view result ≡ callee_reason (callee_view callee) is_captured (reason_view otherwise)
        (place_view place.entry) }
{
    match callee {
        KnownCallee::Unknown => Reason::PassedToUnknown,
        KnownCallee::Known => known_reason(is_captured, otherwise, place),
    }
}

fn cancel_passed(
    callee: KnownCallee,
    is_captured: bool,
    has_address: bool,
    place: CallPlace<'_, '_>,
) -> Reason
    ensures { reason_view result ≡ cancel_passed (callee_view callee) is_captured has_address
        (place_view place.entry) }
{
    if has_address {
        return Reason::AddressTaken;
    }
    match place {
        CallPlace::UnderGo => Reason::PassedUnderGo,
        _ => callee_reason(callee, is_captured, Reason::PassedOn, place),
    }
}

fn group_passed(callee: KnownCallee, is_captured: bool, place: CallPlace<'_, '_>) -> Reason
    ensures { reason_view result ≡ group_passed (callee_view callee) is_captured (place_view place.entry) }
{
    match place {
        CallPlace::UnderGo => Reason::PassedUnderGo,
        CallPlace::Deferred => Reason::PassedUnderDefer,
        _ => callee_reason(callee, is_captured, Reason::PassedToNoTaker, place),
    }
}

fn bound_reason(standing: Standing) -> Reason
    ensures { reason_view result ≡ bound_reason (standing_view standing) }
{
    match standing {
        Standing::FirstOfFor => Reason::BoundInFor,
        Standing::Ordinary => Reason::BoundOtherwise,
        Standing::Communication => Reason::BoundOtherwise,
    }
}

fn place_reason(place: CallPlace<'_, '_>) -> Reason
    ensures { reason_view result ≡ place_reason (place_view place.entry) }
{
    match place {
        CallPlace::Statement => Reason::CalledWithOthers,
        CallPlace::Deferred => Reason::CalledWithOthers,
        CallPlace::UnderGo => Reason::CalledUnderGo,
        _ => Reason::CalledOtherwise,
    }
}

fn cancel_called(selected: Option<&str>, place: CallPlace<'_, '_>) -> Reason
    ensures { reason_view result ≡ cancel_called (option_map (λ m. m.now) selected.entry) (place_view place.entry) }
{
    match selected {
        Some(_) => Reason::NoMethod,
        None => place_reason(place),
    }
}

/// The reason of a mention of a cancel variable with that role, where this is known of the function of which it is an
/// argument, and whether a literal captures it.
pub fn cancel_reason(
    callee: KnownCallee,
    is_captured: bool,
    selected: Option<&str>,
    role: Role<'_, '_>,
) -> Reason
    ensures { reason_view result ≡ cancel_reason (callee_view callee) is_captured
        (option_map (λ m. m.now) selected.entry) (role_view role.entry) }
{
    match role {
        Role::Elsewhere => Reason::StoredCancel,
        Role::Key => Reason::StoredCancel,
        Role::Exposed => Reason::ExposedToChange,
        Role::PointedTo => Reason::AddressTaken,
        Role::FoundNil(_) => Reason::Compared,
        Role::FoundError(_, _) => Reason::Compared,
        Role::Called(call) => cancel_called(selected, call.place),
        Role::CalledInBrackets => Reason::InBrackets,
        Role::Argument(has_address, _, call) => {
            cancel_passed(callee, is_captured, has_address, call.place)
        }
        Role::Returned(_) => Reason::CancelReturned,
        Role::Left(_, row) => bound_reason(row.standing),
        Role::NamesType(_) => Reason::UsedAsType,
        Role::NewLiteral(_) => Reason::UsedAsType,
        Role::ParameterPointer => Reason::UsedAsType,
    }
}

fn is_wait(method: &str) -> bool
    ensures { result ≡ is_wait method.now }
{
    method == "Wait"
}

/// Whether it is a method of groups that is followed.
fn is_followed(method: &str) -> bool
    ensures { result ≡ is_followed method.now }
{
    method == "Go" || (method == "TryGo" || (is_wait(method) || method == "SetLimit"))
}

fn allowed_reason(is_captured: bool) -> Reason
    ensures { reason_view result ≡ allowed_reason is_captured }
{
    if is_captured {
        Reason::NameInLiteral
    } else {
        Reason::NameWithVariable
    }
}

/// Where it stands under `defer` or in a return, `Wait` may be called, and no other method.
fn unless_it_waits(is_captured: bool, waits: bool, otherwise: Reason) -> Reason
    ensures { reason_view result ≡ unless_it_waits is_captured waits (reason_view otherwise) }
{
    if waits {
        allowed_reason(is_captured)
    } else {
        otherwise
    }
}

fn method_reason(is_captured: bool, waits: bool, place: CallPlace<'_, '_>) -> Reason
    ensures { reason_view result ≡ method_reason is_captured waits (place_view place.entry) }
{
    match place {
        CallPlace::Nowhere => Reason::NameInExpression,
        CallPlace::UnderGo => Reason::NameUnderGo,
        CallPlace::Deferred => unless_it_waits(is_captured, waits, Reason::NameUnderDefer),
        CallPlace::ReturnItem(_) => unless_it_waits(is_captured, waits, Reason::NameInReturn),
        CallPlace::Statement => allowed_reason(is_captured),
        CallPlace::OnlyValue(_) => allowed_reason(is_captured),
    }
}

fn group_called(is_captured: bool, selected: Option<&str>, place: CallPlace<'_, '_>) -> Reason
    ensures { reason_view result ≡ group_called is_captured (option_map (λ m. m.now) selected.entry)
        (place_view place.entry) }
{
    let Some(method) = selected else {
        return Reason::CalledOtherwise;
    };
    if is_followed(method) {
        method_reason(is_captured, is_wait(method), place)
    } else {
        Reason::NoMethod
    }
}

fn unless_selected(selected: Option<&str>, reason: Reason) -> Reason
    ensures { reason_view result ≡ unless_selected (option_map (λ m. m.now) selected.entry) (reason_view reason) }
{
    match selected {
        Some(_) => Reason::NotCalled,
        None => reason,
    }
}

/// The same of a group variable.
pub fn group_reason(
    callee: KnownCallee,
    is_captured: bool,
    selected: Option<&str>,
    role: Role<'_, '_>,
) -> Reason
    ensures { reason_view result ≡ group_reason (callee_view callee) is_captured
        (option_map (λ m. m.now) selected.entry) (role_view role.entry) }
{
    match role {
        Role::Elsewhere => unless_selected(selected, Reason::StoredGroup),
        Role::Key => Reason::StoredGroup,
        Role::Exposed => Reason::ExposedToChange,
        Role::PointedTo => Reason::AddressTaken,
        Role::FoundNil(_) => Reason::Compared,
        Role::FoundError(_, _) => Reason::Compared,
        Role::Called(call) => group_called(is_captured, selected, call.place),
        Role::CalledInBrackets => Reason::InBrackets,
        Role::Argument(_, _, call) => {
            unless_selected(selected, group_passed(callee, is_captured, call.place))
        }
        Role::Returned(_) => Reason::GroupReturned,
        Role::Left(_, row) => bound_reason(row.standing),
        Role::NamesType(_) => Reason::UsedAsType,
        Role::NewLiteral(_) => Reason::UsedAsType,
        Role::ParameterPointer => Reason::UsedAsType,
    }
}

fn maker_called(place: CallPlace<'_, '_>) -> Reason
    ensures { reason_view result ≡ maker_called (place_view place.entry) }
{
    match place {
        CallPlace::ReturnItem(_) => Reason::GivenInReturn,
        CallPlace::Deferred => Reason::NameUnderDefer,
        CallPlace::UnderGo => Reason::NameUnderGo,
        _ => Reason::GivenToNone,
    }
}

fn maker_reason(otherwise: Reason, role: Role<'_, '_>) -> Reason
    ensures { reason_view result ≡ maker_reason (reason_view otherwise) (role_view role.entry) }
{
    match role {
        Role::Called(call) => maker_called(call.place),
        Role::CalledInBrackets => Reason::NameInBrackets,
        _ => otherwise,
    }
}

/// The reason of a mention of a maker or giver with that role.
pub fn giver_reason(role: Role<'_, '_>) -> Reason
    ensures { reason_view result ≡ giver_reason (role_view role.entry) }
{
    maker_reason(Reason::NotCalled, role)
}

/// The reason of a mention of the package `errgroup` with that role.
pub fn errgroup_reason(role: Role<'_, '_>) -> Reason
    ensures { reason_view result ≡ errgroup_reason (role_view role.entry) }
{
    maker_reason(Reason::MadeNowhere, role)
}
