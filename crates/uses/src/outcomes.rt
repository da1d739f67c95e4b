//! What mentions of tracked variables give: faults, and at most one event.

ghost use Rattle.std.specs.Prelude.{◌≡◌, OnOk, IfOk, map, ◌++◌};
ghost use Rattle.tracked_rows.specs.EventViews.{event_view};
ghost use Rattle.allowed_uses.specs.UseViews.{use_view};
ghost use Rattle.facts.specs.FactViews.{kind_view};
ghost use Rattle.tracked.specs.LocalViews.{local_view, local_role_view, entry_view, seen_view, Sees, tracked_kind_of_entry, kind_of_entry};
ghost use Rattle.meaning.specs.Uses.{first_faults, type_faults, only_faults, binding_event, fault_at, otherwise, use_outcome, binding_at, variable_outcome};
ghost use Rattle.mentions.specs.MarkViews.{standing_view, row_view, body_view, role_view, mention_view};
ghost use Rattle.tracked_rows.specs.RowViews.{known_view};
ghost use Rattle.uses.specs.OutcomeViews.{binding_view, AddsFaults, Gives, again_of, binding_outcome_of, mention_outcome_of, row_outcome_of, role_outcome_of};

use crate::at::At;
use crate::bindings::{Binding, binding_at};
use crate::faults::{UseCode, UseFault, add_fault, otherwise};
use crate::variables::kind_use;
use allowed_uses::{LocalMention, Use, variable_at};
use facts::VariableKind;
use mentions::{Mention, Role, Row, Standing, is_body};
use std::alloc::{AllocError, Global};
use tracked::{
    Local, LocalRole, SeenLocal, declared_by, kind, tracked_kind, type_from, variable_of,
};
use tracked_rows::{Event, Known, called_in, row_giving};

/// A local that was found, at a mention of it.
#[derive(Clone, Copy)]
struct Found<'s, 'k, 'm, 'a> {
    at: At<'s, 'k, 'm, 'a>,
    entry: SeenLocal<'a>,
}

/// What the binding does.
fn binding_event<'a>(
    known: Known<'_, 'a>,
    local: Local<'a>,
    mention: &Mention<'_, 'a>,
    row: Row<'a>,
    binding: Binding,
) -> Event<'a>
    ensures { event_view result ≡ binding_event (known_view known.entry) (local_view local.entry)
        (mention_view mention.now) (row_view row.entry) (binding_view binding) }
{
    let variable = variable_at(local, *mention);
    match binding {
        Binding::Obtained(index) => Event::Obtain {
            variable,
            source: called_in(known, row),
            result: index,
            is_declared: declared_by(known, *mention).is_some(),
        },
        Binding::Cleared => Event::Clear { variable },
        Binding::Made(state) => Event::Make { variable, state },
    }
}

/// A variable that is bound again although a literal mentions it.
fn add_again<'a>(
    known: Known<'_, 'a>,
    entry: SeenLocal<'a>,
    mention: &Mention<'_, 'a>,
    faults: &mut Vec<UseFault<'a>>,
) -> Result<(), AllocError>
    ensures { OnOk result (AddsFaults faults.old.items faults.new.items (again_of (known_view known.entry)
        (entry_view entry.entry) (mention_view mention.now))) }
{
    if entry.is_in_literal && declared_by(known, *mention).is_none() {
        return add_fault(
            faults,
            mention.named.at,
            UseCode::BoundAgain,
            entry.local.name,
        );
    }
    Ok(())
}

/// A binding in the first statement of a `for`.
fn add_first<'a>(
    standing: Standing,
    kind: VariableKind,
    local: Local<'a>,
    mention: &Mention<'_, 'a>,
    faults: &mut Vec<UseFault<'a>>,
) -> Result<(), AllocError>
    ensures { OnOk result (AddsFaults faults.old.items faults.new.items (first_faults (standing_view standing)
        (kind_view kind) (local_view local.entry) (mention_view mention.now))) }
{
    match standing {
        Standing::FirstOfFor => add_fault(faults, mention.named.at, otherwise(kind), local.name),
        _ => Ok(()),
    }
}

/// A binding that obtains from a position of the other type.
fn add_type<'a>(
    found: Found<'_, '_, '_, 'a>,
    row: Row<'a>,
    binding: Binding,
    faults: &mut Vec<UseFault<'a>>,
) -> Result<(), AllocError>
    requires { Sees found.at.seen.now }
    ensures { OnOk result (AddsFaults faults.old.items faults.new.items (type_faults
        (seen_view found.entry.at.seen.now) (local_view found.entry.entry.local)
        (mention_view found.entry.at.mention.now) (row_view row.entry) (binding_view binding))) }
{
    let seen = found.at.seen;
    let local = found.entry.local;
    match binding {
        Binding::Obtained(index) => {
            let given = type_from(index, row_giving(seen.known, row));
            if seen.cancel_type_of(local).is_same(given) {
                return Ok(());
            }
            add_fault(
                faults,
                found.at.mention.named.at,
                UseCode::CancelUsedOtherwise,
                local.name,
            )
        }
        _ => Ok(()),
    }
}

/// A binding of a variable of that kind.
fn binding_outcome<'a>(
    found: Found<'_, '_, '_, 'a>,
    kind: VariableKind,
    row: Row<'a>,
    binding: Binding,
    faults: &mut Vec<UseFault<'a>>,
) -> Result<Option<Event<'a>>, AllocError>
    requires { Sees found.at.seen.now }
    ensures { IfOk result (λ event. Gives faults.old.items faults.new.items event (binding_outcome_of
        (seen_view found.entry.at.seen.now) (entry_view found.entry.entry) (kind_view kind)
        (map body_view found.entry.at.bodies.now) (mention_view found.entry.at.mention.now) (row_view row.entry)
        (binding_view binding) (local_role_view found.entry.entry.local.role))) }
{
    let local = found.entry.local;
    let mention = found.at.mention;
    let known = found.at.seen.known;
    match local.role {
        LocalRole::Result => {
            add_fault(faults, mention.named.at, UseCode::BoundAgain, local.name)?;
            Ok(None)
        }
        LocalRole::Variadic => {
            add_fault(faults, mention.named.at, otherwise(kind), local.name)?;
            Ok(None)
        }
        LocalRole::InBlock => {
            add_first(row.standing, kind, local, mention, faults)?;
            add_type(found, row, binding, faults)?;
            add_again(known, found.entry, mention, faults)?;
            if is_body(local.body, found.at.bodies) {
                Ok(Some(binding_event(known, local, mention, row, binding)))
            } else {
                Ok(None)
            }
        }
        LocalRole::Parameter(_) => parameter_bound(known, found.entry, kind, mention, faults),
        LocalRole::Receiver => parameter_bound(known, found.entry, kind, mention, faults),
    }
}

/// A binding of a parameter, which gives no event.
fn parameter_bound<'a>(
    known: Known<'_, 'a>,
    entry: SeenLocal<'a>,
    kind: VariableKind,
    mention: &Mention<'_, 'a>,
    faults: &mut Vec<UseFault<'a>>,
) -> Result<Option<Event<'a>>, AllocError>
    ensures { IfOk result (λ event. Gives faults.old.items faults.new.items event (only_faults
        (fault_at mention.now.named.at (otherwise (kind_view kind)) entry.entry.local.name.now
        ++ again_of (known_view known.entry) (entry_view entry.entry) (mention_view mention.now)))) }
{
    add_fault(faults, mention.named.at, otherwise(kind), entry.local.name)?;
    add_again(known, entry, mention, faults)?;
    Ok(None)
}

/// A use that binds nothing: a fault where it is not allowed, else what it does.
fn use_outcome<'a>(
    kind: VariableKind,
    local: Local<'a>,
    mention: &Mention<'_, 'a>,
    allowed: Use<'a>,
    faults: &mut Vec<UseFault<'a>>,
) -> Result<Option<Event<'a>>, AllocError>
    ensures { IfOk result (λ event. Gives faults.old.items faults.new.items event (use_outcome (kind_view kind)
        (local_view local.entry) (mention_view mention.now) (use_view allowed.entry))) }
{
    match allowed {
        Use::NotAllowed => {
            add_fault(faults, mention.named.at, otherwise(kind), local.name)?;
            Ok(None)
        }
        Use::Silent => Ok(None),
        Use::Does(event) => Ok(Some(event)),
    }
}

/// A mention that binds nothing, of what may be tracked as that kind.
fn mention_outcome<'a>(
    alloc: Global,
    found: Found<'_, '_, '_, 'a>,
    faults: &mut Vec<UseFault<'a>>,
) -> Result<Option<Event<'a>>, AllocError>
    requires { Sees found.at.seen.now }
    ensures { IfOk result (λ event. Gives faults.old.items faults.new.items event (mention_outcome_of
        (seen_view found.entry.at.seen.now) (entry_view found.entry.entry)
        (tracked_kind_of_entry (entry_view found.entry.entry)) (map body_view found.entry.at.bodies.now)
        (mention_view found.entry.at.mention.now))) }
{
    let local = found.entry.local;
    let mention = found.at.mention;
    match tracked_kind(found.entry) {
        Some(kind) => {
            let here = LocalMention {
                local,
                bodies: found.at.bodies,
                mention: *mention,
            };
            let allowed = kind_use(alloc, found.at.seen, here, kind)?;
            use_outcome(kind, local, mention, allowed, faults)
        }
        None => Ok(None),
    }
}

/// A left side.
fn left_outcome<'a>(
    alloc: Global,
    found: Found<'_, '_, '_, 'a>,
    index: usize,
    row: Row<'a>,
    faults: &mut Vec<UseFault<'a>>,
) -> Result<Option<Event<'a>>, AllocError>
    requires { Sees found.at.seen.now }
    ensures { IfOk result (λ event. Gives faults.old.items faults.new.items event (row_outcome_of
        (seen_view found.entry.at.seen.now) (entry_view found.entry.entry)
        (kind_of_entry (entry_view found.entry.entry)) (map body_view found.entry.at.bodies.now)
        (mention_view found.entry.at.mention.now) (row_view row.entry)
        (binding_at (seen_view found.entry.at.seen.now) (row_view row.entry) index))) }
{
    let kind = match kind(found.entry) {
        Some(kind) => kind,
        None => return Ok(None),
    };
    let binding = binding_at(alloc, found.at.seen, row, index)?;
    match binding {
        Some(binding) => binding_outcome(found, kind, row, binding, faults),
        None => mention_outcome(alloc, found, faults),
    }
}

/// A mention of a local that was found.
fn entry_outcome<'a>(
    alloc: Global,
    found: Found<'_, '_, '_, 'a>,
    faults: &mut Vec<UseFault<'a>>,
) -> Result<Option<Event<'a>>, AllocError>
    requires { Sees found.at.seen.now }
    ensures { IfOk result (λ event. Gives faults.old.items faults.new.items event (role_outcome_of
        (seen_view found.entry.at.seen.now) (entry_view found.entry.entry)
        (map body_view found.entry.at.bodies.now) (mention_view found.entry.at.mention.now)
        (role_view found.entry.at.mention.now.role))) }
{
    match found.at.mention.role {
        Role::Left(index, row) => left_outcome(alloc, found, index, *row, faults),
        _ => mention_outcome(alloc, found, faults),
    }
}

/// What a mention gives as one of a variable: faults, and at most one event.
///
/// # Errors
///
/// Memory was refused.
pub fn variable_outcome<'a>(
    alloc: Global,
    at: At<'_, '_, '_, 'a>,
    faults: &mut Vec<UseFault<'a>>,
) -> Result<Option<Event<'a>>, AllocError>
    requires { Sees at.seen.now }
    ensures { IfOk result (λ event. Gives faults.old.items faults.new.items event (variable_outcome
        (seen_view at.entry.seen.now) (map body_view at.entry.bodies.now) (mention_view at.entry.mention.now))) }
{
    match at.seen.entry(variable_of(at.seen.known, *at.mention)) {
        Some(entry) => entry_outcome(alloc, Found { at, entry }, faults),
        None => Ok(None),
    }
}
