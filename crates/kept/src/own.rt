//! The cancel variables that a body may keep: its own, and no parameter.

ghost use Rattle.std.specs.Prelude.{◌≡◌, Some, map, option_map};
ghost use Rattle.std.specs.List.{list_any};
ghost use Rattle.std.specs.Str.{bytes_eq};
ghost use Rattle.kept.specs.KeptViews.{brings_names, owned_entry};
ghost use Rattle.kept_forms.specs.FormViews.{element_view};
ghost use Rattle.meaning.specs.Kept.{carried, field_value, is_field_meant, is_undeclared, is_of_import, may_be_exported, may_be_imported, universe_values, is_block_role, own_cancel, owned};
ghost use Rattle.meaning.specs.Uses.{found, is_cancel, tracked_kind};
ghost use Rattle.mentions.specs.MarkViews.{body_view, field_mark_view, mark_view, marks_view, named_view};
ghost use Rattle.tracked.specs.LocalViews.{entry_view, local_role_view, seen_view, Sees};

use kept_forms::Element;
use mentions::{BodyPlace, FieldMark, Mark, Named, is_body};
use names::NameMeaning;
use objects::local_named;
use tracked::{LocalRole, Seen, SeenLocal, is_cancel, tracked_kind};
use tracked_rows::{has_field, meaning};

fn is_block_role(role: LocalRole) -> bool
    ensures { result ≡ is_block_role (local_role_view role) }
{
    match role {
        LocalRole::InBlock => true,
        _ => false,
    }
}

/// Its number, if it is a cancel variable that the innermost of these bodies declares, and no parameter.
fn owned_entry(bodies: &[BodyPlace<'_>], entry: SeenLocal<'_>) -> Option<u32>
    ensures { result ≡ owned_entry (map body_view bodies.now) (entry_view entry.entry) }
{
    if is_cancel(tracked_kind(entry))
        && is_body(entry.local.body, bodies)
        && is_block_role(entry.local.role)
    {
        Some(entry.local.number)
    } else {
        None
    }
}

/// The local of that number, if it is a cancel variable that the innermost of these bodies declares, and no parameter.
pub fn owned(seen: &Seen<'_, '_, '_>, bodies: &[BodyPlace<'_>], number: Option<u32>) -> Option<u32>
    requires { Sees seen.now }
    ensures { result ≡ owned (seen_view seen.now) (map body_view bodies.now) (found (seen_view seen.now) number) }
{
    match seen.entry(number) {
        Some(entry) => owned_entry(bodies, entry),
        None => None,
    }
}

/// The cancel variable that a bare name means, if the innermost of these bodies declares it, and it is no parameter.
pub fn own_cancel(
    seen: &Seen<'_, '_, '_>,
    bodies: &[BodyPlace<'_>],
    named: Option<Named<'_>>,
) -> Option<u32>
    requires { Sees seen.now }
    ensures { result ≡ own_cancel (seen_view seen.now) (map body_view bodies.now)
        (option_map named_view named.entry) }
{
    owned(seen, bodies, local_named(seen.known, named))
}

/// Whether the name begins like one that packages hand out: with a capital letter, or one of more bytes than one.
fn may_be_exported(name: &str) -> bool
    ensures { result ≡ may_be_exported name.now }
{
    match name.as_bytes().first() {
        Some(first) => (65 <= *first && *first <= 90) || 128 <= *first,
        None => false,
    }
}

fn brings_names(field: FieldMark<'_, '_>) -> bool
    ensures { result ≡ brings_names (field_mark_view field.entry) }
{
    match field {
        FieldMark::ImportsAll => true,
        _ => false,
    }
}

fn is_of_import(mark: Mark<'_, '_>) -> bool
    ensures { result ≡ is_of_import (mark_view mark.entry) }
{
    match mark {
        Mark::OfFields(_, field) => brings_names(*field),
        _ => false,
    }
}

fn some_import(marks: &[Mark<'_, '_>]) -> bool
    ensures { result ≡ list_any is_of_import (marks_view marks.now) }
{
    for mark in marks {
        if is_of_import(*mark) {
            return true;
        }
    }
    false
}

/// Whether an import brings names of its package into the file.
fn imports_all(seen: &Seen<'_, '_, '_>) -> bool
    ensures { result ≡ list_any (λ p. is_of_import p.mark) (seen_view seen.now).marks }
{
    some_import(&seen.marks)
}

fn may_be_imported(seen: &Seen<'_, '_, '_>, name: &str) -> bool
    ensures { result ≡ may_be_imported (seen_view seen.now) name.now }
{
    may_be_exported(name) && imports_all(seen)
}

fn is_universe_value(name: &str) -> bool
    ensures { result ≡ list_any (bytes_eq name.now) universe_values }
{
    name == "true" || name == "false" || name == "iota" || name == "nil"
}

/// Whether a name that is declared nowhere is no value: none of the universe, or of a package whose names an import
/// brings.
fn is_undeclared(seen: &Seen<'_, '_, '_>, name: &str) -> bool
    ensures { result ≡ is_undeclared (seen_view seen.now) name.now }
{
    !is_universe_value(name) && !may_be_imported(seen, name)
}

/// Whether the local of that number is a cancel variable.
fn is_cancel_local(seen: &Seen<'_, '_, '_>, number: u32) -> bool
    requires { Sees seen.now }
    ensures { result ≡ is_cancel (tracked_kind (seen_view seen.now) (found (seen_view seen.now) (Some number))) }
{
    match seen.entry(Some(number)) {
        Some(entry) => is_cancel(tracked_kind(entry)),
        None => false,
    }
}

/// Whether the key is the name of a field for certain, and no value that is the key of a map, slice or array.
fn is_field_meant(seen: &Seen<'_, '_, '_>, element: Element<'_>) -> bool
    requires { Sees seen.now }
    ensures { result ≡ is_field_meant (seen_view seen.now) (element_view element.entry).field
        ((seen_view seen.now).known.means (element_view element.entry).at) }
{
    match meaning(seen.known, element.at) {
        Some(NameMeaning::Local(number, _)) => is_cancel_local(seen, number),
        Some(NameMeaning::Function) => true,
        Some(NameMeaning::Universe) => is_undeclared(seen, element.field),
        _ => false,
    }
}

/// The own cancel variable that an element puts into a field.
pub fn field_value(
    seen: &Seen<'_, '_, '_>,
    bodies: &[BodyPlace<'_>],
    element: Element<'_>,
) -> Option<u32>
    requires { Sees seen.now }
    ensures { result ≡ field_value (seen_view seen.now) (map body_view bodies.now) (element_view element.entry) }
{
    if is_field_meant(seen, element) {
        own_cancel(seen, bodies, Some(element.value))
    } else {
        None
    }
}

/// The own cancel variable that an element of a literal puts into a field that keeps.
pub fn carried(
    seen: &Seen<'_, '_, '_>,
    bodies: &[BodyPlace<'_>],
    element: Element<'_>,
) -> Option<u32>
    requires { Sees seen.now }
    ensures { result ≡ carried (seen_view seen.now) (map body_view bodies.now) (element_view element.entry) }
{
    if has_field(seen.known.fields, element.field) {
        field_value(seen, bodies, element)
    } else {
        None
    }
}
