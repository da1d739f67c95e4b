//! Types that are told by their names.

ghost use Rattle.std.specs.Prelude.{◌≡◌, Some, option_map};
ghost use Rattle.meaning.specs.FunctionFacts.{is_import, is_of, is_same_type, is_same_tracked, cancel_type_of_name, is_group_pointer, tracked_type, kind_of_type, item_type};
ghost use Rattle.meaning.specs.Uses.{is_cancel, is_group, is_same_kind};
ghost use Rattle.mentions.specs.MarkViews.{named_view};
ghost use Rattle.names.specs.Answers.{decl_view, declared_at};
ghost use Rattle.facts.specs.FactViews.{kind_view, type_view, tracked_type_view, item_view};
ghost use Rattle.tree.specs.Syntax.{present_expression};
ghost use Rattle.tree.specs.View.{expression_syntax};

use crate::items::Item;
use mentions::{Named, as_named, as_pointer};
use names::{CONTEXT, ERRGROUP, NameMeaning, Names};
use tree::Expr;

/// What a tracked variable holds.
#[derive(Clone, Copy, PartialEq, Eq)]
pub enum VariableKind {
    /// A cancel function.
    Cancel,
    /// A group, or a pointer to one.
    Group,
}

impl VariableKind {
    /// Whether it is that of cancel functions.
    pub fn is_cancel(self) -> bool
        ensures { result ≡ is_cancel (Some (kind_view self)) }
    {
        match self {
            VariableKind::Cancel => true,
            VariableKind::Group => false,
        }
    }

    /// Whether it is that of groups.
    pub fn is_group(self) -> bool
        ensures { result ≡ is_group (Some (kind_view self)) }
    {
        match self {
            VariableKind::Cancel => false,
            VariableKind::Group => true,
        }
    }

    /// Whether it is the other kind too.
    pub fn is_same(self, other: VariableKind) -> bool
        ensures { result ≡ is_same_kind (kind_view self) (kind_view other) }
    {
        match self {
            VariableKind::Cancel => other.is_cancel(),
            VariableKind::Group => other.is_group(),
        }
    }
}

/// The type of a cancel function.
#[derive(Clone, Copy, PartialEq, Eq)]
pub enum CancelType {
    /// `context.CancelFunc`.
    Plain,
    /// `context.CancelCauseFunc`, which is called with a cause.
    WithCause,
}

impl CancelType {
    /// Whether it is the other type too.
    pub fn is_same(self, other: CancelType) -> bool
        ensures { result ≡ is_same_type (type_view self) (type_view other) }
    {
        match (self, other) {
            (CancelType::Plain, CancelType::Plain) => true,
            (CancelType::WithCause, CancelType::WithCause) => true,
            _ => false,
        }
    }
}

/// A type of what is tracked.
#[derive(Clone, Copy, PartialEq, Eq)]
pub enum TrackedType {
    Cancel(CancelType),
    /// `*errgroup.Group`.
    Group,
}

impl TrackedType {
    /// What a variable of the type holds.
    pub fn kind(self) -> VariableKind
        ensures { kind_view result ≡ kind_of_type (tracked_type_view self) }
    {
        match self {
            TrackedType::Cancel(_) => VariableKind::Cancel,
            TrackedType::Group => VariableKind::Group,
        }
    }

    /// Whether it is the other type too.
    pub fn is_same(self, other: TrackedType) -> bool
        ensures { result ≡ is_same_tracked (tracked_type_view self) (tracked_type_view other) }
    {
        match (self, other) {
            (TrackedType::Cancel(own), TrackedType::Cancel(given)) => own.is_same(given),
            (TrackedType::Group, TrackedType::Group) => true,
            _ => false,
        }
    }
}

/// Whether it is an import of that path.
pub fn is_import(path: &str, meaning: Option<NameMeaning<'_>>) -> bool
    ensures { result ≡ is_import path.now (option_map decl_view meaning.entry) }
{
    match meaning {
        Some(NameMeaning::Import(other)) => other == path,
        _ => false,
    }
}

/// Whether it is `q.name`, where q is an import of the path in the file of that number.
pub fn is_of(names: &Names<'_>, file: usize, path: &str, name: &str, named: Named<'_>) -> bool
    ensures { result ≡ is_of (declared_at names.now file) path.now name.now (named_view named.entry) }
{
    match named.selected {
        Some(member) => member == name && is_import(path, names.declaration(file, named.at)),
        None => false,
    }
}

/// The type of cancel functions that is named: `context.CancelFunc` or `context.CancelCauseFunc`.
pub fn cancel_type_named(
    names: &Names<'_>,
    file: usize,
    named: Option<Named<'_>>,
) -> Option<CancelType>
    ensures { option_map type_view result ≡ cancel_type_of_name (declared_at names.now file)
        (option_map named_view named.entry) }
{
    let named = named?;
    if is_of(names, file, CONTEXT, "CancelFunc", named) {
        return Some(CancelType::Plain);
    }
    if is_of(names, file, CONTEXT, "CancelCauseFunc", named) {
        return Some(CancelType::WithCause);
    }
    None
}

/// Whether it is the type `*errgroup.Group`.
fn is_group_pointer(names: &Names<'_>, file: usize, kind: &Expr) -> bool
    ensures { result ≡ is_group_pointer (declared_at names.now file) (expression_syntax kind.now) }
{
    match as_pointer(kind) {
        Some(named) => is_of(names, file, ERRGROUP, "Group", named),
        None => false,
    }
}

/// The type, if it is tracked.
pub fn tracked_type(names: &Names<'_>, file: usize, kind: &Expr) -> Option<TrackedType>
    ensures { option_map tracked_type_view result ≡ tracked_type (declared_at names.now file)
        (present_expression (expression_syntax kind.now)) }
{
    if let Some(cancel) = cancel_type_named(names, file, as_named(kind)) {
        return Some(TrackedType::Cancel(cancel));
    }
    if is_group_pointer(names, file, kind) {
        return Some(TrackedType::Group);
    }
    None
}

/// The type of a parameter or result, if it is tracked; that of a variadic one is not.
pub fn item_type(names: &Names<'_>, file: usize, item: &Item<'_>) -> Option<TrackedType>
    ensures { option_map tracked_type_view result ≡ item_type (declared_at names.now file) (item_view item.now) }
{
    if item.is_variadic {
        return None;
    }
    match item.kind {
        Some(kind) => tracked_type(names, file, kind),
        None => None,
    }
}
