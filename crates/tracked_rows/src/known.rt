//! What is known of a file: the edition of the rules, what its uses mean, the facts of functions, and which fields keep
//! cancel functions.

ghost use Rattle.std.specs.Prelude.{◌≡◌, option_map};
ghost use Rattle.meaning.specs.FunctionFacts.{is_of};
ghost use Rattle.meaning.specs.Tracked.{facts_of, is_of_universe, local_meant_or};
ghost use Rattle.facts.specs.FactViews.{facts_view};
ghost use Rattle.mentions.specs.MarkViews.{named_view};
ghost use Rattle.names.specs.Answers.{decl_view};
ghost use Rattle.tracked_rows.specs.RowViews.{known_view, object_left_view};

use crate::fields::{Fields, ObjectLeft, PlacedLeft, left_among};
use facts::{FunctionFacts, Imported, Table, is_of};
use mentions::Named;
use names::{NameMeaning, Names};
use tree::Edition;

/// The edition of the rules, what the uses of the file of that number mean, and the facts of functions: of this
/// package's, and of given imports'; and the fields that keep.
#[derive(Clone, Copy)]
pub struct Known<'k, 'a> {
    pub edition: Edition,
    pub file: usize,
    pub names: &'k Names<'a>,
    pub table: &'k Table<'a>,
    pub imported: &'k Imported<'a, 'k>,
    /// The fields of the package that keep cancel functions.
    pub fields: Fields<'k, 'a>,
    /// The left sides `x.f` of the file into which a maker or giver gives what the field keeps. There are none before
    /// the file was looked at.
    pub object_lefts: &'k [PlacedLeft],
}

/// What the use at the offset means.
pub fn meaning<'a>(known: Known<'_, 'a>, at: u32) -> Option<NameMeaning<'a>>
    ensures { option_map decl_view result ≡ (known_view known.entry).means at }
{
    known.names.declaration(known.file, at)
}

/// The facts of the function that is named.
pub fn facts_of<'k>(known: Known<'k, '_>, named: Named<'_>) -> Option<&'k FunctionFacts>
    ensures { option_map (λ f. facts_view f.now) result ≡ facts_of (known_view known.entry)
        (named_view named.entry) }
{
    match (named.selected, meaning(known, named.at)) {
        (None, Some(NameMeaning::Function)) => known.table.facts(named.name),
        (Some(member), Some(NameMeaning::Import(path))) => known.imported.facts(path, member),
        _ => None,
    }
}

/// Whether it is that name of the universe.
pub fn is_of_universe(known: Known<'_, '_>, name: &str, named: Named<'_>) -> bool
    ensures { result ≡ is_of_universe (known_view known.entry) name.now (named_view named.entry) }
{
    if named.selected.is_some() || named.name != name {
        return false;
    }
    match meaning(known, named.at) {
        Some(NameMeaning::Universe) => true,
        _ => false,
    }
}

/// Whether it is `q.name`, where q is an import of the path.
pub fn is_named(known: Known<'_, '_>, path: &str, name: &str, named: Named<'_>) -> bool
    ensures { result ≡ is_of (known_view known.entry).means path.now name.now (named_view named.entry) }
{
    is_of(known.names, known.file, path, name, named)
}

/// The local that a name means; one that no use means is the one that it declares.
pub fn local_meant(known: Known<'_, '_>, at: u32, declares: Option<u32>) -> Option<u32>
    ensures { result ≡ local_meant_or ((known_view known.entry).means at) declares }
{
    match meaning(known, at) {
        None => declares,
        Some(NameMeaning::Local(number, _)) => Some(number),
        Some(_) => None,
    }
}

/// What the left side `x.f` stands for of which f has that offset, if a maker or giver gives what the field keeps.
pub fn object_left(known: Known<'_, '_>, at: u32) -> Option<ObjectLeft>
    ensures { option_map object_left_view result ≡ (known_view known.entry).object_lefts at }
{
    left_among(known.object_lefts, at)
}
