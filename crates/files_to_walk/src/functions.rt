//! What the functions of some files give and take, by the facts of their names.

ghost use Rattle.std.specs.Prelude.{◌≡◌, Some, map};
ghost use Rattle.std.specs.List.{list_any};
ghost use Rattle.facts.specs.FactViews.{facts_by_name, facts_view};
ghost use Rattle.files_to_walk.specs.Functions.{declares_giver, declares_told, gives_by, has_giver, has_told};
ghost use Rattle.files_to_walk.specs.Signs.{GiversAreTold};
ghost use Rattle.meaning_reports.specs.PackageTables.{tells};
ghost use Rattle.tree.specs.View.{file_syntax, top_level_syntax};

use crate::signs::Signs;
use facts::{FunctionFacts, Table};
use names::can_be_meant;
use tree::{File, TopLevelDecl};

/// Of a function of which nothing is known.
const NO_SIGNS: Signs = Signs {
    gives: false,
    is_told: false,
};

/// Of one that gives a cancel function, whatever it takes.
const GIVER_SIGNS: Signs = Signs {
    gives: true,
    is_told: true,
};

fn signs_of_facts(facts: &FunctionFacts) -> Signs
    ensures gives { result.gives ≡ gives_by (Some (facts_view facts.now)) }
    ensures told { result.is_told ≡ tells (Some (facts_view facts.now)) }
    ensures both { GiversAreTold result }
{
    let gives = !facts.gives.is_empty();
    Signs {
        gives,
        is_told: !facts.parameters.is_empty() || gives,
    }
}

fn signs_by_name(table: &Table<'_>, name: &str) -> Signs
    ensures gives { result.gives ≡ gives_by (facts_by_name table.now name.now) }
    ensures told { result.is_told ≡ tells (facts_by_name table.now name.now) }
    ensures both { GiversAreTold result }
{
    match table.facts(name) {
        Some(facts) => signs_of_facts(facts),
        None => NO_SIGNS,
    }
}

/// Of a declaration, by the facts of its name, if it is that of a function that can be meant by its name.
fn declared_signs(table: &Table<'_>, declaration: &TopLevelDecl) -> Signs
    ensures gives { result.gives ≡ declares_giver (facts_by_name table.now) (top_level_syntax declaration.now) }
    ensures told { result.is_told ≡ declares_told (facts_by_name table.now) (top_level_syntax declaration.now) }
    ensures both { GiversAreTold result }
{
    match declaration {
        TopLevelDecl::Func(function) => {
            if can_be_meant(function) {
                return signs_by_name(table, function.name.text.as_str());
            }
            NO_SIGNS
        }
        TopLevelDecl::Decl(_) => NO_SIGNS,
    }
}

fn signs_of_declarations(table: &Table<'_>, declarations: &[TopLevelDecl]) -> Signs
    ensures gives { result.gives
        ≡ list_any (declares_giver (facts_by_name table.now)) (map top_level_syntax declarations.now) }
    ensures told { result.is_told
        ≡ list_any (declares_told (facts_by_name table.now)) (map top_level_syntax declarations.now) }
    ensures both { GiversAreTold result }
{
    let mut is_told = false;
    for declaration in declarations {
        let signs = declared_signs(table, declaration);
        if signs.gives {
            return GIVER_SIGNS;
        }
        is_told = is_told || signs.is_told;
    }
    Signs {
        gives: false,
        is_told,
    }
}

/// Whether one of the functions of these files gives a cancel function, and whether one has a parameter or a result
/// that is tracked, by the facts of its name.
pub fn signs_of_files(table: &Table<'_>, trees: &[File]) -> Signs
    ensures gives { result.gives ≡ list_any (has_giver (facts_by_name table.now)) (map file_syntax trees.now) }
    ensures told { result.is_told ≡ list_any (has_told (facts_by_name table.now)) (map file_syntax trees.now) }
{
    let mut is_told = false;
    for tree in trees {
        let signs = signs_of_declarations(table, &tree.declarations);
        if signs.gives {
            return GIVER_SIGNS;
        }
        is_told = is_told || signs.is_told;
    }
    Signs {
        gives: false,
        is_told,
    }
}
