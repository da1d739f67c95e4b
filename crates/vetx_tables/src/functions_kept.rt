//! What is kept of the table of a package.

ghost use Rattle.std.specs.Prelude.{◌≡◌, ◌++◌, ◌∷◌, [], ℕ, List, true, IfErr, IfOk, OnOk, flat_map, map};
ghost use Rattle.std.specs.List.{list_all};
ghost use Rattle.called_parameters.specs.Called.{is_called};
ghost use Rattle.facts.specs.FactViews.{facts_view, unless_view};
ghost use Rattle.imports.specs.Views.{text_views};
ghost use Rattle.meaning_reports.specs.Loaded.{LoadedPackage as MeantPackage, Tables};
ghost use Rattle.meaning_reports.specs.PackageTables.{IsTable};
ghost use Rattle.one_package.specs.Judgments.{table_view};
ghost use Rattle.whole_packages.specs.LoadedViews.{TellsPackage};
ghost use Rattle.vetx_json.specs.KeptUnits.{function_of as kept_view, unless_of};
ghost use Rattle.vetx_tables.specs.KeptLaws.{AreKept, IsKeptFault};
ghost use Rattle.vetx_tables.specs.KeptParts.{IsFaultOf};
ghost use Rattle.vetx_tables.specs.KeptTables.{facts_fit, function_fits, function_kept, kept_for, unless_fits, unless_kept};

use crate::fault::KeptFault;
use crate::fits::{kept_number, parameters_fit, results_fit};
use called_parameters::Called;
use facts::{FunctionFacts, Unless};
use one_package::Judged;
use plain_tables::{function_of, names_in_order};
use std::alloc::Global;
use vetx_json::{KeptFunction, KeptUnless};
use whole_packages::LoadedPackage;

/// That a function gives a result unless there is an error.
fn unless_kept(unless: Unless) -> Result<KeptUnless, KeptFault>
    ensures ok { IfOk result (λ kept. (unless_of kept ≡ unless_kept (unless_view unless))
        × (unless_fits (unless_view unless) ≡ true)) }
    ensures err { IfErr result (IsFaultOf (unless_fits (unless_view unless))) }
{
    let given = kept_number(unless.given)?;
    let error = kept_number(unless.error)?;
    Ok(KeptUnless { given, error })
}

/// What a function gives unless there is an error.
fn all_unless_kept(alloc: Global, unless: &[Unless]) -> Result<Vec<KeptUnless>, KeptFault>
    ensures ok { IfOk result (λ kept. (map unless_of kept.items ≡ map unless_kept (map unless_view unless.now))
        × (list_all unless_fits (map unless_view unless.now) ≡ true)) }
    ensures err { IfErr result (IsFaultOf (list_all unless_fits (map unless_view unless.now))) }
{
    let mut kept = Vec::new(alloc);
    for one in unless {
        kept.push(unless_kept(*one)?)?;
    }
    Ok(kept)
}

/// What is kept of the function of that name.
fn function_kept(
    alloc: Global,
    name: &str,
    facts: &FunctionFacts,
    called: &Called<'_>,
) -> Result<KeptFunction, KeptFault>
    ensures ok { IfOk result (λ kept.
        (kept_view kept ≡ function_kept (is_called called.now name.now) name.now (facts_view facts.now))
        × (facts_fit (facts_view facts.now) ≡ true)) }
    ensures err { IfErr result (IsFaultOf (facts_fit (facts_view facts.now))) }
{
    if !parameters_fit(&facts.parameters) {
        return Err(KeptFault::TooLarge);
    }
    if !results_fit(&facts.gives) {
        return Err(KeptFault::TooLarge);
    }
    let results = kept_number(facts.results)?;
    let unless = all_unless_kept(alloc, &facts.unless)?;
    Ok(KeptFunction {
        facts: function_of(alloc, name, facts, called)?,
        results,
        unless,
    })
}

/// Adds what is kept of the function of that name, if anything is known of it.
fn add_kept(
    alloc: Global,
    name: &str,
    judged: &Judged<'_>,
    functions: &mut Vec<KeptFunction>,
) -> Result<(), KeptFault>
    ensures ok { OnOk result ((map kept_view functions.new.items
        ≡ map kept_view functions.old.items ++ kept_for (table_view judged.now) name.now)
        × (function_fits (table_view judged.now) name.now ≡ true)) }
    ensures err { IfErr result (IsFaultOf (function_fits (table_view judged.now) name.now)) }
{
    match judged.table.signatures.facts(name) {
        Some(facts) => {
            functions.push(function_kept(alloc, name, facts, &judged.table.called)?)?;
            Ok(())
        }
        None => Ok(()),
    }
}

/// What is kept of the functions of these names.
fn all_kept(
    alloc: Global,
    names: &[&str],
    judged: &Judged<'_>,
) -> Result<Vec<KeptFunction>, KeptFault>
    ensures ok { IfOk result (λ kept. (map kept_view kept.items
        ≡ flat_map (kept_for (table_view judged.now)) (text_views names.now))
        × (list_all (function_fits (table_view judged.now)) (text_views names.now) ≡ true)) }
    ensures err { IfErr result (IsKeptFault (table_view judged.now)) }
{
    let mut functions = Vec::new(alloc);
    for name in names {
        add_kept(alloc, name, judged, &mut functions)?;
    }
    Ok(functions)
}

/// What is kept of the table of this package, which was judged so, for those that import it: all that is known of its
/// functions, in the order of their names, those too of which nothing is tracked. The table that is made of it again is
/// the one that the package was judged by.
///
/// # Errors
///
/// A number of a function is not below 2^32, which none of a file of at most 1 MiB is; or memory was refused.
pub fn kept_functions(
    alloc: Global,
    loaded: &LoadedPackage,
    judged: &Judged<'_>,
) -> Result<Vec<KeptFunction>, KeptFault>
    ensures kept { IfOk result (λ kept. (ps : List MeantPackage) (tables : Tables) (i : ℕ) (p : MeantPackage)
        → TellsPackage p loaded.now → IsTable ps tables i p (table_view judged.now)
        → AreKept (table_view judged.now) (map kept_view kept.items)) }
    ensures fault { IfErr result (IsKeptFault (table_view judged.now)) }
{
    let names = names_in_order(alloc, &loaded.trees)?;
    all_kept(alloc, &names, judged)
}
