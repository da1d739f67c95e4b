//! What is known of a package's imports by what is said of them, and by what is declared of those that are not given.

ghost use Rattle.std.specs.Prelude.{◌≡◌, ◌++◌, ◌∷◌, ℕ, List, [], OnOk, None, option_map};
ghost use Rattle.called_parameters.specs.Called.{called_by_path};
ghost use Rattle.facts.specs.FactViews.{table_by_path};
ghost use Rattle.files_to_walk.specs.Signs.{signs_by_path};
ghost use Rattle.first_values.specs.ValuesByName.{only_at};
ghost use Rattle.imports.specs.Views.{text_views};
ghost use Rattle.meaning.specs.OuterBlocks.{or_else};
ghost use Rattle.one_package.specs.Judgments.{is_picked, mark_by_path};
ghost use Rattle.given_packages.specs.Neighbours.{nearby_view};
ghost use Rattle.one_package.specs.Results.{declared_among, declared_if, signs_in, told_and, KnowsAll, KnowsImports, KnowsJudged, KnowsTold, ToldImports};
ghost use Rattle.one_package.specs.declared.judged.Judged.{Judged};

use crate::judged::Judged;
use crate::verdicts::is_yes;
use called_parameters::ImportedCalls;
use declared_tables::PackageTable;
use facts::Imported;
use files_to_walk::{KnownSigns, Signs};
use first_values::FirstValues;
use given_packages::{Given, Neighbours};
use std::alloc::{AllocError, Global};

/// The packages that are not yes, among those that were judged.
#[derive(Drop)]
pub struct NotYes<'a> {
    packages: FirstValues<'a, bool>,
}

impl<'a> NotYes<'a> {
    /// No package.
    fn new(alloc: Global) -> Self
        ensures { (path : List ℕ) → mark_by_path result path ≡ None }
    {
        NotYes {
            packages: FirstValues::new(alloc),
        }
    }

    /// Keeps whether something is to be said of the package of that path, unless that is known.
    ///
    /// # Errors
    ///
    /// Memory was refused.
    fn insert(&mut self, path: &'a str, is_not_yes: bool) -> Result<(), AllocError>
        ensures { OnOk result ((other : List ℕ) → mark_by_path self.new other
            ≡ or_else (mark_by_path self.old other) (only_at path.now is_not_yes other)) }
    {
        self.packages.insert(path, is_not_yes)
    }

    /// Whether something is to be said of the package of that path, as far as it was judged.
    pub fn has(&self, path: &str) -> bool
        ensures { result ≡ is_picked self.now path.now }
    {
        match self.packages.get(path) {
            Some(mark) => *mark,
            None => false,
        }
    }
}

/// What is known of a package's imports.
#[derive(Drop)]
pub struct KnownImports<'a, 'k> {
    /// What the signatures of their functions say.
    pub signatures: Imported<'a, 'k>,
    /// Which of their parameters their functions are known to call.
    pub calls: ImportedCalls<'a, 'k>,
    /// What else is known of their functions.
    pub signs: KnownSigns<'a>,
    /// Those that are not yes.
    pub not_yes: NotYes<'a>,
}

/// What a table shows before one looks for a function.
fn signs_in(table: &PackageTable<'_>) -> Signs
    ensures { result ≡ signs_in table.now }
{
    Signs {
        gives: table.gives,
        is_told: table.is_told,
    }
}

/// Adds what is declared of the package of that path, unless it was given, or something is known of its path.
fn add_declared<'a, 'k>(
    near: Neighbours<'k, 'a>,
    path: &'a str,
    signatures: &mut Imported<'a, 'k>,
    calls: &mut ImportedCalls<'a, 'k>,
    signs: &mut KnownSigns<'a>,
) -> Result<(), AllocError>
    ensures signatures { OnOk result ((other : List ℕ) → table_by_path signatures.new other
        ≡ or_else (table_by_path signatures.old other)
        (option_map (λ t. t.signatures) (declared_if (nearby_view near.entry) path.now other))) }
    ensures calls { OnOk result ((other : List ℕ) → called_by_path calls.new other
        ≡ or_else (called_by_path calls.old other)
        (option_map (λ t. t.called) (declared_if (nearby_view near.entry) path.now other))) }
    ensures signs { OnOk result ((other : List ℕ) → signs_by_path signs.new other
        ≡ or_else (signs_by_path signs.old other)
        (option_map signs_in (declared_if (nearby_view near.entry) path.now other))) }
{
    if near.places.contains_key(path) {
        return Ok(());
    }
    match near.declared.get(path) {
        Some(table) => {
            signatures.insert(path, &table.signatures)?;
            calls.insert(path, &table.called)?;
            signs.insert(path, signs_in(table))
        }
        None => Ok(()),
    }
}

/// Adds what is declared of the packages of these paths, as far as they were not given, and nothing is known of them.
fn add_all_declared<'a, 'k>(
    near: Neighbours<'k, 'a>,
    paths: &[&'a str],
    signatures: &mut Imported<'a, 'k>,
    calls: &mut ImportedCalls<'a, 'k>,
    signs: &mut KnownSigns<'a>,
) -> Result<(), AllocError>
    ensures signatures { OnOk result ((other : List ℕ) → table_by_path signatures.new other
        ≡ or_else (table_by_path signatures.old other)
        (option_map (λ t. t.signatures) (declared_among (nearby_view near.entry) (text_views paths.now) other))) }
    ensures calls { OnOk result ((other : List ℕ) → called_by_path calls.new other
        ≡ or_else (called_by_path calls.old other)
        (option_map (λ t. t.called) (declared_among (nearby_view near.entry) (text_views paths.now) other))) }
    ensures signs { OnOk result ((other : List ℕ) → signs_by_path signs.new other
        ≡ or_else (signs_by_path signs.old other)
        (option_map signs_in (declared_among (nearby_view near.entry) (text_views paths.now) other))) }
{
    for path in paths {
        add_declared(near, path, signatures, calls, signs)?;
    }
    Ok(())
}

impl<'a, 'k> KnownImports<'a, 'k> {
    /// Nothing is known.
    pub fn new(alloc: Global) -> Self
        ensures { KnowsJudged [] result }
    {
        KnownImports {
            signatures: Imported::new(alloc),
            calls: ImportedCalls::new(alloc),
            signs: KnownSigns::new(alloc),
            not_yes: NotYes::new(alloc),
        }
    }

    /// Adds what is told of the package of that path, unless something is known of it: what is known of its functions,
    /// and whether it is yes.
    ///
    /// # Errors
    ///
    /// Memory was refused.
    pub fn add_told(
        &mut self,
        path: &'a str,
        table: &'k PackageTable<'a>,
        is_yes: bool,
    ) -> Result<(), AllocError>
        ensures { OnOk result ((told : ToldImports) → KnowsTold told self.old
            → KnowsTold (told_and told path.now record { table = table.now; is_yes = is_yes }) self.new) }
    {
        self.signatures.insert(path, &table.signatures)?;
        self.calls.insert(path, &table.called)?;
        self.signs.insert(path, signs_in(table))?;
        self.not_yes.insert(path, !is_yes)?;
        Ok(())
    }

    /// Adds what is said of a package, unless something is known of its path.
    ///
    /// # Errors
    ///
    /// Memory was refused.
    pub fn add(&mut self, one: &'k Judged<'a>) -> Result<(), AllocError>
        ensures { OnOk result ((js : List Judged) → KnowsJudged js self.old
            → KnowsJudged (js ++ one.now ∷ []) self.new) }
    {
        self.add_told(one.report.path, &one.table, is_yes(&one.report))?;
        Ok(())
    }

    /// Adds what is declared of the packages of these paths, as far as they were not given, and nothing is known of
    /// them. It comes after all that is told of packages.
    ///
    /// # Errors
    ///
    /// Memory was refused.
    pub fn add_others(
        &mut self,
        near: Neighbours<'k, 'a>,
        paths: &[&'a str],
    ) -> Result<(), AllocError>
        ensures { OnOk result ((told : ToldImports) → KnowsTold told self.old
            → KnowsAll (nearby_view near.entry) (text_views paths.now) told self.new) }
    {
        add_all_declared(
            near,
            paths,
            &mut self.signatures,
            &mut self.calls,
            &mut self.signs,
        )?;
        Ok(())
    }

    /// Adds what is declared of the packages of these paths, as far as they were not given, and nothing is known of
    /// them. It comes after all that is said of packages.
    ///
    /// # Errors
    ///
    /// Memory was refused.
    pub fn add_outside(&mut self, given: &'k Given<'a>, paths: &[&'a str]) -> Result<(), AllocError>
        ensures { OnOk result ((js : List Judged) → KnowsJudged js self.old
            → KnowsImports given.now (text_views paths.now) js self.new) }
    {
        self.add_others(given.neighbours(), paths)?;
        Ok(())
    }
}
