//! What is told of a package without a fault as a whole, and the bodies of its files.

ghost use Rattle.std.specs.Prelude.{◌≡◌, ◌||◌, ℕ, Bool, List, IfOk, Some, slice_get};
ghost use Rattle.one_package.specs.Judgments.{TellsAround};
ghost use Rattle.one_package.specs.ToldPackages.{IsMarked, IsToldPackage, HasPackageBodies};
ghost use Rattle.called_parameters.specs.Called.{flags_by_path};
ghost use Rattle.whole_packages.specs.LoadedViews.{TellsPackage};
ghost use Rattle.names.specs.Answers.{declared_at};
ghost use Rattle.meaning_reports.specs.WholeFaults.{HasNoWholeFault};
ghost use Rattle.meaning_reports.specs.Loaded.{LoadedPackage as MeantPackage, Tables, imported_flags, means_in};

use crate::hands::Hands;
use crate::judged::Around;
use called_parameters::{Called, ImportedCalls};
use calls_flags::{FileBodies, Telling, ToldFile};
use facts::Table;
use files_to_walk::{signs_of_files, walked_files};
use keeping::{FieldNames, keeping_fields};
use names::Names;
use signatures::signatures;
use std::alloc::Global;
use tracked_rows::{Fields, Known};
use whole_packages::LoadedPackage;

/// A package that was told of.
#[derive(Drop)]
pub struct ToldPackage<'a> {
    /// What the signatures of its functions say.
    pub signatures: Table<'a>,
    /// Whether one of its functions may give a cancel function.
    pub gives: bool,
    /// Whether one has a parameter or a result that is tracked.
    pub is_told: bool,
    /// Which of its fields keep cancel functions.
    pub fields: FieldNames<'a>,
    /// What was told of its files. Of files without anything to find nothing need be.
    pub files: Vec<ToldFile<'a>>,
}

/// Who tells of a package, and whether of all its files, or of those alone in which something may be found.
#[derive(Drop)]
pub struct Tellers<'h, H> {
    pub hands: &'h H,
    pub tells_all: bool,
}

/// The bodies of a package's files, and which of their parameters its functions are known to call.
#[derive(Drop)]
pub struct PackageBodies<'e, 'a> {
    pub files: Vec<FileBodies<'e, 'a>>,
    pub called: Called<'a>,
}

/// Whether all files are walked: where some function of the package gives a cancel function, each may call it.
fn needs_all(tells_all: bool, gives: bool) -> bool
    ensures { result ≡ (tells_all || gives) }
{
    tells_all || gives
}

/// Tells of a package without a fault as a whole, where the uses in it mean this: of all its files, or of those in
/// which something may be found. Before it is found which of its fields keep cancel functions.
///
/// # Errors
///
/// Memory was refused, or what else keeps these hands from it.
pub fn tell_package<'a, H: Hands>(
    alloc: Global,
    loaded: &'a LoadedPackage,
    names: &Names<'a>,
    around: Around<'_, 'a>,
    tellers: &Tellers<'_, H>,
) -> Result<ToldPackage<'a>, H::Fault>
    ensures told { IfOk result (λ told. (ps : List MeantPackage) (tables : Tables) (i : ℕ) (p : MeantPackage)
        → slice_get ps i ≡ Some p → TellsPackage p loaded.now → TellsAround ps tables p around.entry
        → HasNoWholeFault ps i
        → ((file at : ℕ) → declared_at names.now file at ≡ means_in ps p file at)
        → IsToldPackage ps tables p tellers.now.tells_all told) }
    ensures marked { IfOk result IsMarked }
{
    let table = signatures(alloc, loaded.edition, &loaded.trees, names)?;
    let signs = signs_of_files(&table, &loaded.trees);
    let all = needs_all(tellers.tells_all, signs.gives);
    let walked = walked_files(alloc, loaded, around.signs, all)?;
    let known = Known {
        edition: loaded.edition,
        file: 0,
        names: &*names,
        table: &table,
        imported: around.signatures,
        fields: Fields::Each,
        object_lefts: &[],
    };
    let fields = keeping_fields(alloc, known, &loaded.trees, &walked)?;
    let telling = Telling {
        edition: known.edition,
        files: &loaded.trees,
        names: &*names,
        table: &table,
        imported: around.signatures,
        fields: Fields::These {
            keeping: &fields.keeping,
            filled: &fields.filled,
        },
        walked: &walked,
    };
    let files = tellers.hands.tell(alloc, telling)?;
    Ok(ToldPackage {
        signatures: table,
        gives: signs.gives,
        is_told: signs.is_told,
        fields,
        files,
    })
}

/// Makes the bodies of a package that was told of, and finds which of their parameters its functions are known to call,
/// where this is known of its imports.
///
/// # Errors
///
/// Memory was refused, or what else keeps these hands from it.
pub fn package_bodies<'e, 'a, H: Hands>(
    alloc: Global,
    hands: &H,
    told: &'e ToldPackage<'a>,
    imported: &ImportedCalls<'a, '_>,
) -> Result<PackageBodies<'e, 'a>, H::Fault>
    ensures { IfOk result (λ bodies. (ps : List MeantPackage) (tables : Tables) (p : MeantPackage) (all : Bool)
        (is : IsToldPackage ps tables p all told.now)
        → ((path name : List ℕ) (k : ℕ) → flags_by_path imported.now path name k ≡ imported_flags p tables path name k)
        → HasPackageBodies ps tables p is.walked bodies) }
{
    let files = hands.bodies(alloc, &told.files)?;
    let called = hands.called(alloc, &told.signatures, &files, imported)?;
    Ok(PackageBodies { files, called })
}
