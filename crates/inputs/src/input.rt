//! What is read for a report.

ghost use Rattle.std.specs.Prelude.{◌≡◌, false, true, IfErr, IfOk};
ghost use Rattle.command_line.specs.Words.{option_texts, texts_of};
ghost use Rattle.inputs.specs.ReadingFaults.{is_of_bytes, is_of_output, IsReadSourcesFault, IsSourcesFault};
ghost use Rattle.inputs.specs.Editions.{edition_of_run, edition_or, usual_edition};
ghost use Rattle.inputs.specs.Packages.{AreNamed, AreReadFor};

use crate::baseline_input::{BaselineRead, read_baseline};
use crate::facts_input::read_facts;
use crate::fixes::fixes_in;
use crate::list_input::read_packages_of_list;
use crate::listed_packages::{add_listed, unasked};
use crate::outside::{known_beside, passed_over};
use crate::packages::{FoldersAsked, NamedPackage, all_named, read_packages};
use command_line::Sources;
use declared_json::DeclaredPackages;
use folders::{Fault, ReadFile, Surroundings};
use load::GivenPackage;
use std::rt::Files;
use suggested_fixes::Fix;
use test_packages::packages_to_read;
use tree::Edition;

/// The files that were read for a report beside those of packages, where they are named: that of declared facts, the
/// report of an earlier run with its findings, and the list of packages. And what may be changed in packages' files.
#[derive(Debug, Drop)]
pub struct FilesRead<'a> {
    pub facts: Option<ReadFile<'a>>,
    pub baseline: BaselineRead<'a>,
    pub list: ListRead<'a>,
    pub fixes: Vec<Fix>,
}

/// The file that was read for a list of packages, if one is named, and the paths of those in it that were not asked
/// for.
#[derive(Debug, Drop)]
pub struct ListRead<'a> {
    pub file: Option<ReadFile<'a>>,
    pub unasked: Vec<String>,
}

/// What was read: these files, the packages, what is known of others, and what stands in notes.
#[derive(Drop)]
pub struct Input<'a> {
    pub files: FilesRead<'a>,
    pub outside: DeclaredPackages,
    pub given: Vec<GivenPackage>,
    pub noted: Noted,
}

/// What stands in notes, escaped: the folders that have no Go file, and the given packages of which something is
/// declared that is passed over.
#[derive(Drop)]
pub struct Noted {
    pub empty: Vec<String>,
    pub passed_over: Vec<String>,
}

/// The edition by which packages are judged: the one that is asked for, or else this one.
pub fn edition_or(usual: Edition, asked: Option<Edition>) -> Edition
    ensures { result ≡ edition_or usual asked }
{
    match asked {
        Some(asked) => asked,
        None => usual,
    }
}

/// The edition by which packages are judged, unless one is asked for: the second one where this list is named.
fn usual_edition(list: Option<&str>) -> Edition
    ensures { result ≡ usual_edition (option_texts list.entry) }
{
    match list {
        Some(_) => Edition::Second,
        None => Edition::First,
    }
}

/// The edition by which all packages of these sources are judged.
pub fn edition_of_run(sources: &Sources<'_>) -> Edition
    ensures { result ≡ edition_of_run sources.now }
{
    edition_or(usual_edition(sources.list), sources.edition)
}

/// Reads the file of declared facts, if one is named, after it the report of an earlier run and the list of packages,
/// if these are named, and then the folders of the packages that words name, which are these, and the files of the
/// listed ones. All are judged by one edition. Of others is known what is declared, and by the second edition what is
/// known of Go's library.
///
/// # Errors
///
/// The first file can't be read, or its bytes are no declared facts; the second one can't be read, or is no report; the
/// list can't be read, or is none of packages; a folder can't be listed or a file can't be read; or memory was refused.
/// It is the first of these.
pub fn read_input<'a, R: Files + AllocGlobal + Surroundings>(
    rt: &R,
    packages: &[NamedPackage<'a>],
    sources: &Sources<'a>,
    folders: &mut FoldersAsked,
) -> Result<Input<'a>, Fault>
    ensures read { IfOk result (λ input. AreNamed (texts_of sources.now.packages.items) packages.now
        → AreReadFor sources.now input.files input.outside input.given.items) }
    ensures fault { IfErr result (λ fault. AreNamed (texts_of sources.now.packages.items) packages.now
        → IsReadSourcesFault sources.now fault) }
    ensures order { IfErr result (λ fault. is_of_bytes fault ≡ true → folders.new.any ≡ folders.old.any) }
{
    let declared = read_facts(rt, sources.facts)?;
    let baseline = read_baseline(rt, sources.baseline)?;
    let listed = read_packages_of_list(rt, sources.list)?;
    let list_file = listed.file;
    let in_list = listed.packages;
    let mut empty = Vec::new(rt.alloc());
    let edition = edition_of_run(sources);
    let mut given = read_packages(rt, edition, packages, &mut empty, folders)?;
    let of_list = packages_to_read(rt.alloc(), &in_list)?;
    add_listed(rt, edition, &of_list, &mut given, &mut empty)?;
    let unasked = unasked(rt.alloc(), &of_list)?;
    let passed = passed_over(rt.alloc(), edition, &declared.outside, &given)?;
    let without_library = sources.without_library;
    let outside = known_beside(
        rt.alloc(),
        edition,
        without_library,
        declared.outside,
        &given,
    )?;
    let fixes = fixes_in(rt.alloc(), &given)?;
    Ok(Input {
        files: FilesRead {
            facts: declared.file,
            baseline,
            list: ListRead {
                file: list_file,
                unasked,
            },
            fixes,
        },
        outside,
        given,
        noted: Noted {
            empty,
            passed_over: passed,
        },
    })
}

/// Reads all that these words name for a check.
///
/// # Errors
///
/// The first word of a package that names none; after that, as `read_input`.
pub fn read_sources<'a, R: Files + AllocGlobal + Surroundings>(
    rt: &R,
    sources: &Sources<'a>,
) -> Result<Input<'a>, Fault>
    ensures read { IfOk result (λ input. AreReadFor sources.now input.files input.outside input.given.items) }
    ensures fault { IfErr result (IsSourcesFault sources.now) }
    ensures other { IfErr result (λ fault. is_of_output fault ≡ false) }
{
    let packages = all_named(rt.alloc(), &sources.packages)?;
    read_input(rt, &packages, sources, &mut FoldersAsked::none())
}
