//! What can go wrong outside the judgement.

ghost use Rattle.std.specs.Prelude.{◌≡◌, ◌⊎◌, ◌≢◌};
ghost use Rattle.std.specs.IoError.{error_kind};

use std::alloc::{AllocError, AllocFailed};
use std::io::{self, ErrorKind, Write};
use thiserror::Error;

/// Why a run of a program ends without what was asked for. Each is told in one line.
#[derive(Debug, PartialEq, Eq, Drop, Error)]
pub enum Fault {
    /// A word of the command line is not UTF-8.
    #[error("an argument is not UTF-8: rename the file or folder that it names")]
    WordNotText,
    /// The words are none that the program of this name understands.
    #[error("unknown arguments: see {0} --help")]
    WrongWords(&'static str),
    /// The word has no `=`, nothing before or after its first one, or a control code before it; or the path of a listed
    /// package or of a unit has a control code. Escaped.
    #[error("bad package: {0}")]
    BadPackage(String),
    /// The folder can't be listed, or the file can't be read, or is none where one of a package should be. Escaped.
    #[error("cannot read: {0}")]
    CannotRead(String),
    /// The report, or the lines, could not be written.
    #[error("cannot write: standard output")]
    CannotWrite,
    /// The file could not be written. Escaped.
    #[error("cannot write: {0}")]
    CannotWriteFile(String),
    /// The file of certificates is not UTF-8, or no JSON.
    #[error("certificate is not JSON")]
    CertificateNotJson,
    /// The file of certificates is JSON, but has no certificates of a version that is known.
    #[error("certificate has another shape")]
    CertificateWrongShape,
    /// The file of certificates has a version that is not known.
    #[error("certificate version not known")]
    CertificateWrongVersion,
    /// The certificates have an older version, in which those of the package of this path can't be told. Escaped.
    #[error("certificate version too old: {0}")]
    CertificateTooOld(String),
    /// The file of declared facts is not UTF-8, or no JSON.
    #[error("facts are not JSON")]
    FactsNotJson,
    /// The file of declared facts is JSON, but has no facts of a version that is known.
    #[error("facts have another shape")]
    FactsWrongShape,
    /// The file of declared facts has a version that is not known.
    #[error("facts version not known")]
    FactsWrongVersion,
    /// Something is declared of the package of this path, of which nothing may be.
    #[error("facts name a reserved path: {0}")]
    FactsReserved(&'static str),
    /// Something is declared of the package of this path, which was given.
    #[error("facts name a given package: {0}")]
    FactsNameGiven(String),
    /// The report of an earlier run is not UTF-8, or no JSON.
    #[error("baseline is not JSON")]
    BaselineNotJson,
    /// The report of an earlier run is JSON, but none that this program wrote in a version that is known.
    #[error("baseline has another shape")]
    BaselineWrongShape,
    /// The list of packages is not UTF-8, or no JSON.
    #[error("package list is not JSON")]
    ListNotJson,
    /// The list of packages is JSON, but something in it is no package as the go command lists them.
    #[error("package list has another shape")]
    ListWrongShape,
    /// The go command could not load the package of this path, or one below it, and says so in its list. Escaped.
    #[error("package list is incomplete: {0}")]
    ListIncomplete(String),
    /// There is no package in the list.
    #[error("package list is empty")]
    ListIsEmpty,
    /// The file of a unit is not UTF-8, or no JSON.
    #[error("the .cfg file is not JSON: pass the file that go vet, or a build rule, wrote for ctxvet")]
    UnitNotJson,
    /// The file of a unit is JSON, but tells of no unit as the go command does.
    #[error("unexpected JSON structure of the .cfg file: pass the file that go vet, or a build rule, wrote for ctxvet")]
    UnitWrongShape,
    /// The file of this name, which should tell of an imported package, is not UTF-8, or no JSON. Escaped.
    #[error("{0}: vetx file is not JSON: judge its package again (go vet: go clean -cache)")]
    VetxNotJson(String),
    /// That file is JSON, but tells of no package in a version that is known. Escaped.
    #[error("{0}: unexpected JSON structure of the vetx file: judge its package again (go vet: go clean -cache)")]
    VetxWrongShape(String),
    /// That file has a version that is not known. Escaped.
    #[error("{0}: vetx file of another ctxvet: judge all packages with the same one (go vet: go clean -cache)")]
    VetxWrongVersion(String),
    /// That file tells of another package than the one that is imported. Escaped.
    #[error("{0}: vetx file of another package than the one imported: correct PackageVetx in the .cfg file")]
    VetxOfAnotherPackage(String),
    /// That file tells of a package that was judged by another edition. Escaped.
    #[error("{0}: vetx file of another edition: judge all packages by the same -edition")]
    VetxOfAnotherEdition(String),
    /// That file tells of a package that was judged beside other declared facts. Escaped.
    #[error("{0}: vetx file of other declared facts: use the same -facts for all packages; rename a changed file")]
    VetxOfOtherFacts(String),
    /// A number of a function of the package of this path is not below 2^32: a position, or how many results it has. So
    /// nothing can be kept of it for those that import it. Escaped.
    #[error("{0}: a function's position or number of results is 2^32 or more: split the file")]
    FunctionTooLarge(String),
    /// Two packages have this path.
    #[error("two packages of one path: {0}")]
    TwoPackages(String),
    /// There are more packages than are read in one run, or a package has too many files.
    #[error("too many packages")]
    TooManyPackages,
    /// A thread that should judge packages could not be started.
    #[error("a thread could not be started")]
    NoThread,
    /// Memory was refused.
    #[error("out of memory")]
    OutOfMemory,
}

impl From<AllocError> for Fault {
    ghost use Rattle.folders.specs.declared.fault.Fault.TheVariants.{OutOfMemory};

    ghost from_gives = { λ _ fault. fault ≡ OutOfMemory };

    fn from(_error: AllocError) -> Fault {
        Fault::OutOfMemory
    }
}

impl<T: Drop> From<AllocFailed<T>> for Fault {
    ghost use Rattle.folders.specs.declared.fault.Fault.TheVariants.{OutOfMemory};

    ghost from_gives = { λ _ fault. fault ≡ OutOfMemory };

    fn from(_error: AllocFailed<T>) -> Fault {
        Fault::OutOfMemory
    }
}

/// The fault of a call to the system on the folder or file of this name.
pub fn reading(error: &io::Error, name: String) -> Fault
    ensures memory { error_kind error.now ≡ ErrorKind.OutOfMemory → result ≡ Fault.OutOfMemory }
    ensures other { error_kind error.now ≢ ErrorKind.OutOfMemory → result ≡ Fault.CannotRead name }
    ensures either { (result ≡ Fault.OutOfMemory) ⊎ (result ≡ Fault.CannotRead name) }
{
    if error.kind() == ErrorKind::OutOfMemory {
        Fault::OutOfMemory
    } else {
        Fault::CannotRead(name)
    }
}

/// Why the words of the command line can't be had.
pub fn words_fault(error: &io::Error) -> Fault
    ensures memory { error_kind error.now ≡ ErrorKind.OutOfMemory → result ≡ Fault.OutOfMemory }
    ensures other { error_kind error.now ≢ ErrorKind.OutOfMemory → result ≡ Fault.WordNotText }
{
    if error.kind() == ErrorKind::OutOfMemory {
        Fault::OutOfMemory
    } else {
        Fault::WordNotText
    }
}

/// The status that a process ends with after a fault.
pub const FAULTY: u8 = 2;

/// Prints the fault's line, which begins with the program's name, on standard error, and gives the status that the
/// process ends with. Where that can't be written either, the status is all that is left to say it.
pub fn fail<E: Write>(err: &mut E, program: &str, fault: &Fault) -> u8
    ensures { result ≡ FAULTY }
{
    let _ = writeln!(err, "{program}: {fault}");
    let _ = err.flush();
    FAULTY
}
