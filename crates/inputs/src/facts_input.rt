//! The declared facts that are read from a file.

ghost use Rattle.std.specs.Prelude.{◌≡◌, ℕ, List, [], IfErr, IfOk};
ghost use Rattle.command_line.specs.Words.{option_texts};
ghost use Rattle.inputs.specs.DeclaredFacts.{AreDeclaredBy, IsFactsFault, IsReadFactsFault};
ghost use Rattle.declared_json.specs.DeclaredPackages.{packages_of};
ghost use Rattle.declared_json.specs.DeclaredTexts.{IsDeclaredFault, IsDeclaredText};

use declared_json::{DeclaredFault, DeclaredPackages, from_json};
use folders::{Fault, ReadFile, read_file};
use std::alloc::Global;
use std::rt::Files;

/// What is declared, and the file that was read for it, if one is named.
#[derive(Drop)]
pub struct Declared<'a> {
    pub file: Option<ReadFile<'a>>,
    pub outside: DeclaredPackages,
}

/// What is declared in the file of this name, or nothing where none is named.
///
/// # Errors
///
/// The file can't be read, its bytes are no declared facts, or memory was refused.
pub fn read_facts<'a, R: Files + AllocGlobal>(
    rt: &R,
    name: Option<&'a str>,
) -> Result<Declared<'a>, Fault>
    ensures declared { IfOk result
        (λ declared. AreDeclaredBy (option_texts name.entry) declared.file declared.outside) }
    ensures fault { IfErr result (IsReadFactsFault (option_texts name.entry)) }
{
    match name {
        Some(name) => {
            let file = read_file(rt, name)?;
            let outside = facts_of(rt.alloc(), file.bytes())?;
            Ok(Declared {
                file: Some(file),
                outside,
            })
        }
        None => Ok(Declared {
            file: None,
            outside: nothing_declared(rt.alloc()),
        }),
    }
}

/// Nothing is declared.
pub fn nothing_declared(alloc: Global) -> DeclaredPackages
    ensures { packages_of result ≡ [] }
{
    DeclaredPackages {
        packages: Vec::new(alloc),
    }
}

/// What is declared in the text that these bytes are.
fn facts_of(alloc: Global, bytes: &[u8]) -> Result<DeclaredPackages, Fault>
    ensures declared { IfOk result (λ outside. IsDeclaredText bytes.now (packages_of outside)) }
    ensures fault { IfErr result (IsFactsFault bytes.now) }
{
    match str::from_utf8(bytes) {
        Ok(text) => match from_json(alloc, text) {
            Ok(outside) => Ok(outside),
            Err(fault) => Err(fault_of_facts(fault)),
        },
        Err(_) => Err(Fault::FactsNotJson),
    }
}

/// Why a text is none of declared facts, as the program tells it.
fn fault_of_facts(fault: DeclaredFault) -> Fault
    ensures { (bytes : List ℕ) → IsDeclaredFault bytes fault → IsFactsFault bytes result }
{
    match fault {
        DeclaredFault::NotJson => Fault::FactsNotJson,
        DeclaredFault::WrongShape => Fault::FactsWrongShape,
        DeclaredFault::WrongVersion => Fault::FactsWrongVersion,
        DeclaredFault::Reserved(path) => Fault::FactsReserved(path.text()),
        DeclaredFault::OutOfMemory => Fault::OutOfMemory,
    }
}
