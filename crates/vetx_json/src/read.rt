//! What a text keeps of a package.

ghost use Rattle.std.specs.Prelude.{◌≡◌, IfErr, IfOk};
ghost use Rattle.json_reading.specs.Standing.{RefusesText};
ghost use Rattle.vetx_json.specs.declared.fault.VetxFault.TheVariants.{OutOfMemory};
ghost use Rattle.vetx_json.specs.KeptUnits.{vetx_of, IsInOrder, VetxEntry};
ghost use Rattle.vetx_json.specs.Parts.{HasVersion};
ghost use Rattle.vetx_json.specs.VetxTexts.{IsVetxFault, IsVetxText};

use crate::fault::VetxFault;
use crate::functions::KeptLists;
use crate::vetx::{VERSION, Vetx};
use json::Reader;
use json_reading::{NoOthers, ReadItem, Stop, Under, read_made, read_whole, whole_number_under};
use std::alloc::Global;
use table_json::{Positions, Texts, Truths, fitting};

/// The members that tell of the version and of faults.
type Verdicts = Under<'static, Positions, Under<'static, Truths, Under<'static, Truths, NoOthers>>>;

const VERDICTS: Verdicts = Under {
    key: "version",
    values: &Positions,
    found: None,
    others: Under {
        key: "whole",
        values: &Truths,
        found: None,
        others: Under {
            key: "yes",
            values: &Truths,
            found: None,
            others: NoOthers { are_none: true },
        },
    },
};

/// These, with the members that name the package.
type Names = Under<'static, Texts, Under<'static, Texts, Under<'static, Texts, Verdicts>>>;

const NAMES: Names = Under {
    key: "module",
    values: &Texts,
    found: None,
    others: Under {
        key: "name",
        values: &Texts,
        found: None,
        others: Under {
            key: "path",
            values: &Texts,
            found: None,
            others: VERDICTS,
        },
    },
};

/// All members of a package.
type Members = Under<'static, Positions, Under<'static, Texts, Under<'static, KeptLists, Names>>>;

const MEMBERS: Members = Under {
    key: "edition",
    values: &Positions,
    found: None,
    others: Under {
        key: "facts",
        values: &Texts,
        found: None,
        others: Under {
            key: "functions",
            values: &KeptLists,
            found: None,
            others: NAMES,
        },
    },
};

/// What a value keeps of a package.
#[derive(Clone, Copy, Drop)]
struct Kept;

impl ReadItem for Kept {
    ghost use Rattle.json_reading.specs.Standing.{Refutes};
    ghost use Rattle.vetx_json.specs.KeptUnits.{vetx_of};
    ghost use Rattle.vetx_json.specs.VetxValues.{IsVetxValue};

    type Item = Vetx;

    ghost is_item = { λ _ value kept. IsVetxValue value (vetx_of kept) };

    ghost is_none = { λ _. Refutes IsVetxValue };

    fn read_item(
        &self,
        alloc: Global,
        reader: &mut Reader<'_>,
        depth: usize,
    ) -> Result<Option<Vetx>, Stop> {
        match read_made(alloc, MEMBERS, reader, depth)? {
            Some(found) => {
                let (edition, (facts, (functions, names))) = found;
                let (module_path, (name, (path, verdicts))) = names;
                let (version, (has_whole_fault, (is_yes, _))) = verdicts;
                if version == VERSION {
                    Ok(Some(Vetx {
                        edition,
                        facts,
                        path,
                        name,
                        module_path,
                        has_whole_fault,
                        is_yes,
                        functions,
                    }))
                } else {
                    Ok(None)
                }
            }
            None => Ok(None),
        }
    }
}

/// The version of a text, where it is a whole number of at most 32 bits. All of the text is gone over.
fn version_of(alloc: Global, text: &str) -> Result<Option<u32>, Stop>
    ensures ok { IfOk result (HasVersion text.now) }
    ensures err { IfErr result (RefusesText text.now) }
{
    let number = whole_number_under(alloc, "version", text)?;
    Ok(fitting(number))
}

/// What a text keeps of a package, its functions in the order of their names, each with its positions as they rise. In
/// the text the order of functions, positions and keys is free. Names that no function of Go has, and paths of no
/// package, are read as others. So what `to_json` writes of what is in order reads back as that. A text that keeps a
/// package is gone over once, and other JSON once more, for its version.
///
/// # Errors
///
/// The text is no JSON; its version is missing or no whole number up to 4,294,967,295; it is another than 1; the rest
/// is not that of a package, as a key is missing or unknown, a value of another kind, a number above 4,294,967,295, as
/// a function or a position comes twice, or as a position stands in both `gives` and `causes`; or memory was refused.
/// Of a text's faults the first that holds is told. A text that keeps a package is refused for want of memory alone.
pub fn from_json(alloc: Global, text: &str) -> Result<Vetx, VetxFault>
    ensures vetx { IfOk result (λ kept. IsVetxText text.now (vetx_of kept)) }
    ensures in_order { IfOk result (λ kept. IsInOrder (vetx_of kept)) }
    ensures no_other { IfOk result (λ kept. (other : VetxEntry) → IsVetxText text.now other → other ≡ vetx_of kept) }
    ensures fault { IfErr result (IsVetxFault text.now) }
    ensures only_memory { IfErr result
        (λ fault. (kept : VetxEntry) → IsVetxText text.now kept → fault ≡ OutOfMemory) }
{
    match read_whole(alloc, &Kept, text)? {
        Some(kept) => Ok(kept),
        // Nearly every text keeps a package, so its version is asked for only to tell why it keeps none.
        None => match version_of(alloc, text)? {
            None | Some(VERSION) => Err(VetxFault::WrongShape),
            Some(_) => Err(VetxFault::WrongVersion),
        },
    }
}
