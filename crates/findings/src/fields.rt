//! The fields in which a package keeps cancel functions, of which its verdict tells.

ghost use Rattle.std.specs.Prelude.{◌≡◌, ◌↔◌, ◌++◌, ℕ, List, IfOk, OnOk, Contains, flat_map};
ghost use Rattle.std.specs.List.{AllPairs};
ghost use Rattle.calls_flags.specs.ToldFiles.{TellAllSeen};
ghost use Rattle.findings.specs.KeptFields.{kept_in};
ghost use Rattle.meaning.specs.Uses.{Seen};
ghost use Rattle.report.specs.Entries.{texts_of, TextPrecedes};
ghost use Rattle.silent_files.specs.WalkedFiles.{IsKeptAmong};

use calls_flags::ToldFile;
use report::names_in_order;
use std::alloc::{AllocError, Global};

fn add_names<'a>(names: &[&'a str], fields: &mut Vec<&'a str>) -> Result<(), AllocError>
    ensures { OnOk result (texts_of fields.new.items ≡ texts_of fields.old.items ++ texts_of names.now) }
{
    for name in names {
        fields.push(*name)?;
    }
    Ok(())
}

/// The fields in which these files keep what they obtained, in the order of the text; one may come twice.
fn fields_kept<'a>(alloc: Global, files: &[ToldFile<'a>]) -> Result<Vec<&'a str>, AllocError>
    ensures { IfOk result (λ fields. texts_of fields.items ≡ flat_map kept_in files.now) }
{
    let mut fields = Vec::new(alloc);
    for file in files {
        add_names(&file.told.keeping, &mut fields)?;
    }
    Ok(fields)
}

/// The fields in which the files of a package keep what they obtained, in the order of their bytes, each once.
///
/// # Errors
///
/// Memory was refused.
pub fn fields_to_tell<'a>(alloc: Global, files: &[ToldFile<'a>]) -> Result<Vec<&'a str>, AllocError>
    ensures sorted { IfOk result (λ fields. AllPairs TextPrecedes (texts_of fields.items)) }
    ensures fields { IfOk result (λ fields. (seens : List Seen) → TellAllSeen seens files.now
        → (field : List ℕ) → Contains (texts_of fields.items) field ↔ IsKeptAmong seens field) }
{
    let fields = fields_kept(alloc, files)?;
    Ok(names_in_order(fields))
}
