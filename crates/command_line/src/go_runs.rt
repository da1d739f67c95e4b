//! The folder of one run of the go command, and names of files that can't be meant in it.

ghost use Rattle.std.specs.Prelude.{◌≡◌, option_map};
ghost use Rattle.command_line.specs.VetViews.{flags_of, told_of, wrong_of};
ghost use Rattle.command_line.specs.VetWords.{if_relative, is_absolute, or_next, relative_name, run_folder, split_last};

use crate::vet_flags::VetFlag;
use crate::vet_told::{ToldFlags, UnitFlags, WrongValue};

/// What stands before the last slash of a name, and what stands behind it.
fn split_last(name: &str) -> Option<(&str, &str)>
    ensures { option_map (λ parts. (parts.0.now, parts.1.now)) result ≡ split_last name.now }
{
    name.rsplit_once('/')
}

/// The folder that the go command makes for one run, where the file of a unit lies in a folder of it.
pub fn run_folder(file: &str) -> Option<&str>
    ensures { option_map (λ folder. folder.now) result ≡ run_folder file.now }
{
    let (unit, name) = split_last(file)?;
    let (run, _) = split_last(unit)?;
    let (_, run_name) = split_last(run)?;
    if name == "vet.cfg" && run_name.starts_with("go-build") {
        Some(run)
    } else {
        None
    }
}

/// The name of a file, as a wrong value of this flag where it is relative.
fn if_relative<'a>(flag: VetFlag, name: Option<&'a str>) -> Option<WrongValue<'a>>
    ensures { option_map wrong_of result ≡ if_relative flag (option_map (λ text. text.now) name.entry) }
{
    match name {
        Some(name) if !name.starts_with("/") => Some(WrongValue { flag, value: name }),
        _ => None,
    }
}

/// The first relative name of a file, where the go command runs the unit in the folder of its package.
fn relative_name<'a>(flags: UnitFlags<'a>, file: &str) -> Option<WrongValue<'a>>
    ensures { option_map wrong_of result ≡ relative_name (flags_of flags.entry) file.now }
{
    if run_folder(file).is_none() {
        return None;
    }
    if_relative(VetFlag::Facts, flags.facts).or(if_relative(VetFlag::Baseline, flags.baseline))
}

/// The first wrong value of the flags for the unit in this file: one that is wrong by itself, or a relative name.
pub fn wrong_in<'a>(told: ToldFlags<'a>, file: &str) -> Option<WrongValue<'a>>
    ensures { option_map wrong_of result
        ≡ or_next (told_of told.entry).wrong (relative_name (told_of told.entry).flags file.now) }
{
    told.wrong.or(relative_name(told.flags, file))
}
