//! What the go command is told of the flags of a unit.

ghost use Rattle.std.specs.Prelude.{◌≡◌, IfOk, string_bytes};
ghost use Rattle.command_line.specs.VetWords.{flag_form, wrong_text};

use crate::vet_flags::VetFlag;
use crate::vet_told::WrongValue;
use std::alloc::{AllocError, Global};

/// The flags of a unit, as the go command reads them: a list of JSON.
pub const VET_FLAGS: &str =
    "[{\"Name\":\"edition\",\"Bool\":false,\"Usage\":\"judge by this edition of the rules, 1 or 2\"},
{\"Name\":\"facts\",\"Bool\":false,\"Usage\":\"take this file of declared facts, by its absolute name\"},
{\"Name\":\"json\",\"Bool\":true,\"Usage\":\"print JSON\"},
{\"Name\":\"c\",\"Bool\":false,\"Usage\":\"show this many lines around each place\"},
{\"Name\":\"tests\",\"Bool\":true,\"Usage\":\"read test files too\"},
{\"Name\":\"why\",\"Bool\":true,\"Usage\":\"tell below each finding why it stands there\"},
{\"Name\":\"accepted\",\"Bool\":true,\"Usage\":\"tell accepted findings too, with their reasons\"},
{\"Name\":\"baseline\",\"Bool\":false,\"Usage\":\"accept the findings of this report in JSON, by its absolute name\"},
{\"Name\":\"quiet\",\"Bool\":true,\"Usage\":\"leave out the lines of packages without findings\"},
{\"Name\":\"keeping\",\"Bool\":true,\"Usage\":\"tell the fields in which a yes keeps cancel functions\"},
{\"Name\":\"no-std-facts\",\"Bool\":true,\"Usage\":\"take Go's own library as unknown\"}]
";

impl VetFlag {
    /// How it is written, and which values it can have.
    fn form(self) -> &'static str
        ensures { result.now ≡ flag_form self }
    {
        match self {
            VetFlag::EditionNumber => "-edition=N (N is 1 or 2)",
            VetFlag::Facts => "-facts=FILE (FILE is an absolute name)",
            VetFlag::Json => "-json (true or false)",
            VetFlag::Lines => "-c=N (N is a number of lines)",
            VetFlag::Tests => "-tests (true or false)",
            VetFlag::Reasons => "-why (true or false)",
            VetFlag::Accepted => "-accepted (true or false)",
            VetFlag::Baseline => "-baseline=FILE (FILE is an absolute name)",
            VetFlag::Quiet => "-quiet (true or false)",
            VetFlag::Keeping => "-keeping (true or false)",
            VetFlag::WithoutLibrary => "-no-std-facts (true or false)",
        }
    }
}

/// What is told of a value that its flag can't have, for standard error.
///
/// # Errors
///
/// Memory was refused.
pub fn wrong_value_text(alloc: Global, wrong: &WrongValue) -> Result<String, AllocError>
    ensures { IfOk result (λ text. string_bytes text ≡ wrong_text wrong.now.flag wrong.now.value.now) }
{
    let form = wrong.flag.form();
    let value = wrong.value;
    format!(in alloc; "ctxvet: invalid value '{value}' for {form}\n")
}
