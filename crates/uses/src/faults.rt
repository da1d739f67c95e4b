//! Uses that the rules don't allow.

ghost use Rattle.std.specs.Prelude.{◌≡◌, OnOk};
ghost use Rattle.meaning.specs.Uses.{fault_at, last_fault, otherwise};
ghost use Rattle.facts.specs.FactViews.{kind_view};
ghost use Rattle.mentions.specs.MarkViews.{named_view};
ghost use Rattle.uses.specs.OutcomeViews.{code_view, AddsFaults};

use facts::VariableKind;
use mentions::Named;
use std::alloc::AllocError;
use tracked_rows::last_name;

/// What is wrong with a use.
#[derive(Clone, Copy)]
pub enum UseCode {
    RecoverUsed,
    GotoUsed,
    CancelDiscarded,
    CancelUsedOtherwise,
    GroupUsedOtherwise,
    BoundAgain,
    TooManyVariables,
}

/// A fault at the offset, with the name that it is about.
#[derive(Clone, Copy)]
pub struct UseFault<'a> {
    pub at: u32,
    pub code: UseCode,
    pub name: &'a str,
}

/// Adds a fault.
///
/// # Errors
///
/// Memory was refused.
pub fn add_fault<'a>(
    faults: &mut Vec<UseFault<'a>>,
    at: u32,
    code: UseCode,
    name: &'a str,
) -> Result<(), AllocError>
    ensures { OnOk result (AddsFaults faults.old.items faults.new.items (fault_at at (code_view code) name.now)) }
{
    faults.push(UseFault { at, code, name })?;
    Ok(())
}

/// Adds a fault that is about the last one of `n` and `n.m`.
pub fn add_last<'a>(
    faults: &mut Vec<UseFault<'a>>,
    code: UseCode,
    named: Named<'a>,
) -> Result<(), AllocError>
    ensures { OnOk result (AddsFaults faults.old.items faults.new.items (last_fault (code_view code)
        (named_view named.entry))) }
{
    add_fault(faults, named.at, code, last_name(named))
}

/// A variable of that kind is used otherwise than the rules say.
pub fn otherwise(kind: VariableKind) -> UseCode
    ensures { code_view result ≡ otherwise (kind_view kind) }
{
    match kind {
        VariableKind::Cancel => UseCode::CancelUsedOtherwise,
        VariableKind::Group => UseCode::GroupUsedOtherwise,
    }
}
