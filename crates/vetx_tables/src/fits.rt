//! Numbers that are below 2^32.

ghost use Rattle.std.specs.Prelude.{◌≡◌, ◌&&◌, true, IfErr, IfOk, map};
ghost use Rattle.std.specs.List.{list_all};
ghost use Rattle.facts.specs.FactViews.{cancel_result_view, parameter_view};
ghost use Rattle.vetx_tables.specs.KeptParts.{IsFaultOf};
ghost use Rattle.vetx_tables.specs.KeptTables.{fits, parameter_fits, result_fits};

use crate::fault::KeptFault;
use facts::{CancelResult, TrackedParameter};
use table_json::if_fits;

/// The number, if it is below 2^32.
pub(crate) fn kept_number(number: usize) -> Result<u32, KeptFault>
    ensures ok { IfOk result (λ kept. (kept ≡ number) × (fits number ≡ true)) }
    ensures err { IfErr result (IsFaultOf (fits number)) }
{
    match if_fits(number) {
        Some(kept) => Ok(kept),
        None => Err(KeptFault::TooLarge),
    }
}

/// Whether the number is below 2^32.
fn fits(number: usize) -> bool
    ensures { result ≡ fits number }
{
    number < 1 << 32
}

/// Whether the positions of these parameters are below 2^32.
pub(crate) fn parameters_fit(parameters: &[TrackedParameter]) -> bool
    ensures { result ≡ list_all parameter_fits (map parameter_view parameters.now) }
{
    for parameter in parameters {
        if !fits(parameter.position) {
            return false;
        }
    }
    true
}

/// Whether the positions of these results are below 2^32.
pub(crate) fn results_fit(results: &[CancelResult]) -> bool
    ensures { result ≡ list_all result_fits (map cancel_result_view results.now) }
{
    for given in results {
        if !fits(given.position) {
            return false;
        }
    }
    true
}
