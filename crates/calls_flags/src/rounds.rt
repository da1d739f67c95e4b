//! The most flags that are consistent, found in rounds.

ghost use Rattle.std.specs.Prelude.{◌≡◌, ◌≤◌, ℕ, List, IfOk, length, map};
ghost use Rattle.facts.specs.FactViews.{facts_by_name};
ghost use Rattle.calls_flags.specs.Claims.{claim_view, flags_claimed, AreClaims, HaveFacts, KeepsClaim, Sieves};
ghost use Rattle.called_parameters.specs.Called.{is_called, flags_by_path};
ghost use Rattle.calls_flags.specs.KnownCalls.{known_calls};
ghost use Rattle.calls_flags.specs.FilesBodies.{TellAll};
ghost use Rattle.meaning_packages.specs.CallsFlags.{AreMost, FileWithCredits, calls_by};

use crate::claims::{Claim, find_claims};
use crate::file_bodies::FileBodies;
use crate::keeping::keeps_claim;
use crate::known_calls::KnownCalls;
use called_parameters::{Called, ImportedCalls};
use facts::Table;
use std::alloc::{AllocError, Global};

/// What is known where these claims hold.
///
/// # Errors
///
/// Memory was refused.
pub fn called_by<'a>(alloc: Global, claims: &[Claim<'a>]) -> Result<Called<'a>, AllocError>
    ensures { IfOk result (λ called. (name : List ℕ) (k : ℕ)
        → is_called called name k ≡ flags_claimed (map claim_view claims.now) name k) }
{
    let mut called = Called::new(alloc);
    for claim in claims {
        called.add(claim.parameter)?;
    }
    Ok(called)
}

/// Those of the claims that the paths of their functions keep, by what is known of functions.
fn kept_by_paths<'a>(
    alloc: Global,
    files: &[FileBodies<'_, 'a>],
    calls: KnownCalls<'_, 'a>,
    claims: &[Claim<'a>],
) -> Result<Vec<Claim<'a>>, AllocError>
    ensures fewer { IfOk result (λ kept. length kept.items ≤ length claims.now) }
    ensures sieves { IfOk result (λ kept. (fs : List FileWithCredits) → TellAll fs files.now
        → AreClaims fs (map claim_view claims.now)
        → Sieves (KeepsClaim fs (known_calls calls.entry))
        (map claim_view claims.now) (map claim_view kept.items)) }
{
    let mut kept = Vec::new(alloc);
    for claim in claims {
        if keeps_claim(alloc, files, calls, *claim)? {
            kept.push(*claim)?;
        }
    }
    Ok(kept)
}

/// Those of the claims that are kept where these claims, and no others, hold.
fn kept_claims<'a>(
    alloc: Global,
    files: &[FileBodies<'_, 'a>],
    imported: &ImportedCalls<'a, '_>,
    claims: &[Claim<'a>],
) -> Result<Vec<Claim<'a>>, AllocError>
    ensures fewer { IfOk result (λ kept. length kept.items ≤ length claims.now) }
    ensures sieves { IfOk result (λ kept. (fs : List FileWithCredits) → TellAll fs files.now
        → AreClaims fs (map claim_view claims.now)
        → Sieves (KeepsClaim fs (calls_by (flags_claimed (map claim_view claims.now)) (flags_by_path imported.now)))
        (map claim_view claims.now) (map claim_view kept.items)) }
{
    let own = called_by(alloc, claims)?;
    let calls = KnownCalls {
        own: &own,
        imported: &*imported,
    };
    kept_by_paths(alloc, files, calls, claims)
}

/// Finds which functions of a package are known to call which of their parameters, where the functions of the package
/// have these facts, and this is known of its imports: the most consistent flags. All cancel
/// parameters are claimed first; each round drops the claims that the paths break under the claims that are left, until
/// none is dropped.
///
/// # Errors
///
/// Memory was refused.
pub fn find_called<'a>(
    alloc: Global,
    table: &Table<'a>,
    files: &[FileBodies<'_, 'a>],
    imported: &ImportedCalls<'a, '_>,
) -> Result<Called<'a>, AllocError>
    ensures { IfOk result (λ called. (fs : List FileWithCredits) → TellAll fs files.now
        → HaveFacts (facts_by_name table.now) fs
        → AreMost fs (flags_by_path imported.now) (is_called called)) }
{
    let mut claims = find_claims(alloc, table, files)?;
    loop {
        let kept = kept_claims(alloc, files, imported, &claims)?;
        if kept.len() == claims.len() {
            return called_by(alloc, &claims);
        }
        claims = kept;
    }
}
