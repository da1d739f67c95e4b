//! Which parameters the functions of a package are known to call, by its certificates.

ghost use Rattle.std.specs.Prelude.{◌≡◌, List, IfOk, map};
ghost use Rattle.calls_flags.specs.Claims.{claim_view, AreClaims, HaveFacts, Sieves};
ghost use Rattle.calls_flags.specs.FilesBodies.{TellAll};
ghost use Rattle.called_parameters.specs.Called.{is_called};
ghost use Rattle.facts.specs.FactViews.{facts_by_name};
ghost use Rattle.meaning_packages.specs.CallsFlags.{FileWithCredits};
ghost use Rattle.verifier.specs.BelievedClaims.{ComesBackOf, believes, is_believed};
ghost use Rattle.verifier.specs.GivenViews.{TellsGiven, claim_in, params_at};
ghost use Rattle.verifier.specs.Verified.{AreClaimed, Given as MeantGiven};

use crate::given::{GivenClaims, GivenPackage};
use called_parameters::Called;
use calls_flags::{Claim, FileBodies, called_by, claim_comes_back, find_claims};
use facts::{Table, TrackedType};
use std::alloc::{AllocError, Global};

/// Whether the claim is given, with the type that the parameter has.
fn is_believed<'a>(table: &Table<'a>, given: &GivenClaims<'_>, claim: Claim<'a>) -> bool
    ensures { result ≡ is_believed (facts_by_name table.now) (λ name k. claim_in (params_at given.now name) k)
        (claim_view claim.entry) }
{
    let parameter = claim.parameter;
    let Some(cancel_type) = given.of(parameter.name, parameter.position) else {
        return false;
    };
    match table.facts(parameter.name) {
        Some(facts) => facts.takes(TrackedType::Cancel(cancel_type), parameter.position),
        None => false,
    }
}

/// Those of the claims that are believed.
fn believed<'a>(
    alloc: Global,
    table: &Table<'a>,
    given: &GivenClaims<'_>,
    claims: &[Claim<'a>],
) -> Result<Vec<Claim<'a>>, AllocError>
    ensures { IfOk result (λ kept. map claim_view kept.items ≡ believes (facts_by_name table.now)
        (λ name k. claim_in (params_at given.now name) k) (map claim_view claims.now)) }
{
    let mut kept = Vec::new(alloc);
    for claim in claims {
        if is_believed(table, given, *claim) {
            kept.push(*claim)?;
        }
    }
    Ok(kept)
}

/// Those of the claims whose functions come back, if the edition asks for that.
fn that_come_back<'a>(
    alloc: Global,
    files: &[FileBodies<'_, 'a>],
    claims: &[Claim<'a>],
) -> Result<Vec<Claim<'a>>, AllocError>
    ensures { IfOk result (λ kept. (fs : List FileWithCredits) → TellAll fs files.now
        → AreClaims fs (map claim_view claims.now)
        → Sieves (ComesBackOf fs) (map claim_view claims.now) (map claim_view kept.items)) }
{
    let mut kept = Vec::new(alloc);
    for claim in claims {
        if claim_comes_back(alloc, files, *claim)? {
            kept.push(*claim)?;
        }
    }
    Ok(kept)
}

/// Finds which parameters the functions of a package are known to call, where they have these facts: those of which it
/// may be known, and of which it is claimed, with their types.
///
/// # Errors
///
/// Memory was refused.
pub fn find_claimed<'a>(
    alloc: Global,
    table: &Table<'a>,
    given: &GivenPackage<'_>,
    files: &[FileBodies<'_, 'a>],
) -> Result<Called<'a>, AllocError>
    ensures { IfOk result (λ called. (fs : List FileWithCredits) → TellAll fs files.now
        → HaveFacts (facts_by_name table.now) fs
        → (g : MeantGiven) → TellsGiven g given.now
        → AreClaimed fs g (is_called called)) }
{
    let claims = find_claims(alloc, table, files)?;
    let kept = believed(alloc, table, &given.claims, &claims)?;
    let known = that_come_back(alloc, files, &kept)?;
    called_by(alloc, &known)
}
