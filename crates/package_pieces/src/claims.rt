//! The most flags that are consistent, where several threads look which claims are kept.

ghost use Rattle.std.specs.Prelude.{◌≡◌, ◌≤◌, ℕ, Bool, List, IfOk, length, map, false};
ghost use Rattle.calls_flags.specs.Claims.{claim_view, flags_claimed, AreClaims, HaveFacts, KeepsClaim, Sieves};
ghost use Rattle.calls_flags.specs.FilesBodies.{TellAll};
ghost use Rattle.called_parameters.specs.Called.{is_called, flags_by_path};
ghost use Rattle.facts.specs.FactViews.{facts_by_name};
ghost use Rattle.meaning.specs.Uses.{Callee};
ghost use Rattle.meaning_packages.specs.CallsFlags.{AreMost, FileWithCredits, calls_by};
ghost use Rattle.package_pieces.specs.Marks.{is_marked, AreMarks};

use called_parameters::{Called, ImportedCalls};
use calls_flags::{Claim, FileBodies, KnownCalls, called_by, find_claims, keeps_claim};
use facts::Table;
use std::alloc::{AllocError, Global};
use std::sync::Wait;
use std::thread::Threads;
use workers::{BodyGate, Helpers, Piece, PieceFault, work_all};

/// By what it is looked whether a claim is kept.
#[derive(Clone, Copy)]
struct Keeping<'k, 'c, 'e, 'a> {
    files: &'k [FileBodies<'e, 'a>],
    calls: KnownCalls<'c, 'a>,
}

impl<'k, 'c, 'e, 'a> Piece<Claim<'a>, bool> for Keeping<'k, 'c, 'e, 'a> {
    ghost use Rattle.std.specs.Prelude.{List};
    ghost use Rattle.calls_flags.specs.Claims.{claim_view};
    ghost use Rattle.calls_flags.specs.FilesBodies.{TellAll};
    ghost use Rattle.calls_flags.specs.KnownCalls.{known_calls};
    ghost use Rattle.meaning_packages.specs.CallsFlags.{FileWithCredits};
    ghost use Rattle.package_pieces.specs.Marks.{IsMark};

    ghost gives = { λ keeping place claim mark. (fs : List FileWithCredits) → TellAll fs keeping.files.now
        → IsMark fs (known_calls keeping.calls) claim mark };

    fn work(&self, alloc: Global, _place: usize, item: &Claim<'a>) -> Result<bool, AllocError> {
        keeps_claim(alloc, self.files, self.calls, *item)
    }
}

/// Whether that place has a mark, and this says yes.
fn is_marked(marks: &[bool], place: usize) -> bool
    ensures { result ≡ is_marked marks.now place }
{
    match marks.get(place) {
        Some(mark) => *mark,
        None => false,
    }
}

/// Those of the claims whose marks say that they are kept.
fn marked<'a>(
    alloc: Global,
    claims: &[Claim<'a>],
    marks: &[bool],
) -> Result<Vec<Claim<'a>>, AllocError>
    ensures fewer { IfOk result (λ kept. length kept.items ≤ length claims.now) }
    ensures sieves { IfOk result (λ kept. (fs : List FileWithCredits) (calls : Callee → ℕ → Bool)
        → AreClaims fs (map claim_view claims.now) → AreMarks fs calls claims.now marks.now
        → Sieves (KeepsClaim fs calls) (map claim_view claims.now) (map claim_view kept.items)) }
{
    let mut kept = Vec::new(alloc);
    for (place, claim) in claims.iter().enumerate() {
        if is_marked(marks, place) {
            kept.push(*claim)?;
        }
    }
    Ok(kept)
}

/// Those of the claims that are kept where these claims, and no others, hold. These helpers look, a claim at a time.
fn kept_claims<'a, R: Threads + Wait, G: BodyGate + Sync>(
    alloc: Global,
    helpers: &Helpers<'_, R, G>,
    files: &[FileBodies<'_, 'a>],
    imported: &ImportedCalls<'a, '_>,
    claims: &[Claim<'a>],
) -> Result<Vec<Claim<'a>>, PieceFault>
    ensures fewer { IfOk result (λ kept. length kept.items ≤ length claims.now) }
    ensures sieves { IfOk result (λ kept. (fs : List FileWithCredits) → TellAll fs files.now
        → AreClaims fs (map claim_view claims.now)
        → Sieves (KeepsClaim fs (calls_by (flags_claimed (map claim_view claims.now)) (flags_by_path imported.now)))
        (map claim_view claims.now) (map claim_view kept.items)) }
{
    let own = called_by(alloc, claims)?;
    let calls = KnownCalls {
        own: &own,
        imported: &*imported,
    };
    let marks = work_all(alloc, helpers, claims, &Keeping { files, calls })?;
    Ok(marked(alloc, claims, &marks)?)
}

/// Finds which functions of a package are known to call which of their parameters, where the functions of the package
/// have these facts, and this is known of its imports: the most consistent flags. The rounds are those of
/// `find_called`, and in each these helpers look which claims are kept, a claim at a time.
///
/// # Errors
///
/// Memory was refused, or else a thread could not be started.
pub fn find_called_with<'a, R: Threads + Wait, G: BodyGate + Sync>(
    alloc: Global,
    helpers: &Helpers<'_, R, G>,
    table: &Table<'a>,
    files: &[FileBodies<'_, 'a>],
    imported: &ImportedCalls<'a, '_>,
) -> Result<Called<'a>, PieceFault>
    ensures { IfOk result (λ called. (fs : List FileWithCredits) → TellAll fs files.now
        → HaveFacts (facts_by_name table.now) fs
        → AreMost fs (flags_by_path imported.now) (is_called called)) }
{
    let mut claims = find_claims(alloc, table, files)?;
    loop {
        let kept = kept_claims(alloc, helpers, files, imported, &claims)?;
        if kept.len() == claims.len() {
            return Ok(called_by(alloc, &claims)?);
        }
        claims = kept;
    }
}
