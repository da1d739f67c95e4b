//! What is said of the files of a package.

ghost use Rattle.std.specs.Prelude.{◌≡◌, ◌++◌, ℕ, List, IfOk, OnOk, map};
ghost use Rattle.bodies.specs.Bodies.{TellsBody, TellBodies};
ghost use Rattle.calls_flags.specs.FilesBodies.{TellAll};
ghost use Rattle.called_parameters.specs.Called.{is_called};
ghost use Rattle.calls_flags.specs.KnownCalls.{known_calls};
ghost use Rattle.credits.specs.CreditViews.{has};
ghost use Rattle.events.specs.ToldViews.{TellsFile};
ghost use Rattle.findings.specs.FoundEntries.{AddsEntries};
ghost use Rattle.meaning.specs.BodyEvents.{bodies_of};
ghost use Rattle.meaning.specs.Mentions.{BodyPlace};
ghost use Rattle.meaning.specs.Uses.{Seen};
ghost use Rattle.meaning_packages.specs.CallsFlags.{FileWithCredits};
ghost use Rattle.mentions.specs.MarkViews.{body_view};
ghost use Rattle.report.specs.Entries.{entry_of};
ghost use Rattle.verifier.specs.FoundBodies.{with_table, FindsBody, IsUncertifiedIn};
ghost use Rattle.verifier.specs.GivenViews.{TellsGiven};
ghost use Rattle.verifier.specs.SaidEntries.{uncertified_entries, IsUseOrPass, IsUseOrPassIn, SaysAll, AreSaid};
ghost use Rattle.verifier.specs.Verified.{Given as MeantGiven, AreGivenCredits, name_or_func};

use crate::certified::{Grounds, find_certificate};
use crate::given::GivenPackage;
use bodies::Body;
use calls_flags::{FileBodies, KnownCalls};
use credits::{Credits, Reliance};
use events::body_faults;
use findings::{add_passes_by_calls, add_use_faults};
use mentions::BodyPlace as KeptPlace;
use report::{Diagnostic, DiagnosticCode};
use std::alloc::{AllocError, Global};

/// The name by which a body is told: that of a function or a method, and of a literal the word `func`.
fn body_name(place: KeptPlace<'_>) -> &str
    ensures { result.now ≡ name_or_func (body_view place.entry).name }
{
    match place.name {
        Some(name) => name.text.as_str(),
        None => "func",
    }
}

/// Adds that the body has no certificate that holds, unless its paths are not followed.
fn add_uncertified<'a>(
    body: &Body<'_, 'a>,
    diagnostics: &mut Vec<Diagnostic<'a>>,
) -> Result<(), AllocError>
    ensures { OnOk result (map entry_of diagnostics.new.items ≡ map entry_of diagnostics.old.items
        ++ uncertified_entries body.now.is_unfollowed body.now.file (body_view body.now.place)) }
{
    if !body.is_unfollowed {
        diagnostics.push(Diagnostic {
            file: body.file,
            offset: body.place.at,
            code: DiagnosticCode::NoCertificate,
            name: body_name(body.place),
        })?;
    }
    Ok(())
}

/// Tells what the certificate of the body settles, by the credits of the bodies after it, and adds where none holds.
fn certify_body<'a>(
    alloc: Global,
    grounds: Grounds<'_, 'a>,
    body: &Body<'_, 'a>,
    credits: &mut Credits,
    diagnostics: &mut Vec<Diagnostic<'a>>,
) -> Result<(), AllocError>
    ensures { OnOk result ((number : ℕ) (seen : Seen) (b : BodyPlace) → TellsFile seen grounds.entry.told.now
        → TellsBody number seen b body.now
        → (g : MeantGiven) → TellsGiven g grounds.entry.given.now
        → FindsBody g (is_called grounds.entry.calls.own.now) (known_calls grounds.entry.calls) number seen b
        (has credits.old) (has credits.new) diagnostics.old.items diagnostics.new.items) }
{
    let found = find_certificate(alloc, grounds, body, credits)?;
    match found {
        Some(numbers) => credits.tell(body.place.at, numbers),
        None => {
            add_uncertified(body, diagnostics)?;
            credits.tell(body.place.at, Vec::new(alloc))
        }
    }
}

/// Finds the credits of a file by the certificates of its bodies, and adds which of these have none that holds. The
/// bodies stand in the order of their places, and the last is looked at first, since a body relies on those after it.
fn certify_bodies<'a>(
    alloc: Global,
    grounds: Grounds<'_, 'a>,
    bodies: &[Body<'_, 'a>],
    diagnostics: &mut Vec<Diagnostic<'a>>,
) -> Result<Credits, AllocError>
    ensures given { IfOk result (λ credits. (number : ℕ) (seen : Seen) → TellsFile seen grounds.entry.told.now
        → TellBodies number seen bodies.now
        → (g : MeantGiven) → TellsGiven g grounds.entry.given.now
        → AreGivenCredits g (is_called grounds.entry.calls.own.now) (known_calls grounds.entry.calls) number
        (with_table seen (has credits))) }
    ensures said { IfOk result (λ credits. (number : ℕ) (seen : Seen) → TellsFile seen grounds.entry.told.now
        → TellBodies number seen bodies.now
        → (g : MeantGiven) → TellsGiven g grounds.entry.given.now
        → AddsEntries diagnostics.old.items diagnostics.new.items (IsUncertifiedIn g
        (is_called grounds.entry.calls.own.now) (known_calls grounds.entry.calls) number
        (with_table seen (has credits)) (bodies_of seen))) }
{
    let mut credits = Credits::new(alloc);
    let mut left = bodies.len();
    while left > 0 {
        left -= 1;
        certify_body(alloc, grounds, &bodies[left], &mut credits, diagnostics)?;
    }
    Ok(credits)
}

/// Adds the use faults of a body, and those of its passes.
fn add_body<'a>(
    alloc: Global,
    grounds: Grounds<'_, 'a>,
    body: &Body<'_, 'a>,
    credits: &Credits,
    diagnostics: &mut Vec<Diagnostic<'a>>,
) -> Result<(), AllocError>
    ensures { OnOk result ((number : ℕ) (seen : Seen) (b : BodyPlace) → TellsFile seen grounds.entry.told.now
        → TellsBody number seen b body.now
        → AddsEntries diagnostics.old.items diagnostics.new.items (IsUseOrPass (known_calls grounds.entry.calls) number
        (with_table seen (has credits.now)) b)) }
{
    let faults = body_faults(alloc, grounds.told, &body.variables, body.place.at)?;
    add_use_faults(body.file, &faults, diagnostics)?;
    let reliance = Reliance {
        calls: &grounds.calls,
        credits: &*credits,
        at: body.place.at,
    };
    add_passes_by_calls(alloc, grounds.told, &reliance, body, diagnostics)
}

/// Adds the use faults of bodies, and those of their passes.
fn add_bodies<'a>(
    alloc: Global,
    grounds: Grounds<'_, 'a>,
    bodies: &[Body<'_, 'a>],
    credits: &Credits,
    diagnostics: &mut Vec<Diagnostic<'a>>,
) -> Result<(), AllocError>
    ensures { OnOk result ((number : ℕ) (seen : Seen) → TellsFile seen grounds.entry.told.now
        → TellBodies number seen bodies.now
        → AddsEntries diagnostics.old.items diagnostics.new.items (IsUseOrPassIn (known_calls grounds.entry.calls)
        number (with_table seen (has credits.now)) (bodies_of seen))) }
{
    for body in bodies {
        add_body(alloc, grounds, body, credits, diagnostics)?;
    }
    Ok(())
}

/// Adds all that is said of the file of that number.
fn add_file<'a>(
    alloc: Global,
    number: usize,
    grounds: Grounds<'_, 'a>,
    bodies: &[Body<'_, 'a>],
    diagnostics: &mut Vec<Diagnostic<'a>>,
) -> Result<(), AllocError>
    ensures { OnOk result ((seen : Seen) → TellsFile seen grounds.entry.told.now → TellBodies number seen bodies.now
        → (g : MeantGiven) → TellsGiven g grounds.entry.given.now
        → SaysAll g (is_called grounds.entry.calls.own.now) (known_calls grounds.entry.calls) number seen
        diagnostics.old.items diagnostics.new.items) }
{
    let credits = certify_bodies(alloc, grounds, bodies, diagnostics)?;
    add_use_faults(number, &grounds.told.outer, diagnostics)?;
    add_bodies(alloc, grounds, bodies, &credits, diagnostics)
}

/// All that is said of the files of a package, in no order; one may come twice.
///
/// # Errors
///
/// Memory was refused.
pub fn find_said<'a>(
    alloc: Global,
    given: &GivenPackage<'_>,
    calls: KnownCalls<'_, 'a>,
    files: &[FileBodies<'_, 'a>],
) -> Result<Vec<Diagnostic<'a>>, AllocError>
    ensures { IfOk result (λ said. (fs : List FileWithCredits) → TellAll fs files.now
        → (g : MeantGiven) → TellsGiven g given.now
        → AreSaid g (is_called calls.entry.own.now) (known_calls calls.entry) (map (λ f. f.seen) fs) said.items) }
{
    let mut diagnostics = Vec::new(alloc);
    for (number, file) in files.iter().enumerate() {
        let grounds = Grounds {
            given: &*given,
            calls,
            told: file.told,
        };
        add_file(alloc, number, grounds, &file.bodies, &mut diagnostics)?;
    }
    Ok(diagnostics)
}
