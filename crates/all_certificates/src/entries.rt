//! The certificates of the bodies of a file.

ghost use Rattle.std.specs.Prelude.{ℕ, IfOk, OnOk, map, option_map};
ghost use Rattle.all_certificates.specs.AddedEntries.{IsEntryIf, Adds};
ghost use Rattle.all_certificates.specs.CertifiedBodies.{AreOfBody, InTurn};
ghost use Rattle.bodies.specs.Bodies.{TellsBody, TellBodies};
ghost use Rattle.calls_flags.specs.KnownCalls.{known_calls};
ghost use Rattle.certificate_json.specs.Certificates.{body_of};
ghost use Rattle.credits.specs.CreditViews.{has};
ghost use Rattle.events.specs.ToldViews.{TellsFile};
ghost use Rattle.meaning.specs.BodyEvents.{bodies_of};
ghost use Rattle.meaning.specs.Mentions.{BodyPlace};
ghost use Rattle.meaning.specs.Uses.{Seen};

use bodies::Body;
use calls_flags::KnownCalls;
use certificate_json::{Body as Entry, Rows};
use certificates::least_rows;
use credits::Credits;
use events::Told;
use std::alloc::{AllocError, Global};
use table_json::if_fits;

/// What the bodies of a file rely on.
#[derive(Clone, Copy)]
pub struct Grounds<'g, 'a> {
    /// What was told of the file.
    pub told: &'g Told<'a>,
    /// What is known of functions.
    pub calls: KnownCalls<'g, 'a>,
    /// What may be relied on of its literals.
    pub credits: &'g Credits,
}

/// The least certificate of a body; none where its paths are not followed, or where a certificate can't have the number
/// of its file.
fn entry_of<'a>(
    alloc: Global,
    grounds: Grounds<'_, 'a>,
    body: &Body<'_, 'a>,
) -> Result<Option<Entry>, AllocError>
    ensures { IfOk result (λ entry. (number : ℕ) (seen : Seen) (b : BodyPlace) → TellsFile seen grounds.entry.told.now
        → TellsBody number seen b body.now
        → IsEntryIf (known_calls grounds.entry.calls) (has grounds.entry.credits.now) number seen b
        (option_map body_of entry)) }
{
    let Some(file) = if_fits(body.file) else {
        return Ok(None);
    };
    match least_rows(alloc, grounds.told, body, &grounds.calls, grounds.credits)? {
        Some(lists) => Ok(Some(Entry {
            file,
            at: body.place.at,
            states: Rows::of_lists(alloc, &lists)?,
        })),
        None => Ok(None),
    }
}

/// Adds the least certificate of a body, if it has one.
///
/// # Errors
///
/// Memory was refused.
pub fn add_entry<'a>(
    alloc: Global,
    grounds: Grounds<'_, 'a>,
    body: &Body<'_, 'a>,
    entries: &mut Vec<Entry>,
) -> Result<(), AllocError>
    ensures { OnOk result ((number : ℕ) (seen : Seen) (b : BodyPlace) → TellsFile seen grounds.entry.told.now
        → TellsBody number seen b body.now
        → Adds (AreOfBody (known_calls grounds.entry.calls) (has grounds.entry.credits.now) number seen b)
        (map body_of entries.old.items) (map body_of entries.new.items)) }
{
    if let Some(entry) = entry_of(alloc, grounds, body)? {
        entries.push(entry)?;
    }
    Ok(())
}

/// Adds the least certificates of the bodies of a file, in their order.
///
/// # Errors
///
/// Memory was refused.
pub fn add_entries<'a>(
    alloc: Global,
    grounds: Grounds<'_, 'a>,
    bodies: &[Body<'_, 'a>],
    entries: &mut Vec<Entry>,
) -> Result<(), AllocError>
    ensures { OnOk result ((number : ℕ) (seen : Seen) → TellsFile seen grounds.entry.told.now
        → TellBodies number seen bodies.now
        → Adds (InTurn (AreOfBody (known_calls grounds.entry.calls) (has grounds.entry.credits.now) number seen)
        (bodies_of seen)) (map body_of entries.old.items) (map body_of entries.new.items)) }
{
    for body in bodies {
        add_entry(alloc, grounds, body, entries)?;
    }
    Ok(())
}
