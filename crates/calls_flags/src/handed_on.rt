//! Whether the files of a package hand a cancel function or a group to a function of a package that they import.

ghost use Rattle.std.specs.Prelude.{◌≡◌};
ghost use Rattle.calls_flags.specs.HandedOn.{FilesAreHanded, body_hands, event_hands, files_hand, is_of_path, told_hands};
ghost use Rattle.calls_flags.specs.UsedPackages.{HandedIsUsed};
ghost use Rattle.tracked_rows.specs.EventViews.{callee_view, event_view};

use crate::told_file::ToldFile;
use events::{SiteEvent, Told};
use tracked_rows::{Callee, Event};

/// Whether it is a function of the package of that path, which the file imports.
fn is_of_path(callee: Callee<'_>, path: &str) -> bool
    ensures { result ≡ is_of_path path.now (callee_view callee.entry) }
{
    match callee.path {
        Some(its) => its == path,
        None => false,
    }
}

/// Whether the event passes a cancel variable to such a function, or lends a group to one.
fn event_hands(event: &Event<'_>, path: &str) -> bool
    ensures { result ≡ event_hands path.now (event_view event.now) }
{
    match event {
        Event::Pass { callee, .. }
        | Event::DeferPass { callee, .. }
        | Event::Lend { callee, .. }
        | Event::GoPass { callee, .. } => is_of_path(*callee, path),
        Event::Obtain { .. }
        | Event::ObtainKept { .. }
        | Event::Renew { .. }
        | Event::Keep { .. }
        | Event::CallKept { .. }
        | Event::DeferKept { .. }
        | Event::Give { .. }
        | Event::GiveField { .. }
        | Event::Clear { .. }
        | Event::Call { .. }
        | Event::DeferCall { .. }
        | Event::Start { .. }
        | Event::Try { .. }
        | Event::Wait { .. }
        | Event::DeferWait { .. }
        | Event::Make { .. }
        | Event::DeferLiteral { .. }
        | Event::GoCall { .. }
        | Event::GoLiteral { .. }
        | Event::Return { .. } => false,
    }
}

/// Whether one of these events does so.
fn body_hands(events: &[SiteEvent<'_>], path: &str) -> bool
    ensures { result ≡ body_hands path.now events.now }
{
    for event in events {
        if event_hands(&event.event, path) {
            return true;
        }
    }
    false
}

/// Whether a body of the file that was told of does so, on a path or not.
fn file_hands(told: &Told<'_>, path: &str) -> bool
    ensures { result ≡ told_hands path.now told.now }
{
    for body in &told.opened {
        if body_hands(told.events.at(body.at), path) {
            return true;
        }
    }
    false
}

/// Whether one of the files that were told of passes a cancel variable to a function of the package of that path, or
/// lends a group to one, on a path or not.
pub fn files_hand(files: &[ToldFile<'_>], path: &str) -> bool
    ensures { result ≡ files_hand path.now files.now }
{
    for file in files {
        if file_hands(&file.told, path) {
            return true;
        }
    }
    false
}

/// What was told of files hands to the package of a path what the files do.
pub fn files_are_handed()
    ensures { FilesAreHanded }
{}

/// Where a package was told of in the files that are walked, it uses those to which these hand something.
pub fn handed_is_used()
    ensures { HandedIsUsed }
{}
