//! Whether a file, or a package, mentions cancel functions with a cause.

ghost use Rattle.std.specs.Prelude.{◌≡◌, IfOk, map};
ghost use Rattle.std.specs.List.{list_any};
ghost use Rattle.cause_mentions.specs.CauseMentions.{is_cause_name, mark_mentions, file_mentions, files_mention, trees_mention};
ghost use Rattle.mentions.specs.MarkViews.{named_view, mark_view};
ghost use Rattle.names.specs.Answers.{declared_at, names_by_path};
ghost use Rattle.tree.specs.View.{file_syntax};

use bumpalo::Bump;
use facts::is_of;
use marks::file_marks;
use mentions::{Mark, Named};
use names::{CONTEXT, Names, PackageNames, names_of};
use std::alloc::{AllocError, Global};
use tree::{Edition, File};

/// Whether it names the type of cancel functions with a cause, or one of the makers that came with them.
fn is_cause_name(names: &Names<'_>, file: usize, named: Named<'_>) -> bool
    ensures { result ≡ is_cause_name (declared_at names.now file) (named_view named.entry) }
{
    is_of(names, file, CONTEXT, "CancelCauseFunc", named)
        || is_of(names, file, CONTEXT, "WithCancelCause", named)
        || is_of(names, file, CONTEXT, "WithTimeoutCause", named)
        || is_of(names, file, CONTEXT, "WithDeadlineCause", named)
}

fn mark_mentions(names: &Names<'_>, file: usize, mark: Mark<'_, '_>) -> bool
    ensures { result ≡ mark_mentions (declared_at names.now file) (mark_view mark.entry) }
{
    match mark {
        Mark::Mentions(mention) => is_cause_name(names, file, mention.named),
        Mark::OfFields(_, _)
        | Mark::RunsLiteral(_, _, _)
        | Mark::Returns(_, _)
        | Mark::Opens(_)
        | Mark::Closes => false,
    }
}

fn marks_mention(names: &Names<'_>, file: usize, marks: &[Mark<'_, '_>]) -> bool
    ensures { result ≡ list_any (mark_mentions (declared_at names.now file)) (map mark_view marks.now) }
{
    for mark in marks {
        if mark_mentions(names, file, *mark) {
            return true;
        }
    }
    false
}

/// Whether the file of that number mentions one. What conditions find out and what is asked of fields names none, so
/// the marks of the first edition are enough.
#[tactic(auto, unfolding(crate::specs::CauseMentions::file_mentions))]
fn file_mentions(
    alloc: Global,
    names: &Names<'_>,
    number: usize,
    file: &File,
) -> Result<bool, AllocError>
    ensures { IfOk result (λ does. does ≡ file_mentions (declared_at names.now number) (file_syntax file.now)) }
{
    let arena = Bump::new(alloc);
    let marks = file_marks(alloc, &arena, Edition::First, false, file)?;
    Ok(marks_mention(names, number, &marks))
}

fn files_mention(alloc: Global, names: &Names<'_>, files: &[File]) -> Result<bool, AllocError>
    ensures { IfOk result (λ does. does ≡ files_mention (declared_at names.now) 0 (map file_syntax files.now)) }
{
    for (number, file) in files.iter().enumerate() {
        if file_mentions(alloc, names, number, file)? {
            return Ok(true);
        }
    }
    Ok(false)
}

/// Whether a package with these files mentions one.
///
/// # Errors
///
/// Memory was refused.
pub fn trees_mention(
    alloc: Global,
    packages: &PackageNames<'_>,
    files: &[File],
) -> Result<bool, AllocError>
    ensures { IfOk result (λ does. does ≡ trees_mention (names_by_path packages.now) (map file_syntax files.now)) }
{
    let names = names_of(alloc, files, packages)?;
    files_mention(alloc, &names, files)
}
