//! The reasons of uses of a file.

ghost use Rattle.std.specs.Prelude.{◌≡◌, List, [], false, IfOk, OnOk, map, option_map};
ghost use Rattle.meaning.specs.Mentions.{mentions, file_marks, marks_by};
ghost use Rattle.meaning.specs.OuterBlocks.{or_else};
ghost use Rattle.meaning.specs.Tracked.{Placed, placed};
ghost use Rattle.mentions.specs.MarkViews.{body_view, mention_view, mark_view, marks_view};
ghost use Rattle.tracked_rows.specs.RowViews.{known_view};
ghost use Rattle.tree.specs.View.{file_syntax};
ghost use Rattle.tree.specs.declared.edition.Edition.TheVariants.{Second};
ghost use Rattle.use_reasons.specs.ReasonViews.{of_view, reason_view, Adds, Finds, Has};
ghost use Rattle.use_reasons.specs.UseReasons.{compared_by, use_reason};

use crate::forms::{cancel_told, group_told, is_comparison, told_as};
use crate::pointers::{add_capture, add_results};
use crate::reason::UseReason;
use crate::table::Reasons;
use bumpalo::Bump;
use marks::file_marks;
use mentions::{BodyPlace, Mark, Mention};
use reasons::Reason;
use std::alloc::{AllocError, Global};
use tracked::enter;
use tracked_rows::{Known, local_meant};
use tree::{Edition, File};

/// What is asked of a use.
#[derive(Clone, Copy, Debug)]
pub enum AskedOf {
    /// In which form the name of a cancel variable, a maker or a giver stands.
    OfCancel,
    /// In which form the name of a group stands, or of the package `errgroup`.
    OfGroup,
    /// Which literal captures the variable that is bound there, or which named result that is.
    BoundAgain,
}

/// A use of which is asked, by the byte offset of its name.
#[derive(Clone, Copy, Debug)]
pub struct AskedUse {
    pub at: u32,
    pub of: AskedOf,
}

/// What marks tell: reasons of mentions by their offsets, and where to look by the numbers of locals.
#[derive(Drop)]
struct Told<'a> {
    compared: Reasons<'a>,
    cancels: Reasons<'a>,
    groups: Reasons<'a>,
    pointers: Reasons<'a>,
}

/// Adds that the name of the mention is compared, if it tells that.
fn add_compared<'a>(mention: Mention<'_, 'a>, compared: &mut Reasons<'a>) -> Result<(), AllocError>
    ensures { OnOk result (Adds compared.old compared.new (λ n. compared_by n (mention_view mention.entry))) }
{
    if is_comparison(mention.role) {
        compared.add(mention.named.at, told_as(Reason::Compared, mention))
    } else {
        Ok(())
    }
}

/// Adds what a mention in these bodies tells.
fn add_mention<'a>(
    known: Known<'_, 'a>,
    bodies: &[BodyPlace<'a>],
    mention: Mention<'_, 'a>,
    told: &mut Told<'a>,
) -> Result<(), AllocError>
    ensures { OnOk result (Finds (known_view known.entry) (map body_view bodies.now)
        (mentions (mention_view mention.entry)) told.old told.new) }
{
    let at = mention.named.at;
    add_compared(mention, &mut told.compared)?;
    let of_cancel = cancel_told(known, bodies, mention);
    told.cancels.add(at, of_cancel)?;
    let of_group = group_told(known, bodies, mention);
    told.groups.add(at, of_group)?;
    add_capture(known, bodies, mention, &mut told.pointers)
}

/// Adds what a mark in these bodies tells.
fn add_mark<'a>(
    known: Known<'_, 'a>,
    bodies: &[BodyPlace<'a>],
    mark: Mark<'_, 'a>,
    told: &mut Told<'a>,
) -> Result<(), AllocError>
    ensures { OnOk result (Finds (known_view known.entry) (map body_view bodies.now) (mark_view mark.entry) told.old
        told.new) }
{
    match mark {
        Mark::Mentions(mention) => add_mention(known, bodies, mention, told),
        Mark::Opens(body) => add_results(&body.signature.results, &mut told.pointers),
        Mark::OfFields(_, _) => Ok(()),
        Mark::RunsLiteral(_, _, _) => Ok(()),
        Mark::Returns(_, _) => Ok(()),
        Mark::Closes => Ok(()),
    }
}

/// What these marks tell.
fn told_by<'a>(
    alloc: Global,
    known: Known<'_, 'a>,
    marks: &[Mark<'_, 'a>],
) -> Result<Told<'a>, AllocError>
    ensures { IfOk result (Has (known_view known.entry) (placed [] (marks_view marks.now))) }
{
    let mut told = Told {
        compared: Reasons::new(alloc),
        cancels: Reasons::new(alloc),
        groups: Reasons::new(alloc),
        pointers: Reasons::new(alloc),
    };
    let mut bodies: Vec<BodyPlace<'a>> = Vec::new(alloc);
    for mark in marks {
        enter(&mut bodies, *mark)?;
        add_mark(known, &bodies, *mark, &mut told)?;
    }
    Ok(told)
}

/// The first of two reasons.
fn first_of<'a>(
    first: Option<UseReason<'a>>,
    second: Option<UseReason<'a>>,
) -> Option<UseReason<'a>>
    ensures { option_map reason_view result ≡ or_else (option_map reason_view first.entry)
        (option_map reason_view second.entry) }
{
    match first {
        Some(reason) => Some(reason),
        None => second,
    }
}

/// The reason of one use. A name of which no use is known is the one that its place declares.
fn told_of<'a>(known: Known<'_, '_>, told: &Told<'a>, asked: AskedUse) -> Option<UseReason<'a>>
    ensures { (marks : List Placed) → Has (known_view known.entry) marks told.now →
        option_map reason_view result ≡ use_reason (known_view known.entry) marks asked.at (of_view asked.of) }
{
    match asked.of {
        AskedOf::OfCancel => first_of(told.compared.get(asked.at), told.cancels.get(asked.at)),
        AskedOf::OfGroup => first_of(told.compared.get(asked.at), told.groups.get(asked.at)),
        AskedOf::BoundAgain => match local_meant(known, asked.at, Some(asked.at)) {
            Some(number) => told.pointers.get(number),
            None => None,
        },
    }
}

/// Why these uses of the file stand in a report, in their order. A mention tells the form of its name, and first of all
/// that it is compared. A binding of a
/// variable, or of a result with a name, tells where the first literal stands that captures it, or where the result
/// has its name. A place that has nothing of that has no reason.
///
/// # Errors
///
/// Memory was refused.
pub fn use_reasons<'a>(
    alloc: Global,
    known: &Known<'_, 'a>,
    file: &'a File,
    asked: &[AskedUse],
) -> Result<Vec<Option<UseReason<'a>>>, AllocError>
    ensures { IfOk result (λ reasons. map (option_map reason_view) reasons.items
        ≡ map (λ u. use_reason (known_view known.now) (placed [] (marks_by Second false (file_marks (file_syntax
        file.now)))) u.at (of_view u.of)) asked.now) }
{
    let arena = Bump::new(alloc);
    let marks = file_marks(alloc, &arena, Edition::Second, false, file)?;
    let told = told_by(alloc, *known, &marks)?;
    let mut reasons = Vec::new(alloc);
    for one in asked {
        reasons.push(told_of(*known, &told, *one))?;
    }
    Ok(reasons)
}
