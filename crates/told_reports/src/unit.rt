//! What is told of a unit, and its text.

ghost use Rattle.std.specs.Prelude.{◌≡◌, flat_map, IfOk, map};
ghost use Rattle.accepting.specs.Findings.{found_view};
ghost use Rattle.report.specs.Writing.{refusals_after, IsWritten};
ghost use Rattle.format_parts.specs.Told.{style_of};
ghost use Rattle.told_reports.specs.UnitTexts.{shape_text, unit_text_in};

use crate::text::Text;
use accepting::{FoundPackage, Telling, found};
use format_parts::{Style, style_of};
use report::{Sink, WriteFault};
use report_formats::{write_unit_json, write_unit_text};
use std::alloc::{AllocError, Global};
use suggested_fixes::Fix;

/// In which form the findings of a unit are told.
#[derive(Clone, Copy, Debug)]
pub enum UnitShape<'n> {
    /// A line for each, and so many lines of the file around its place, if they are asked for.
    Text(Option<usize>),
    /// JSON, with this name of the unit.
    Json(&'n str),
}

/// How a unit is told: its findings, with the notes that say why each stands there where these are asked for.
#[derive(Clone, Copy, Debug)]
pub struct UnitForm<'n> {
    pub telling: Telling<'n>,
    pub with_reasons: bool,
    pub shape: UnitShape<'n>,
}

/// Writes the findings of a unit.
fn write_unit<S: Sink>(
    shape: UnitShape<'_>,
    fixes: &[Fix],
    style: Style,
    unit: &FoundPackage,
    sink: &mut S,
) -> Result<(), WriteFault>
    ensures taken { IsWritten (shape_text shape.entry fixes.now style (found_view unit.now))
        (S.taken sink.old) (S.taken sink.new) result }
    ensures refusals { S.refusals sink.new ≡ refusals_after (S.refusals sink.old) result }
{
    match shape {
        UnitShape::Text(around) => write_unit_text(style, unit, around, sink),
        UnitShape::Json(name) => write_unit_json(style, fixes, name, unit, sink),
    }
}

fn write_units<S: Sink>(
    shape: UnitShape<'_>,
    fixes: &[Fix],
    style: Style,
    packages: &[FoundPackage],
    sink: &mut S,
) -> Result<(), WriteFault>
    ensures taken { IsWritten (flat_map (λ p. shape_text shape.entry fixes.now style (found_view p)) packages.now)
        (S.taken sink.old) (S.taken sink.new) result }
    ensures refusals { S.refusals sink.new ≡ refusals_after (S.refusals sink.old) result }
{
    for unit in packages {
        write_unit(shape, fixes, style, unit, sink)?;
    }
    Ok(())
}

/// The text of a unit in this form, with what lines of its sources and the baseline accept.
///
/// # Errors
///
/// Memory was refused.
pub fn unit_text(
    alloc: Global,
    form: UnitForm<'_>,
    unit: FoundPackage<'_>,
) -> Result<Vec<u8>, AllocError>
    ensures { IfOk result (λ text. text.items ≡ unit_text_in form.entry (found_view unit.entry)) }
{
    let mut one = Vec::new(alloc);
    one.push(unit)?;
    let told = found(alloc, one, form.telling)?;
    let mut text = Text {
        bytes: Vec::new(alloc),
        refusals: 0,
    };
    match write_units(
        form.shape,
        form.telling.fixes,
        style_of(form.telling, form.with_reasons),
        &told,
        &mut text,
    ) {
        Ok(()) => Ok(text.bytes),
        Err(_) => Err(AllocError),
    }
}
