//! Masks, and lists of them.

ghost use Rattle.std.specs.Prelude.{◌≡◌, IfErr, IfOk, option_and_then, option_map};
ghost use Rattle.json_reading.specs.Standing.{value_at, ReadsAs, Refutes, Stops};
ghost use Rattle.certificate_json.specs.Certificates.{rows_of};
ghost use Rattle.certificate_json.specs.CertificateValues.{AreMasks, IsMask};
ghost use Rattle.certificate_json.specs.MembersRead.{AreStates};
ghost use Rattle.certificate_json.specs.Parts.{if_small};

use crate::rows::Rows;
use json::Reader;
use json_reading::{AddItem, ReadItem, Stop, add_list, read_list, read_number};
use std::alloc::Global;

/// The number, if it is one of at most 16 bits.
fn small(number: Option<u64>) -> Option<u16>
    ensures { result ≡ option_and_then if_small number }
{
    let number = number?;
    u16::try_from(number).ok()
}

/// Reads the next value as a mask: a whole number of at most 16 bits.
fn read_mask(reader: &mut Reader<'_>, depth: usize) -> Result<Option<u16>, Stop>
    ensures ok { IfOk result (ReadsAs IsMask (Refutes IsMask) (value_at depth reader.old) reader.new) }
    ensures err { IfErr result (Stops (value_at depth reader.old)) }
{
    let number = read_number(reader, depth)?;
    Ok(small(number))
}

/// Masks, one by one.
#[derive(Clone, Copy, Drop)]
struct Masks;

impl ReadItem for Masks {
    ghost use Rattle.json_reading.specs.Standing.{Refutes};
    ghost use Rattle.certificate_json.specs.CertificateValues.{IsMask};

    type Item = u16;

    ghost is_item = { λ _. IsMask };

    ghost is_none = { λ _. Refutes IsMask };

    fn read_item(
        &self,
        _: Global,
        reader: &mut Reader<'_>,
        depth: usize,
    ) -> Result<Option<u16>, Stop> {
        read_mask(reader, depth)
    }
}

/// Reads the next value as the masks of one node.
fn read_masks(
    alloc: Global,
    reader: &mut Reader<'_>,
    depth: usize,
) -> Result<Option<Vec<u16>>, Stop>
    ensures ok { IfOk result (ReadsAs (λ value masks. AreMasks value masks.items) (Refutes AreMasks)
        (value_at depth reader.old) reader.new) }
    ensures err { IfErr result (Stops (value_at depth reader.old)) }
{
    read_list(alloc, &Masks, reader, depth)
}

/// What was read of the masks of nodes.
#[derive(Drop)]
struct States {
    rows: Rows,
    are_rows: bool,
}

impl AddItem for States {
    ghost use Rattle.certificate_json.specs.Certificates.{rows_of};
    ghost use Rattle.certificate_json.specs.MembersRead.{HasRows};
    ghost use Rattle.certificate_json.specs.RowsHeld.{IsWhole};

    ghost holds = { λ states values. IsWhole states.rows × HasRows states.are_rows (rows_of states.rows) values };

    fn add_item(
        &mut self,
        alloc: Global,
        reader: &mut Reader<'_>,
        depth: usize,
    ) -> Result<(), Stop> {
        match read_masks(alloc, reader, depth)? {
            Some(masks) => {
                self.rows.push(&masks)?;
                Ok(())
            }
            None => {
                self.are_rows = false;
                Ok(())
            }
        }
    }
}

/// Reads the next value as the masks of all nodes.
fn read_states(alloc: Global, reader: &mut Reader<'_>, depth: usize) -> Result<Option<Rows>, Stop>
    ensures ok { IfOk result (λ found. ReadsAs AreStates (Refutes AreStates) (value_at depth reader.old) reader.new
        (option_map rows_of found)) }
    ensures err { IfErr result (Stops (value_at depth reader.old)) }
{
    let mut states = States {
        rows: Rows::new(alloc),
        are_rows: true,
    };
    if !add_list(alloc, &mut states, reader, depth)? {
        return Ok(None);
    }
    if states.are_rows {
        Ok(Some(states.rows))
    } else {
        Ok(None)
    }
}

/// Lists of the masks of nodes.
#[derive(Clone, Copy, Drop)]
pub(crate) struct StateLists;

impl ReadItem for StateLists {
    ghost use Rattle.json_reading.specs.Standing.{Refutes};
    ghost use Rattle.certificate_json.specs.Certificates.{rows_of};
    ghost use Rattle.certificate_json.specs.MembersRead.{AreStates};

    type Item = Rows;

    ghost is_item = { λ _ value rows. AreStates value (rows_of rows) };

    ghost is_none = { λ _. Refutes AreStates };

    fn read_item(
        &self,
        alloc: Global,
        reader: &mut Reader<'_>,
        depth: usize,
    ) -> Result<Option<Rows>, Stop> {
        read_states(alloc, reader, depth)
    }
}
