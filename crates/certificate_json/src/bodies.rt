//! Bodies, and lists of them.

use crate::certificates::Body;
use crate::masks::StateLists;
use crate::order::bodies_in_order;
use json::Reader;
use json_reading::{NoOthers, ReadItem, Stop, Under, read_list, read_made};
use std::alloc::Global;
use table_json::Positions;

/// The bodies of a list.
#[derive(Clone, Copy, Drop)]
struct Bodies;

impl ReadItem for Bodies {
    ghost use Rattle.json_reading.specs.Standing.{Refutes};
    ghost use Rattle.certificate_json.specs.Certificates.{body_of};
    ghost use Rattle.certificate_json.specs.CertificateValues.{IsBodyValue};

    type Item = Body;

    ghost is_item = { λ _ value body. IsBodyValue value (body_of body) };

    ghost is_none = { λ _. Refutes IsBodyValue };

    fn read_item(
        &self,
        alloc: Global,
        reader: &mut Reader<'_>,
        depth: usize,
    ) -> Result<Option<Body>, Stop> {
        let members = Under {
            key: "at",
            values: &Positions,
            found: None,
            others: Under {
                key: "file",
                values: &Positions,
                found: None,
                others: Under {
                    key: "states",
                    values: &StateLists,
                    found: None,
                    others: NoOthers { are_none: true },
                },
            },
        };
        match read_made(alloc, members, reader, depth)? {
            Some(found) => {
                let (at, (file, (states, _))) = found;
                Ok(Some(Body { file, at, states }))
            }
            None => Ok(None),
        }
    }
}

/// Lists of bodies, by file and offset.
#[derive(Clone, Copy, Drop)]
pub(crate) struct BodyLists;

impl ReadItem for BodyLists {
    ghost use Rattle.std.specs.Prelude.{map};
    ghost use Rattle.json_reading.specs.Standing.{Refutes};
    ghost use Rattle.certificate_json.specs.Certificates.{body_of};
    ghost use Rattle.certificate_json.specs.MembersRead.{AreBodiesIn};

    type Item = Vec<Body>;

    ghost is_item = { λ _ value bodies. AreBodiesIn value (map body_of bodies.items) };

    ghost is_none = { λ _. Refutes AreBodiesIn };

    fn read_item(
        &self,
        alloc: Global,
        reader: &mut Reader<'_>,
        depth: usize,
    ) -> Result<Option<Vec<Body>>, Stop> {
        match read_list(alloc, &Bodies, reader, depth)? {
            Some(given) => Ok(bodies_in_order(given)),
            None => Ok(None),
        }
    }
}
