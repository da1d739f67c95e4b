//! The graph of a body.

ghost use Rattle.std.specs.Prelude.{IfOk};
ghost use Rattle.bodies.specs.Bodies.{IsOrderedGraph, code_in};
ghost use Rattle.bodies.specs.NodeEvents.{IsGraphOf};
ghost use Rattle.code.specs.CodeViews.{block_of};
ghost use Rattle.events.specs.ToldViews.{TellsFile};
ghost use Rattle.meaning.specs.BodyEvents.{sites_of};
ghost use Rattle.meaning.specs.StatementCode.{body_code};
ghost use Rattle.meaning.specs.Uses.{Seen};
ghost use Rattle.mentions.specs.MarkViews.{body_view};

use crate::body_sites::sites_of;
use crate::node::NodeEvent;
use body_code::body_code;
use events::Told;
use flow::{Graph, NodePlace, build, in_order};
use mentions::BodyPlace;
use std::alloc::{AllocError, Global};

/// The graph of a body, and its nodes in the order of the text.
#[derive(Drop)]
pub struct BodyGraph<'e, 'a> {
    pub graph: Graph<NodeEvent<'e, 'a>>,
    /// Each node of the graph once: by its offset and, of one offset, by its order there.
    pub order: Vec<NodePlace>,
}

/// The graph of a body of a file that was told of: that of the body's code, whose sites give the events that were told
/// of the body at the byte offset of its `func`.
fn body_graph<'e, 'a>(
    alloc: Global,
    told: &'e Told<'a>,
    body: BodyPlace<'a>,
) -> Result<Graph<NodeEvent<'e, 'a>>, AllocError>
    ensures { IfOk result (λ graph. (seen : Seen) → TellsFile seen told.now
        → IsGraphOf (body_code (sites_of seen body.entry.at) (block_of (body_view body.entry).statements
        (body_view body.entry).braces)) graph) }
{
    let sites = sites_of(alloc, told, body.at)?;
    let code = body_code(alloc, &sites, body.statements, body.braces)?;
    build(alloc, &code)
}

/// The graph of a body of a file that was told of, whether its paths are judged or not, and its nodes in the order of
/// the text.
///
/// # Errors
///
/// Memory was refused.
pub fn ordered_graph<'e, 'a>(
    alloc: Global,
    told: &'e Told<'a>,
    body: BodyPlace<'a>,
) -> Result<BodyGraph<'e, 'a>, AllocError>
    ensures { IfOk result (λ kept. (seen : Seen) → TellsFile seen told.now
        → IsOrderedGraph (code_in seen (body_view body.entry)) kept) }
{
    let graph = body_graph(alloc, told, body)?;
    let order = in_order(alloc, &graph)?;
    Ok(BodyGraph { graph, order })
}
